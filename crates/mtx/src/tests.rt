use crate::offline::offline;
use crate::put_disks;
use crate::status::Status;
use outside_core::{MemSink, MemSource, Sink, Source};
use std::alloc::{AllocError, Global};
use std::test::Fail;

/// An insert of `{_id: 1, a: 5}` into the collection `c` of the database `d`, on connection 1.
const INSERT: &str = "client 1 5b0000000700000000000000dd0700000000000000\
4600000002696e736572740002000000630004646f63756d656e7473001d00000003300015000000105f69640001000000106100\
050000000000022464620002000000640000\n";

/// Its reply.
const REPLY: &str = "reply 1 a60000000000000007000000dd0700000000000000\
91000000106e0001000000106f6b0001000000116f7065726174696f6e54696d65000100000001000000\
0324636c757374657254696d65005800000011636c757374657254696d65000100000001000000\
037369676e6174757265003300000005686173680014000000000000000000000000000000000000000000000000\
126b65794964000000000000000000000000\n";

/// What a call of `offline` did.
#[derive(Drop)]
struct Ran {
    status: Status,
    text: Vec<u8>,
    read_faults: u64,
    write_faults: u64,
}

/// Plays an input, where some calls of the source and of the sink fail.
fn play(
    alloc: Global,
    words: &[String],
    input: &str,
    read_fails: Vec<u64>,
    write_fails: Vec<u64>,
) -> Result<Ran, AllocError> {
    let mut source = MemSource::of(Vec::from_slice(alloc, input.as_bytes())?, read_fails);
    let mut sink = MemSink::new(alloc, write_fails);
    let mut disks = Vec::new(alloc);
    put_disks(alloc, &mut disks, 24, 4096)?;
    let status = offline(alloc, words, &mut source, &mut sink, &mut disks);
    Ok(Ran {
        status,
        text: Vec::from_slice(alloc, sink.bytes())?,
        read_faults: source.faults(),
        write_faults: sink.faults(),
    })
}

fn words_of(alloc: Global, text: &str) -> Result<Vec<String>, AllocError> {
    let mut words = Vec::new(alloc);
    for word in text.split_whitespace() {
        words.push(String::from_str(alloc, word)?)?;
    }
    Ok(words)
}

#[test]
fn words_and_lines_that_are_refused(rt: HostRuntime) -> Result<(), Fail> {
    let alloc = rt.alloc();
    let second_bad = format!(in alloc; "{INSERT}client 1 5\n{INSERT}")?;
    let carriage = INSERT.replace(alloc, "\n", "\r\n")?;
    for (words, input, status, text) in [
        ("play", "", Status::Ok, "dump 0\n"),
        ("play", "deliver 0\n", Status::BadLine { line: 1 }, ""),
        ("play", "\n", Status::BadLine { line: 1 }, ""),
        ("play", "+++\n", Status::BadLine { line: 1 }, ""),
        ("play", "+++\nshards = 17\n+++\n", Status::BadConf, ""),
        (
            "play",
            "log\nrestart shard 0\ndump\n",
            Status::Ok,
            "boot s0 2\ndump 0\ndump 0\n",
        ),
        ("play", "client 01 00", Status::BadLine { line: 1 }, ""),
        (
            "play",
            "client 4294967296 00",
            Status::BadLine { line: 1 },
            "",
        ),
        ("play", "client 1  00", Status::BadLine { line: 1 }, ""),
        ("play", "client 1 ", Status::BadLine { line: 1 }, ""),
        ("play", carriage.as_str(), Status::BadLine { line: 1 }, ""),
        (
            "play",
            second_bad.as_str(),
            Status::BadLine { line: 2 },
            REPLY,
        ),
        ("", INSERT, Status::BadWords { index: 0 }, ""),
        ("load", INSERT, Status::BadWords { index: 0 }, ""),
        ("play now", INSERT, Status::BadWords { index: 1 }, ""),
    ] {
        let words = words_of(alloc, words)?;
        let ran = play(alloc, &words, input, Vec::new(alloc), Vec::new(alloc))?;
        assert_eq!(rt; ran.status, status, "at {input}");
        assert_eq!(rt; ran.text.as_slice(), text.as_bytes(), "at {input}");
    }
    Ok(())
}

#[test]
fn a_source_and_a_sink_that_fail(rt: HostRuntime) -> Result<(), Fail> {
    let alloc = rt.alloc();
    let words = words_of(alloc, "play")?;
    // the second read fails, after the bytes and before the end
    let ran = play(alloc, &words, INSERT, vec![in alloc; 1]?, Vec::new(alloc))?;
    assert_eq!(rt; ran.status, Status::ReadFault);
    assert!(rt; ran.text.is_empty() && ran.read_faults == 1 && ran.write_faults == 0);
    // the second write fails, which is the dump's
    let ran = play(alloc, &words, INSERT, Vec::new(alloc), vec![in alloc; 1]?)?;
    assert_eq!(rt; ran.status, Status::WriteFault);
    assert!(rt; ran.text.as_slice() == REPLY.as_bytes());
    assert!(rt; ran.read_faults == 0 && ran.write_faults == 1);
    Ok(())
}
