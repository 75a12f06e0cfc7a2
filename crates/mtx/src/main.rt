//! `mtx play` reads a schedule from standard input: clients' messages, and what happens between the
//! nodes of a cluster. It writes the replies and the list of commits to standard output.
#![tactic(auto)]

ghost use Rattle.std.specs.Prelude.{◌≡◌, ◌≤◌, vec_len, IfOk, OnOk};

pub mod laws;
mod offline;
mod status;
mod stdio;
#[cfg(test)]
mod tests;

use offline::offline;
use outside_core::{MemDisk, Sink, Source};
use status::Status;
use std::alloc::{AllocError, Global};
use std::env::{Env, FillError};
use std::process::ExitCode;
use stdio::{ReaderSource, WriterSink};

/// How the program is called, as it says on standard error where its words are none of these.
const USAGE: &str = "usage: mtx play < SCHEDULE";

/// How many bytes the disk in memory of a shard holds, and of a router.
const SHARD_BYTES: usize = 16_777_216;

const ROUTER_BYTES: usize = 65_536;

/// How many bytes a word may have; none of a command is so long.
const LONGEST: usize = 256;

/// The text of the bytes, or an empty one where they aren't UTF-8.
fn text_of(alloc: Global, bytes: &[u8]) -> Result<String, AllocError> {
    match std::str::from_utf8(bytes) {
        Ok(text) => String::from_str(alloc, text),
        Err(_) => Ok(String::new(alloc)),
    }
}

/// The word at that place. One that is too long or isn't UTF-8 is given as the empty word, which is
/// no command's either.
fn word_at<E: Env>(alloc: Global, env: &E, place: usize) -> Result<Option<String>, AllocError> {
    let mut room = [0u8; LONGEST];
    match env.arg(place, &mut room) {
        Ok(length) => {
            let word = text_of(alloc, &room[..length])?;
            Ok(Some(word))
        }
        Err(FillError::TooLong) => Ok(Some(String::new(alloc))),
        Err(FillError::NotPresent) => Ok(None),
    }
}

/// The words of the command line after the program's name.
fn words_of<E: Env>(alloc: Global, env: &E) -> Result<Vec<String>, AllocError> {
    let mut words = Vec::new(alloc);
    for place in 1..usize::MAX {
        match word_at(alloc, env, place)? {
            Some(word) => words.push(word)?,
            None => break,
        }
    }
    Ok(words)
}

/// Puts empty disks after others, until there are so many.
fn put_disks(
    alloc: Global,
    disks: &mut Vec<MemDisk>,
    count: usize,
    capacity: usize,
) -> Result<(), AllocError>
    requires { vec_len disks.old ≤ count }
    ensures { OnOk result (vec_len disks.new ≡ count) }
{
    while disks.len() < count {
        let Ok(disk) = MemDisk::new(alloc, capacity) else {
            return Err(AllocError);
        };
        disks.push(disk)?;
    }
    Ok(())
}

/// The disks in memory of 16 shards and 8 routers.
fn disks_of(alloc: Global) -> Result<Vec<MemDisk>, AllocError>
    ensures { IfOk result (λ disks. vec_len disks ≡ 24) }
{
    let mut disks = Vec::new(alloc);
    put_disks(alloc, &mut disks, 16, SHARD_BYTES)?;
    put_disks(alloc, &mut disks, 24, ROUTER_BYTES)?;
    Ok(disks)
}

/// Does what the words of the command line say, over disks in memory.
fn run<E: Env, S: Source, K: Sink>(
    alloc: Global,
    env: &E,
    source: &mut S,
    sink: &mut K,
) -> Result<Status, AllocError> {
    let words = words_of(alloc, env)?;
    let mut disks = disks_of(alloc)?;
    Ok(offline(alloc, &words, source, sink, &mut disks))
}

fn main(rt: HostRuntime) -> ExitCode {
    let alloc = rt.alloc();
    let mut source = ReaderSource::new(rt.stdin());
    let mut sink = WriterSink::new(rt.stdout());
    let status = match run(alloc, &rt, &mut source, &mut sink) {
        Ok(status) => status,
        Err(AllocError) => Status::Memory,
    };
    // Where standard error can't be written, the exit status tells the same.
    if status != Status::Ok {
        let _ = eprintln!(rt; "mtx: {status}");
    }
    if matches!(&status, Status::BadWords { .. }) {
        let _ = eprintln!(rt; "{USAGE}");
    }
    ExitCode::from(status.number())
}
