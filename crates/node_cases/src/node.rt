//! A shard's node: what it is given, and what it gives out, messages and records as their bytes.
use crate::cases::Cases;
use crate::unread::{Unread, bytes_of, sides};
use bson_core::Bytes;
use journal_rec::{Rec, encode};
use machine::Machine;
use node_store::ShardNode;
use node_wire::{from_frame, to_frame};
use op_msg::{read_frame, write_frame};
use record_store::RecordLog;
use shard_core::Journalled;
use std::alloc::{AllocError, Global};
use txn_types::{Envelope, Happening, Id, NodeAnswer, NodeEvent, NodeId, Tag, Ts};

/// The message of these digits.
fn message(alloc: Global, digits: &str) -> Result<Envelope, Unread> {
    let bytes = bytes_of(alloc, digits)?;
    let Ok(frame) = read_frame(alloc, bytes.as_slice()) else {
        return Err(Unread::Word);
    };
    match from_frame(alloc, &frame) {
        Ok(envelope) => Ok(envelope),
        Err(_) => Err(Unread::Word),
    }
}

/// The message of `N DIGITS`, from router N.
fn message_from(alloc: Global, text: &str) -> Result<Envelope, Unread> {
    let (number, digits) = sides(text, " ")?;
    let mut envelope = message(alloc, digits)?;
    envelope.from = NodeId::Router(number.parse::<u16>()?);
    Ok(envelope)
}

fn happening(alloc: Global, text: &str) -> Result<Happening, Unread> {
    let (word, rest) = text.split_once(" ").unwrap_or((text, ""));
    match word {
        "resend" => Ok(Happening::Resend),
        "moment" => Ok(Happening::Moment),
        "client" => Ok(Happening::Client {
            conn: rest.parse::<u32>()?,
            frame: Bytes::new(Vec::new(alloc)),
        }),
        "gone" => Ok(Happening::Gone {
            conn: rest.parse::<u32>()?,
        }),
        "router" => Ok(Happening::Deliver(message_from(alloc, rest)?)),
        digits => Ok(Happening::Deliver(message(alloc, digits)?)),
    }
}

/// The event of `at WALL: EVENT`.
fn event_of(alloc: Global, line: &str) -> Result<NodeEvent, Unread> {
    let (front, what) = sides(line, ": ")?;
    let (_at, wall) = sides(front, " ")?;
    Ok(NodeEvent {
        wall: wall.parse::<u32>()?,
        what: happening(alloc, what)?,
    })
}

/// Finds the bytes of each record, behind a sign.
pub fn put_records(
    alloc: Global,
    sign: &str,
    records: &[Rec],
    found: &mut String,
) -> Result<(), AllocError> {
    for rec in records {
        let mut bytes = Vec::new(alloc);
        if encode(alloc, rec, &mut bytes).is_err() {
            return Err(AllocError);
        }
        let digits = hex::encode(alloc, bytes.as_slice())?;
        write!(found, "{sign}{digits}\n")?;
    }
    Ok(())
}

/// Finds the bytes of a message.
fn put_message(alloc: Global, envelope: &Envelope, found: &mut String) -> Result<(), AllocError> {
    let Ok(frame) = to_frame(alloc, envelope) else {
        return Err(AllocError);
    };
    let mut bytes = Vec::new(alloc);
    if write_frame(alloc, &frame, &mut bytes).is_err() {
        return Err(AllocError);
    }
    let digits = hex::encode(alloc, bytes.as_slice())?;
    write!(found, "{digits}\n")
}

/// Which document a statement waits for, by whom it is held, and since when.
fn put_held(found: &mut String, id: &Id, tag: Tag, at: Ts) -> Result<(), AllocError> {
    let Id::Num(id) = id else {
        return found.push_str("blocked by another id\n");
    };
    let (router, boot, serial) = (tag.router, tag.boot, tag.serial);
    let (seconds, count) = (at.0 >> 32, at.0 & 0xffff_ffff);
    write!(
        found,
        "blocked {id} by {router}.{boot}.{serial} since {seconds}.{count}\n"
    )
}

/// Finds what is given out.
fn put_answer(alloc: Global, answer: &NodeAnswer, found: &mut String) -> Result<(), AllocError> {
    match answer {
        NodeAnswer::Did {
            out,
            replies,
            closed,
        } => {
            if !replies.as_slice().is_empty() || closed.is_some() {
                found.push_str("replies\n")?;
            }
            if out.as_slice().is_empty() {
                found.push_str("nothing\n")?;
            }
            for envelope in out.as_slice() {
                put_message(alloc, envelope, found)?;
            }
            Ok(())
        }
        NodeAnswer::Blocked { id, tag, ts } => put_held(found, id, *tag, *ts),
        NodeAnswer::DiskFault => found.push_str("disk fault\n"),
        NodeAnswer::Stopped => found.push_str("stopped\n"),
        NodeAnswer::Memory => Err(AllocError),
    }
}

/// The node takes a copy of the event of a line. Whether its disk failed.
pub fn take<L: RecordLog>(
    alloc: Global,
    node: &mut ShardNode<L>,
    line: &str,
    found: &mut String,
) -> Result<bool, Unread> {
    let event = event_of(alloc, line)?;
    let event = ShardNode::<L>::copy_event(alloc, &event)?;
    let before = node.records().len();
    let answer = node.take(&event);
    let records = node.records().get(before..).unwrap_or(&[]);
    put_records(alloc, "+ ", records, found)?;
    put_answer(alloc, &answer, found)?;
    Ok(matches!(answer, NodeAnswer::DiskFault))
}

/// Does what a line says of a node: gives it something, or asks it.
fn step<L: RecordLog>(
    alloc: Global,
    node: &mut ShardNode<L>,
    line: &str,
    found: &mut String,
) -> Result<(), Unread> {
    match line {
        "records" => put_records(alloc, "", node.records(), found)?,
        "boot" => write!(found, "boot {}\n", node.shard().boot())?,
        "faults" => write!(found, "faults {}\n", node.faults())?,
        "resolved" => {
            let at = node.resolved();
            write!(found, "resolved {}.{}\n", at.0 >> 32, at.0 & 0xffff_ffff)?;
        }
        _ => {
            take(alloc, node, line, found)?;
        }
    }
    Ok(())
}

/// A node has started, and does what the next lines say, up to the first that isn't of a node.
pub fn live<L: RecordLog>(
    alloc: Global,
    node: &mut ShardNode<L>,
    cases: &mut Cases,
) -> Result<(), AllocError> {
    cases.hold("ok")?;
    for _ in 0..cases.len() {
        let line = cases.peek();
        if !line.starts_with("at ") && !matches!(line, "records" | "boot" | "faults" | "resolved") {
            return Ok(());
        }
        cases.pass();
        let mut found = String::new(alloc);
        let done = step(alloc, node, line, &mut found);
        cases.close(line, done, found.as_str())?;
    }
    Ok(())
}
