//! A node on a new disk that stops after some calls, and is started again.
use crate::node::{put_records, take};
use crate::standing::DiskNode;
use crate::unread::Unread;
use outside_core::{FuseDisk, MemDisk};
use record_store::NodeErr;
use shard_core::Journalled;
use std::alloc::Global;

/// The bytes that a disk has room for.
const ROOM: usize = 16_384;

/// The most calls after which a disk stops.
const MOST_CALLS: u64 = 2_000;

/// What a node came to: how many records it found at its start and how many it had in the end, each
/// with their bytes, and the event at which its disk stopped, from 1 on; 0 is its start, and none
/// where it didn't stop.
#[derive(Drop)]
struct Ended {
    left: usize,
    found: String,
    known: usize,
    records: String,
    stop: Option<usize>,
}

impl Ended {
    /// A node that didn't start.
    fn at_start(alloc: Global) -> Ended {
        Ended {
            left: 0,
            found: String::new(alloc),
            known: 0,
            records: String::new(alloc),
            stop: Some(0),
        }
    }
}

/// Gives a node the events up to the one at which its disk stops.
fn give(
    alloc: Global,
    node: &mut DiskNode,
    events: &[&str],
    answers: &mut String,
) -> Result<Option<usize>, Unread> {
    let mut place = 0usize;
    for event in events {
        place = place.saturating_add(1);
        if take(alloc, node, event, answers)? {
            return Ok(Some(place));
        }
    }
    Ok(None)
}

/// A node that has started is given the events.
fn end(
    alloc: Global,
    node: &mut DiskNode,
    events: &[&str],
    answers: &mut String,
) -> Result<Ended, Unread> {
    let (mut found, mut records) = (String::new(alloc), String::new(alloc));
    let left = node.records().len().saturating_sub(1);
    put_records(
        alloc,
        "",
        node.records().get(..left).unwrap_or(&[]),
        &mut found,
    )?;
    let stop = give(alloc, node, events, answers)?;
    put_records(alloc, "", node.records(), &mut records)?;
    Ok(Ended {
        left,
        found,
        known: node.records().len(),
        records,
        stop,
    })
}

/// A node starts on the disk and is given the events; what it answers is told. The disk comes back.
fn run(
    alloc: Global,
    shard: u16,
    disk: FuseDisk,
    events: &[&str],
    answers: &mut String,
) -> Result<(Ended, MemDisk), Unread> {
    match DiskNode::start(alloc, shard, disk) {
        Ok(node) => {
            let mut node = node;
            let ended = end(alloc, &mut node, events, answers)?;
            Ok((ended, node.into_disk().inner()))
        }
        Err((NodeErr::DiskFault, disk)) => Ok((Ended::at_start(alloc), disk.inner())),
        Err(_) => Err(Unread::Word),
    }
}

/// A new disk that stops after so many calls.
fn new_disk(alloc: Global, calls: u64) -> Result<FuseDisk, Unread> {
    match MemDisk::new(alloc, ROOM) {
        Ok(disk) => Ok(FuseDisk::over(disk, calls)),
        Err(_) => Err(Unread::Memory),
    }
}

/// What is found when a disk stops after so many calls; nothing where it doesn't stop.
fn stop(
    alloc: Global,
    shard: u16,
    events: (&[&str], &[&str]),
    whole: &str,
    calls: u64,
) -> Result<String, Unread> {
    let (script, behind) = events;
    let (mut answers, mut lines) = (String::new(alloc), String::new(alloc));
    let (ended, disk) = run(alloc, shard, new_disk(alloc, calls)?, script, &mut answers)?;
    let Some(place) = ended.stop else {
        return Ok(lines);
    };
    answers.clear();
    let disk = FuseDisk::over(disk, u64::MAX);
    let (again, _disk) = run(alloc, shard, disk, behind, &mut answers)?;
    if whole.starts_with(ended.records.as_str()) && whole.starts_with(again.found.as_str()) {
        let (known, left) = (ended.known, again.left);
        write!(lines, "event {place}: {known} records, {left} found\n")?;
    } else {
        write!(lines, "event {place}: other records\n")?;
    }
    lines.push_str(answers.as_str())?;
    Ok(lines)
}

/// Gives the events to a node on a new disk, and on disks that stop after 0, 1, 2 .. calls, each of
/// which is started again and given the events behind.
pub fn stops(
    alloc: Global,
    shard: u16,
    events: (&[&str], &[&str]),
    found: &mut String,
) -> Result<(), Unread> {
    let disk = new_disk(alloc, u64::MAX)?;
    let (whole, _disk) = run(alloc, shard, disk, events.0, &mut String::new(alloc))?;
    let whole = whole.records.as_str();
    found.push_str(whole)?;
    let mut last = String::new(alloc);
    for calls in 0..MOST_CALLS {
        let lines = stop(alloc, shard, events, whole, calls)?;
        if lines.is_empty() {
            return Ok(());
        }
        if lines.as_str() != last.as_str() {
            found.push_str(lines.as_str())?;
        }
        last = lines;
    }
    Err(Unread::Word)
}
