//! The disk of a file of cases, and the nodes that start from it.
use crate::cases::Cases;
use crate::node::live;
use crate::stops::stops;
use crate::unread::{Unread, bytes_of};
use journal_core::{Journal, MOST_PAYLOAD};
use node_store::ShardNode;
use outside_core::{FuseDisk, MemDisk};
use record_store::{DiskLog, ListLog, NodeErr};
use std::alloc::{AllocError, Global};

pub type DiskNode = ShardNode<DiskLog<FuseDisk>>;

/// The disk, and the events that are kept.
#[derive(Drop)]
pub struct Standing<'a> {
    disk: Option<MemDisk>,
    script: Vec<&'a str>,
    behind: Vec<&'a str>,
}

/// A disk with these bytes, and room for so many.
fn disk_of(alloc: Global, bytes: &[u8], room: &str) -> Result<MemDisk, Unread> {
    let room = room.parse::<usize>()?;
    if bytes.len() > room {
        return Err(Unread::Word);
    }
    match MemDisk::of(alloc, bytes, room) {
        Ok(disk) => Ok(disk),
        Err(_) => Err(Unread::Memory),
    }
}

/// The disk of `ROOM` or `ROOM BYTES`.
fn new_disk(alloc: Global, text: &str) -> Result<MemDisk, Unread> {
    let (room, digits) = text.split_once(" ").unwrap_or((text, ""));
    let bytes = bytes_of(alloc, digits)?;
    disk_of(alloc, bytes.as_slice(), room)
}

/// Why a node doesn't start.
fn refusal(alloc: Global, error: NodeErr) -> Result<String, AllocError> {
    match error {
        NodeErr::DiskFault => String::from_str(alloc, "disk fault"),
        NodeErr::BadJournal { index } => format!(in alloc; "bad journal {index}"),
        NodeErr::Memory => Err(AllocError),
    }
}

/// A node without a disk starts, without a record.
fn start_list(alloc: Global, shard: &str, cases: &mut Cases) -> Result<(), Unread> {
    let log = ListLog::of(Vec::new(alloc));
    match ShardNode::over(alloc, shard.parse::<u16>()?, log) {
        Ok(node) => {
            let mut node = node;
            Ok(live(alloc, &mut node, cases)?)
        }
        Err(_) => Err(Unread::Word),
    }
}

/// Appends a payload to the journal of a disk.
fn append(disk: MemDisk, payload: &[u8]) -> Result<MemDisk, Unread> {
    if payload.len() > MOST_PAYLOAD {
        return Err(Unread::Word);
    }
    let Ok(mut journal) = Journal::start(FuseDisk::over(disk, u64::MAX)) else {
        return Err(Unread::Word);
    };
    match journal.append(payload) {
        Ok(()) => Ok(journal.into_disk().inner()),
        Err(_) => Err(Unread::Word),
    }
}

impl<'a> Standing<'a> {
    pub fn new(alloc: Global) -> Standing<'a> {
        Standing {
            disk: None,
            script: Vec::new(alloc),
            behind: Vec::new(alloc),
        }
    }

    /// Takes the disk.
    fn disk(&mut self) -> Result<MemDisk, Unread> {
        self.disk.take().ok_or(Unread::Word)
    }

    /// A node starts from the disk.
    fn start(&mut self, alloc: Global, shard: &str, cases: &mut Cases) -> Result<(), Unread> {
        let shard = shard.parse::<u16>()?;
        let disk = FuseDisk::over(self.disk()?, u64::MAX);
        match DiskNode::start(alloc, shard, disk) {
            Ok(node) => {
                let mut node = node;
                live(alloc, &mut node, cases)?;
                self.disk = Some(node.into_disk().inner());
            }
            Err((error, disk)) => {
                cases.hold(refusal(alloc, error)?.as_str())?;
                self.disk = Some(disk.inner());
            }
        }
        Ok(())
    }

    /// Does what a line says of the disk.
    fn change(&mut self, alloc: Global, word: &str, rest: &str) -> Result<(), Unread> {
        let disk = match word {
            "disk" => new_disk(alloc, rest)?,
            "room" => disk_of(alloc, self.disk()?.bytes(), rest)?,
            "payload" => append(self.disk()?, bytes_of(alloc, rest)?.as_slice())?,
            _ => return Err(Unread::Word),
        };
        self.disk = Some(disk);
        Ok(())
    }

    /// Finds the bytes of the disk.
    fn file(&self, alloc: Global, found: &mut String) -> Result<(), Unread> {
        let Some(disk) = &self.disk else {
            return Err(Unread::Word);
        };
        let digits = hex::encode(alloc, disk.bytes())?;
        Ok(write!(found, "{digits}\n")?)
    }

    /// Does what a line says.
    fn step(
        &mut self,
        alloc: Global,
        line: &'a str,
        cases: &mut Cases,
        found: &mut String,
    ) -> Result<(), Unread> {
        let (word, rest) = line.split_once(" ").unwrap_or((line, ""));
        match word {
            "start" => self.start(alloc, rest, cases),
            "list" => start_list(alloc, rest, cases),
            "file" => self.file(alloc, found),
            "|" => Ok(self.script.push(rest)?),
            ">" => Ok(self.behind.push(rest)?),
            "stops" => {
                let (script, behind) = (self.script.as_slice(), self.behind.as_slice());
                stops(alloc, rest.parse::<u16>()?, (script, behind), found)?;
                self.script.clear();
                self.behind.clear();
                Ok(())
            }
            _ => self.change(alloc, word, rest),
        }
    }

    /// Does what the lines say.
    pub fn run(&mut self, alloc: Global, cases: &mut Cases<'a>) -> Result<(), AllocError> {
        for _ in 0..cases.len() {
            let line = cases.peek();
            if line.is_empty() {
                return Ok(());
            }
            cases.pass();
            let mut found = String::new(alloc);
            let done = self.step(alloc, line, cases, &mut found);
            cases.close(line, done, found.as_str())?;
        }
        Ok(())
    }
}
