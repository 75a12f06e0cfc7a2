use crate::again::{append_and_restart, restart};
use journal_core::{Journal, JournalErr, MOST_PAYLOAD};
use outside_core::{FuseDisk, MemDisk};
use std::alloc::{AllocError, Global};
use std::mem;

/// A disk, or the journal on it.
#[derive(Drop)]
enum Held {
    Nothing,
    Disk(FuseDisk),
    Journal(Journal<FuseDisk>),
}

/// What the lines of a file of cases have made so far.
#[derive(Drop)]
pub struct Standing {
    room: usize,
    calls: u64,
    held: Held,
}

/// What is answered where the question doesn't fit what stands.
const NO_DISK: &str = "no disk";

const NO_JOURNAL: &str = "no journal";

const NO_DIGITS: &str = "no digits";

const TOO_LONG: &str = "too long";

/// A refusal in words.
fn words_of(alloc: Global, error: JournalErr) -> Result<String, AllocError> {
    match error {
        JournalErr::DiskFault => String::from_str(alloc, "disk fault"),
        JournalErr::BadBytes { at } => format!(in alloc; "byte {at}"),
        JournalErr::Closed => String::from_str(alloc, "closed"),
        JournalErr::Memory => Err(AllocError),
    }
}

/// Payloads in hexadecimal digits, with a space between two, and `.` for one without bytes; or
/// `none`.
fn spelled(alloc: Global, payloads: &[Vec<u8>]) -> Result<String, AllocError> {
    if payloads.is_empty() {
        return String::from_str(alloc, "none");
    }
    let mut out = String::new(alloc);
    for payload in payloads {
        if !out.is_empty() {
            out.push_str(" ")?;
        }
        if payload.is_empty() {
            out.push_str(".")?;
        } else {
            let digits = hex::encode(alloc, payload.as_slice())?;
            out.push_str(digits.as_str())?;
        }
    }
    Ok(out)
}

impl Standing {
    pub fn new() -> Standing {
        Standing {
            room: 256,
            calls: u64::MAX,
            held: Held::Nothing,
        }
    }

    pub fn set_room(&mut self, number: &str) -> bool {
        match number.parse::<usize>() {
            Ok(room) => {
                self.room = room;
                true
            }
            Err(_) => false,
        }
    }

    pub fn set_calls(&mut self, number: &str) -> bool {
        match number.parse::<u64>() {
            Ok(calls) => {
                self.calls = calls;
                true
            }
            Err(_) => false,
        }
    }

    /// Makes a disk with these bytes, where they are bytes and fit.
    pub fn put_disk(&mut self, alloc: Global, digits: &str) -> Result<bool, AllocError> {
        let Ok(bytes) = hex::decode(alloc, digits) else {
            return Ok(false);
        };
        if bytes.len() > self.room {
            return Ok(false);
        }
        let Ok(disk) = MemDisk::of(alloc, bytes.as_slice(), self.room) else {
            return Err(AllocError);
        };
        self.held = Held::Disk(FuseDisk::over(disk, self.calls));
        self.calls = u64::MAX;
        Ok(true)
    }

    pub fn start(&mut self, alloc: Global) -> Result<String, AllocError> {
        let started = match mem::replace(&mut self.held, Held::Nothing) {
            Held::Nothing => return String::from_str(alloc, NO_DISK),
            Held::Disk(disk) => Journal::start(disk),
            Held::Journal(journal) => restart(journal),
        };
        self.keep(alloc, started)
    }

    /// Keeps the journal that was started, or the disk that was given back.
    fn keep(
        &mut self,
        alloc: Global,
        started: Result<Journal<FuseDisk>, (JournalErr, FuseDisk)>,
    ) -> Result<String, AllocError> {
        match started {
            Ok(journal) => {
                self.held = Held::Journal(journal);
                String::from_str(alloc, "ok")
            }
            Err((error, disk)) => {
                self.held = Held::Disk(disk);
                words_of(alloc, error)
            }
        }
    }

    /// Appends, and starts again, whatever became of that.
    pub fn append_and_start(&mut self, alloc: Global, digits: &str) -> Result<String, AllocError> {
        let Ok(payload) = hex::decode(alloc, digits) else {
            return String::from_str(alloc, NO_DIGITS);
        };
        if payload.len() > MOST_PAYLOAD {
            return String::from_str(alloc, TOO_LONG);
        }
        match mem::replace(&mut self.held, Held::Nothing) {
            Held::Journal(journal) => {
                let started = append_and_restart(journal, payload.as_slice());
                self.keep(alloc, started)
            }
            held => {
                self.held = held;
                String::from_str(alloc, NO_JOURNAL)
            }
        }
    }

    pub fn append(&mut self, alloc: Global, digits: &str) -> Result<String, AllocError> {
        let Held::Journal(journal) = &mut self.held else {
            return String::from_str(alloc, NO_JOURNAL);
        };
        let Ok(payload) = hex::decode(alloc, digits) else {
            return String::from_str(alloc, NO_DIGITS);
        };
        if payload.len() > MOST_PAYLOAD {
            return String::from_str(alloc, TOO_LONG);
        }
        match journal.append(payload.as_slice()) {
            Ok(()) => String::from_str(alloc, "ok"),
            Err(error) => words_of(alloc, error),
        }
    }

    pub fn count(&self, alloc: Global) -> Result<String, AllocError> {
        match &self.held {
            Held::Journal(journal) => format!(in alloc; "{}", journal.count()),
            _ => String::from_str(alloc, NO_JOURNAL),
        }
    }

    pub fn end(&self, alloc: Global) -> Result<String, AllocError> {
        match &self.held {
            Held::Journal(journal) => format!(in alloc; "{}", journal.end()),
            _ => String::from_str(alloc, NO_JOURNAL),
        }
    }

    pub fn payloads(&mut self, alloc: Global) -> Result<String, AllocError> {
        let Held::Journal(journal) = &mut self.held else {
            return String::from_str(alloc, NO_JOURNAL);
        };
        match journal.payloads(alloc) {
            Ok(payloads) => spelled(alloc, payloads.as_slice()),
            Err(error) => words_of(alloc, error),
        }
    }

    /// The bytes of the disk, or `none`. It stops no more, and its journal is put away.
    pub fn file(&mut self, alloc: Global) -> Result<String, AllocError> {
        let disk = match mem::replace(&mut self.held, Held::Nothing) {
            Held::Nothing => return String::from_str(alloc, NO_DISK),
            Held::Disk(disk) => disk.inner(),
            Held::Journal(journal) => journal.into_disk().inner(),
        };
        let digits = if disk.bytes().is_empty() {
            String::from_str(alloc, "none")?
        } else {
            hex::encode(alloc, disk.bytes())?
        };
        self.held = Held::Disk(FuseDisk::over(disk, u64::MAX));
        Ok(digits)
    }
}
