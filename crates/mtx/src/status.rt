ghost use Rattle.std.specs.Prelude.{◌≡◌, Some};
ghost use Rattle.mtx.specs.Statuses.{exit_status, status_of, words_of};

use cluster_play::Status as Ending;
use std::fmt;

/// How a command ended.
#[derive(Clone, Copy, Debug, PartialEq, Eq)]
pub enum Status {
    /// The input was read to its end, and all was written.
    Ok,
    /// The words are no command; the index, from 0, is the first that can't continue, or their
    /// count.
    BadWords { index: u64 },
    /// The line, from 1, is the first outside the form.
    BadLine { line: u64 },
    /// The source failed.
    ReadFault,
    /// The sink failed.
    WriteFault,
    /// There was no memory.
    Memory,
    /// A disk failed while its node started; the place is the disk's among those handed in.
    DiskFault { disk: u16 },
    /// A disk's bytes or records were refused at a start: the record's number, the first being 0.
    BadJournal { disk: u16, index: u64 },
    /// The schedule has more than 10,000,000 lines, or one settling would deliver more than
    /// 1,000,000 messages.
    Budget,
    /// The configuration in front of the schedule is none.
    BadConf,
}

impl From<Ending> for Status {
    ghost from_gives = { λ e s. s ≡ status_of e };

    fn from(ending: Ending) -> Status {
        match ending {
            Ending::Ok => Status::Ok,
            Ending::BadLine { line } => Status::BadLine { line },
            Ending::ReadFault => Status::ReadFault,
            Ending::WriteFault => Status::WriteFault,
            Ending::Memory => Status::Memory,
            Ending::DiskFault { disk } => Status::DiskFault { disk },
            Ending::BadJournal { disk, index } => Status::BadJournal { disk, index },
            Ending::Budget => Status::Budget,
            Ending::BadConf => Status::BadConf,
        }
    }
}

impl Status {
    /// The exit status of the process.
    pub fn number(self) -> u8
        ensures { result ≡ exit_status self }
    {
        match self {
            Status::Ok => 0,
            Status::BadWords { .. } => 2,
            Status::BadLine { .. } => 3,
            Status::ReadFault => 4,
            Status::WriteFault => 5,
            Status::Memory => 6,
            Status::DiskFault { .. } => 7,
            Status::BadJournal { .. } => 8,
            Status::Budget => 9,
            Status::BadConf => 11,
        }
    }
}

impl fmt::Display for Status {
    ghost output = { λ s. Some (words_of s) };

    fn fmt<W: fmt::Write>(&self, f: &mut fmt::Formatter<W>) -> fmt::Result {
        match self {
            Status::Ok => write!(f, "ok"),
            Status::BadWords { index } => write!(f, "bad words at {index}"),
            Status::BadLine { line } => write!(f, "bad line {line}"),
            Status::ReadFault => write!(f, "read fault"),
            Status::WriteFault => write!(f, "write fault"),
            Status::Memory => write!(f, "want of memory"),
            Status::DiskFault { disk } => write!(f, "disk fault {disk}"),
            Status::BadJournal { disk, .. } => write!(f, "bad journal {disk}"),
            Status::Budget => write!(f, "budget"),
            Status::BadConf => write!(f, "bad configuration"),
        }
    }
}
