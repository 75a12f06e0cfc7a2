//! How it is told to whoever started the process how the playing ended.
ghost use Rattle.std.specs.Prelude.{◌≡◌, IfOk, string_bytes};
ghost use Rattle.mtx_durable.specs.Statuses.{exit_status, words_of};

use cluster_play::Status;
use std::alloc::{AllocError, Global};

/// The exit status of the process.
pub fn number_of(status: Status) -> u8
    ensures { result ≡ exit_status status }
{
    match status {
        Status::Ok => 0,
        Status::BadLine { .. } => 3,
        Status::ReadFault => 4,
        Status::WriteFault => 5,
        Status::Memory => 6,
        Status::DiskFault { .. } => 7,
        Status::BadJournal { .. } => 8,
        Status::Budget => 9,
        Status::BadConf => 11,
    }
}

/// The words on standard error.
pub fn words_of(alloc: Global, status: Status) -> Result<String, AllocError>
    ensures { IfOk result (λ words. string_bytes words ≡ words_of status) }
{
    match status {
        Status::Ok => String::from_str(alloc, "ok"),
        Status::BadLine { line } => format!(in alloc; "bad line {line}"),
        Status::ReadFault => String::from_str(alloc, "read fault"),
        Status::WriteFault => String::from_str(alloc, "write fault"),
        Status::Memory => String::from_str(alloc, "want of memory"),
        Status::DiskFault { disk } => format!(in alloc; "disk fault {disk}"),
        Status::BadJournal { disk, .. } => format!(in alloc; "bad journal {disk}"),
        Status::Budget => String::from_str(alloc, "budget"),
        Status::BadConf => String::from_str(alloc, "bad configuration"),
    }
}
