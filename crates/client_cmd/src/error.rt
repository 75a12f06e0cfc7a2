ghost use Rattle.std.specs.Prelude.{◌≡◌};
ghost use Rattle.client_cmd.specs.declared.error.CmdErr.TheVariants.{Memory};
ghost use Rattle.client_cmd.specs.Errors.{from_parsing};

use bson_core::Name;
use crud_parse::CrudErr;
use std::alloc::{AllocError, AllocFailed};

/// Why a command isn't served.
#[derive(Drop)]
pub enum CmdErr {
    /// There is no such command, or it came in the older form of messages and is no hello.
    Unknown { name: Name },
    /// The client wants no answer: writes without one aren't served.
    Unacknowledged,
    /// A write is to be retried by its number, outside a transaction.
    RetryWrite,
    /// A cluster time is more than a year ahead of the wall: its seconds, and the wall.
    ClusterTimeAhead { secs: u32, wall: u32 },
    /// The command's fields aren't those that it has.
    Parse(CrudErr),
    /// There was no memory.
    Memory,
}

impl From<AllocError> for CmdErr {
    ghost from_gives = { λ _ e. e ≡ Memory };

    fn from(_e: AllocError) -> CmdErr {
        CmdErr::Memory
    }
}

impl<T: Drop> From<AllocFailed<T>> for CmdErr {
    ghost from_gives = { λ _ e. e ≡ Memory };

    fn from(_e: AllocFailed<T>) -> CmdErr {
        CmdErr::Memory
    }
}

impl From<CrudErr> for CmdErr {
    ghost from_gives = { λ error e. e ≡ from_parsing error };

    fn from(error: CrudErr) -> CmdErr {
        match error {
            CrudErr::Memory => CmdErr::Memory,
            CrudErr::UnknownOperator { .. }
            | CrudErr::DottedName { .. }
            | CrudErr::WrongKind { .. }
            | CrudErr::Missing { .. }
            | CrudErr::UnknownField { .. } => CmdErr::Parse(error),
        }
    }
}
