ghost use Rattle.std.specs.Prelude.{◌≡◌};
ghost use Rattle.coordinator.specs.declared.plan.CoordErr.TheVariants.{Memory};

use std::alloc::{AllocError, AllocFailed};
use txn_types::{Lsid, Parts};

/// What is coordinated: the transaction's session and number, and its participants.
#[derive(Drop)]
pub struct Plan {
    pub lsid: Lsid,
    pub number: i64,
    pub parts: Parts,
}

/// Why a coordinator does nothing.
#[derive(Clone, Copy, PartialEq, Eq)]
pub enum CoordErr {
    /// It doesn't coordinate this transaction.
    Unknown,
    /// There was no memory.
    Memory,
}

impl From<AllocError> for CoordErr {
    ghost from_gives = { λ _ e. e ≡ Memory };

    fn from(_e: AllocError) -> CoordErr {
        CoordErr::Memory
    }
}

impl<T: Drop> From<AllocFailed<T>> for CoordErr {
    ghost from_gives = { λ _ e. e ≡ Memory };

    fn from(_e: AllocFailed<T>) -> CoordErr {
        CoordErr::Memory
    }
}
