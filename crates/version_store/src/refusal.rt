ghost use Rattle.std.specs.Prelude.{◌≡◌};
ghost use Rattle.version_store.specs.declared.refusal.ScanErr.TheVariants.{Memory};

use crate::version::Held;
use std::alloc::{AllocError, AllocFailed};
use txn_types::{By, Id};

/// Why a write isn't put.
#[derive(Drop)]
pub enum PutErr {
    /// Another transaction's version stands there, or a commit above what this one reads at.
    Conflict { id: Id, by: By },
    /// There was no memory.
    Memory,
}

/// Why there are no rows.
#[derive(Drop)]
pub enum ScanErr {
    /// The document of the least id that is held.
    Held(Held),
    /// There was no memory.
    Memory,
}

impl From<AllocError> for ScanErr {
    ghost from_gives = { λ _ e. e ≡ Memory };

    fn from(_e: AllocError) -> ScanErr {
        ScanErr::Memory
    }
}

impl<T: Drop> From<AllocFailed<T>> for ScanErr {
    ghost from_gives = { λ _ e. e ≡ Memory };

    fn from(_e: AllocFailed<T>) -> ScanErr {
        ScanErr::Memory
    }
}
