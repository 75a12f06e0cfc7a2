ghost use Rattle.std.specs.Prelude.{◌≡◌};
ghost use Rattle.cluster_world.specs.declared.error.WorldErr.TheVariants.{Memory};

use std::alloc::{AllocError, AllocFailed};

/// Why nothing, or nothing that is told, happened.
#[derive(Clone, Copy)]
pub enum WorldErr {
    /// There was no memory.
    Memory,
}

impl From<AllocError> for WorldErr {
    ghost from_gives = { λ _ e. e ≡ Memory };

    fn from(_e: AllocError) -> WorldErr {
        WorldErr::Memory
    }
}

/// Why a node wasn't replaced.
#[derive(Drop)]
pub enum SwapErr<E> {
    /// There was no memory.
    Memory,
    /// No new node was made, for this reason.
    Next(E),
}
