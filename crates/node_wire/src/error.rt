ghost use Rattle.std.specs.Prelude.{◌≡◌};
ghost use Rattle.node_wire.specs.declared.error.WireErr.TheVariants.{Memory};

use std::alloc::{AllocError, AllocFailed};

/// Why a frame isn't read as node messages, or isn't made of them.
#[derive(Clone, Copy)]
pub enum WireErr {
    /// The frame isn't one of this kind between nodes.
    NotInternal,
    /// The field that begins at this place of the bytes `b` can't be read.
    Field { at: u64 },
    /// There was no memory.
    Memory,
    /// The message would have more than 400,000,000 bytes.
    TooLarge,
}

impl From<AllocError> for WireErr {
    ghost from_gives = { λ _ e. e ≡ Memory };

    fn from(_e: AllocError) -> WireErr {
        WireErr::Memory
    }
}

impl<T: Drop> From<AllocFailed<T>> for WireErr {
    ghost from_gives = { λ _ e. e ≡ Memory };

    fn from(_e: AllocFailed<T>) -> WireErr {
        WireErr::Memory
    }
}
