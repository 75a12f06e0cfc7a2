ghost use Rattle.std.specs.Prelude.{◌≡◌};
ghost use Rattle.journal_rec.specs.declared.error.RecErr.TheVariants.{Memory};

use std::alloc::{AllocError, AllocFailed};

/// Why bytes are no record. A place counts bytes, from 0, in the record's bytes.
#[derive(Clone, Copy)]
pub enum RecErr {
    /// The first byte is the kind of no record.
    Kind { byte: u8 },
    /// The bytes end before a field does.
    Short,
    /// After the record, from there on, bytes are left.
    Extra { at: u64 },
    /// The byte there is none that the field may have; or a write begins there whose namespace is
    /// none, or a document that a write can't have: without an `_id` that is an id, or of a deleted
    /// document and more than its id, with a number as an int64.
    Field { at: u64 },
    /// What begins there is no document in BSON.
    Bson { at: u64 },
    /// The write that begins there isn't above the one before it, by namespace and id.
    Order { at: u64 },
    /// There was no memory.
    Memory,
}

impl From<AllocError> for RecErr {
    ghost from_gives = { λ _ e. e ≡ Memory };

    fn from(_e: AllocError) -> RecErr {
        RecErr::Memory
    }
}

impl<T: Drop> From<AllocFailed<T>> for RecErr {
    ghost from_gives = { λ _ e. e ≡ Memory };

    fn from(_e: AllocFailed<T>) -> RecErr {
        RecErr::Memory
    }
}
