ghost use Rattle.std.specs.Prelude.{◌≡◌};
ghost use Rattle.bson_core.specs.declared.error.BsonErr.TheVariants.{Memory};

use std::alloc::{AllocError, AllocFailed};

/// Why bytes are no document, or why a document was not written. A place counts bytes, from 0, in
/// what was to be read.
#[derive(Clone, Copy, Debug, PartialEq, Eq)]
pub enum BsonErr {
    /// The bytes end before a document, a name or a value of a fixed size does.
    Short,
    /// The count there is too small, or runs past what holds it; or what it counts is a document
    /// that doesn't end with a 00, or has one before its end.
    Length { at: u64 },
    /// The byte there is the type of no value that a document holds.
    Kind { at: u64, byte: u8 },
    /// The name or the text that begins there is no UTF-8, or the text has no 00 at its end.
    Text { at: u64 },
    /// The byte there is neither 00 nor 01.
    Bool { at: u64 },
    /// A document or a list, whose count is there, lies deeper than 100 levels.
    Deep { at: u64 },
    /// The document's count is above the limit; or the document to be written has more than
    /// 2,147,483,647 bytes, so that its count has no spelling.
    TooLarge,
    /// There was no memory.
    Memory,
}

impl From<AllocError> for BsonErr {
    ghost from_gives = { λ _ e. e ≡ Memory };

    fn from(_e: AllocError) -> BsonErr {
        BsonErr::Memory
    }
}

impl<T: Drop> From<AllocFailed<T>> for BsonErr {
    ghost from_gives = { λ _ e. e ≡ Memory };

    fn from(_e: AllocFailed<T>) -> BsonErr {
        BsonErr::Memory
    }
}
