ghost use Rattle.std.specs.Prelude.{◌≡◌};
ghost use Rattle.op_msg.specs.declared.frame.FrameErr.TheVariants.{Memory};
ghost use Rattle.op_msg.specs.Errors.{from_document};

use bson_core::{BsonErr, Doc, Name};
use sqlite_items::Items;
use std::alloc::{AllocError, AllocFailed};

/// Document sequences: names, each with its documents (sections of kind 1).
pub type Seqs = Items<(Name, Items<Doc>)>;

/// A message, as the pages of the MongoDB wire protocol on OP_MSG, OP_QUERY and OP_REPLY have it.
#[derive(Debug, Drop)]
pub struct Frame {
    pub request_id: i32,
    /// The request that this answers, or 0.
    pub response_to: i32,
    /// Whether it came as OP_QUERY or goes as OP_REPLY, the forms of older clients.
    pub legacy: bool,
    /// The flag moreToCome: the sender wants no reply.
    pub more: bool,
    /// The section of kind 0, or the document of an older form.
    pub body: Doc,
    pub seqs: Seqs,
}

/// Why bytes are no message, or why a message was not written.
#[derive(Clone, Copy, Debug, PartialEq, Eq)]
pub enum FrameErr {
    /// There are fewer bytes than a header has, or the length in the header isn't that of the
    /// bytes.
    Length,
    /// The operation is none that is read.
    OpCode,
    /// That flag is set, the least of the flags 2 to 15 that is: they say what a reader must know,
    /// and none of them is known.
    Flags { bit: u8 },
    /// The flags, the checksum, a section's size or a number of an OP_QUERY don't fit into the
    /// message; or a section is of another kind than 0 and 1, or a name has no end or is no UTF-8;
    /// or bytes stand after an OP_QUERY's last document.
    Section,
    /// There is no section of kind 0.
    NoBody,
    /// There are two sections of kind 0.
    TwoBodies,
    /// A section's document is none. A place counts from the first byte of that document.
    Bson(BsonErr),
    /// The message has more than 400,000,000 bytes, or more than 48,000,000 and isn't one between
    /// nodes.
    TooLarge,
    /// There was no memory.
    Memory,
}

impl From<AllocError> for FrameErr {
    ghost from_gives = { λ _ e. e ≡ Memory };

    fn from(_e: AllocError) -> FrameErr {
        FrameErr::Memory
    }
}

impl<T: Drop> From<AllocFailed<T>> for FrameErr {
    ghost from_gives = { λ _ e. e ≡ Memory };

    fn from(_e: AllocFailed<T>) -> FrameErr {
        FrameErr::Memory
    }
}

impl From<BsonErr> for FrameErr {
    ghost from_gives = { λ error e. e ≡ from_document error };

    fn from(error: BsonErr) -> FrameErr {
        match error {
            BsonErr::Memory => FrameErr::Memory,
            BsonErr::Short
            | BsonErr::Length { .. }
            | BsonErr::Kind { .. }
            | BsonErr::Text { .. }
            | BsonErr::Bool { .. }
            | BsonErr::Deep { .. }
            | BsonErr::TooLarge => FrameErr::Bson(error),
        }
    }
}
