//! Faults of bytes in words.

use bson_core::BsonErr;
use op_msg::FrameErr;
use std::alloc::{AllocError, Global};

/// The fault of a document, with its place.
pub fn document_fault(alloc: Global, fault: BsonErr) -> Result<String, AllocError> {
    match fault {
        BsonErr::Short => String::from_str(alloc, "Short"),
        BsonErr::Length { at } => format!(in alloc; "Length at {at}"),
        BsonErr::Kind { at, byte } => format!(in alloc; "Kind at {at}, byte {byte}"),
        BsonErr::Text { at } => format!(in alloc; "Text at {at}"),
        BsonErr::Bool { at } => format!(in alloc; "Bool at {at}"),
        BsonErr::Deep { at } => format!(in alloc; "Deep at {at}"),
        BsonErr::TooLarge => String::from_str(alloc, "TooLarge"),
        BsonErr::Memory => Err(AllocError),
    }
}

/// The fault of a message.
pub fn message_fault(alloc: Global, fault: FrameErr) -> Result<String, AllocError> {
    match fault {
        FrameErr::Length => String::from_str(alloc, "Length"),
        FrameErr::OpCode => String::from_str(alloc, "OpCode"),
        FrameErr::Flags { bit } => format!(in alloc; "Flags {bit}"),
        FrameErr::Section => String::from_str(alloc, "Section"),
        FrameErr::NoBody => String::from_str(alloc, "NoBody"),
        FrameErr::TwoBodies => String::from_str(alloc, "TwoBodies"),
        FrameErr::Bson(fault) => {
            let inner = document_fault(alloc, fault)?;
            format!(in alloc; "Bson {}", inner.as_str())
        }
        FrameErr::TooLarge => String::from_str(alloc, "TooLarge"),
        FrameErr::Memory => Err(AllocError),
    }
}
