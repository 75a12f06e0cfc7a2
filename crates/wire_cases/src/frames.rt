//! Frames that are read as messages between nodes, and written again.
use bson_core::{Bin, Bytes, Name, Text, Value};
use node_wire::{WireErr, batch_from_frame, batch_to_frame, from_frame, to_frame};
use op_msg::{Frame, read_frame, write_frame};
use sqlite_items::Items;
use std::alloc::{AllocError, Global};

/// The frame of a kind with these bytes as `b`.
fn frame_of(alloc: Global, kind: i32, bytes: &[u8]) -> Result<Frame, AllocError> {
    let mut fields = Vec::new(alloc);
    fields.push((Name::from_str(alloc, "mtx")?, Value::Int(kind)))?;
    let database = Text::new(String::from_str(alloc, "mtx")?);
    fields.push((Name::from_str(alloc, "$db")?, Value::Text(database)))?;
    let content = Bin {
        subtype: 0,
        bytes: Bytes::new(Vec::from_slice(alloc, bytes)?),
    };
    fields.push((Name::from_str(alloc, "b")?, Value::Bin(content)))?;
    Ok(Frame {
        request_id: 0,
        response_to: 0,
        legacy: false,
        more: false,
        body: Items::from_vec(fields),
        seqs: Items::new(alloc),
    })
}

/// Why a frame isn't read, with its place.
fn fault_text(alloc: Global, error: WireErr) -> Result<String, AllocError> {
    match error {
        WireErr::NotInternal => String::from_str(alloc, "not internal"),
        WireErr::Field { at } => format!(in alloc; "field {at}"),
        WireErr::TooLarge => String::from_str(alloc, "too large"),
        WireErr::Memory => Err(AllocError),
    }
}

/// The bytes of a frame as a message, in hexadecimal digits.
fn digits_of(alloc: Global, frame: &Frame) -> Result<String, AllocError> {
    let mut bytes = Vec::new(alloc);
    match write_frame(alloc, frame, &mut bytes) {
        Ok(()) => hex::encode(alloc, bytes.as_slice()),
        Err(_) => Err(AllocError),
    }
}

/// Whether the frame that was made is the one that was read.
fn again(alloc: Global, frame: &Frame, made: Result<Frame, WireErr>) -> Result<String, AllocError> {
    match made {
        Ok(made) => {
            let (wanted, found) = (digits_of(alloc, frame)?, digits_of(alloc, &made)?);
            if wanted.as_str() == found.as_str() {
                return String::from_str(alloc, "again");
            }
            format!(in alloc; "written as {found}")
        }
        Err(error) => fault_text(alloc, error),
    }
}

/// How a frame is read as an envelope.
fn envelope(alloc: Global, frame: &Frame) -> Result<String, AllocError> {
    match from_frame(alloc, frame) {
        Ok(envelope) => again(alloc, frame, to_frame(alloc, &envelope)),
        Err(error) => fault_text(alloc, error),
    }
}

/// How a frame is read as a batch.
fn batch(alloc: Global, frame: &Frame) -> Result<String, AllocError> {
    match batch_from_frame(alloc, frame) {
        Ok(envelopes) => again(alloc, frame, batch_to_frame(alloc, envelopes.as_slice())),
        Err(error) => fault_text(alloc, error),
    }
}

/// How these bytes are read as `b` of a kind.
pub fn read_content(alloc: Global, kind: i32, bytes: &[u8]) -> Result<String, AllocError> {
    let frame = frame_of(alloc, kind, bytes)?;
    if kind == 0 {
        batch(alloc, &frame)
    } else {
        envelope(alloc, &frame)
    }
}

/// How a whole message is read, as a batch or as an envelope.
pub fn read_message(alloc: Global, is_batch: bool, bytes: &[u8]) -> Result<String, AllocError> {
    match read_frame(alloc, bytes) {
        Ok(frame) if is_batch => batch(alloc, &frame),
        Ok(frame) => envelope(alloc, &frame),
        Err(_) => String::from_str(alloc, "no message"),
    }
}
