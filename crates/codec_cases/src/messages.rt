//! Messages: what they hold, and what they are written as.

use crate::faults::message_fault;
use bson_text::print;
use op_msg::{Frame, is_legacy, read_frame, request_id, wants_reply, write_frame};
use std::alloc::{AllocError, Global};

/// Appends the document as text.
fn put_document(alloc: Global, out: &mut String, doc: &bson_core::Doc) -> Result<(), AllocError> {
    match print(alloc, doc) {
        Ok(text) => out.push_str(text.as_str()),
        Err(_) => Err(AllocError),
    }
}

/// Numbers, flags, body and sequences of a message, in words.
fn frame_text(alloc: Global, frame: &Frame) -> Result<String, AllocError> {
    let mut out = String::new(alloc);
    write!(out, "{} to {}", frame.request_id, frame.response_to)?;
    if frame.legacy {
        out.push_str(" legacy")?;
    }
    if frame.more {
        out.push_str(" more")?;
    }
    out.push(' ')?;
    put_document(alloc, &mut out, &frame.body)?;
    for (name, docs) in frame.seqs.as_slice() {
        write!(out, " {}", name.as_str())?;
        for doc in docs.as_slice() {
            out.push(' ')?;
            put_document(alloc, &mut out, doc)?;
        }
    }
    Ok(out)
}

/// What a message of these bytes holds, or its first fault.
pub fn read(alloc: Global, digits: &str) -> Result<String, AllocError> {
    let Ok(bytes) = hex::decode(alloc, digits) else {
        return String::from_str(alloc, "no digits");
    };
    match read_frame(alloc, bytes.as_slice()) {
        Ok(frame) => frame_text(alloc, &frame),
        Err(fault) => message_fault(alloc, fault),
    }
}

/// What the message of these bytes is written as.
pub fn written(alloc: Global, digits: &str) -> Result<String, AllocError> {
    let Ok(bytes) = hex::decode(alloc, digits) else {
        return String::from_str(alloc, "no digits");
    };
    let frame = match read_frame(alloc, bytes.as_slice()) {
        Ok(frame) => frame,
        Err(fault) => return message_fault(alloc, fault),
    };
    let mut out = Vec::new(alloc);
    match write_frame(alloc, &frame, &mut out) {
        Ok(()) => hex::encode(alloc, out.as_slice()),
        Err(fault) => message_fault(alloc, fault),
    }
}

/// What is asked of bytes that may be no message: their number, their form, and whether a reply is
/// wanted.
pub fn asked(alloc: Global, digits: &str) -> Result<String, AllocError> {
    let Ok(bytes) = hex::decode(alloc, digits) else {
        return String::from_str(alloc, "no digits");
    };
    let message = bytes.as_slice();
    let form = if is_legacy(message) { " legacy" } else { "" };
    let wish = if wants_reply(message) { "" } else { " silent" };
    format!(in alloc; "{}{form}{wish}", request_id(message))
}
