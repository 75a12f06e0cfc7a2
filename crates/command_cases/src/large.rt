//! Messages that are too large to stand in a file.
use bson_core::{Doc, Name, Text, Value};
use op_msg::{Frame, Seqs, write_frame};
use sqlite_items::Items;
use std::alloc::{AllocError, Global};

/// The bytes that a document `{_id: N, a: TEXT}` has beside its text.
const BESIDE_TEXT: u32 = 22;

fn text(alloc: Global, string: &str) -> Result<Value, AllocError> {
    Ok(Value::Text(Text::new(String::from_str(alloc, string)?)))
}

/// `{NAME: "c", $db: "d"}`.
fn command(alloc: Global, name: &str) -> Result<Doc, AllocError> {
    let mut fields = Vec::new(alloc);
    let name = match name {
        "delete" => Name::from_str(alloc, "delete")?,
        _ => Name::from_str(alloc, "insert")?,
    };
    fields.push((name, text(alloc, "c")?))?;
    fields.push((Name::from_str(alloc, "$db")?, text(alloc, "d")?))?;
    Ok(Items::from_vec(fields))
}

/// The bytes of a message.
fn message_of(alloc: Global, body: Doc, seqs: Seqs) -> Result<Vec<u8>, AllocError> {
    let frame = Frame {
        request_id: 1,
        response_to: 0,
        legacy: false,
        more: false,
        body,
        seqs,
    };
    let mut bytes = Vec::new(alloc);
    match write_frame(alloc, &frame, &mut bytes) {
        Ok(()) => Ok(bytes),
        Err(_) => Err(AllocError),
    }
}

/// `{delete: "c", $db: "d"}` with a section `deletes` of so many empty documents.
pub fn deletes(alloc: Global, count: u32) -> Result<Vec<u8>, AllocError> {
    let mut docs = Vec::new(alloc);
    for _ in 0..count {
        let empty: Doc = Items::new(alloc);
        docs.push(empty)?;
    }
    let mut seqs = Vec::new(alloc);
    seqs.push((Name::from_str(alloc, "deletes")?, Items::from_vec(docs)))?;
    message_of(alloc, command(alloc, "delete")?, Items::from_vec(seqs))
}

/// `{_id: 1, a: TEXT}`, which has that many bytes.
fn document(alloc: Global, size: u32) -> Result<Doc, AllocError> {
    let mut fields = Vec::new(alloc);
    fields.push((Name::from_str(alloc, "_id")?, Value::Int(1)))?;
    let length = size.saturating_sub(BESIDE_TEXT) as usize;
    let text = Text::new("x".repeat(alloc, length)?);
    fields.push((Name::from_str(alloc, "a")?, Value::Text(text)))?;
    Ok(Items::from_vec(fields))
}

/// `{insert: "c", $db: "d"}` with a section `documents` of one document `{_id: 1, a: TEXT}`, of that
/// many bytes.
pub fn inserts(alloc: Global, size: u32) -> Result<Vec<u8>, AllocError> {
    let docs = vec![in alloc; document(alloc, size)?]?;
    let mut seqs = Vec::new(alloc);
    seqs.push((Name::from_str(alloc, "documents")?, Items::from_vec(docs)))?;
    message_of(alloc, command(alloc, "insert")?, Items::from_vec(seqs))
}
