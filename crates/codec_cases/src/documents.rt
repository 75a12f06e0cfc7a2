//! Documents: read, printed, measured, written again, and their fields by name.

use crate::faults::document_fault;
use bson_core::{BsonErr, Doc, Name, Value, copy_doc, decode, encode, get, set, size};
use bson_text::{print, print_value};
use sqlite_items::Items;
use std::alloc::{AllocError, Global};

/// The limit of every document here that names none.
const LIMIT: u32 = 1_000_000;

/// The digits of the document's bytes, which it is asked to append to a byte that stands.
fn digits_of(alloc: Global, doc: &Doc) -> Result<String, AllocError> {
    let mut out = Vec::new(alloc);
    out.push(255)?;
    match encode(alloc, doc, &mut out) {
        Ok(()) => hex::encode(alloc, out.as_slice().get(1..).unwrap_or(&[])),
        Err(fault) => document_fault(alloc, fault),
    }
}

fn printed(alloc: Global, doc: &Doc) -> Result<String, AllocError> {
    match print(alloc, doc) {
        Ok(text) => Ok(text),
        Err(_) => Err(AllocError),
    }
}

/// The document of these digits, or why it is none.
pub fn document_of(alloc: Global, digits: &str) -> Result<Result<Doc, BsonErr>, AllocError> {
    match hex::decode(alloc, digits) {
        Ok(bytes) => Ok(decode(alloc, bytes.as_slice(), LIMIT)),
        Err(_) => Ok(Err(BsonErr::Short)),
    }
}

/// The text of the document that the bytes are within the limit, or the first fault.
pub fn read(alloc: Global, digits: &str, limit: &str) -> Result<String, AllocError> {
    let Ok(bytes) = hex::decode(alloc, digits) else {
        return String::from_str(alloc, "no digits");
    };
    match decode(
        alloc,
        bytes.as_slice(),
        limit.parse::<u32>().unwrap_or(LIMIT),
    ) {
        Ok(doc) => printed(alloc, &doc),
        Err(fault) => document_fault(alloc, fault),
    }
}

/// What a copy of the document is written as, and its size.
pub fn written(alloc: Global, digits: &str) -> Result<String, AllocError> {
    match document_of(alloc, digits)? {
        Ok(doc) => {
            let copy = copy_doc(alloc, &doc)?;
            let bytes = digits_of(alloc, &copy)?;
            format!(in alloc; "{} of {}", bytes.as_str(), size(&doc))
        }
        Err(fault) => document_fault(alloc, fault),
    }
}

/// The first value of that name.
pub fn field(alloc: Global, digits: &str, name: &str) -> Result<String, AllocError> {
    let Ok(doc) = document_of(alloc, digits)? else {
        return String::from_str(alloc, "no document");
    };
    match get(&doc, name) {
        Some(value) => match print_value(alloc, value) {
            Ok(text) => Ok(text),
            Err(_) => Err(AllocError),
        },
        None => String::from_str(alloc, "none"),
    }
}

/// The document with that name set to true.
pub fn set_true(alloc: Global, digits: &str, name: &str) -> Result<String, AllocError> {
    let Ok(mut doc) = document_of(alloc, digits)? else {
        return String::from_str(alloc, "no document");
    };
    if !Name::fits(name) {
        return String::from_str(alloc, "no name");
    }
    match set(alloc, &mut doc, name, Value::Bool(true)) {
        Ok(()) => printed(alloc, &doc),
        Err(_) => Err(AllocError),
    }
}

/// What becomes of documents inside one another, so many levels, once they are written and read.
pub fn nested(alloc: Global, levels: &str) -> Result<String, AllocError> {
    let mut doc = Items::new(alloc);
    for _ in 1..levels.parse::<u32>().unwrap_or(0) {
        let mut fields = Vec::new(alloc);
        fields.push((Name::from_str(alloc, "")?, Value::Doc(doc)))?;
        doc = Items::from_vec(fields);
    }
    let digits = digits_of(alloc, &doc)?;
    match document_of(alloc, digits.as_str())? {
        Ok(_) => String::from_str(alloc, "read"),
        Err(fault) => document_fault(alloc, fault),
    }
}
