use bson_core::{Doc, Name, Text, Value, get};
use sqlite_items::Items;
use std::alloc::{AllocError, Global};
use txn_types::{By, Id, Ns, Tag, Ts};
use version_store::Held;

/// The transaction of this number.
pub fn tag_of(word: &str) -> Tag {
    Tag {
        router: 0,
        boot: 1,
        serial: word.parse::<u64>().unwrap_or(0),
    }
}

pub fn time_of(word: &str) -> Ts {
    Ts(word.parse::<u64>().unwrap_or(0))
}

/// The namespace of a collection.
pub fn namespace_of(alloc: Global, collection: &str) -> Result<Ns, AllocError> {
    match Ns::of(alloc, "d", collection) {
        Ok(ns) => Ok(ns),
        Err(_) => Err(AllocError),
    }
}

/// A number, or else a text.
pub fn id_of(alloc: Global, word: &str) -> Result<Id, AllocError> {
    if let Ok(number) = word.parse::<i64>() {
        return Ok(Id::Num(number));
    }
    Ok(Id::Text(Text::new(String::from_str(alloc, word)?)))
}

/// The value of an id: a number, or else a text.
fn value_of_id(alloc: Global, word: &str) -> Result<Value, AllocError> {
    if let Ok(number) = word.parse::<i64>() {
        return Ok(Value::Long(number));
    }
    Ok(Value::Text(Text::new(String::from_str(alloc, word)?)))
}

/// The document `{_id: ID, v: VALUE}`.
pub fn document_of(alloc: Global, id: &str, word: &str) -> Result<Doc, AllocError> {
    let mut fields = Vec::new(alloc);
    let value = Value::Long(word.parse::<i64>().unwrap_or(0));
    fields.push((Name::from_str(alloc, "_id")?, value_of_id(alloc, id)?))?;
    fields.push((Name::from_str(alloc, "v")?, value))?;
    Ok(Items::from_vec(fields))
}

/// The value of a document `{_id: ID, v: VALUE}`.
pub fn value_in(doc: &Doc) -> i64 {
    match get(doc, "v") {
        Some(Value::Long(value)) => *value,
        _ => 0,
    }
}

pub fn words_of_id(alloc: Global, id: &Id) -> Result<String, AllocError> {
    match id {
        Id::Num(number) => format!(in alloc; "{number}"),
        Id::Text(text) => String::from_str(alloc, text.as_str()),
        _ => String::from_str(alloc, "another id"),
    }
}

/// The collection's name in a namespace.
pub fn words_of_namespace(alloc: Global, ns: &Ns) -> Result<String, AllocError> {
    match ns.as_str().split_once(".") {
        Some((_, collection)) => String::from_str(alloc, collection),
        None => String::from_str(alloc, "no namespace"),
    }
}

/// Who holds a document.
pub fn words_of_holder(alloc: Global, tag: Tag, ts: Ts) -> Result<String, AllocError> {
    format!(in alloc; "held by {} since {}", tag.serial, ts.0)
}

/// A document that is held.
pub fn words_of_held(alloc: Global, held: &Held) -> Result<String, AllocError> {
    let id = words_of_id(alloc, &held.id)?;
    let holder = words_of_holder(alloc, held.tag, held.ts)?;
    format!(in alloc; "{id} {holder}")
}

/// What stands against a write.
pub fn words_of_conflict(alloc: Global, id: &Id, by: By) -> Result<String, AllocError> {
    let id = words_of_id(alloc, id)?;
    match by {
        By::Tag(tag) => format!(in alloc; "conflict {id} with {}", tag.serial),
        By::At(at) => format!(in alloc; "conflict {id} committed at {}", at.0),
    }
}
