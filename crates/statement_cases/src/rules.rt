//! Single rules: whether a filter matches, what an update makes of a document, namespaces, ids and
//! their order.

use crate::words::{document_of, document_text, value_of};
use bson_core::Name;
use crud_parse::{read_filter, read_update};
use query_eval::{ApplyErr, apply, matches};
use sqlite_items::Items;
use std::alloc::{AllocError, Global};
use std::cmp::Ordering;
use txn_types::{Id, IdErr, Ns, NsErr, Update, UpdateKind, UpdateOp};

/// Whether the document matches the filter, as `yes` or `no`.
pub fn matched(alloc: Global, document: &str, filter: &str) -> Result<String, AllocError> {
    let word = match read_filter(alloc, &document_of(alloc, filter)?) {
        Ok(filter) => {
            if matches(&filter, &document_of(alloc, document)?) {
                "yes"
            } else {
                "no"
            }
        }
        Err(_) => "no filter",
    };
    String::from_str(alloc, word)
}

/// What becomes of the document, or why nothing does.
fn applied_to(alloc: Global, update: &Update, document: &str) -> Result<String, AllocError> {
    let why = match apply(alloc, update, &document_of(alloc, document)?) {
        Ok(new) => return document_text(alloc, &new),
        Err(ApplyErr::NotNumber) => "NotNumber",
        Err(ApplyErr::Overflow) => "Overflow",
        Err(ApplyErr::Immutable) => "Immutable",
        Err(ApplyErr::TooLarge) => "TooLarge",
        Err(ApplyErr::Memory) => return Err(AllocError),
    };
    String::from_str(alloc, why)
}

/// What becomes of the document by an update.
pub fn applied(alloc: Global, update: &str, document: &str) -> Result<String, AllocError> {
    match read_update(alloc, &value_of(alloc, update)?) {
        Ok(update) => applied_to(alloc, &update, document),
        Err(_) => String::from_str(alloc, "no update"),
    }
}

/// What becomes of the document by one change, `KIND NAME VALUE`, also one that no update asks for.
pub fn changed(alloc: Global, change: &str, document: &str) -> Result<String, AllocError> {
    let (word, rest) = change.split_once(" ").unwrap_or((change, ""));
    let (name, value) = rest.split_once(" ").unwrap_or((rest, ""));
    let kind = match word {
        "set" => UpdateKind::Set,
        "unset" => UpdateKind::Unset,
        _ => UpdateKind::Inc,
    };
    let mut ops = Vec::new(alloc);
    if Name::fits(name) {
        let name = Name::from_str(alloc, name)?;
        let value = value_of(alloc, value)?;
        ops.push(UpdateOp { kind, name, value })?;
    }
    applied_to(alloc, &Update::Ops(Items::from_vec(ops)), document)
}

/// The namespace of two names, or which of them is none.
pub fn namespace_text(
    alloc: Global,
    database: &str,
    collection: &str,
) -> Result<String, AllocError> {
    match Ns::of(alloc, database, collection) {
        Ok(ns) => String::from_str(alloc, ns.copy(alloc)?.as_str()),
        Err(NsErr::Database) => String::from_str(alloc, "bad database"),
        Err(NsErr::Collection) => String::from_str(alloc, "bad collection"),
        Err(NsErr::Memory) => Err(AllocError),
    }
}

/// The id that a value is.
fn id_of(alloc: Global, words: &str) -> Result<Option<Id>, AllocError> {
    match Id::of(alloc, &value_of(alloc, words)?) {
        Ok(id) => Ok(Some(id.copy(alloc)?)),
        Err(IdErr::BadId) => Ok(None),
        Err(IdErr::Memory) => Err(AllocError),
    }
}

/// Which kind of id a value is.
pub fn id_text(alloc: Global, words: &str) -> Result<String, AllocError> {
    let word = match id_of(alloc, words)? {
        Some(Id::Num(_)) => "number",
        Some(Id::Text(_)) => "text",
        Some(Id::Bin(_)) => "binary",
        Some(Id::Oid(_)) => "object id",
        Some(Id::Bool(_)) => "truth value",
        Some(Id::Date(_)) => "moment",
        None => "no id",
    };
    String::from_str(alloc, word)
}

/// Where one id stands beside another.
pub fn compared(alloc: Global, left: &str, right: &str) -> Result<String, AllocError> {
    let word = match (id_of(alloc, left)?, id_of(alloc, right)?) {
        (Some(left), Some(right)) => match left.compare(&right) {
            Ordering::Less => "before",
            Ordering::Equal => "same",
            Ordering::Greater => "after",
        },
        _ => "no id",
    };
    String::from_str(alloc, word)
}
