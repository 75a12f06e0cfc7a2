//! Texts, documents, values and ids.
ghost use Rattle.std.specs.Prelude.{◌≡◌, ◌&&◌, [], Some, None, false, true, length, IfOk, MatchOption, option_and_then, option_copied, if◌then◌else◌};
ghost use Rattle.std.specs.Str.{is_utf8};
ghost use Rattle.bson_core.specs.Names.{has_no_zero};
ghost use Rattle.bson_core.specs.declared.error.BsonErr.{BsonErr as AnyBsonErr};
ghost use Rattle.bson_core.specs.declared.value.Value.TheViews.{out-Value};
ghost use Rattle.node_wire.specs.Errors.{Gives, from_document};
ghost use Rattle.node_wire.specs.Reading.{is_name, is_namespace, text_at, document_at, only_under, value_at, long_id, id_at};
ghost use Rattle.txn_types.specs.Ids.{id_name};

use crate::error::WireErr;
use crate::numbers::{fault, read_bytes, read_count, read_u32, start_of};
use bson_core::{BsonErr, Doc, Name, Value, decode};
use std::alloc::{AllocError, Global};
use txn_types::{Id, IdErr, Ns, NsErr};

/// No document in a message is longer.
const MOST: u32 = 400_000_000;

/// The bytes as text.
fn text_in(bytes: &[u8]) -> Option<&str>
    ensures { MatchOption result (is_utf8 bytes.now ≡ false)
        (λ s. (is_utf8 bytes.now ≡ true) × (s.now ≡ bytes.now)) }
{
    match str::from_utf8(bytes) {
        Ok(text) => Some(text),
        Err(_) => None,
    }
}

/// The bytes as a namespace.
fn namespace_in(alloc: Global, bytes: &[u8]) -> Result<Option<Ns>, AllocError>
    ensures { IfOk result (λ o. o ≡ (if is_namespace bytes.now then Some bytes.now else None)) }
{
    let Some(text) = text_in(bytes) else {
        return Ok(None);
    };
    let Some((database, collection)) = text.split_once('.') else {
        return Ok(None);
    };
    match Ns::of(alloc, database, collection) {
        Ok(ns) => Ok(Some(ns)),
        Err(NsErr::Database) => Ok(None),
        Err(NsErr::Collection) => Ok(None),
        Err(NsErr::Memory) => Err(AllocError),
    }
}

/// The bytes as a name.
fn name_in(alloc: Global, bytes: &[u8]) -> Result<Option<Name>, AllocError>
    ensures { IfOk result (λ o. o ≡ (if is_name bytes.now then Some bytes.now else None)) }
{
    let Some(text) = text_in(bytes) else {
        return Ok(None);
    };
    if !Name::fits(text) {
        return Ok(None);
    }
    Ok(Some(Name::from_str(alloc, text)?))
}

#[tactic(auto, unfolding(crate::specs::Reading::text_at))]
pub fn read_namespace(alloc: Global, end: u64, bytes: &[u8]) -> Result<(Ns, &[u8]), WireErr>
    ensures { Gives (λ x. (x.0, x.1.now)) result (text_at is_namespace end bytes.now) }
{
    let (count, rest) = read_count(end, bytes)?;
    let (text, rest) = rest.split_at(count);
    match namespace_in(alloc, text)? {
        Some(ns) => Ok((ns, rest)),
        None => Err(fault(end, bytes)),
    }
}

#[tactic(auto, unfolding(crate::specs::Reading::text_at))]
pub fn read_name(alloc: Global, end: u64, bytes: &[u8]) -> Result<(Name, &[u8]), WireErr>
    ensures { Gives (λ x. (x.0, x.1.now)) result (text_at is_name end bytes.now) }
{
    let (count, rest) = read_count(end, bytes)?;
    let (text, rest) = rest.split_at(count);
    match name_in(alloc, text)? {
        Some(name) => Ok((name, rest)),
        None => Err(fault(end, bytes)),
    }
}

/// The fault of a document that begins there.
fn document_fault(at: u64, error: BsonErr) -> WireErr
    ensures { result ≡ from_document at error }
{
    match error {
        BsonErr::Memory => WireErr::Memory,
        BsonErr::Short
        | BsonErr::Length { .. }
        | BsonErr::Kind { .. }
        | BsonErr::Text { .. }
        | BsonErr::Bool { .. }
        | BsonErr::Deep { .. }
        | BsonErr::TooLarge => WireErr::Field { at },
    }
}

/// A document, in as many bytes as its count says.
#[tactic(auto, unfolding(crate::specs::Reading::document_at))]
pub fn read_document(alloc: Global, end: u64, bytes: &[u8]) -> Result<(Doc, &[u8]), WireErr>
    ensures { Gives (λ x. (x.0, x.1.now)) result (document_at end bytes.now) }
{
    let (count, _) = read_u32(end, bytes)?;
    let count = count as usize;
    if bytes.len() < count {
        return Err(fault(end, bytes));
    }
    let (own, rest) = bytes.split_at(count);
    match decode(alloc, own, MOST) {
        Ok(doc) => Ok((doc, rest)),
        Err(error) => Err(document_fault(start_of(end, bytes), error)),
    }
}

/// The value of a document that has one field, of this name.
fn only_under(name: &str, doc: Doc) -> Option<Value>
    ensures { result ≡ only_under name.now doc }
{
    let mut fields = doc;
    let (found, value) = fields.pop()?;
    (fields.is_empty() && found.as_str() == name).then_some(value)
}

#[tactic(auto, unfolding(crate::specs::Reading::value_at))]
pub fn read_value(alloc: Global, end: u64, bytes: &[u8]) -> Result<(Value, &[u8]), WireErr>
    ensures { Gives (λ x. (x.0, x.1.now)) result (value_at end bytes.now) }
{
    let (doc, rest) = read_document(alloc, end, bytes)?;
    match only_under("", doc) {
        Some(value) => Ok((value, rest)),
        None => Err(fault(end, bytes)),
    }
}

/// The id that a value is, where a number is an int64.
fn long_id(alloc: Global, value: &Value) -> Result<Option<Id>, AllocError>
    ensures { IfOk result (λ o. o ≡ long_id (out-Value value.now) value.now) }
{
    if matches!(value, Value::Int(_)) {
        return Ok(None);
    }
    match Id::of(alloc, value) {
        Ok(id) => Ok(Some(id)),
        Err(IdErr::BadId) => Ok(None),
        Err(IdErr::Memory) => Err(AllocError),
    }
}

#[tactic(auto, unfolding(crate::specs::Reading::id_at))]
pub fn read_id(alloc: Global, end: u64, bytes: &[u8]) -> Result<(Id, &[u8]), WireErr>
    ensures { Gives (λ x. (x.0, x.1.now)) result (id_at end bytes.now) }
{
    let (doc, rest) = read_document(alloc, end, bytes)?;
    let Some(value) = only_under("_id", doc) else {
        return Err(fault(end, bytes));
    };
    match long_id(alloc, &value)? {
        Some(id) => Ok((id, rest)),
        None => Err(fault(end, bytes)),
    }
}
