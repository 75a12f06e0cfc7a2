//! The writes of a record: each reader gives what it found and the bytes after it.
ghost use Rattle.std.specs.Prelude.{◌≡◌, ◌+◌, ◌-◌, [], Some, None, false, true, length, IfOk, MatchOption, option_copied, if◌then◌else◌};
ghost use Rattle.std.specs.Str.{is_utf8};
ghost use Rattle.bson_core.specs.declared.error.BsonErr.{BsonErr as AnyBsonErr};
ghost use Rattle.txn_types.specs.Ids.{id_in};
ghost use Rattle.txn_types.specs.Writes.{HasOwnId};
ghost use Rattle.txn_semantics.specs.Writes.{place_of, place_cmp};
ghost use Rattle.journal_rec.specs.Errors.{Gives, from_document};
ghost use Rattle.journal_rec.specs.Reading.{is_namespace, namespace_at, document_at, is_id_alone, write_by, content_at, write_at, is_above, next_write_at, each_write_at, writes_at};

use crate::error::RecErr;
use crate::numbers::{read_bytes, read_u8, read_u16, read_u32, start_of};
use bson_core::{BsonErr, Doc, Value, decode};
use std::alloc::{AllocError, Global};
use txn_types::{Id, Ns, NsErr, Write, Writes};

/// No document is longer, since its count is an int32 that isn't negative.
const MOST: u32 = 0x7fff_ffff;

/// The bytes as text.
fn text_in(bytes: &[u8]) -> Option<&str>
    ensures { MatchOption result (is_utf8 bytes.now ≡ false)
        (λ s. (is_utf8 bytes.now ≡ true) × (s.now ≡ bytes.now)) }
{
    match str::from_utf8(bytes) {
        Ok(text) => Some(text),
        Err(_) => None,
    }
}

/// The bytes as a namespace.
fn namespace_in(alloc: Global, bytes: &[u8]) -> Result<Option<Ns>, AllocError>
    ensures { IfOk result (λ o. o ≡ (if is_namespace bytes.now then Some bytes.now else None)) }
{
    let Some(text) = text_in(bytes) else {
        return Ok(None);
    };
    let Some((database, collection)) = text.split_once('.') else {
        return Ok(None);
    };
    match Ns::of(alloc, database, collection) {
        Ok(ns) => Ok(Some(ns)),
        Err(NsErr::Database) => Ok(None),
        Err(NsErr::Collection) => Ok(None),
        Err(NsErr::Memory) => Err(AllocError),
    }
}

/// The length of a namespace and its bytes.
#[tactic(auto, unfolding(crate::specs::Reading::namespace_at))]
fn read_namespace(alloc: Global, end: u64, bytes: &[u8]) -> Result<(Ns, &[u8]), RecErr>
    ensures { Gives (λ x. (x.0, x.1.now)) result (namespace_at end bytes.now) }
{
    let (count, rest) = read_u16(bytes)?;
    let (name, rest) = read_bytes(usize::from(count), rest)?;
    match namespace_in(alloc, name)? {
        Some(ns) => Ok((ns, rest)),
        None => Err(RecErr::Field {
            at: start_of(end, bytes),
        }),
    }
}

/// The fault of a document that begins there.
fn document_fault(at: u64, error: BsonErr) -> RecErr
    ensures { result ≡ from_document at error }
{
    match error {
        BsonErr::Memory => RecErr::Memory,
        BsonErr::Short
        | BsonErr::Length { .. }
        | BsonErr::Kind { .. }
        | BsonErr::Text { .. }
        | BsonErr::Bool { .. }
        | BsonErr::Deep { .. }
        | BsonErr::TooLarge => RecErr::Bson { at },
    }
}

/// A document, in as many bytes as its count says.
#[tactic(auto, unfolding(crate::specs::Reading::document_at))]
fn read_document(alloc: Global, end: u64, bytes: &[u8]) -> Result<(Doc, &[u8]), RecErr>
    ensures { Gives (λ x. (x.0, x.1.now)) result (document_at end bytes.now) }
{
    let at = start_of(end, bytes);
    let (count, _) = read_u32(bytes)?;
    if count > MOST {
        return Err(RecErr::Bson { at });
    }
    let count = count as usize;
    if bytes.len() < count {
        return Err(RecErr::Short);
    }
    let (own, rest) = bytes.split_at(count);
    match decode(alloc, own, MOST) {
        Ok(doc) => Ok((doc, rest)),
        Err(error) => Err(document_fault(at, error)),
    }
}

/// Whether the document is its id alone, and a number is an int64.
fn is_id_alone(doc: &Doc) -> bool
    ensures { result ≡ is_id_alone doc.now }
{
    match doc.as_slice() {
        [(_, value)] => !matches!(value, Value::Int(_)),
        _ => false,
    }
}

/// The write of a document, by its kind: a 1 puts it, a 0 deletes what has its id.
fn write_of(alloc: Global, at: u64, ns: Ns, kind: u8, doc: Doc) -> Result<Write, RecErr>
    ensures write { Gives (λ w. w) result (write_by at ns kind doc (id_in doc)) }
    ensures kept { IfOk result HasOwnId }
{
    let Some(id) = Id::in_doc(alloc, &doc)? else {
        return Err(RecErr::Field { at });
    };
    if kind == 1 {
        return Ok(Write::Put { ns, id, doc });
    }
    if !is_id_alone(&doc) {
        return Err(RecErr::Field { at });
    }
    Ok(Write::Delete { ns, id })
}

/// A write after its namespace and its kind.
#[tactic(auto, unfolding(crate::specs::Reading::content_at))]
fn read_content(
    alloc: Global,
    end: u64,
    ns: Ns,
    kind: u8,
    bytes: &[u8],
) -> Result<(Write, &[u8]), RecErr>
    ensures write { Gives (λ x. (x.0, x.1.now)) result (content_at end ns kind bytes.now) }
    ensures kept { IfOk result (λ x. HasOwnId x.0) }
{
    let (doc, rest) = read_document(alloc, end, bytes)?;
    let write = write_of(alloc, start_of(end, bytes), ns, kind, doc)?;
    Ok((write, rest))
}

#[tactic(auto, unfolding(crate::specs::Reading::write_at))]
fn read_write(alloc: Global, end: u64, bytes: &[u8]) -> Result<(Write, &[u8]), RecErr>
    ensures write { Gives (λ x. (x.0, x.1.now)) result (write_at end bytes.now) }
    ensures kept { IfOk result (λ x. HasOwnId x.0) }
{
    let (ns, rest) = read_namespace(alloc, end, bytes)?;
    let (kind, after) = read_u8(rest)?;
    if kind > 1 {
        return Err(RecErr::Field {
            at: start_of(end, rest),
        });
    }
    read_content(alloc, end, ns, kind, after)
}

fn ns_of(write: &Write) -> &Ns
    ensures { result.now ≡ (place_of write.now).0 }
{
    match write {
        Write::Put { ns, .. } => ns,
        Write::Delete { ns, .. } => ns,
    }
}

fn id_of(write: &Write) -> &Id
    ensures { result.now ≡ (place_of write.now).1 }
{
    match write {
        Write::Put { id, .. } => id,
        Write::Delete { id, .. } => id,
    }
}

/// Whether the write is above the last one, by namespace and id.
fn is_above(last: Option<&Write>, write: &Write) -> bool
    ensures { result ≡ is_above (option_copied last.entry) write.now }
{
    match last {
        Some(last) => ns_of(last)
            .as_slice()
            .cmp(ns_of(write).as_slice())
            .then_with(|| id_of(last).compare(id_of(write)))
            .is_lt(),
        None => true,
    }
}

/// One write more after those in front.
#[tactic(auto, unfolding(crate::specs::Reading::next_write_at))]
fn read_next(
    alloc: Global,
    end: u64,
    front: Writes,
    bytes: &[u8],
) -> Result<(Writes, &[u8]), RecErr>
    ensures { Gives (λ x. (x.0, x.1.now)) result (next_write_at end front bytes.now) }
{
    let mut writes = front;
    let (write, rest) = read_write(alloc, end, bytes)?;
    if !is_above(writes.as_slice().last(), &write) {
        return Err(RecErr::Order {
            at: start_of(end, bytes),
        });
    }
    writes.push(write)?;
    Ok((writes, rest))
}

/// The number of writes, and the writes.
#[tactic(auto, unfolding(crate::specs::Reading::writes_at))]
pub fn read_writes(alloc: Global, end: u64, bytes: &[u8]) -> Result<(Writes, &[u8]), RecErr>
    ensures { Gives (λ x. (x.0, x.1.now)) result (writes_at end bytes.now) }
{
    let (count, rest) = read_u32(bytes)?;
    read_each(alloc, end, count, rest)
}

/// So many writes.
fn read_each(alloc: Global, end: u64, count: u32, bytes: &[u8]) -> Result<(Writes, &[u8]), RecErr>
    ensures { Gives (λ x. (x.0, x.1.now)) result (each_write_at count end [] bytes.now) }
{
    let mut writes = Writes::new(alloc);
    let mut rest = bytes;
    for _ in 0..count {
        let (more, after) = read_next(alloc, end, writes, rest)?;
        writes = more;
        rest = after;
    }
    Ok((writes, rest))
}
