//! Bytes are read as a document. `{a: 1}` is these twelve bytes:
//!
//! ```text
//! 0c 00 00 00             the count of all the bytes, an int32
//! 10  61 00  01 00 00 00  the type int32, the name "a", the value
//! 00                      the end
//! ```
//!
//! With `0d` as its first byte the count isn't that of the bytes, and with another last byte than
//! 00 the document doesn't end: both are `Length { at: 0 }`. With `13`, a decimal, in place of the
//! `10` the type is one that no document here holds: `Kind { at: 4, byte: 0x13 }`.
ghost use Rattle.std.specs.Prelude.{◌≡◌, ◌<◌, ◌≤◌, ◌+◌, ◌==◌, Ok, true, false, length, option_map, position, IfOk, IfSome, MatchOption};
ghost use Rattle.std.specs.Int.{w32, w64};
ghost use Rattle.std.specs.Str.{is_utf8};
ghost use Rattle.bson_core.specs.Fields.{Document};
ghost use Rattle.bson_core.specs.Grammar.{Reads, values_of};
ghost use Rattle.bson_core.specs.Reading.{Gives, place, number_at, count_at, name_at, text_at, binary_at, object_id_at, flag_at, fixed_at, leaf_at, kind_at, value_by, element_at, elements_at, body_at, document_at, nested_at, document_of};

use crate::error::BsonErr;
use crate::kind::{Kind, Leaf};
use crate::text::{Bytes, Name, Text};
use crate::value::{Bin, Doc, Value};
use sqlite_items::Items;
use std::alloc::{AllocError, Global};

/// No document is longer, since its count is an int32 that isn't negative.
const MOST: u32 = 0x7fff_ffff;

/// The levels of documents and lists, the outer document included.
const LEVELS: u32 = 100;

/// Where the bytes begin that are left up to `last_at`.
fn start_of(last_at: u64, bytes: &[u8]) -> u64
    ensures { result ≡ place last_at bytes.now }
{
    last_at.saturating_sub(bytes.len() as u64)
}

/// The number in the first 4 bytes, the lowest of them first, and the bytes after it.
#[tactic(auto, unfolding(crate::specs::Reading::number_at))]
pub fn front_u32(bytes: &[u8]) -> Option<(u32, &[u8])>
    ensures { option_map (λ x. (x.0, x.1.now)) result ≡ number_at w32 bytes.now }
{
    if bytes.len() < 4 {
        return None;
    }
    let (front, rest) = bytes.split_at(4);
    let number = u32::from_le_bytes([front[0], front[1], front[2], front[3]]);
    Some((number, rest))
}

#[tactic(auto, unfolding(crate::specs::Reading::number_at))]
fn front_u64(bytes: &[u8]) -> Option<(u64, &[u8])>
    ensures { option_map (λ x. (x.0, x.1.now)) result ≡ number_at w64 bytes.now }
{
    if bytes.len() < 8 {
        return None;
    }
    let (front, rest) = bytes.split_at(8);
    let number = u64::from_le_bytes([
        front[0], front[1], front[2], front[3], front[4], front[5], front[6], front[7],
    ]);
    Some((number, rest))
}

/// A number of 4 bytes that is a value.
fn read_u32(bytes: &[u8]) -> Result<(u32, &[u8]), BsonErr>
    ensures { Gives (λ x. (x.0, x.1.now)) result (fixed_at w32 bytes.now) }
{
    match front_u32(bytes) {
        Some(found) => Ok(found),
        None => Err(BsonErr::Short),
    }
}

/// A number of 8 bytes that is a value.
fn read_u64(bytes: &[u8]) -> Result<(u64, &[u8]), BsonErr>
    ensures { Gives (λ x. (x.0, x.1.now)) result (fixed_at w64 bytes.now) }
{
    match front_u64(bytes) {
        Some(found) => Ok(found),
        None => Err(BsonErr::Short),
    }
}

/// A count of bytes.
#[tactic(auto, unfolding(crate::specs::Reading::count_at))]
fn read_count(last_at: u64, bytes: &[u8]) -> Result<(u32, &[u8]), BsonErr>
    ensures { Gives (λ x. (x.0, x.1.now)) result (count_at last_at bytes.now) }
{
    match front_u32(bytes) {
        Some(found) => Ok(found),
        None => Err(BsonErr::Length {
            at: start_of(last_at, bytes),
        }),
    }
}

/// The place of the first 00.
fn first_zero(bytes: &[u8]) -> Option<usize>
    ensures place { result ≡ position (λ b. b == 0) bytes.now }
    ensures within { IfSome result (λ n. n < length bytes.now) }
{
    bytes.iter().position(|b| *b == 0)
}

/// The bytes as text.
fn text_in(bytes: &[u8]) -> Option<&str>
    ensures { MatchOption result (is_utf8 bytes.now ≡ false)
        (λ s. (is_utf8 bytes.now ≡ true) × (s.now ≡ bytes.now)) }
{
    match str::from_utf8(bytes) {
        Ok(text) => Some(text),
        Err(_) => None,
    }
}

/// The name at the front of the bytes, and what stands after the 00 that ends it. It is `Short`
/// where there is no 00, and
/// `Text` where it is no UTF-8; its place counts so that the bytes end at `last_at`.
#[tactic(auto, unfolding(crate::specs::Reading::name_at))]
pub fn front_name(alloc: Global, last_at: u64, bytes: &[u8]) -> Result<(Name, &[u8]), BsonErr>
    ensures { Gives (λ x. (x.0, x.1.now)) result (name_at last_at bytes.now) }
{
    let Some(len) = first_zero(bytes) else {
        return Err(BsonErr::Short);
    };
    let Some(name) = text_in(&bytes[..len]) else {
        return Err(BsonErr::Text {
            at: start_of(last_at, bytes),
        });
    };
    let name = Name::from_str(alloc, name)?;
    Ok((name, &bytes[len + 1..]))
}

#[tactic(auto, unfolding(crate::specs::Reading::text_at))]
fn read_text(alloc: Global, last_at: u64, bytes: &[u8]) -> Result<(Text, &[u8]), BsonErr>
    ensures { Gives (λ x. (x.0, x.1.now)) result (text_at last_at bytes.now) }
{
    let (count, rest) = read_count(last_at, bytes)?;
    let count = count as usize;
    if count == 0 || rest.len() < count {
        return Err(BsonErr::Length {
            at: start_of(last_at, bytes),
        });
    }
    if rest[count - 1] != 0 {
        return Err(BsonErr::Text {
            at: start_of(last_at, rest),
        });
    }
    let Some(text) = text_in(&rest[..count - 1]) else {
        return Err(BsonErr::Text {
            at: start_of(last_at, rest),
        });
    };
    let text = Text::new(String::from_str(alloc, text)?);
    Ok((text, &rest[count..]))
}

#[tactic(auto, unfolding(crate::specs::Reading::binary_at))]
fn read_binary(alloc: Global, last_at: u64, bytes: &[u8]) -> Result<(Bin, &[u8]), BsonErr>
    ensures { Gives (λ x. (x.0, x.1.now)) result (binary_at last_at bytes.now) }
{
    let (count, rest) = read_count(last_at, bytes)?;
    let count = count as usize;
    if rest.len() < count + 1 {
        return Err(BsonErr::Length {
            at: start_of(last_at, bytes),
        });
    }
    let bin = Bin {
        subtype: rest[0],
        bytes: Bytes::new(Vec::from_slice(alloc, &rest[1..count + 1])?),
    };
    Ok((bin, &rest[count + 1..]))
}

#[tactic(auto, unfolding(crate::specs::Reading::object_id_at))]
fn read_object_id(bytes: &[u8]) -> Result<([u8; 12], &[u8]), BsonErr>
    ensures { Gives (λ x. (x.0, x.1.now)) result (object_id_at bytes.now) }
{
    if bytes.len() < 12 {
        return Err(BsonErr::Short);
    }
    let (front, rest) = bytes.split_at(12);
    let mut id = [0; 12];
    id.copy_from_slice(front);
    Ok((id, rest))
}

#[tactic(auto, unfolding(crate::specs::Reading::flag_at))]
fn read_flag(last_at: u64, bytes: &[u8]) -> Result<(bool, &[u8]), BsonErr>
    ensures { Gives (λ x. (x.0, x.1.now)) result (flag_at last_at bytes.now) }
{
    let Some((byte, rest)) = bytes.split_first() else {
        return Err(BsonErr::Short);
    };
    match *byte {
        0 => Ok((false, rest)),
        1 => Ok((true, rest)),
        _ => Err(BsonErr::Bool {
            at: start_of(last_at, bytes),
        }),
    }
}

/// A value that holds no others.
#[tactic(auto, unfolding(crate::specs::Reading::leaf_at))]
fn read_leaf(
    alloc: Global,
    leaf: Leaf,
    last_at: u64,
    bytes: &[u8],
) -> Result<(Value, &[u8]), BsonErr>
    ensures { Gives (λ x. (x.0, x.1.now)) result (leaf_at leaf last_at bytes.now) }
{
    match leaf {
        Leaf::Text => {
            let (text, rest) = read_text(alloc, last_at, bytes)?;
            Ok((Value::Text(text), rest))
        }
        Leaf::Bin => {
            let (bin, rest) = read_binary(alloc, last_at, bytes)?;
            Ok((Value::Bin(bin), rest))
        }
        Leaf::Oid => {
            let (id, rest) = read_object_id(bytes)?;
            Ok((Value::Oid(id), rest))
        }
        Leaf::Bool => {
            let (flag, rest) = read_flag(last_at, bytes)?;
            Ok((Value::Bool(flag), rest))
        }
        Leaf::Date => {
            let (number, rest) = read_u64(bytes)?;
            Ok((Value::Date(number.cast_signed()), rest))
        }
        Leaf::Null => Ok((Value::Null, bytes)),
        Leaf::Int => {
            let (number, rest) = read_u32(bytes)?;
            Ok((Value::Int(number.cast_signed()), rest))
        }
        Leaf::Stamp => {
            let (number, rest) = read_u64(bytes)?;
            Ok((Value::Stamp(number), rest))
        }
        Leaf::Long => {
            let (number, rest) = read_u64(bytes)?;
            Ok((Value::Long(number.cast_signed()), rest))
        }
    }
}

/// The kind with the type byte that is the first of the bytes.
fn read_kind(last_at: u64, byte: u8, bytes: &[u8]) -> Result<Kind, BsonErr>
    ensures { Gives (λ k. k) result (kind_at (place last_at bytes.now) byte) }
{
    let at = start_of(last_at, bytes);
    match Kind::of(byte) {
        Some(kind) => Ok(kind),
        None => Err(BsonErr::Kind { at, byte }),
    }
}

/// A value with at most `levels` documents and lists inside one another.
#[cycle(value)]
#[tactic(auto, unfolding(crate::specs::Reading::value_by))]
fn read_value(
    alloc: Global,
    levels: u32,
    kind: Kind,
    last_at: u64,
    bytes: &[u8],
) -> Result<(Value, &[u8]), BsonErr>
    ensures { Gives (λ x. (x.0, x.1.now)) result
        (value_by (nested_at levels) kind last_at bytes.now) }
{
    match kind {
        Kind::Doc => {
            let (fields, rest) = read_nested(alloc, levels, last_at, bytes)?;
            Ok((Value::Doc(Items::from_vec(fields)), rest))
        }
        Kind::List => {
            let (fields, rest) = read_nested(alloc, levels, last_at, bytes)?;
            Ok((Value::List(Items::from_vec(values(alloc, fields)?)), rest))
        }
        Kind::Leaf(leaf) => read_leaf(alloc, leaf, last_at, bytes),
    }
}

/// A document in another, with so many levels left.
#[cycle(value)]
#[tactic(auto, unfolding(crate::specs::Reading::nested_at))]
fn read_nested(
    alloc: Global,
    levels: u32,
    last_at: u64,
    bytes: &[u8],
) -> Result<(Vec<(Name, Value)>, &[u8]), BsonErr>
    ensures { Gives (λ x. (x.0.items, x.1.now)) result (nested_at levels last_at bytes.now) }
{
    if levels == 0 {
        return Err(BsonErr::Deep {
            at: start_of(last_at, bytes),
        });
    }
    read_document(alloc, levels - 1, last_at, bytes)
}

/// A count and a document in as many bytes, over values with at most `levels`.
#[cycle(value)]
#[tactic(auto, unfolding(crate::specs::Reading::document_at))]
fn read_document(
    alloc: Global,
    levels: u32,
    last_at: u64,
    bytes: &[u8],
) -> Result<(Vec<(Name, Value)>, &[u8]), BsonErr>
    ensures { Gives (λ x. (x.0.items, x.1.now)) result
        (document_at (value_by (nested_at levels)) last_at bytes.now) }
{
    let start = start_of(last_at, bytes);
    let (count, rest) = read_count(last_at, bytes)?;
    if count < 5 {
        return Err(BsonErr::Length { at: start });
    }
    let count = (count - 4) as usize;
    if rest.len() < count {
        return Err(BsonErr::Length { at: start });
    }
    let after = &rest[count..];
    let last_at = start_of(last_at, after).saturating_sub(1);
    let fields = read_body(
        alloc,
        levels,
        start,
        last_at,
        &rest[..count - 1],
        rest[count - 1],
    )?;
    Ok((fields, after))
}

/// The elements of the document whose count is at `start`, and its last byte, which is at
/// `last_at`.
#[cycle(value)]
#[tactic(auto, unfolding(crate::specs::Reading::body_at))]
fn read_body(
    alloc: Global,
    levels: u32,
    start: u64,
    last_at: u64,
    inside: &[u8],
    last: u8,
) -> Result<Vec<(Name, Value)>, BsonErr>
    ensures { Gives (λ x. x.items) result
        (body_at (value_by (nested_at levels)) start last_at inside.now last) }
{
    let fields = read_elements(alloc, levels, start, last_at, inside)?;
    if last != 0 {
        return Err(BsonErr::Length { at: start });
    }
    Ok(fields)
}

/// The next element and the bytes after it, or none where there are no more bytes.
#[cycle(value)]
#[tactic(auto, unfolding(crate::specs::Reading::element_at))]
fn read_element(
    alloc: Global,
    levels: u32,
    start: u64,
    last_at: u64,
    bytes: &[u8],
) -> Result<Option<((Name, Value), &[u8])>, BsonErr>
    ensures { Gives (option_map (λ x. (x.0, x.1.now))) result
        (element_at (value_by (nested_at levels)) start last_at bytes.now) }
{
    let Some((byte, after)) = bytes.split_first() else {
        return Ok(None);
    };
    if *byte == 0 {
        return Err(BsonErr::Length { at: start });
    }
    let kind = read_kind(last_at, *byte, bytes)?;
    let (name, after) = front_name(alloc, last_at, after)?;
    let (value, after) = read_value(alloc, levels, kind, last_at, after)?;
    Ok(Some(((name, value), after)))
}

/// The elements that are all of the bytes. Each byte is looked at once for each part that it
/// belongs to, a name or a value, and not again for the documents around it.
#[cycle(value)]
fn read_elements(
    alloc: Global,
    levels: u32,
    start: u64,
    last_at: u64,
    bytes: &[u8],
) -> Result<Vec<(Name, Value)>, BsonErr>
    ensures { Gives (λ x. x.items) result
        (elements_at (value_by (nested_at levels)) start last_at (length bytes.now + 1) bytes.now) }
{
    let mut fields = Vec::new(alloc);
    let mut rest = bytes;
    for _ in 0..bytes.len() + 1 {
        let Some((field, after)) = read_element(alloc, levels, start, last_at, rest)? else {
            return Ok(fields);
        };
        fields.push(field)?;
        rest = after;
    }
    Err(BsonErr::Length { at: start })
}

/// The values without their names.
fn values(alloc: Global, fields: Vec<(Name, Value)>) -> Result<Vec<Value>, AllocError>
    ensures { IfOk result (λ v. v.items ≡ values_of fields.items) }
{
    fields.into_iter().map(|field| field.1).collect(alloc)
}

/// The document that is all of the bytes, or the first fault.
#[tactic(auto, unfolding(crate::specs::Reading::document_of))]
fn read_whole(alloc: Global, bytes: &[u8], limit: u32) -> Result<Doc, BsonErr>
    ensures { Gives (λ d. d) result (document_of limit bytes.now) }
{
    if bytes.len() < 5 {
        return Err(BsonErr::Short);
    }
    let (count, _) = read_u32(bytes)?;
    if count > limit.min(MOST) {
        return Err(BsonErr::TooLarge);
    }
    if count as usize != bytes.len() {
        return Err(BsonErr::Length { at: 0 });
    }
    let (fields, _) = read_nested(alloc, LEVELS, bytes.len() as u64, bytes)?;
    Ok(Items::from_vec(fields))
}

/// Reads one document, which is all of the bytes, at most `limit` of them and at most
/// 2,147,483,647. It may have 100 levels of documents and lists, itself included. Names of a list
/// are taken as they come.
///
/// Otherwise the first fault is answered that is met front to back, with its place in the bytes: of
/// an element its type byte, then its name, then its value; of a document its last byte when its
/// elements have reached it.
///
/// It goes through the bytes once, and takes no memory for a count before its bytes stand.
pub fn decode(alloc: Global, bytes: &[u8], limit: u32) -> Result<Doc, BsonErr>
    // The document, or its first fault; or memory ran out.
    ensures read { Gives (λ d. d) result (document_of limit bytes.now) }
    // What is read is in the grammar.
    ensures found { IfOk result (λ d. Reads 100 d bytes.now × (length bytes.now ≤ limit)) }
    // What is in the grammar is read, unless memory runs out.
    ensures only { (d : Document) → Reads 100 d bytes.now → length bytes.now ≤ limit
        → Gives (λ d. d) result (Ok d) }
{
    read_whole(alloc, bytes, limit)
}
