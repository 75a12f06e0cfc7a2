ghost use Rattle.std.specs.Prelude.{◌≡◌, ◌++◌, ◌+◌, ◌<◌, ◌≤◌, ◌⊎◌, map, take, drop, length, vec_len, OnOk, OnErr, IfErr};
ghost use Rattle.std.specs.Int.{w32, to_le_bytes};
ghost use Rattle.bson_core.specs.Spelling.{coded, element, elements, numbered, spelling, text, framed, binary};

use crate::error::BsonErr;
use crate::sizes::size;
use crate::text::{Name, Text};
use crate::value::{Bin, Doc, Value};
use itoa::Buffer;
use std::alloc::{AllocError, Global};

/// No document that is encoded is longer, since its count is an int32 that isn't negative.
const MOST: u64 = 0x7fff_ffff;

/// The four low bytes of a count, lowest first.
pub fn low_bytes(count: u64) -> [u8; 4]
    ensures { result ≡ to_le_bytes w32 count }
{
    let bytes = count.to_le_bytes();
    [bytes[0], bytes[1], bytes[2], bytes[3]]
}

#[tactic(auto, unfolding(crate::specs::Spelling::text))]
fn put_text(out: &mut Vec<u8>, string: &Text) -> Result<(), AllocError>
    ensures { OnOk result (out.new.items ≡ out.old.items ++ text string.now) }
{
    let bytes = string.as_str().as_bytes();
    out.extend_from_slice(&low_bytes(bytes.len() as u64 + 1))?;
    out.extend_from_slice(bytes)?;
    Ok(out.push(0)?)
}

#[tactic(auto, unfolding(crate::specs::Spelling::binary))]
fn put_binary(out: &mut Vec<u8>, bin: &Bin) -> Result<(), AllocError>
    ensures { OnOk result (out.new.items ≡ out.old.items ++ binary bin.now) }
{
    let bytes = bin.bytes.as_slice();
    out.extend_from_slice(&low_bytes(bytes.len() as u64))?;
    out.push(bin.subtype)?;
    out.extend_from_slice(bytes)
}

/// Ends the document whose count, still to be set, stands at `start`: a 00, and then the count.
#[tactic(auto, unfolding(crate::specs::Spelling::framed))]
fn close_document(out: &mut Vec<u8>, start: usize) -> Result<(), AllocError>
    requires { start + 4 ≤ vec_len out.old }
    ensures { OnOk result
        (out.new.items ≡ take start out.old.items ++ framed (drop (start + 4) out.old.items)) }
{
    out.push(0)?;
    let count = (out.len() - start) as u64;
    out[start..start + 4].copy_from_slice(&low_bytes(count));
    Ok(())
}

/// The byte of the value's kind.
fn kind_of(value: &Value) -> u8
    ensures { result ≡ (coded value.now).0 }
{
    match value {
        Value::Text(_) => 2,
        Value::Doc(_) => 3,
        Value::List(_) => 4,
        Value::Bin(_) => 5,
        Value::Oid(_) => 7,
        Value::Bool(_) => 8,
        Value::Date(_) => 9,
        Value::Null => 10,
        Value::Int(_) => 16,
        Value::Stamp(_) => 17,
        Value::Long(_) => 18,
    }
}

/// A document or a list opens with a count that is set at its end, so that each byte is written
/// once at any nesting.
#[cycle(put)]
#[tactic(auto, using(crate::proofs::Spelled::coded_doc, crate::proofs::Spelled::coded_list))]
fn put_value(out: &mut Vec<u8>, value: &Value) -> Result<(), AllocError>
    ensures { OnOk result (out.new.items ≡ out.old.items ++ (coded value.now).1) }
{
    match value {
        Value::Text(string) => put_text(out, string),
        Value::Doc(doc) => put_document(out, doc.as_slice()),
        Value::List(list) => put_list(out, list.as_slice()),
        Value::Bin(bin) => put_binary(out, bin),
        Value::Oid(bytes) => out.extend_from_slice(bytes),
        Value::Bool(flag) => Ok(out.push(u8::from(*flag))?),
        Value::Date(moment) => out.extend_from_slice(&moment.to_le_bytes()),
        Value::Null => Ok(()),
        Value::Int(number) => out.extend_from_slice(&number.to_le_bytes()),
        Value::Stamp(number) => out.extend_from_slice(&number.to_le_bytes()),
        Value::Long(number) => out.extend_from_slice(&number.to_le_bytes()),
    }
}

#[cycle(put)]
fn put_element(out: &mut Vec<u8>, name: &str, value: &Value) -> Result<(), AllocError>
    ensures { OnOk result (out.new.items ≡ out.old.items ++ element (name.now, coded value.now)) }
{
    out.push(kind_of(value))?;
    out.extend_from_slice(name.as_bytes())?;
    out.push(0)?;
    put_value(out, value)
}

#[cycle(put)]
fn put_elements(out: &mut Vec<u8>, fields: &[(Name, Value)]) -> Result<(), AllocError>
    ensures { OnOk result (out.new.items ≡ out.old.items ++ elements fields.now) }
{
    for (name, value) in fields {
        put_element(out, name.as_str(), value)?;
    }
    Ok(())
}

#[cycle(put)]
fn put_numbered(out: &mut Vec<u8>, values: &[Value]) -> Result<(), AllocError>
    ensures { OnOk result (out.new.items ≡ out.old.items ++ numbered 0 (map coded values.now)) }
{
    for (place, value) in values.iter().enumerate() {
        let mut buffer = Buffer::new();
        put_element(out, buffer.format(place), value)?;
    }
    Ok(())
}

#[cycle(put)]
#[tactic(auto, using(crate::proofs::Lengths::length_framed))]
fn put_document(out: &mut Vec<u8>, fields: &[(Name, Value)]) -> Result<(), AllocError>
    ensures { OnOk result (out.new.items ≡ out.old.items ++ framed (elements fields.now)) }
{
    let start = out.len();
    out.extend_from_slice(&[0; 4])?;
    put_elements(out, fields)?;
    close_document(out, start)
}

#[cycle(put)]
#[tactic(auto, using(crate::proofs::Lengths::length_framed))]
fn put_list(out: &mut Vec<u8>, values: &[Value]) -> Result<(), AllocError>
    ensures { OnOk result
        (out.new.items ≡ out.old.items ++ framed (numbered 0 (map coded values.now))) }
{
    let start = out.len();
    out.extend_from_slice(&[0; 4])?;
    put_numbered(out, values)?;
    close_document(out, start)
}

/// Appends the document's bytes, in its one spelling, however long that is. What doesn't fit into a
/// count's int32 is left away there, so only a document of at most 2,147,483,647 bytes is read
/// again. Once through the document.
///
/// Where memory runs out, a front of the bytes may have been appended.
pub fn append(doc: &Doc, out: &mut Vec<u8>) -> Result<(), AllocError>
    ensures { OnOk result (out.new.items ≡ out.old.items ++ spelling doc.now) }
{
    put_document(out, doc.as_slice())
}

/// Appends the document's bytes, in its one spelling. It goes through the document twice, whatever
/// its nesting: once for its size, once for its bytes.
pub fn encode(alloc: Global, doc: &Doc, out: &mut Vec<u8>) -> Result<(), BsonErr>
    ensures ok { OnOk result (out.new.items ≡ out.old.items ++ spelling doc.now) }
    // It is refused exactly where the spelling is longer than its count can say, or memory runs
    // out.
    ensures too_large { result ≡ Err BsonErr.TooLarge → MOST < length (spelling doc.now) }
    ensures large { MOST < length (spelling doc.now) → (result ≡ Err BsonErr.TooLarge) }
    ensures refused { OnErr result (out.new.items ≡ out.old.items) }
    ensures causes { IfErr result (λ e. (e ≡ BsonErr.TooLarge) ⊎ (e ≡ BsonErr.Memory)) }
{
    if size(doc) > MOST {
        return Err(BsonErr::TooLarge);
    }
    let mut whole = Vec::new(alloc);
    append(doc, &mut whole)?;
    out.extend_from_slice(&whole)?;
    Ok(())
}
