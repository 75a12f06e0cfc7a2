ghost use Rattle.std.specs.Prelude.{◌≡◌, ◌^◌, ◌+◌, ◌-◌, length, map, min};
ghost use Rattle.bson_core.specs.Spelling.{coded, elements, numbered, spelling};

use crate::text::Name;
use crate::value::{Doc, Value};
use itoa::Buffer;

/// A count of all bytes, and the 00 at the end.
const FRAME: u64 = 5;

/// The bytes of an object id.
pub(crate) fn id_size(bytes: &[u8; 12]) -> u64
    ensures bytes { result ≡ length bytes.now }
    ensures twelve { result ≡ 12 }
{
    bytes.len() as u64
}

/// The bytes of a value, without its kind and name.
#[cycle(size)]
#[tactic(auto, using(crate::proofs::Lengths::length_coded))]
fn value_size(value: &Value) -> u64
    ensures { result ≡ min (length (coded value.now).1) (2 ^ 64 - 1) }
{
    match value {
        Value::Text(text) => (text.as_str().len() as u64).saturating_add(5),
        Value::Doc(doc) => elements_size(doc.as_slice()).saturating_add(FRAME),
        Value::List(list) => numbered_size(list.as_slice()).saturating_add(FRAME),
        Value::Bin(bin) => (bin.bytes.as_slice().len() as u64).saturating_add(5),
        Value::Oid(bytes) => id_size(bytes),
        Value::Bool(_) => 1,
        Value::Null => 0,
        Value::Int(_) => 4,
        Value::Date(_) | Value::Stamp(_) | Value::Long(_) => 8,
    }
}

/// The bytes of an element under a name of that length.
#[cycle(size)]
fn element_size(name_len: usize, value: &Value) -> u64
    ensures { result ≡ min (name_len + 2 + length (coded value.now).1) (2 ^ 64 - 1) }
{
    (name_len as u64)
        .saturating_add(2)
        .saturating_add(value_size(value))
}

#[cycle(size)]
fn elements_size(fields: &[(Name, Value)]) -> u64
    ensures { result ≡ min (length (elements fields.now)) (2 ^ 64 - 1) }
{
    let mut size = 0u64;
    for (name, value) in fields {
        size = size.saturating_add(element_size(name.as_str().len(), value));
    }
    size
}

#[cycle(size)]
fn numbered_size(values: &[Value]) -> u64
    ensures { result ≡ min (length (numbered 0 (map coded values.now))) (2 ^ 64 - 1) }
{
    let mut size = 0u64;
    for (place, value) in values.iter().enumerate() {
        let mut buffer = Buffer::new();
        let name_len = buffer.format(place).len();
        size = size.saturating_add(element_size(name_len, value));
    }
    size
}

/// The number of bytes that the document's spelling asks for, at most 2^64 - 1. It takes no memory.
#[tactic(auto, using(crate::proofs::Lengths::length_framed))]
pub fn size(doc: &Doc) -> u64
    ensures { result ≡ min (length (spelling doc.now)) (2 ^ 64 - 1) }
{
    let elements = elements_size(doc.as_slice());
    elements.saturating_add(FRAME)
}
