ghost use Rattle.std.specs.Prelude.{◌≡◌};
ghost use Rattle.std.specs.Cmp.Lexicographic.{slice_cmp};
ghost use Rattle.bson_core.specs.Order.{bracket, value_cmp};
ghost use Rattle.value_order.specs.Parts.{binary_cmp, field_cmp};

use bson_core::{Bin, Name, Value};
use std::cmp::Ordering;

/// The bracket of the value's kind, 1 to 10: null, numbers, texts, documents, lists, binaries,
/// object ids, truth values, dates, timestamps.
pub fn bracket(value: &Value) -> u8
    ensures { result ≡ bracket value.now }
{
    match value {
        Value::Null => 1,
        Value::Int(_) | Value::Long(_) => 2,
        Value::Text(_) => 3,
        Value::Doc(_) => 4,
        Value::List(_) => 5,
        Value::Bin(_) => 6,
        Value::Oid(_) => 7,
        Value::Bool(_) => 8,
        Value::Date(_) => 9,
        Value::Stamp(_) => 10,
    }
}

/// Where one value stands beside another: first by their brackets, then by what they are. The model
/// is the MongoDB manual's comparison order of BSON types. It takes no memory, and time up to the
/// size of the smaller value.
#[cycle(compare)]
#[tactic(auto, using(crate::proofs::Pairs::pairs))]
pub fn compare(a: &Value, b: &Value) -> Ordering
    ensures { result ≡ value_cmp a.now b.now }
{
    match (a, b) {
        (Value::Int(a), Value::Int(b)) => a.cmp(b),
        (Value::Int(a), Value::Long(b)) => i64::from(*a).cmp(b),
        (Value::Long(a), Value::Int(b)) => a.cmp(&i64::from(*b)),
        (Value::Long(a), Value::Long(b)) => a.cmp(b),
        (Value::Text(a), Value::Text(b)) => a.as_str().cmp(b.as_str()),
        (Value::Doc(a), Value::Doc(b)) => compare_documents(a.as_slice(), b.as_slice()),
        (Value::List(a), Value::List(b)) => compare_lists(a.as_slice(), b.as_slice()),
        (Value::Bin(a), Value::Bin(b)) => compare_binaries(a, b),
        (Value::Oid(a), Value::Oid(b)) => a.cmp(b),
        (Value::Bool(a), Value::Bool(b)) => a.cmp(b),
        (Value::Date(a), Value::Date(b)) => a.cmp(b),
        (Value::Stamp(a), Value::Stamp(b)) => a.cmp(b),
        _ => bracket(a).cmp(&bracket(b)),
    }
}

/// By length, then by subtype, then by the bytes.
fn compare_binaries(a: &Bin, b: &Bin) -> Ordering
    ensures { result ≡ binary_cmp a.now b.now }
{
    let bytes = a.bytes.as_slice();
    let others = b.bytes.as_slice();
    let lengths = bytes.len().cmp(&others.len());
    lengths
        .then(a.subtype.cmp(&b.subtype))
        .then(bytes.cmp(others))
}

/// A field beside another: by the value's bracket, then by the name, then by the value.
#[cycle(compare)]
fn compare_fields(name: &Name, value: &Value, other_name: &Name, other: &Value) -> Ordering
    ensures { result ≡ field_cmp (name.now, value.now) (other_name.now, other.now) }
{
    let brackets = bracket(value).cmp(&bracket(other));
    match brackets.then(name.as_str().cmp(other_name.as_str())) {
        Ordering::Equal => compare(value, other),
        order => order,
    }
}

/// Field by field; a proper prefix comes first.
#[cycle(compare)]
fn compare_documents(fields: &[(Name, Value)], others: &[(Name, Value)]) -> Ordering
    ensures { result ≡ slice_cmp field_cmp fields.now others.now }
{
    for ((name, value), (other_name, other)) in fields.iter().zip(others) {
        let order = compare_fields(name, value, other_name, other);
        if order.is_ne() {
            return order;
        }
    }
    fields.len().cmp(&others.len())
}

/// Value by value; a proper prefix comes first.
#[cycle(compare)]
fn compare_lists(values: &[Value], others: &[Value]) -> Ordering
    ensures { result ≡ slice_cmp value_cmp values.now others.now }
{
    for (value, other) in values.iter().zip(others) {
        let order = compare(value, other);
        if order.is_ne() {
            return order;
        }
    }
    values.len().cmp(&others.len())
}
