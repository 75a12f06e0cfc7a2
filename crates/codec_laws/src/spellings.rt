//! A law is the contract of a function that changes nothing and gives nothing. Where facts that
//! belong to the types of the parts are wanted, the function goes through the parts.
ghost use Rattle.std.specs.Prelude.{◌≡◌, ◌↔◌, ◌≤◌, ◌<◌, ◌^◌, ◌++◌, List, ℕ, [], Ok, length, FitsSigned};
ghost use Rattle.std.specs.Int.{w32, w64};
ghost use Rattle.std.specs.List.{All};
ghost use Rattle.bson_core.specs.Fields.{Document};
ghost use Rattle.bson_core.specs.Nesting.{nesting};
ghost use Rattle.bson_core.specs.Grammar.{Reads};
ghost use Rattle.bson_core.specs.Spelling.{spelling};
ghost use Rattle.bson_core.specs.Reading.{document_of};
ghost use Rattle.bson_core.specs.Written.{most};
ghost use Rattle.codec_laws.specs.Spells.{Spells, IsRead, IsSpelt, IsFieldSpelt};

use bson_core::{Doc, Name, Value, grammar_has_no_fault};

// A number, and an object id, are within their types.

fn i32_fits(number: &i32)
    ensures { FitsSigned w32 number.now }
{
    let _number = *number;
}

fn i64_fits(number: &i64)
    ensures { FitsSigned w64 number.now }
{
    let _number = *number;
}

fn u64_fits(number: &u64)
    ensures { number.now < 2 ^ 64 }
{
    let _number = *number;
}

fn has_twelve_bytes(bytes: &[u8; 12])
    ensures { length bytes.now ≡ 12 }
{
    let _count = bytes.len();
}

#[cycle(spelt)]
fn value_is_spelt(value: &Value)
    ensures { IsSpelt value.now }
{
    match value {
        Value::Text(text) => {
            let _text = text.as_str();
        }
        Value::Doc(doc) => fields_are_spelt(doc.as_slice()),
        Value::List(list) => values_are_spelt(list.as_slice()),
        Value::Bin(_) => {}
        Value::Oid(bytes) => has_twelve_bytes(bytes),
        Value::Bool(_) => {}
        Value::Date(moment) => i64_fits(moment),
        Value::Null => {}
        Value::Int(number) => i32_fits(number),
        Value::Stamp(number) => u64_fits(number),
        Value::Long(number) => i64_fits(number),
    }
}

#[cycle(spelt)]
fn fields_are_spelt(fields: &[(Name, Value)])
    ensures { All IsFieldSpelt fields.now }
{
    for (name, value) in fields {
        let _name = name.as_str();
        value_is_spelt(value);
    }
}

#[cycle(spelt)]
fn values_are_spelt(values: &[Value])
    ensures { All IsSpelt values.now }
{
    for value in values {
        value_is_spelt(value);
    }
}

/// A document has a spelling exactly where its bytes are as many as an int32 counts; then it is
/// `spelling`.
pub fn a_document_has_its_spelling(doc: &Doc)
    ensures { (bytes : List ℕ) → Spells doc.now bytes
        ↔ ((bytes ≡ spelling doc.now) × (length bytes ≤ most)) }
{
    fields_are_spelt(doc.as_slice());
}

/// A document has one spelling at most, which is `spelling`, and no longer than an int32 counts. It
/// is the bytes of that document, and no proper front of another's.
pub fn a_spelling_is_the_only_one()
    ensures is { (d : Document) (bytes : List ℕ) → Spells d bytes → bytes ≡ spelling d }
    ensures short { (d : Document) (bytes : List ℕ) → Spells d bytes → length bytes ≤ most }
    ensures read { (d : Document) (bytes : List ℕ) → Spells d bytes → IsRead d bytes }
    ensures no_front { (a b : Document) (bytes rest : List ℕ) → Spells a bytes
        → Spells b (bytes ++ rest) → rest ≡ [] }
{}

/// The levels of a document are those within which its bytes are read.
pub fn levels_are_nesting()
    ensures within { (levels : ℕ) (d : Document) (bytes : List ℕ) → IsRead d bytes
        → nesting d ≤ levels → Reads levels d bytes }
    ensures bound { (levels : ℕ) (d : Document) (bytes : List ℕ) → 1 ≤ levels → Reads levels d bytes
        → nesting d ≤ levels }
    ensures one { (a b : Document) (bytes : List ℕ) → IsRead a bytes → IsRead b bytes → a ≡ b }
{}

/// Reading gives a document exactly where the bytes are that document, at whatever depth, and limit
/// and nesting allow it.
pub fn reading_is_the_grammar(bytes: &[u8], limit: u32)
    ensures { (d : Document) → (document_of limit bytes.now ≡ Ok d)
        ↔ (IsRead d bytes.now × (nesting d ≤ 100) × (length bytes.now ≤ limit)) }
{
    grammar_has_no_fault(bytes, limit);
}
