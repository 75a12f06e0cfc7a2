//! Laws of the definitions: a law is the contract of a function that changes nothing and gives
//! nothing. Where facts that belong to the types of the parts are wanted, the function goes through
//! the parts.
ghost use Rattle.std.specs.Prelude.{◌≡◌, ◌≤◌, ◌<◌, ◌^◌, ◌++◌, List, ℕ, [], Ok, length, FitsSigned};
ghost use Rattle.std.specs.Int.{w32, w64};
ghost use Rattle.std.specs.List.{All};
ghost use Rattle.bson_core.specs.Fields.{Document};
ghost use Rattle.bson_core.specs.Grammar.{Reads};
ghost use Rattle.bson_core.specs.Nesting.{nesting};
ghost use Rattle.bson_core.specs.Reading.{document_of};
ghost use Rattle.bson_core.specs.Spelling.{spelling};
ghost use Rattle.bson_core.specs.Written.{IsWritten, IsFieldWritten, most};

use crate::sizes::id_size;
use crate::text::Name;
use crate::value::{Doc, Value};

// A number that is read is within its type.

fn i32_fits(number: &i32)
    ensures { FitsSigned w32 number.now }
{
    let _number = *number;
}

fn i64_fits(number: &i64)
    ensures { FitsSigned w64 number.now }
{
    let _number = *number;
}

fn u64_fits(number: &u64)
    ensures { number.now < 2 ^ 64 }
{
    let _number = *number;
}

#[cycle(written)]
fn value_is_written(value: &Value)
    ensures { IsWritten value.now }
{
    match value {
        Value::Text(text) => {
            let _text = text.as_str();
        }
        Value::Doc(doc) => fields_are_written(doc.as_slice()),
        Value::List(list) => values_are_written(list.as_slice()),
        Value::Bin(_) => {}
        Value::Oid(bytes) => {
            let _twelve = id_size(bytes);
        }
        Value::Bool(_) => {}
        Value::Date(moment) => i64_fits(moment),
        Value::Null => {}
        Value::Int(number) => i32_fits(number),
        Value::Stamp(number) => u64_fits(number),
        Value::Long(number) => i64_fits(number),
    }
}

#[cycle(written)]
fn fields_are_written(fields: &[(Name, Value)])
    ensures { All IsFieldWritten fields.now }
{
    for (name, value) in fields {
        let _name = name.as_str();
        value_is_written(value);
    }
}

#[cycle(written)]
fn values_are_written(values: &[Value])
    ensures { All IsWritten values.now }
{
    for value in values {
        value_is_written(value);
    }
}

/// What is written of a document is in the grammar, where its levels and its length allow it.
pub fn spelling_is_in_the_grammar(doc: &Doc)
    ensures { nesting doc.now ≤ 100 → length (spelling doc.now) ≤ most
        → Reads 100 doc.now (spelling doc.now) }
{
    fields_are_written(doc.as_slice());
}

/// What is written of a document is read as that document, where its levels and its length allow
/// it.
pub fn reading_undoes_writing(doc: &Doc)
    ensures { (limit : ℕ) → nesting doc.now ≤ 100 → length (spelling doc.now) ≤ most
        → length (spelling doc.now) ≤ limit → document_of limit (spelling doc.now) ≡ Ok doc.now }
{
    spelling_is_in_the_grammar(doc);
}

/// Bytes are in the grammar, within the limit, exactly where reading them meets no fault; and then
/// it gives the document whose bytes they are.
pub fn grammar_has_no_fault(bytes: &[u8], limit: u32)
    ensures read { (d : Document) → Reads 100 d bytes.now → length bytes.now ≤ limit
        → document_of limit bytes.now ≡ Ok d }
    ensures found { (d : Document) → document_of limit bytes.now ≡ Ok d → Reads 100 d bytes.now }
    ensures within { (d : Document) → document_of limit bytes.now ≡ Ok d
        → length bytes.now ≤ limit }
{
    let _len = bytes.len();
}

/// Bytes are those of one document at most, and the bytes of a document are no proper front of
/// another's.
pub fn documents_are_told_apart()
    ensures one { (a b : Document) (bytes : List ℕ) → Reads 100 a bytes
        → Reads 100 b bytes → a ≡ b }
    ensures no_front { (levels depth : ℕ) (a b : Document) (bytes rest : List ℕ)
        → Reads levels a bytes → Reads depth b (bytes ++ rest) → rest ≡ [] }
{}
