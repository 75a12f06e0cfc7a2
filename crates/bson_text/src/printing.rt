ghost use Rattle.std.specs.Prelude.{◌≡◌, ◌==◌, [], ◌++◌, if◌then◌else◌, codes, map, string_bytes, OnOk, IfOk};
ghost use Rattle.std.specs.Char.{encode_utf8};
ghost use Rattle.std.specs.List.{flat_map};
ghost use Rattle.bson_text.specs.Text.{binary, bracketed, document_text, escaped, field_text, hex_digits, quoted, timestamp, value_text};

use crate::error::TextErr;
use bson_core::{Bin, Doc, Name, Value};
use itoa::{Buffer, Integer};
use std::alloc::{AllocError, Global};

fn put_number<I: Integer>(out: &mut String, number: I) -> Result<(), AllocError>
    ensures { OnOk result (string_bytes out.new ≡ string_bytes out.old ++ I.text number) }
{
    let mut buffer = Buffer::new();
    out.push_str(buffer.format(number))
}

/// Appends two hexadecimal digits a byte.
fn put_hex(out: &mut String, bytes: &[u8]) -> Result<(), AllocError>
    ensures { OnOk result (string_bytes out.new ≡ string_bytes out.old ++ hex_digits bytes.now) }
{
    for byte in bytes {
        write!(out, "{byte:02x}")?;
    }
    Ok(())
}

/// Appends a character of a quoted text.
fn put_char(out: &mut String, c: char) -> Result<(), AllocError>
    ensures { OnOk result
        (string_bytes out.new ≡ string_bytes out.old ++ flat_map escaped (encode_utf8 c)) }
{
    match c {
        '"' => out.push_str("\\\""),
        '\\' => out.push_str("\\\\"),
        '\0'..='\x1f' => {
            out.push_str("\\u00")?;
            put_hex(out, &[c as u8])
        }
        _ => out.push(c),
    }
}

fn put_quoted(out: &mut String, text: &str) -> Result<(), AllocError>
    ensures { OnOk result (string_bytes out.new ≡ string_bytes out.old ++ quoted text.now) }
{
    out.push('"')?;
    for c in text.chars() {
        put_char(out, c)?;
    }
    out.push('"')
}

fn put_binary(out: &mut String, bin: &Bin) -> Result<(), AllocError>
    ensures { OnOk result (string_bytes out.new ≡ string_bytes out.old ++ binary bin.now) }
{
    out.push('b')?;
    put_number(out, bin.subtype)?;
    out.push(':')?;
    put_hex(out, bin.bytes.as_slice())
}

fn put_timestamp(out: &mut String, stamp: u64) -> Result<(), AllocError>
    ensures { OnOk result (string_bytes out.new ≡ string_bytes out.old ++ timestamp stamp) }
{
    out.push_str("t:")?;
    put_number(out, stamp >> 32)?;
    out.push('.')?;
    put_number(out, stamp & 0xffff_ffff)
}

/// Appends what stands between a piece and the one in front of it, if there is one.
fn put_separator(out: &mut String, place: usize) -> Result<(), AllocError>
    ensures { OnOk result
        (string_bytes out.new ≡ string_bytes out.old ++ (if place == 0 then [] else codes ", ")) }
{
    if place > 0 {
        out.push_str(", ")?;
    }
    Ok(())
}

#[cycle(put)]
#[tactic(auto, using(crate::proofs::Equations::value_text_kinds))]
fn put_value(out: &mut String, value: &Value) -> Result<(), AllocError>
    ensures { OnOk result (string_bytes out.new ≡ string_bytes out.old ++ value_text value.now) }
{
    match value {
        Value::Null => out.push_str("null"),
        Value::Bool(true) => out.push_str("true"),
        Value::Bool(false) => out.push_str("false"),
        Value::Int(number) => put_number(out, *number),
        Value::Long(number) => {
            put_number(out, *number)?;
            out.push('L')
        }
        Value::Text(text) => put_quoted(out, text.as_str()),
        Value::Doc(doc) => put_document(out, doc.as_slice()),
        Value::List(list) => put_list(out, list.as_slice()),
        Value::Bin(bin) => put_binary(out, bin),
        Value::Oid(bytes) => {
            out.push_str("o:")?;
            put_hex(out, bytes)
        }
        Value::Date(moment) => {
            out.push_str("d:")?;
            put_number(out, *moment)
        }
        Value::Stamp(stamp) => put_timestamp(out, *stamp),
    }
}

#[cycle(put)]
fn put_field(out: &mut String, name: &str, value: &Value) -> Result<(), AllocError>
    ensures { OnOk result (string_bytes out.new
        ≡ string_bytes out.old ++ field_text (name.now, value_text value.now)) }
{
    put_quoted(out, name)?;
    out.push_str(": ")?;
    put_value(out, value)
}

#[cycle(put)]
fn put_document(out: &mut String, fields: &[(Name, Value)]) -> Result<(), AllocError>
    ensures { OnOk result
        (string_bytes out.new ≡ string_bytes out.old ++ document_text fields.now) }
{
    out.push('{')?;
    for (place, (name, value)) in fields.iter().enumerate() {
        put_separator(out, place)?;
        put_field(out, name.as_str(), value)?;
    }
    out.push('}')
}

#[cycle(put)]
fn put_list(out: &mut String, values: &[Value]) -> Result<(), AllocError>
    ensures { OnOk result
        (string_bytes out.new ≡ string_bytes out.old ++ bracketed (map value_text values.now)) }
{
    out.push('[')?;
    for (place, value) in values.iter().enumerate() {
        put_separator(out, place)?;
        put_value(out, value)?;
    }
    out.push(']')
}

/// The document's text, on one line. It is written once from front to back, whatever the nesting.
pub fn print(alloc: Global, doc: &Doc) -> Result<String, TextErr>
    ensures { IfOk result (λ s. string_bytes s ≡ document_text doc.now) }
{
    let mut out = String::new(alloc);
    put_document(&mut out, doc.as_slice())?;
    Ok(out)
}

/// The value's text, on one line.
pub fn print_value(alloc: Global, value: &Value) -> Result<String, TextErr>
    ensures { IfOk result (λ s. string_bytes s ≡ value_text value.now) }
{
    let mut out = String::new(alloc);
    put_value(&mut out, value)?;
    Ok(out)
}
