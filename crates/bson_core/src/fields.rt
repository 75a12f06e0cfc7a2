ghost use Rattle.std.specs.Prelude.{◌≡◌, ◌<◌, length, position, IsTrue, OnOk, OnErr, IfErr, IfSome};
ghost use Rattle.std.specs.Str.{bytes_eq};
ghost use Rattle.std.specs.Option.{option_copied};
ghost use Rattle.bson_core.specs.Names.{has_no_zero};
ghost use Rattle.bson_core.specs.Fields.{value_of, with_value};

use crate::text::Name;
use crate::value::{Doc, Value};
use std::alloc::Global;

/// The first value of that name.
pub fn get<'a>(doc: &'a Doc, name: &str) -> Option<&'a Value>
    ensures { option_copied result ≡ value_of name.now doc.now }
{
    for (field, value) in doc.as_slice() {
        if field.as_str() == name {
            return Some(value);
        }
    }
    None
}

/// The place of the first field of that name.
fn place_of(doc: &Doc, name: &str) -> Option<usize>
    ensures place { result ≡ position (λ field. bytes_eq field.0 name.now) doc.now }
    ensures within { IfSome result (λ at. at < length doc.now) }
{
    doc.as_slice()
        .iter()
        .position(|field| field.0.as_str() == name)
}

/// Puts the value in place of the first of that name, or after the others where there is none. For
/// out of memory the value comes back, and the document is as it was.
pub fn set(alloc: Global, doc: &mut Doc, name: &str, value: Value) -> Result<(), Value>
    requires { IsTrue (has_no_zero name.now) }
    ensures ok { OnOk result (doc.new ≡ with_value name.now value doc.old) }
    ensures err { OnErr result (doc.new ≡ doc.old) }
    ensures back { IfErr result (λ v. v ≡ value) }
{
    let Ok(field) = Name::from_str(alloc, name) else {
        return Err(value);
    };
    if let Some(at) = place_of(doc, name) {
        doc.set(at, (field, value));
        return Ok(());
    }
    let Ok(empty) = Name::from_str(alloc, "") else {
        return Err(value);
    };
    let Ok(()) = doc.push((empty, Value::Null)) else {
        return Err(value);
    };
    doc.set(doc.len() - 1, (field, value));
    Ok(())
}
