//! Writing texts, documents, values and ids.
ghost use Rattle.std.specs.Prelude.{◌≡◌, [], ◌∷◌, IfOk, OnOk};
ghost use Rattle.node_wire.specs.Output.{joined};
ghost use Rattle.node_wire.specs.Spelling.{text_bytes, value_bytes, id_bytes};
ghost use Rattle.txn_types.specs.Ids.{value_of_id, id_document};

use crate::output::Output;
use crate::spell_fields::put_count;
use bson_core::{Doc, Name, Value};
use sqlite_items::Items;
use std::alloc::{AllocError, Global};
use txn_types::Id;

/// The length of a text, and its bytes.
#[tactic(auto, using(crate::proofs::Joined::joined_twice))]
pub fn put_text(out: &mut Output, text: &[u8]) -> Result<(), AllocError>
    ensures { OnOk result (out.new ≡ joined out.old (text_bytes text.now)) }
{
    put_count(out, text.len())?;
    out.put(text)
}

/// The document that has the value under the empty name.
fn value_document(alloc: Global, value: &Value) -> Result<Doc, AllocError>
    ensures { IfOk result (λ d. d ≡ ([], value.now) ∷ []) }
{
    let mut fields = Vec::new(alloc);
    let name = Name::from_str(alloc, "")?;
    fields.push((name, value.copy(alloc)?))?;
    Ok(Items::from_vec(fields))
}

#[tactic(auto, using(crate::proofs::Joined::joined_twice))]
pub fn put_value(alloc: Global, out: &mut Output, value: &Value) -> Result<(), AllocError>
    ensures { OnOk result (out.new ≡ joined out.old (value_bytes value.now)) }
{
    let doc = value_document(alloc, value)?;
    out.put_document(alloc, &doc)
}

fn value_of_id(alloc: Global, id: &Id) -> Result<Value, AllocError>
    ensures { IfOk result (λ v. v ≡ value_of_id id.now) }
{
    match id {
        Id::Num(number) => Ok(Value::Long(*number)),
        Id::Text(text) => Ok(Value::Text(text.copy(alloc)?)),
        Id::Bin(bin) => Ok(Value::Bin(bin.copy(alloc)?)),
        Id::Oid(bytes) => Ok(Value::Oid(*bytes)),
        Id::Bool(flag) => Ok(Value::Bool(*flag)),
        Id::Date(moment) => Ok(Value::Date(*moment)),
    }
}

/// A document that is its id alone.
fn id_document(alloc: Global, id: &Id) -> Result<Doc, AllocError>
    ensures { IfOk result (λ d. d ≡ id_document id.now) }
{
    let mut fields = Vec::new(alloc);
    let name = Name::from_str(alloc, "_id")?;
    fields.push((name, value_of_id(alloc, id)?))?;
    Ok(Items::from_vec(fields))
}

#[tactic(auto, using(crate::proofs::Joined::joined_twice))]
pub fn put_id(alloc: Global, out: &mut Output, id: &Id) -> Result<(), AllocError>
    ensures { OnOk result (out.new ≡ joined out.old (id_bytes id.now)) }
{
    let doc = id_document(alloc, id)?;
    out.put_document(alloc, &doc)
}
