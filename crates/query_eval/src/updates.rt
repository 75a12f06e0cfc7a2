ghost use Rattle.std.specs.Prelude.{◌≡◌, ◌≤◌, ◌+ℤ◌, ◌++◌, length, IfOk};
ghost use Rattle.bson_core.specs.Spelling.{spelling};
ghost use Rattle.txn_types.specs.declared.update.Update.TheVariants.{Ops};
ghost use Rattle.bson_core.specs.declared.value.Value.TheViews.{out-Value};
ghost use Rattle.bson_core.specs.Fields.{value_of, with_value};
ghost use Rattle.txn_types.specs.Ids.{id_name};
ghost use Rattle.txn_semantics.specs.Updates.{long_of, int_of, sum_of, amount_of, increased, without_name, applied, all_applied, is_same_value, id_fields, replaced, may_replace, updated_by, apply};
ghost use Rattle.query_eval.specs.Refusals.{Gives};

use crate::error::ApplyErr;
use bson_core::{Doc, Name, Value, copy_doc, get, set, size};
use sqlite_items::Items;
use std::alloc::{AllocError, Global};
use txn_types::{Update, UpdateKind, UpdateOp};
use value_order::compare;

/// No stored document is longer, in bytes.
const MOST_STORED: u64 = 16_777_216;

#[tactic(auto, using(crate::proofs::Sums::long_fits, crate::proofs::Sums::long_over))]
fn long_sum(a: i64, b: i64) -> Result<Value, ApplyErr>
    ensures { Gives result (long_of (a +ℤ b)) }
{
    match a.checked_add(b) {
        Some(sum) => Ok(Value::Long(sum)),
        None => Err(ApplyErr::Overflow),
    }
}

#[tactic(auto, using(crate::proofs::Sums::int_fits, crate::proofs::Sums::int_over))]
fn int_sum(a: i32, b: i32) -> Result<Value, ApplyErr>
    ensures { Gives result (int_of (a +ℤ b)) }
{
    match a.checked_add(b) {
        Some(sum) => Ok(Value::Int(sum)),
        None => Ok(Value::Long(i64::from(a) + i64::from(b))),
    }
}

/// The sum of two numbers.
fn sum_of(value: &Value, amount: &Value) -> Result<Value, ApplyErr>
    ensures { Gives result (sum_of (out-Value value.now) (out-Value amount.now)) }
{
    match (value, amount) {
        (Value::Int(a), Value::Int(b)) => int_sum(*a, *b),
        (Value::Int(a), Value::Long(b)) => long_sum(i64::from(*a), *b),
        (Value::Long(a), Value::Int(b)) => long_sum(*a, i64::from(*b)),
        (Value::Long(a), Value::Long(b)) => long_sum(*a, *b),
        _ => Err(ApplyErr::NotNumber),
    }
}

/// What a field that isn't there becomes.
fn amount_of(amount: &Value) -> Result<Value, ApplyErr>
    ensures { Gives result (amount_of (out-Value amount.now)) }
{
    match amount {
        Value::Int(number) => Ok(Value::Int(*number)),
        Value::Long(number) => Ok(Value::Long(*number)),
        _ => Err(ApplyErr::NotNumber),
    }
}

/// What the field of that name becomes.
fn increased(doc: &Doc, name: &str, amount: &Value) -> Result<Value, ApplyErr>
    ensures { Gives result (increased (value_of name.now doc.now) amount.now) }
{
    match get(doc, name) {
        Some(value) => sum_of(value, amount),
        None => amount_of(amount),
    }
}

/// These fields, and after them the document's fields of other names.
fn and_without_name(
    alloc: Global,
    mut fields: Vec<(Name, Value)>,
    doc: &Doc,
    name: &str,
) -> Result<Vec<(Name, Value)>, AllocError>
    ensures { IfOk result (λ all. all.items ≡ fields.items ++ without_name name.now doc.now) }
{
    for (field, value) in doc.as_slice() {
        if field.as_str() != name {
            fields.push((field.copy(alloc)?, value.copy(alloc)?))?;
        }
    }
    Ok(fields)
}

/// The document's fields of other names. They move: none is copied.
fn remove_name(alloc: Global, mut doc: Doc, name: &str) -> Result<Doc, AllocError>
    ensures { IfOk result (λ new. new ≡ without_name name.now doc) }
{
    let mut fields = Vec::new(alloc);
    while let Some((field, value)) = doc.pop() {
        if field.as_str() != name {
            fields.push((field, value))?;
        }
    }
    fields.reverse();
    Ok(Items::from_vec(fields))
}

/// The document with the value at its place, or after the others.
fn with_value(alloc: Global, mut doc: Doc, name: &Name, value: Value) -> Result<Doc, AllocError>
    ensures { IfOk result (λ new. new ≡ with_value name.now value doc) }
{
    match set(alloc, &mut doc, name.as_str(), value) {
        Ok(()) => Ok(doc),
        Err(_) => Err(AllocError),
    }
}

/// What one operator makes of the document.
fn applied(alloc: Global, op: &UpdateOp, doc: Doc) -> Result<Doc, ApplyErr>
    ensures { Gives result (applied op.now.kind op.now.name op.now.value doc) }
{
    match op.kind {
        UpdateKind::Set => {
            let value = op.value.copy(alloc)?;
            Ok(with_value(alloc, doc, &op.name, value)?)
        }
        UpdateKind::Unset => Ok(remove_name(alloc, doc, op.name.as_str())?),
        UpdateKind::Inc => {
            let sum = increased(&doc, op.name.as_str(), &op.value)?;
            Ok(with_value(alloc, doc, &op.name, sum)?)
        }
    }
}

/// One operator after the other.
fn all_applied(alloc: Global, ops: &[UpdateOp], doc: &Doc) -> Result<Doc, ApplyErr>
    ensures { Gives result (all_applied ops.now doc.now) }
{
    let mut new = copy_doc(alloc, doc)?;
    for op in ops {
        new = applied(alloc, op, new)?;
    }
    Ok(new)
}

/// Whether both documents have one `_id`, by the order of values, or none.
fn have_one_id(new: &Doc, doc: &Doc) -> bool
    ensures { result ≡ is_same_value (value_of id_name new.now) (value_of id_name doc.now) }
{
    match (get(new, "_id"), get(doc, "_id")) {
        (Some(own), Some(old)) => compare(own, old).is_eq(),
        (None, None) => true,
        (Some(_), None) | (None, Some(_)) => false,
    }
}

/// Whether the document's own `_id`, if it has one, is the old one.
fn may_replace(new: &Doc, doc: &Doc) -> bool
    ensures { result ≡ may_replace (value_of id_name new.now) (value_of id_name doc.now) }
{
    get(new, "_id").is_none() || have_one_id(new, doc)
}

/// The field `_id`, where the document has one.
fn id_fields(alloc: Global, doc: &Doc) -> Result<Vec<(Name, Value)>, AllocError>
    ensures { IfOk result (λ fields. fields.items ≡ id_fields (value_of id_name doc.now)) }
{
    let mut fields = Vec::new(alloc);
    if let Some(id) = get(doc, "_id") {
        fields.push((Name::from_str(alloc, "_id")?, id.copy(alloc)?))?;
    }
    Ok(fields)
}

/// The new document under the old `_id`.
fn replaced(alloc: Global, new: &Doc, doc: &Doc) -> Result<Doc, ApplyErr>
    ensures { Gives result (replaced new.now doc.now) }
{
    if !may_replace(new, doc) {
        return Err(ApplyErr::Immutable);
    }
    let fields = and_without_name(alloc, id_fields(alloc, doc)?, new, "_id")?;
    Ok(Items::from_vec(fields))
}

/// What the operators make of the document, under its old `_id`.
fn operated(alloc: Global, ops: &[UpdateOp], doc: &Doc) -> Result<Doc, ApplyErr>
    ensures { Gives result (updated_by (Ops ops.now) doc.now) }
{
    let new = all_applied(alloc, ops, doc)?;
    if !have_one_id(&new, doc) {
        return Err(ApplyErr::Immutable);
    }
    Ok(new)
}

fn updated(alloc: Global, update: &Update, doc: &Doc) -> Result<Doc, ApplyErr>
    ensures { Gives result (updated_by update.now doc.now) }
{
    match update {
        Update::Replace(new) => replaced(alloc, new, doc),
        Update::Ops(ops) => operated(alloc, ops.as_slice(), doc),
    }
}

/// The document that the update makes of this one.
#[tactic(auto, unfolding(txn_semantics::specs::Updates::apply))]
pub fn apply(alloc: Global, update: &Update, doc: &Doc) -> Result<Doc, ApplyErr>
    ensures gives { Gives result (apply update.now doc.now) }
    ensures stored { IfOk result (λ new. length (spelling new) ≤ MOST_STORED) }
{
    let new = updated(alloc, update, doc)?;
    if size(&new) > MOST_STORED {
        return Err(ApplyErr::TooLarge);
    }
    Ok(new)
}
