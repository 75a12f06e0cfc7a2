ghost use Rattle.std.specs.Prelude.{◌≡◌};
ghost use Rattle.bson_core.specs.declared.value.Value.TheViews.{out-Value};
ghost use Rattle.crud_parse.specs.Results.{Gives, each, each_of, with_front};
ghost use Rattle.crud_parse.specs.Updates.{is_number, value_for, field_op, ops_of, update_of};

use crate::error::CrudErr;
use crate::names::{begins_with_operator, has_full_stop};
use crate::operators::kind_of;
use bson_core::{Name, Value, copy_doc};
use sqlite_items::Items;
use std::alloc::Global;
use txn_types::{Update, UpdateKind, UpdateOp};

fn is_number(value: &Value) -> bool
    ensures { result ≡ is_number (out-Value value.now) }
{
    match value {
        Value::Int(_) | Value::Long(_) => true,
        _ => false,
    }
}

/// The value that the operation on the field of that name has.
fn value_for(alloc: Global, kind: UpdateKind, name: &Name, value: &Value) -> Result<Value, CrudErr>
    ensures { Gives (λ v. v) result (value_for kind name.now value.now) }
{
    match kind {
        UpdateKind::Set => Ok(value.copy(alloc)?),
        UpdateKind::Unset => Ok(Value::Null),
        UpdateKind::Inc => {
            if !is_number(value) {
                return Err(CrudErr::WrongKind {
                    name: name.copy(alloc)?,
                });
            }
            Ok(value.copy(alloc)?)
        }
    }
}

/// The operation on the field of that name.
fn read_field_op(
    alloc: Global,
    kind: UpdateKind,
    name: &Name,
    value: &Value,
) -> Result<UpdateOp, CrudErr>
    ensures { Gives (λ o. o) result (field_op kind (name.now, value.now)) }
{
    if has_full_stop(name.as_str()) {
        return Err(CrudErr::DottedName {
            name: name.copy(alloc)?,
        });
    }
    let value = value_for(alloc, kind, name, value)?;
    Ok(UpdateOp {
        kind,
        name: name.copy(alloc)?,
        value,
    })
}

/// These operations, and after them those on the fields.
fn and_ops(
    alloc: Global,
    mut ops: Vec<UpdateOp>,
    kind: UpdateKind,
    fields: &[(Name, Value)],
) -> Result<Vec<UpdateOp>, CrudErr>
    ensures { Gives (λ all. all.items) result
        (with_front ops.items (each (field_op kind) fields.now)) }
{
    for (name, value) in fields {
        ops.push(read_field_op(alloc, kind, name, value)?)?;
    }
    Ok(ops)
}

/// These operations, and after them those on the fields in the operator's value.
fn and_operator(
    alloc: Global,
    ops: Vec<UpdateOp>,
    name: &Name,
    value: &Value,
) -> Result<Vec<UpdateOp>, CrudErr>
    ensures { Gives (λ all. all.items) result
        (with_front ops.items (ops_of (name.now, value.now))) }
{
    let Some(kind) = kind_of(name.as_str()) else {
        return Err(CrudErr::UnknownOperator {
            name: name.copy(alloc)?,
        });
    };
    match value {
        Value::Doc(fields) => and_ops(alloc, ops, kind, fields.as_slice()),
        _ => Err(CrudErr::WrongKind {
            name: name.copy(alloc)?,
        }),
    }
}

/// The operations of the operators.
fn read_ops(alloc: Global, operators: &[(Name, Value)]) -> Result<Vec<UpdateOp>, CrudErr>
    ensures { Gives (λ ops. ops.items) result (each_of ops_of operators.now) }
{
    let mut ops = Vec::new(alloc);
    for (name, value) in operators {
        ops = and_operator(alloc, ops, name, value)?;
    }
    Ok(ops)
}

/// The update that the value is, under the name `u`: operators with their fields, where its first
/// name begins with `$`, or else a document that replaces another, whatever its names.
///
/// Otherwise the first refusal is answered that is met in the order of the elements. `WrongKind` is
/// that of `u` where the value is no document, that of the operator where its value is none, and
/// that of the field where an amount of `$inc` is no number. `Missing` and `UnknownField` don't
/// come.
///
/// It goes through the document once.
pub fn read_update(alloc: Global, value: &Value) -> Result<Update, CrudErr>
    ensures { Gives (λ u. u) result (update_of value.now) }
{
    match value {
        Value::Doc(doc) => {
            if begins_with_operator(doc.as_slice()) {
                let ops = read_ops(alloc, doc.as_slice())?;
                return Ok(Update::Ops(Items::from_vec(ops)));
            }
            Ok(Update::Replace(copy_doc(alloc, doc)?))
        }
        _ => Err(CrudErr::WrongKind {
            name: Name::from_str(alloc, "u")?,
        }),
    }
}
