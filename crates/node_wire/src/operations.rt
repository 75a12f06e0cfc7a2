//! Operations of statements.
ghost use Rattle.std.specs.Prelude.{◌≡◌, [], is_some, IfOk, IsSome};
ghost use Rattle.txn_types.specs.Ids.{id_of, id_in};
ghost use Rattle.bson_core.specs.declared.value.Value.TheViews.{out-Value};
ghost use Rattle.node_wire.specs.Errors.{Gives};
ghost use Rattle.node_wire.specs.Reading.{code_at, update_kind_of, may_have, update_op_at, replace_at, ops_at, update_at, insert_item_at, update_item_at, delete_item_at, each_at, counted_at, find_at, op_by, op_at};

use crate::contents::{read_document, read_name, read_namespace, read_value};
use crate::error::WireErr;
use crate::filters::read_filter;
use crate::numbers::{fault, read_count, read_flag, read_one_to, read_u8, read_u32, read_u64};
use bson_core::{Doc, Value, get};
use sqlite_items::Items;
use std::alloc::Global;
use txn_types::{
    DeleteItem, DeleteItems, InsertItem, InsertItems, Ns, Op, Update, UpdateItem, UpdateItems,
    UpdateKind, UpdateOp,
};

#[tactic(auto, unfolding(crate::specs::Reading::code_at))]
fn read_update_kind(end: u64, bytes: &[u8]) -> Result<(UpdateKind, &[u8]), WireErr>
    ensures { Gives (λ x. (x.0, x.1.now)) result (code_at update_kind_of end bytes.now) }
{
    let (byte, rest) = read_u8(end, bytes)?;
    match byte {
        1 => Ok((UpdateKind::Set, rest)),
        2 => Ok((UpdateKind::Unset, rest)),
        3 => Ok((UpdateKind::Inc, rest)),
        _ => Err(fault(end, bytes)),
    }
}

/// Whether an operator of this kind may have the value: what is taken out has null.
fn may_have(kind: UpdateKind, value: &Value) -> bool
    ensures { result ≡ may_have kind (out-Value value.now) }
{
    match kind {
        UpdateKind::Unset => matches!(value, Value::Null),
        UpdateKind::Set | UpdateKind::Inc => true,
    }
}

#[tactic(auto, unfolding(crate::specs::Reading::update_op_at))]
fn read_update_op(alloc: Global, end: u64, bytes: &[u8]) -> Result<(UpdateOp, &[u8]), WireErr>
    ensures { Gives (λ x. (x.0, x.1.now)) result (update_op_at end bytes.now) }
{
    let (kind, rest) = read_update_kind(end, bytes)?;
    let (name, behind) = read_name(alloc, end, rest)?;
    let (value, rest) = read_value(alloc, end, behind)?;
    if !may_have(kind, &value) {
        return Err(fault(end, behind));
    }
    Ok((UpdateOp { kind, name, value }, rest))
}

/// So many operators of an update.
fn read_each_update_op(
    alloc: Global,
    count: usize,
    end: u64,
    bytes: &[u8],
) -> Result<(Vec<UpdateOp>, &[u8]), WireErr>
    ensures { Gives (λ x. (x.0.items, x.1.now)) result
        (each_at (update_op_at end) count [] bytes.now) }
{
    let mut ops = Vec::new(alloc);
    let mut rest = bytes;
    for _ in 0..count {
        let (op, after) = read_update_op(alloc, end, rest)?;
        ops.push(op)?;
        rest = after;
    }
    Ok((ops, rest))
}

#[tactic(auto, unfolding(crate::specs::Reading::counted_at))]
fn read_ops(alloc: Global, end: u64, bytes: &[u8]) -> Result<(Update, &[u8]), WireErr>
    ensures { Gives (λ x. (x.0, x.1.now)) result (ops_at end bytes.now) }
{
    let (count, rest) = read_count(end, bytes)?;
    let (ops, rest) = read_each_update_op(alloc, count, end, rest)?;
    Ok((Update::Ops(Items::from_vec(ops)), rest))
}

fn read_replacement(alloc: Global, end: u64, bytes: &[u8]) -> Result<(Update, &[u8]), WireErr>
    ensures { Gives (λ x. (x.0, x.1.now)) result (replace_at end bytes.now) }
{
    let (doc, rest) = read_document(alloc, end, bytes)?;
    Ok((Update::Replace(doc), rest))
}

#[tactic(auto, unfolding(crate::specs::Reading::update_at))]
fn read_update(alloc: Global, end: u64, bytes: &[u8]) -> Result<(Update, &[u8]), WireErr>
    ensures { Gives (λ x. (x.0, x.1.now)) result (update_at end bytes.now) }
{
    let (kind, rest) = read_one_to(2, end, bytes)?;
    if kind == 1 {
        read_replacement(alloc, end, rest)
    } else {
        read_ops(alloc, end, rest)
    }
}

/// Whether the value is an id.
fn is_id(value: &Value) -> bool
    ensures { result ≡ is_some (id_of value.now) }
{
    !matches!(
        value,
        Value::Doc(_) | Value::List(_) | Value::Null | Value::Stamp(_)
    )
}

/// Whether the document has an `_id` that is an id.
fn has_id(doc: &Doc) -> bool
    ensures { result ≡ is_some (id_in doc.now) }
{
    match get(doc, "_id") {
        Some(value) => is_id(value),
        None => false,
    }
}

#[tactic(auto, unfolding(crate::specs::Reading::insert_item_at))]
fn read_insert_item(alloc: Global, end: u64, bytes: &[u8]) -> Result<(InsertItem, &[u8]), WireErr>
    ensures item { Gives (λ x. (x.0, x.1.now)) result (insert_item_at end bytes.now) }
    ensures id { IfOk result (λ x. IsSome (id_in x.0.doc)) }
{
    let (index, behind) = read_u32(end, bytes)?;
    let (doc, rest) = read_document(alloc, end, behind)?;
    if !has_id(&doc) {
        return Err(fault(end, behind));
    }
    Ok((InsertItem { index, doc }, rest))
}

/// So many documents to insert.
fn read_each_insert(
    alloc: Global,
    count: usize,
    end: u64,
    bytes: &[u8],
) -> Result<(InsertItems, &[u8]), WireErr>
    ensures { Gives (λ x. (x.0, x.1.now)) result (each_at (insert_item_at end) count [] bytes.now) }
{
    let mut items = InsertItems::new(alloc);
    let mut rest = bytes;
    for _ in 0..count {
        let (item, after) = read_insert_item(alloc, end, rest)?;
        items.push(item)?;
        rest = after;
    }
    Ok((items, rest))
}

#[tactic(auto, unfolding(crate::specs::Reading::counted_at))]
fn read_inserts(alloc: Global, end: u64, bytes: &[u8]) -> Result<(InsertItems, &[u8]), WireErr>
    ensures { Gives (λ x. (x.0, x.1.now)) result (counted_at (insert_item_at end) end bytes.now) }
{
    let (count, rest) = read_count(end, bytes)?;
    read_each_insert(alloc, count, end, rest)
}

#[tactic(auto, unfolding(crate::specs::Reading::update_item_at))]
fn read_update_item(alloc: Global, end: u64, bytes: &[u8]) -> Result<(UpdateItem, &[u8]), WireErr>
    ensures { Gives (λ x. (x.0, x.1.now)) result (update_item_at end bytes.now) }
{
    let (index, rest) = read_u32(end, bytes)?;
    let (filter, rest) = read_filter(alloc, end, rest)?;
    let (update, rest) = read_update(alloc, end, rest)?;
    let (many, rest) = read_flag(end, rest)?;
    let item = UpdateItem {
        index,
        filter,
        update,
        many,
    };
    Ok((item, rest))
}

/// So many items of an update.
fn read_each_update(
    alloc: Global,
    count: usize,
    end: u64,
    bytes: &[u8],
) -> Result<(Vec<UpdateItem>, &[u8]), WireErr>
    ensures { Gives (λ x. (x.0.items, x.1.now)) result
        (each_at (update_item_at end) count [] bytes.now) }
{
    let mut items = Vec::new(alloc);
    let mut rest = bytes;
    for _ in 0..count {
        let (item, after) = read_update_item(alloc, end, rest)?;
        items.push(item)?;
        rest = after;
    }
    Ok((items, rest))
}

#[tactic(auto, unfolding(crate::specs::Reading::counted_at))]
fn read_updates(alloc: Global, end: u64, bytes: &[u8]) -> Result<(UpdateItems, &[u8]), WireErr>
    ensures { Gives (λ x. (x.0, x.1.now)) result (counted_at (update_item_at end) end bytes.now) }
{
    let (count, rest) = read_count(end, bytes)?;
    let (items, rest) = read_each_update(alloc, count, end, rest)?;
    Ok((Items::from_vec(items), rest))
}

#[tactic(auto, unfolding(crate::specs::Reading::delete_item_at))]
fn read_delete_item(alloc: Global, end: u64, bytes: &[u8]) -> Result<(DeleteItem, &[u8]), WireErr>
    ensures { Gives (λ x. (x.0, x.1.now)) result (delete_item_at end bytes.now) }
{
    let (index, rest) = read_u32(end, bytes)?;
    let (filter, rest) = read_filter(alloc, end, rest)?;
    let (many, rest) = read_flag(end, rest)?;
    let item = DeleteItem {
        index,
        filter,
        many,
    };
    Ok((item, rest))
}

/// So many items of a delete.
fn read_each_delete(
    alloc: Global,
    count: usize,
    end: u64,
    bytes: &[u8],
) -> Result<(Vec<DeleteItem>, &[u8]), WireErr>
    ensures { Gives (λ x. (x.0.items, x.1.now)) result
        (each_at (delete_item_at end) count [] bytes.now) }
{
    let mut items = Vec::new(alloc);
    let mut rest = bytes;
    for _ in 0..count {
        let (item, after) = read_delete_item(alloc, end, rest)?;
        items.push(item)?;
        rest = after;
    }
    Ok((items, rest))
}

#[tactic(auto, unfolding(crate::specs::Reading::counted_at))]
fn read_deletes(alloc: Global, end: u64, bytes: &[u8]) -> Result<(DeleteItems, &[u8]), WireErr>
    ensures { Gives (λ x. (x.0, x.1.now)) result (counted_at (delete_item_at end) end bytes.now) }
{
    let (count, rest) = read_count(end, bytes)?;
    let (items, rest) = read_each_delete(alloc, count, end, rest)?;
    Ok((Items::from_vec(items), rest))
}

#[tactic(auto, unfolding(crate::specs::Reading::find_at))]
fn read_find(alloc: Global, ns: Ns, end: u64, bytes: &[u8]) -> Result<(Op, &[u8]), WireErr>
    ensures { Gives (λ x. (x.0, x.1.now)) result (find_at ns end bytes.now) }
{
    let (filter, rest) = read_filter(alloc, end, bytes)?;
    let (down, rest) = read_flag(end, rest)?;
    let (limit, rest) = read_u64(end, rest)?;
    let op = Op::Find {
        ns,
        filter,
        down,
        limit,
    };
    Ok((op, rest))
}

/// An operation of this kind on this collection.
#[tactic(auto, unfolding(crate::specs::Reading::op_by))]
fn read_op_by(
    alloc: Global,
    kind: u8,
    ns: Ns,
    end: u64,
    bytes: &[u8],
) -> Result<(Op, &[u8]), WireErr>
    ensures { Gives (λ x. (x.0, x.1.now)) result (op_by kind ns end bytes.now) }
{
    match kind {
        1 => {
            let (docs, rest) = read_inserts(alloc, end, bytes)?;
            Ok((Op::Insert { ns, docs }, rest))
        }
        2 => read_find(alloc, ns, end, bytes),
        3 => {
            let (items, rest) = read_updates(alloc, end, bytes)?;
            Ok((Op::Update { ns, items }, rest))
        }
        _ => {
            let (items, rest) = read_deletes(alloc, end, bytes)?;
            Ok((Op::Delete { ns, items }, rest))
        }
    }
}

#[tactic(auto, unfolding(crate::specs::Reading::op_at))]
pub fn read_op(alloc: Global, end: u64, bytes: &[u8]) -> Result<(Op, &[u8]), WireErr>
    ensures { Gives (λ x. (x.0, x.1.now)) result (op_at end bytes.now) }
{
    let (kind, rest) = read_one_to(4, end, bytes)?;
    let (ns, rest) = read_namespace(alloc, end, rest)?;
    read_op_by(alloc, kind, ns, end, rest)
}
