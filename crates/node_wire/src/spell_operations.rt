//! Writing operations of statements.
ghost use Rattle.std.specs.Prelude.{◌≡◌, ◌++◌, ◌∷◌, [], OnOk};
ghost use Rattle.std.specs.List.{flat_map};
ghost use Rattle.bson_core.specs.Spelling.{bit, spelling};
ghost use Rattle.node_wire.specs.Output.{joined};
ghost use Rattle.node_wire.specs.Spelling.{long, text_bytes, counted, filter_bytes, update_code, update_op_bytes, update_bytes, insert_item_bytes, update_item_bytes, delete_item_bytes, op_bytes};

use crate::output::Output;
use crate::spell_contents::{put_text, put_value};
use crate::spell_fields::{put_count, put_u32, put_u64};
use crate::spell_filters::put_filter;
use bson_core::Doc;
use std::alloc::{AllocError, Global};
use txn_types::{DeleteItem, Filter, InsertItem, Ns, Op, Update, UpdateItem, UpdateKind, UpdateOp};

fn update_code(kind: UpdateKind) -> u8
    ensures { result ≡ update_code kind }
{
    match kind {
        UpdateKind::Set => 1,
        UpdateKind::Unset => 2,
        UpdateKind::Inc => 3,
    }
}

#[tactic(auto, using(crate::proofs::Joined::joined_twice))]
fn put_update_op(alloc: Global, out: &mut Output, op: &UpdateOp) -> Result<(), AllocError>
    ensures { OnOk result (out.new ≡ joined out.old (update_op_bytes op.now)) }
{
    out.put(&[update_code(op.kind)])?;
    put_text(out, op.name.as_str().as_bytes())?;
    put_value(alloc, out, &op.value)
}

fn put_each_update_op(alloc: Global, out: &mut Output, ops: &[UpdateOp]) -> Result<(), AllocError>
    ensures { OnOk result (out.new ≡ joined out.old (flat_map update_op_bytes ops.now)) }
{
    for op in ops {
        put_update_op(alloc, out, op)?;
    }
    Ok(())
}

#[tactic(auto, using(crate::proofs::Joined::joined_twice))]
fn put_update_ops(alloc: Global, out: &mut Output, ops: &[UpdateOp]) -> Result<(), AllocError>
    ensures { OnOk result (out.new ≡ joined out.old (2 ∷ counted update_op_bytes ops.now)) }
{
    out.put(&[2])?;
    put_count(out, ops.len())?;
    put_each_update_op(alloc, out, ops)
}

#[tactic(auto, using(crate::proofs::Joined::joined_twice))]
fn put_replacement(alloc: Global, out: &mut Output, doc: &Doc) -> Result<(), AllocError>
    ensures { OnOk result (out.new ≡ joined out.old (1 ∷ spelling doc.now)) }
{
    out.put(&[1])?;
    out.put_document(alloc, doc)
}

#[tactic(auto, using(crate::proofs::Joined::joined_twice))]
fn put_update(alloc: Global, out: &mut Output, update: &Update) -> Result<(), AllocError>
    ensures { OnOk result (out.new ≡ joined out.old (update_bytes update.now)) }
{
    match update {
        Update::Replace(doc) => put_replacement(alloc, out, doc),
        Update::Ops(ops) => put_update_ops(alloc, out, ops.as_slice()),
    }
}

#[tactic(auto, using(crate::proofs::Joined::joined_twice))]
fn put_insert_item(alloc: Global, out: &mut Output, item: &InsertItem) -> Result<(), AllocError>
    ensures { OnOk result (out.new ≡ joined out.old (insert_item_bytes item.now)) }
{
    put_u32(out, item.index)?;
    out.put_document(alloc, &item.doc)
}

fn put_each_insert(alloc: Global, out: &mut Output, items: &[InsertItem]) -> Result<(), AllocError>
    ensures { OnOk result (out.new ≡ joined out.old (flat_map insert_item_bytes items.now)) }
{
    for item in items {
        put_insert_item(alloc, out, item)?;
    }
    Ok(())
}

#[tactic(auto, using(crate::proofs::Joined::joined_twice))]
fn put_inserts(alloc: Global, out: &mut Output, items: &[InsertItem]) -> Result<(), AllocError>
    ensures { OnOk result (out.new ≡ joined out.old (counted insert_item_bytes items.now)) }
{
    put_count(out, items.len())?;
    put_each_insert(alloc, out, items)
}

#[tactic(auto, using(crate::proofs::Joined::joined_twice))]
fn put_update_item(alloc: Global, out: &mut Output, item: &UpdateItem) -> Result<(), AllocError>
    ensures { OnOk result (out.new ≡ joined out.old (update_item_bytes item.now)) }
{
    put_u32(out, item.index)?;
    put_filter(alloc, out, &item.filter)?;
    put_update(alloc, out, &item.update)?;
    out.put(&[u8::from(item.many)])
}

fn put_each_update(alloc: Global, out: &mut Output, items: &[UpdateItem]) -> Result<(), AllocError>
    ensures { OnOk result (out.new ≡ joined out.old (flat_map update_item_bytes items.now)) }
{
    for item in items {
        put_update_item(alloc, out, item)?;
    }
    Ok(())
}

#[tactic(auto, using(crate::proofs::Joined::joined_twice))]
fn put_updates(alloc: Global, out: &mut Output, items: &[UpdateItem]) -> Result<(), AllocError>
    ensures { OnOk result (out.new ≡ joined out.old (counted update_item_bytes items.now)) }
{
    put_count(out, items.len())?;
    put_each_update(alloc, out, items)
}

#[tactic(auto, using(crate::proofs::Joined::joined_twice))]
fn put_delete_item(alloc: Global, out: &mut Output, item: &DeleteItem) -> Result<(), AllocError>
    ensures { OnOk result (out.new ≡ joined out.old (delete_item_bytes item.now)) }
{
    put_u32(out, item.index)?;
    put_filter(alloc, out, &item.filter)?;
    out.put(&[u8::from(item.many)])
}

fn put_each_delete(alloc: Global, out: &mut Output, items: &[DeleteItem]) -> Result<(), AllocError>
    ensures { OnOk result (out.new ≡ joined out.old (flat_map delete_item_bytes items.now)) }
{
    for item in items {
        put_delete_item(alloc, out, item)?;
    }
    Ok(())
}

#[tactic(auto, using(crate::proofs::Joined::joined_twice))]
fn put_deletes(alloc: Global, out: &mut Output, items: &[DeleteItem]) -> Result<(), AllocError>
    ensures { OnOk result (out.new ≡ joined out.old (counted delete_item_bytes items.now)) }
{
    put_count(out, items.len())?;
    put_each_delete(alloc, out, items)
}

/// The byte of an operation's kind, and its namespace.
#[tactic(auto, using(crate::proofs::Joined::joined_twice))]
fn put_front(out: &mut Output, kind: u8, ns: &Ns) -> Result<(), AllocError>
    ensures { OnOk result (out.new ≡ joined out.old (kind ∷ text_bytes ns.now)) }
{
    out.put(&[kind])?;
    put_text(out, ns.as_slice())
}

/// A find's kind, its namespace and its filter.
#[tactic(auto, using(crate::proofs::Joined::joined_twice))]
fn put_wanted(alloc: Global, out: &mut Output, ns: &Ns, filter: &Filter) -> Result<(), AllocError>
    ensures { OnOk result
        (out.new ≡ joined out.old (2 ∷ text_bytes ns.now ++ filter_bytes filter.now)) }
{
    put_front(out, 2, ns)?;
    put_filter(alloc, out, filter)
}

/// A find's order and limit.
#[tactic(auto, using(crate::proofs::Joined::joined_twice))]
fn put_order(out: &mut Output, down: bool, limit: u64) -> Result<(), AllocError>
    ensures { OnOk result (out.new ≡ joined out.old (bit down ∷ long limit)) }
{
    out.put(&[u8::from(down)])?;
    put_u64(out, limit)
}

#[tactic(auto, using(crate::proofs::Joined::joined_twice))]
pub fn put_op(alloc: Global, out: &mut Output, op: &Op) -> Result<(), AllocError>
    ensures { OnOk result (out.new ≡ joined out.old (op_bytes op.now)) }
{
    match op {
        Op::Insert { ns, docs } => {
            put_front(out, 1, ns)?;
            put_inserts(alloc, out, docs.as_slice())
        }
        Op::Find {
            ns,
            filter,
            down,
            limit,
        } => {
            put_wanted(alloc, out, ns, filter)?;
            put_order(out, *down, *limit)
        }
        Op::Update { ns, items } => {
            put_front(out, 3, ns)?;
            put_updates(alloc, out, items.as_slice())
        }
        Op::Delete { ns, items } => {
            put_front(out, 4, ns)?;
            put_deletes(alloc, out, items.as_slice())
        }
    }
}
