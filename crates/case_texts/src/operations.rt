//! The documents and operations that cases name: a document is `{_id: ID, a: A}`, and an operation
//! speaks of one collection, and of the document of an id or of all.
ghost use Rattle.std.specs.Prelude.{IfOk, IsSome};
ghost use Rattle.txn_types.specs.Ids.{id_in};

use bson_core::{Doc, Name, Value};
use sqlite_items::Items;
use std::alloc::{AllocError, Global};
use txn_types::{Cmp, DeleteItem, Filter, Ns, Op, Update, UpdateItem, UpdateKind, UpdateOp};

/// `{_id: id, a: value}`.
pub fn document(alloc: Global, id: i32, value: Value) -> Result<Doc, AllocError>
    ensures { IfOk result (λ d. IsSome (id_in d)) }
{
    let mut fields = Vec::new(alloc);
    fields.push((Name::from_str(alloc, "_id")?, Value::Int(id)))?;
    fields.push((Name::from_str(alloc, "a")?, value))?;
    Ok(Items::from_vec(fields))
}

/// The document of this id, or all where there is none.
pub fn where_id(alloc: Global, id: Option<i32>) -> Result<Filter, AllocError> {
    match id {
        None => Ok(Filter::And(Items::new(alloc))),
        Some(id) => Ok(Filter::Test {
            name: Name::from_str(alloc, "_id")?,
            cmp: Cmp::Eq,
            value: Value::Int(id),
        }),
    }
}

/// A find without an order of its own and without a limit.
pub fn find(ns: Ns, filter: Filter) -> Op {
    Op::Find {
        ns,
        filter,
        down: false,
        limit: 0,
    }
}

/// `$inc` of `a`.
fn increment_of(alloc: Global, by: i32) -> Result<Update, AllocError> {
    let mut ops = Vec::new(alloc);
    ops.push(UpdateOp {
        kind: UpdateKind::Inc,
        name: Name::from_str(alloc, "a")?,
        value: Value::Int(by),
    })?;
    Ok(Update::Ops(Items::from_vec(ops)))
}

/// An update that adds to `a` in each document that is met.
pub fn increment(alloc: Global, ns: Ns, filter: Filter, by: i32) -> Result<Op, AllocError> {
    let mut items = Vec::new(alloc);
    items.push(UpdateItem {
        index: 0,
        filter,
        update: increment_of(alloc, by)?,
        many: true,
    })?;
    Ok(Op::Update {
        ns,
        items: Items::from_vec(items),
    })
}

/// A delete of each document that is met.
pub fn delete(alloc: Global, ns: Ns, filter: Filter) -> Result<Op, AllocError> {
    let mut items = Vec::new(alloc);
    items.push(DeleteItem {
        index: 0,
        filter,
        many: true,
    })?;
    Ok(Op::Delete {
        ns,
        items: Items::from_vec(items),
    })
}
