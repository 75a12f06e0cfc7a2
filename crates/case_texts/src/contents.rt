//! Operations, replies and causes as text, each after a space.
use crate::names::{put_tag, put_time};
use bson_core::{Doc, Value};
use std::alloc::{AllocError, Global};
use txn_types::{
    By, Cause, Cmp, DeleteItem, Filter, Id, InsertItem, Op, OpErr, OpReply, Told, Update,
    UpdateItem, UpdateKind, UpdateOp, What,
};

/// A document in the form of bson_text.
pub fn put_document(alloc: Global, out: &mut String, doc: &Doc) -> Result<(), AllocError> {
    match bson_text::print(alloc, doc) {
        Ok(text) => write!(out, " {text}"),
        Err(_) => Err(AllocError),
    }
}

fn put_value(alloc: Global, out: &mut String, value: &Value) -> Result<(), AllocError> {
    match bson_text::print_value(alloc, value) {
        Ok(text) => write!(out, " {text}"),
        Err(_) => Err(AllocError),
    }
}

fn put_values(alloc: Global, out: &mut String, values: &[Value]) -> Result<(), AllocError> {
    for value in values {
        put_value(alloc, out, value)?;
    }
    Ok(())
}

fn put_id(alloc: Global, out: &mut String, id: &Id) -> Result<(), AllocError> {
    match id {
        Id::Num(number) => write!(out, " number {number}"),
        Id::Text(text) => {
            let text = text.as_str();
            write!(out, " text {text}")
        }
        Id::Bin(bin) => {
            let digits = hex::encode(alloc, bin.bytes.as_slice())?;
            let subtype = bin.subtype;
            write!(out, " binary {subtype}:{digits}")
        }
        Id::Oid(bytes) => {
            let digits = hex::encode(alloc, bytes.as_slice())?;
            write!(out, " oid {digits}")
        }
        Id::Bool(flag) => write!(out, " bool {flag}"),
        Id::Date(moment) => write!(out, " date {moment}"),
    }
}

fn cmp_word(cmp: Cmp) -> &'static str {
    match cmp {
        Cmp::Eq => "eq",
        Cmp::Ne => "ne",
        Cmp::Gt => "gt",
        Cmp::Gte => "gte",
        Cmp::Lt => "lt",
        Cmp::Lte => "lte",
    }
}

#[cycle(filter)]
fn put_filters(alloc: Global, out: &mut String, filters: &[Filter]) -> Result<(), AllocError> {
    for filter in filters {
        put_filter(alloc, out, filter)?;
    }
    out.push_str(" )")
}

#[cycle(filter)]
fn put_filter(alloc: Global, out: &mut String, filter: &Filter) -> Result<(), AllocError> {
    match filter {
        Filter::And(filters) => {
            out.push_str(" and(")?;
            put_filters(alloc, out, filters.as_slice())
        }
        Filter::Or(filters) => {
            out.push_str(" or(")?;
            put_filters(alloc, out, filters.as_slice())
        }
        Filter::Nor(filters) => {
            out.push_str(" nor(")?;
            put_filters(alloc, out, filters.as_slice())
        }
        Filter::Test { name, cmp, value } => {
            let (name, word) = (name.as_str(), cmp_word(*cmp));
            write!(out, " {name} {word}")?;
            put_value(alloc, out, value)
        }
        Filter::In { name, values } => {
            let name = name.as_str();
            write!(out, " {name} in(")?;
            put_values(alloc, out, values.as_slice())?;
            out.push_str(" )")
        }
        Filter::Nin { name, values } => {
            let name = name.as_str();
            write!(out, " {name} nin(")?;
            put_values(alloc, out, values.as_slice())?;
            out.push_str(" )")
        }
        Filter::Exists { name, yes } => {
            let name = name.as_str();
            write!(out, " {name} exists {yes}")
        }
    }
}

fn kind_word(kind: UpdateKind) -> &'static str {
    match kind {
        UpdateKind::Set => "set",
        UpdateKind::Unset => "unset",
        UpdateKind::Inc => "inc",
    }
}

fn put_update_op(alloc: Global, out: &mut String, op: &UpdateOp) -> Result<(), AllocError> {
    let (word, name) = (kind_word(op.kind), op.name.as_str());
    write!(out, " {word} {name}")?;
    put_value(alloc, out, &op.value)
}

fn put_update(alloc: Global, out: &mut String, update: &Update) -> Result<(), AllocError> {
    match update {
        Update::Replace(doc) => {
            out.push_str(" replace")?;
            put_document(alloc, out, doc)
        }
        Update::Ops(ops) => {
            for op in ops.as_slice() {
                put_update_op(alloc, out, op)?;
            }
            Ok(())
        }
    }
}

fn put_inserts(alloc: Global, out: &mut String, items: &[InsertItem]) -> Result<(), AllocError> {
    for item in items {
        let index = item.index;
        write!(out, "; {index}")?;
        put_document(alloc, out, &item.doc)?;
    }
    Ok(())
}

fn put_update_item(alloc: Global, out: &mut String, item: &UpdateItem) -> Result<(), AllocError> {
    let (index, many) = (item.index, item.many);
    write!(out, "; {index} where")?;
    put_filter(alloc, out, &item.filter)?;
    out.push_str(" do")?;
    put_update(alloc, out, &item.update)?;
    write!(out, " many {many}")
}

fn put_updates(alloc: Global, out: &mut String, items: &[UpdateItem]) -> Result<(), AllocError> {
    for item in items {
        put_update_item(alloc, out, item)?;
    }
    Ok(())
}

fn put_delete_item(alloc: Global, out: &mut String, item: &DeleteItem) -> Result<(), AllocError> {
    let (index, many) = (item.index, item.many);
    write!(out, "; {index} where")?;
    put_filter(alloc, out, &item.filter)?;
    write!(out, " many {many}")
}

fn put_deletes(alloc: Global, out: &mut String, items: &[DeleteItem]) -> Result<(), AllocError> {
    for item in items {
        put_delete_item(alloc, out, item)?;
    }
    Ok(())
}

/// An operation by its name and its collection, with its items or what it asks for.
pub fn put_op(alloc: Global, out: &mut String, op: &Op) -> Result<(), AllocError> {
    match op {
        Op::Insert { ns, docs } => {
            let ns = ns.as_str();
            write!(out, " insert {ns}")?;
            put_inserts(alloc, out, docs.as_slice())
        }
        Op::Find {
            ns,
            filter,
            down,
            limit,
        } => {
            let ns = ns.as_str();
            write!(out, " find {ns} where")?;
            put_filter(alloc, out, filter)?;
            write!(out, " down {down} limit {limit}")
        }
        Op::Update { ns, items } => {
            let ns = ns.as_str();
            write!(out, " update {ns}")?;
            put_updates(alloc, out, items.as_slice())
        }
        Op::Delete { ns, items } => {
            let ns = ns.as_str();
            write!(out, " delete {ns}")?;
            put_deletes(alloc, out, items.as_slice())
        }
    }
}

fn put_rows(
    alloc: Global,
    out: &mut String,
    docs: &[Doc],
    cut: &Option<Id>,
) -> Result<(), AllocError> {
    out.push_str(" rows")?;
    for doc in docs {
        put_document(alloc, out, doc)?;
    }
    match cut {
        Some(id) => {
            out.push_str(" cut")?;
            put_id(alloc, out, id)
        }
        None => Ok(()),
    }
}

/// The counts of a write, or the rows that were found.
pub fn put_reply(alloc: Global, out: &mut String, reply: &OpReply) -> Result<(), AllocError> {
    match reply {
        OpReply::Count { n, modified } => write!(out, " count {n} modified {modified}"),
        OpReply::Rows { docs, cut } => put_rows(alloc, out, docs.as_slice(), cut),
    }
}

fn what_word(what: What) -> &'static str {
    match what {
        What::Duplicate => "duplicate",
        What::NotNumber => "not-number",
        What::Overflow => "overflow",
        What::Immutable => "immutable",
        What::TooLarge => "too-large",
    }
}

fn put_op_err(alloc: Global, out: &mut String, err: &OpErr) -> Result<(), AllocError> {
    let (word, index) = (what_word(err.what), err.index);
    write!(out, " {word} at {index}")?;
    put_id(alloc, out, &err.id)
}

fn put_by(out: &mut String, by: &By) -> Result<(), AllocError> {
    match by {
        By::Tag(tag) => put_tag(out, *tag),
        By::At(at) => put_time(out, *at),
    }
}

/// What a cause says after its number.
fn put_cause_fields(alloc: Global, out: &mut String, cause: &Cause) -> Result<(), AllocError> {
    match cause {
        Cause::WriteConflict { id, by } => {
            put_id(alloc, out, id)?;
            put_by(out, by)
        }
        Cause::Expired { begun, now } => write!(out, " begun {begun} now {now}"),
        Cause::ClientAbort { why } => write!(out, " why {why}"),
        Cause::Unavailable { carried, have } => write!(out, " carried {carried} have {have}"),
        Cause::Faulted { faults } => write!(out, " faults {faults}"),
        Cause::Statement { err } => put_op_err(alloc, out, err),
        Cause::Replaced { number, tag } => {
            write!(out, " number {number}")?;
            put_tag(out, *tag)
        }
        Cause::Volume { bytes } => write!(out, " bytes {bytes}"),
        Cause::ClockEnd { last } => put_time(out, *last),
        Cause::PreparedStands { tag } => put_tag(out, *tag),
        Cause::TooManySessions | Cause::Memory => Ok(()),
        Cause::Voted { shard, code } => write!(out, " shard {shard} code {code}"),
        Cause::SnapshotTooOld { at, floor } => {
            put_time(out, *at)?;
            put_time(out, *floor)
        }
    }
}

/// A cause by its number, and its fields.
pub fn put_cause(alloc: Global, out: &mut String, cause: &Cause) -> Result<(), AllocError> {
    let number = cause.number();
    write!(out, " cause {number}")?;
    put_cause_fields(alloc, out, cause)
}

/// What is told of a transaction.
pub fn put_told(alloc: Global, out: &mut String, told: &Told) -> Result<(), AllocError> {
    match told {
        Told::Committed { at } => {
            out.push_str(" committed")?;
            put_time(out, *at)
        }
        Told::Released => out.push_str(" released"),
        Told::Aborted { cause } => {
            out.push_str(" aborted")?;
            put_cause(alloc, out, cause)
        }
        Told::TooOld { have } => write!(out, " too-old {have}"),
        Told::NoTrace => out.push_str(" no-trace"),
    }
}
