//! Statements over the rows of one shard or two.
ghost use Rattle.std.specs.Prelude.{IfOk, IsSome};
ghost use Rattle.txn_types.specs.Ids.{id_in};

use crate::words::{document_of, value_of};
use bson_core::{Doc, Name, Value, get};
use crud_parse::{read_filter, read_update};
use query_eval::{EvalErr, eval, merge};
use sqlite_items::Items;
use std::alloc::{AllocError, Global};
use txn_types::{
    DeleteItem, Filter, Id, InsertItem, InsertItems, Ns, Op, OpErr, OpReply, Update, UpdateItem,
    What, Write, Writes,
};

/// What stands on a shard, and on a second one.
#[derive(Drop)]
pub struct Shards {
    here: Writes,
    beside: Writes,
}

impl Shards {
    pub fn new(alloc: Global) -> Shards {
        Shards {
            here: Writes::new(alloc),
            beside: Writes::new(alloc),
        }
    }

    /// Has documents of these ids stand here, whose `a` is ten times the id, and nothing beside.
    pub fn stand(&mut self, alloc: Global, ids: &str) -> Result<(), AllocError> {
        self.here = writes_of(alloc, ids)?;
        self.beside = Writes::new(alloc);
        Ok(())
    }

    /// Has documents of these ids stand on the second shard.
    pub fn stand_beside(&mut self, alloc: Global, ids: &str) -> Result<(), AllocError> {
        self.beside = writes_of(alloc, ids)?;
        Ok(())
    }
}

fn namespace(alloc: Global) -> Result<Ns, AllocError> {
    match Ns::of(alloc, "d", "c") {
        Ok(ns) => Ok(ns),
        Err(_) => Err(AllocError),
    }
}

/// `{_id: id, a: 10 id}`.
fn document(alloc: Global, id: i32) -> Result<Doc, AllocError>
    ensures { IfOk result (λ d. IsSome (id_in d)) }
{
    let mut fields = Vec::new(alloc);
    fields.push((Name::from_str(alloc, "_id")?, Value::Int(id)))?;
    fields.push((Name::from_str(alloc, "a")?, Value::Int(id.wrapping_mul(10))))?;
    Ok(Items::from_vec(fields))
}

/// An insert of documents of these ids, in this order.
fn insert(alloc: Global, ids: &str) -> Result<Op, AllocError> {
    let mut docs = InsertItems::new(alloc);
    let mut index: u32 = 0;
    for word in ids.split_whitespace() {
        let doc = document(alloc, word.parse::<i32>().unwrap_or(-1))?;
        docs.push(InsertItem { index, doc })?;
        index = index.saturating_add(1);
    }
    Ok(Op::Insert {
        ns: namespace(alloc)?,
        docs,
    })
}

/// The writes of an insert into an empty collection.
fn writes_of(alloc: Global, ids: &str) -> Result<Writes, AllocError> {
    match eval(alloc, &insert(alloc, ids)?, &[], &Writes::new(alloc)) {
        Ok((_, writes)) => Ok(writes),
        Err(EvalErr::Op(_)) => Ok(Writes::new(alloc)),
        Err(EvalErr::Memory) => Err(AllocError),
    }
}

/// The filter of these words; one that matches all where they are none.
fn filter_of(alloc: Global, words: &str) -> Result<Filter, AllocError> {
    match read_filter(alloc, &document_of(alloc, words)?) {
        Ok(filter) => Ok(filter),
        Err(_) => Ok(Filter::And(Items::new(alloc))),
    }
}

/// The update of these words; one that changes nothing where they are none.
fn update_of(alloc: Global, words: &str) -> Result<Update, AllocError> {
    match read_update(alloc, &value_of(alloc, words)?) {
        Ok(update) => Ok(update),
        Err(_) => Ok(Update::Ops(Items::new(alloc))),
    }
}

/// A find by `FILTER`, in the order and up to the number of `up 0` or `down 2`.
fn find(alloc: Global, filter: &str, order: &str) -> Result<Op, AllocError> {
    let (word, limit) = order.split_once(" ").unwrap_or((order, "0"));
    Ok(Op::Find {
        ns: namespace(alloc)?,
        filter: filter_of(alloc, filter)?,
        down: word == "down",
        limit: limit.parse::<u64>().unwrap_or(0),
    })
}

/// The parts of `INDEX one|many FILTER`.
fn item_parts(words: &str) -> (u32, bool, &str) {
    let (index, rest) = words.split_once(" ").unwrap_or((words, ""));
    let (word, filter) = rest.split_once(" ").unwrap_or((rest, ""));
    (index.parse::<u32>().unwrap_or(0), word == "many", filter)
}

/// The items of an update, `INDEX one|many FILTER ; ..`, with their updates, parted likewise.
fn update(alloc: Global, filters: &str, updates: &str) -> Result<Op, AllocError> {
    let mut items = Vec::new(alloc);
    for (words, update) in filters.split(" ; ").zip(updates.split(" ; ")) {
        let (index, many, filter) = item_parts(words);
        items.push(UpdateItem {
            index,
            filter: filter_of(alloc, filter)?,
            update: update_of(alloc, update)?,
            many,
        })?;
    }
    Ok(Op::Update {
        ns: namespace(alloc)?,
        items: Items::from_vec(items),
    })
}

/// The items of a delete: `INDEX one|many FILTER ; ..`.
fn delete(alloc: Global, filters: &str) -> Result<Op, AllocError> {
    let mut items = Vec::new(alloc);
    for words in filters.split(" ; ") {
        let (index, many, filter) = item_parts(words);
        items.push(DeleteItem {
            index,
            filter: filter_of(alloc, filter)?,
            many,
        })?;
    }
    Ok(Op::Delete {
        ns: namespace(alloc)?,
        items: Items::from_vec(items),
    })
}

fn number(doc: &Doc, name: &str) -> i32 {
    match get(doc, name) {
        Some(Value::Int(number)) => *number,
        _ => -1,
    }
}

/// Appends the ids of the documents found, or how many were met and how many were changed.
fn put_reply(out: &mut String, reply: &OpReply) -> Result<(), AllocError> {
    match reply {
        OpReply::Count { n, modified } => write!(out, "{n} met, {modified} changed")?,
        OpReply::Rows { docs, .. } => {
            out.push_str("found")?;
            for doc in docs.as_slice() {
                write!(out, " {}", number(doc, "_id"))?;
            }
        }
    }
    Ok(())
}

/// Appends the id, and the `a` of the document that is put, or that it is deleted.
fn put_write(out: &mut String, write: &Write) -> Result<(), AllocError> {
    match write {
        Write::Put { doc, .. } => write!(out, ", {}:{}", number(doc, "_id"), number(doc, "a")),
        Write::Delete {
            id: Id::Num(id),
            ..
        } => write!(out, ", {id} deleted"),
        Write::Delete { .. } => out.push_str(", another deleted"),
    }
}

/// Appends the item, the id and the reason.
fn put_refusal(out: &mut String, refusal: &OpErr) -> Result<(), AllocError> {
    let what = match refusal.what {
        What::Duplicate => "Duplicate",
        What::NotNumber => "NotNumber",
        What::Overflow => "Overflow",
        What::Immutable => "Immutable",
        What::TooLarge => "TooLarge",
    };
    match &refusal.id {
        Id::Num(id) => write!(out, "item {}, id {id}: {what}", refusal.index),
        _ => write!(out, "item {}, another id: {what}", refusal.index),
    }
}

/// What a statement that is done answers and writes, all of it of copies.
fn done_text(alloc: Global, reply: &OpReply, writes: &Writes) -> Result<String, AllocError> {
    let mut out = String::new(alloc);
    let reply = reply.copy(alloc)?;
    put_reply(&mut out, &reply)?;
    for write in writes.as_slice() {
        let write = write.copy(alloc)?;
        put_write(&mut out, &write)?;
    }
    Ok(out)
}

/// Why a statement is refused, of a copy.
fn refusal_text(alloc: Global, refusal: &OpErr) -> Result<String, AllocError> {
    let mut out = String::new(alloc);
    let refusal = refusal.copy(alloc)?;
    put_refusal(&mut out, &refusal)?;
    Ok(out)
}

/// What the operation answers and writes over the rows that stand, or why it is refused.
fn evaluated(alloc: Global, op: &Op, own: &Writes) -> Result<String, AllocError> {
    match eval(alloc, op, &[], own) {
        Ok((reply, writes)) => done_text(alloc, &reply, &writes),
        Err(EvalErr::Op(refusal)) => refusal_text(alloc, &refusal),
        Err(EvalErr::Memory) => Err(AllocError),
    }
}

/// The same of copies of the operation and of the rows.
fn told(alloc: Global, op: &Op, own: &Writes) -> Result<String, AllocError> {
    let op = op.copy(alloc)?;
    let own = own.copy(alloc)?;
    evaluated(alloc, &op, &own)
}

/// What an insert of these ids is told.
pub fn inserted(alloc: Global, shards: &Shards, ids: &str) -> Result<String, AllocError> {
    told(alloc, &insert(alloc, ids)?, &shards.here)
}

/// What a find is told.
pub fn found(
    alloc: Global,
    shards: &Shards,
    filter: &str,
    order: &str,
) -> Result<String, AllocError> {
    told(alloc, &find(alloc, filter, order)?, &shards.here)
}

/// What an update is told.
pub fn updated(
    alloc: Global,
    shards: &Shards,
    filters: &str,
    updates: &str,
) -> Result<String, AllocError> {
    told(alloc, &update(alloc, filters, updates)?, &shards.here)
}

/// What a delete is told.
pub fn deleted(alloc: Global, shards: &Shards, filters: &str) -> Result<String, AllocError> {
    told(alloc, &delete(alloc, filters)?, &shards.here)
}

/// The reply of one shard.
fn reply_of(alloc: Global, op: &Op, own: &Writes) -> Result<OpReply, AllocError> {
    match eval(alloc, op, &[], own) {
        Ok((reply, _)) => Ok(reply),
        Err(_) => Err(AllocError),
    }
}

/// The merged reply of these parts.
fn merged_text(alloc: Global, op: &Op, parts: &[OpReply]) -> Result<String, AllocError> {
    let mut out = String::new(alloc);
    match merge(alloc, op, parts) {
        Ok(reply) => {
            put_reply(&mut out, &reply)?;
            Ok(out)
        }
        Err(_) => Err(AllocError),
    }
}

/// The replies of both shards.
fn parts_of(alloc: Global, shards: &Shards, op: &Op) -> Result<Vec<OpReply>, AllocError> {
    let mut parts = Vec::new(alloc);
    let here = reply_of(alloc, op, &shards.here)?;
    parts.push(here)?;
    let beside = reply_of(alloc, op, &shards.beside)?;
    parts.push(beside)?;
    Ok(parts)
}

/// The merged reply of two shards to a find.
pub fn merged(
    alloc: Global,
    shards: &Shards,
    filter: &str,
    order: &str,
) -> Result<String, AllocError> {
    let op = find(alloc, filter, order)?;
    let parts = parts_of(alloc, shards, &op)?;
    merged_text(alloc, &op, parts.as_slice())
}
