//! A statement is evaluated over rows that are lent to it: items one after the other, each over what
//! those before it left. Of `delete {n: 1}` (all) and then of `insert {_id: 1, n: 5}` over
//!
//! ```text
//! lent             1: {n: 1}    2: {n: 2}    3: {n: 1}
//! delete           1: nothing   2: lent      3: nothing    n = 2, writes: delete 1, delete 3
//! ```
//!
//! and, in a statement of its own over the rows 2 alone, with the deletes as its transaction's
//! own writes, the insert leaves `1: {n: 5}` beside what is lent; n = 1, and one write, put 1. No
//! document is copied that isn't changed.
ghost use Rattle.std.specs.Prelude.{◌≡◌, [], Some, None, map, IfOk, OnOk};
ghost use Rattle.std.specs.Str.{bytes_eq};
ghost use Rattle.bson_core.specs.Spelling.{spelling};
ghost use Rattle.txn_types.specs.declared.operation.Op.TheVariants as ops;
ghost use Rattle.txn_semantics.specs.Effect.{AreKnown, updated, update_step, delete_step, without};
ghost use Rattle.txn_semantics.specs.Meaning.{document_rules, eval, ns_of, put_of};
ghost use Rattle.txn_semantics.specs.Rows.{IsRising, laid_over, put_row, under};
ghost use Rattle.query_eval.specs.Held.{rows_in, all_written};
ghost use Rattle.query_eval.specs.Acts.{IsRefusal, Makes, Changes, Drops, Inserts, Acts, put_content, no_content, Means};
ghost use Rattle.query_eval.specs.Refusals.{told};

use crate::counts::counted;
use crate::error::{ApplyErr, EvalErr};
use crate::finding::find;
use crate::held::{Held, holds};
use crate::places::wanted_places;
use crate::rows::{rows_under, wanted, writes_to};
use crate::updates::apply;
use bson_core::{Doc, append, copy_doc, size};
use std::alloc::{AllocError, Global};
use std::collections::BTreeMap;
use txn_types::{
    DeleteItem, Filter, Id, InsertItem, Ns, Op, OpErr, OpReply, UpdateItem, What, Write, Writes,
};

/// How many rows an item met, and how many of them it changed.
#[derive(Clone, Copy, PartialEq, Eq)]
pub struct Met {
    pub n: u64,
    pub changed: u64,
}

/// The bytes of a document.
fn bytes_of(alloc: Global, doc: &Doc) -> Result<Vec<u8>, AllocError>
    ensures { IfOk result (λ bytes. bytes.items ≡ spelling doc.now) }
{
    let mut bytes = Vec::new(alloc);
    append(doc, &mut bytes)?;
    Ok(bytes)
}

/// Whether the documents have the same bytes.
fn are_same(alloc: Global, doc: &Doc, other: &Doc) -> Result<bool, AllocError>
    ensures { IfOk result (λ same. same ≡ bytes_eq (spelling doc.now) (spelling other.now)) }
{
    if size(doc) != size(other) {
        return Ok(false);
    }
    let bytes = bytes_of(alloc, doc)?;
    let others = bytes_of(alloc, other)?;
    Ok(bytes.as_slice() == others.as_slice())
}

/// Why an operation is refused where an update makes nothing of a document; nothing for want of
/// memory.
fn told(err: ApplyErr) -> Option<What>
    ensures { result ≡ told err }
{
    match err {
        ApplyErr::NotNumber => Some(What::NotNumber),
        ApplyErr::Overflow => Some(What::Overflow),
        ApplyErr::Immutable => Some(What::Immutable),
        ApplyErr::TooLarge => Some(What::TooLarge),
        ApplyErr::Memory => None,
    }
}

/// The refusal of one document of an item.
fn refused(alloc: Global, index: u32, id: &Id, what: What) -> EvalErr
    ensures { IsRefusal result (record { index = index; id = id.now; what = what }) }
{
    match id.copy(alloc) {
        Ok(id) => EvalErr::Op(OpErr { index, id, what }),
        Err(_) => EvalErr::Memory,
    }
}

/// The new document of a row that an item meets, where it has other bytes.
fn changed(alloc: Global, item: &UpdateItem, id: &Id, doc: &Doc) -> Result<Option<Doc>, EvalErr>
    ensures { Makes (id.now, doc.now) result (updated document_rules item.now (id.now, doc.now)) }
{
    match apply(alloc, &item.update, doc) {
        Ok(new) => {
            if are_same(alloc, doc, &new)? {
                return Ok(None);
            }
            Ok(Some(new))
        }
        Err(err) => match told(err) {
            Some(what) => Err(refused(alloc, item.index, id, what)),
            None => Err(EvalErr::Memory),
        },
    }
}

/// Meets a row: nothing where the item doesn't want it, else how many documents it changed.
fn change_row(
    alloc: Global,
    item: &UpdateItem,
    row: &mut (Id, Held<'_>),
) -> Result<Option<u64>, EvalErr>
    ensures { Changes item.now row.old row.new result }
{
    let Some(doc) = wanted(&item.filter, &row.1) else {
        return Ok(None);
    };
    match changed(alloc, item, &row.0, doc)? {
        Some(new) => {
            row.1 = Held::Own(new);
            Ok(Some(1))
        }
        None => Ok(Some(0)),
    }
}

fn update_item(
    alloc: Global,
    item: &UpdateItem,
    rows: &mut [(Id, Held<'_>)],
) -> Result<Met, EvalErr>
    requires rising { IsRising rows.old }
    requires known { AreKnown document_rules (rows_in rows.old) }
    ensures { Acts put_content laid_over (update_step document_rules item.now (rows_in rows.old))
        rows.old rows.new result }
{
    let places = wanted_places(alloc, &item.filter, rows)?;
    let mut met = Met { n: 0, changed: 0 };
    for at in places.from..places.to {
        let count = match change_row(alloc, item, &mut rows[at]) {
            Err(err) => return Err(err),
            Ok(None) => continue,
            Ok(Some(count)) => count,
        };
        met.n += 1;
        met.changed += count;
        if !item.many {
            return Ok(met);
        }
    }
    Ok(met)
}

/// Takes a row away, where the filter wants it.
fn drop_row(filter: &Filter, row: &mut (Id, Held<'_>)) -> bool
    ensures { Drops filter.now row.old row.new result }
{
    if wanted(filter, &row.1).is_none() {
        return false;
    }
    row.1 = Held::Nothing;
    true
}

fn delete_item(
    alloc: Global,
    item: &DeleteItem,
    rows: &mut [(Id, Held<'_>)],
) -> Result<Met, EvalErr>
    requires rising { IsRising rows.old }
    requires known { AreKnown document_rules (rows_in rows.old) }
    ensures { Acts no_content without (delete_step document_rules item.now (rows_in rows.old))
        rows.old rows.new result }
{
    let places = wanted_places(alloc, &item.filter, rows)?;
    let mut met = Met { n: 0, changed: 0 };
    for at in places.from..places.to {
        if !drop_row(&item.filter, &mut rows[at]) {
            continue;
        }
        met.n += 1;
        met.changed += 1;
        if !item.many {
            return Ok(met);
        }
    }
    Ok(met)
}

/// Adds a document under its id.
fn add(added: &mut BTreeMap<Id, Doc>, id: Id, doc: Doc) -> Result<(), AllocError>
    ensures { OnOk result (added.new.entries ≡ put_row id doc added.old.entries) }
{
    match added.insert(id, doc) {
        Ok(_old) => Ok(()),
        Err(_failed) => Err(AllocError),
    }
}

/// Adds the item's document to those that items before it added, and tells how many that were.
fn insert_item(
    alloc: Global,
    item: &InsertItem,
    rows: &[(Id, Held<'_>)],
    added: &mut BTreeMap<Id, Doc>,
) -> Result<u64, EvalErr>
    requires { IsRising rows.now }
    ensures { Inserts item.now (rows_in rows.now) added.old.entries added.new.entries result }
{
    let Some(id) = Id::in_doc(alloc, &item.doc)? else {
        return Ok(0);
    };
    if holds(rows, &id) || added.contains_key(&id) {
        return Err(refused(alloc, item.index, &id, What::Duplicate));
    }
    let doc = copy_doc(alloc, &item.doc)?;
    add(added, id, doc)?;
    Ok(1)
}

/// A write that puts it, for each of the documents.
fn puts(alloc: Global, ns: &Ns, mut added: BTreeMap<Id, Doc>) -> Result<Writes, AllocError>
    requires { AreKnown document_rules added.entries }
    ensures { IfOk result (λ writes. writes ≡ map (put_of ns.now) added.entries) }
{
    let mut writes = Writes::new(alloc);
    while let Some((id, doc)) = added.pop_first() {
        writes.push(Write::Put {
            ns: ns.copy(alloc)?,
            id,
            doc,
        })?;
    }
    Ok(writes)
}

/// What is added is kept in a tree by id beside the rows, which stay as they are: in whatever order
/// the ids come, no document moves for another.
fn insert(
    alloc: Global,
    ns: &Ns,
    items: &[InsertItem],
    rows: &[(Id, Held<'_>)],
) -> Result<(OpReply, Writes), EvalErr>
    requires { IsRising rows.now }
    ensures { Means result (eval (ops.Insert ns.now items.now) (rows_in rows.now)) }
{
    let mut added = BTreeMap::new(alloc);
    let mut n = 0;
    for item in items {
        let count = match insert_item(alloc, item, rows, &mut added) {
            Ok(count) => count,
            Err(err) => return Err(err),
        };
        n = counted(n, count);
    }
    let writes = puts(alloc, ns, added)?;
    Ok((OpReply::Count { n, modified: 0 }, writes))
}

fn update(
    alloc: Global,
    ns: &Ns,
    items: &[UpdateItem],
    mut rows: Vec<(Id, Held<'_>)>,
) -> Result<(OpReply, Writes), EvalErr>
    requires rising { IsRising rows.items }
    requires known { AreKnown document_rules (rows_in rows.items) }
    requires unwritten { all_written rows.items ≡ [] }
    ensures { Means result (eval (ops.Update ns.now items.now) (rows_in rows.entry.items)) }
{
    let mut n = 0;
    let mut modified = 0;
    for item in items {
        let met = match update_item(alloc, item, &mut rows) {
            Ok(met) => met,
            Err(err) => return Err(err),
        };
        n = counted(n, met.n);
        modified = counted(modified, met.changed);
    }
    let writes = writes_to(alloc, ns, rows)?;
    Ok((OpReply::Count { n, modified }, writes))
}

fn delete(
    alloc: Global,
    ns: &Ns,
    items: &[DeleteItem],
    mut rows: Vec<(Id, Held<'_>)>,
) -> Result<(OpReply, Writes), EvalErr>
    requires rising { IsRising rows.items }
    requires known { AreKnown document_rules (rows_in rows.items) }
    requires unwritten { all_written rows.items ≡ [] }
    ensures { Means result (eval (ops.Delete ns.now items.now) (rows_in rows.entry.items)) }
{
    let mut n = 0;
    for item in items {
        let met = match delete_item(alloc, item, &mut rows) {
            Ok(met) => met,
            Err(err) => return Err(err),
        };
        n = counted(n, met.n);
    }
    let writes = writes_to(alloc, ns, rows)?;
    Ok((OpReply::Count { n, modified: 0 }, writes))
}

/// What the operation answers and writes over these rows, under the transaction's own writes. An
/// item of an update or a delete goes through all rows, but where its filter tests `_id` for
/// equality: there it looks for that row alone. A find goes through all rows. No document is copied
/// but those that change or are found.
pub fn eval(
    alloc: Global,
    op: &Op,
    rows: &[(Id, Doc)],
    own: &Writes,
) -> Result<(OpReply, Writes), EvalErr>
    requires rising { IsRising rows.now }
    requires known { AreKnown document_rules rows.now }
    ensures { Means result (eval op.now (under (ns_of op.now) rows.now own.now)) }
{
    match op {
        Op::Insert { ns, docs } => {
            let held = rows_under(alloc, ns, rows, own.as_slice())?;
            insert(alloc, ns, docs.as_slice(), &held)
        }
        Op::Find {
            ns,
            filter,
            down,
            limit,
        } => {
            let held = rows_under(alloc, ns, rows, own.as_slice())?;
            let reply = find(alloc, filter, *down, *limit, &held)?;
            Ok((reply, Writes::new(alloc)))
        }
        Op::Update { ns, items } => {
            let held = rows_under(alloc, ns, rows, own.as_slice())?;
            update(alloc, ns, items.as_slice(), held)
        }
        Op::Delete { ns, items } => {
            let held = rows_under(alloc, ns, rows, own.as_slice())?;
            delete(alloc, ns, items.as_slice(), held)
        }
    }
}
