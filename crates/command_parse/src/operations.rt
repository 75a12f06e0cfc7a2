ghost use Rattle.std.specs.Prelude.{◌≡◌, ◌≤◌, map, length, IfOk};
ghost use Rattle.txn_types.specs.Limits.{most_batch};
ghost use Rattle.crud_parse.specs.Results.{Gives};
ghost use Rattle.command_parse.specs.Operations.{text_under, namespace_in, batch_under, filter_under, falls_under, limit_under, find_of, built, op_of};

use crate::batches::{batch_in_section, batch_in_value};
use crate::building::{delete_items, field_in, insert_items, update_items};
use crate::checks::or_wrong;
use crate::command::{Command, Statement};
use crate::fields::{check, section_of};
use crate::rules::{Batch, Change};
use crate::values::{falls_in, limit_in};
use bson_core::{Doc, Name, Value, get};
use crud_parse::{CrudErr, read_inner};
use op_msg::Frame;
use sqlite_items::Items;
use std::alloc::Global;
use txn_types::{Filter, Ns, NsErr, Op};

/// The text of that name, which has to be there.
fn text_under<'a>(alloc: Global, body: &'a Doc, name: &Name) -> Result<&'a str, CrudErr>
    ensures { Gives (λ t. t.now) result (text_under name.now body.now) }
{
    match field_in(alloc, body, name)? {
        Value::Text(text) => Ok(text.as_str()),
        _ => Err(CrudErr::WrongKind {
            name: name.copy(alloc)?,
        }),
    }
}

/// The namespace of a statement.
fn namespace_in(alloc: Global, statement: Statement, body: &Doc) -> Result<Ns, CrudErr>
    ensures { Gives (λ n. n) result (namespace_in statement body.now) }
{
    let database_field = Name::from_str(alloc, "$db")?;
    let collection_field = statement.name(alloc)?;
    let database = text_under(alloc, body, &database_field)?;
    let collection = text_under(alloc, body, &collection_field)?;
    match Ns::of(alloc, database, collection) {
        Ok(ns) => Ok(ns),
        Err(NsErr::Database) => Err(CrudErr::WrongKind {
            name: database_field,
        }),
        Err(NsErr::Collection) => Err(CrudErr::WrongKind {
            name: collection_field,
        }),
        Err(NsErr::Memory) => Err(CrudErr::Memory),
    }
}

/// The documents of the batch, from its field or its section.
fn batch_under<'a>(alloc: Global, batch: Batch, frame: &'a Frame) -> Result<Vec<&'a Doc>, CrudErr>
    ensures docs { Gives (λ docs. map (λ doc. doc.now) docs.items) result
        (batch_under batch frame.now) }
    ensures most { IfOk result (λ docs. length docs.items ≤ most_batch) }
{
    let section = match get(&frame.body, batch.as_str()) {
        Some(value) => return batch_in_value(alloc, batch, value),
        None => section_of(frame, batch.as_str()),
    };
    match section {
        Some(docs) => batch_in_section(alloc, batch, docs),
        None => Err(CrudErr::Missing {
            name: batch.name(alloc)?,
        }),
    }
}

/// The filter of a find, which is that of all documents where it has none.
fn filter_under(alloc: Global, body: &Doc) -> Result<Filter, CrudErr>
    ensures { Gives (λ f. f) result (filter_under body.now) }
{
    match get(body, "filter") {
        Some(value) => read_inner(alloc, &Name::from_str(alloc, "filter")?, value),
        None => Ok(Filter::And(Items::from_vec(Vec::new(alloc)))),
    }
}

/// Whether a find falls.
fn falls_under(alloc: Global, body: &Doc) -> Result<bool, CrudErr>
    ensures { Gives (λ b. b) result (falls_under body.now) }
{
    match get(body, "sort") {
        Some(value) => or_wrong(alloc, &Name::from_str(alloc, "sort")?, falls_in(value)),
        None => Ok(false),
    }
}

/// The limit of a find, 0 for none.
fn limit_under(alloc: Global, body: &Doc) -> Result<u64, CrudErr>
    ensures { Gives (λ n. n) result (limit_under body.now) }
{
    match get(body, "limit") {
        Some(value) => or_wrong(alloc, &Name::from_str(alloc, "limit")?, limit_in(value)),
        None => Ok(0),
    }
}

fn build_find(alloc: Global, ns: Ns, body: &Doc) -> Result<Op, CrudErr>
    ensures { Gives (λ o. o) result (find_of ns body.now) }
{
    let filter = filter_under(alloc, body)?;
    let down = falls_under(alloc, body)?;
    let limit = limit_under(alloc, body)?;
    Ok(Op::Find {
        ns,
        filter,
        down,
        limit,
    })
}

/// The operation of a statement whose fields were checked.
fn build(alloc: Global, statement: Statement, ns: Ns, frame: &Frame) -> Result<Op, CrudErr>
    ensures { Gives (λ o. o) result (built statement ns frame.now) }
{
    match statement {
        Statement::Insert => {
            let docs = batch_under(alloc, Batch::Documents, frame)?;
            let docs = insert_items(alloc, docs.as_slice())?;
            Ok(Op::Insert { ns, docs })
        }
        Statement::Find => build_find(alloc, ns, &frame.body),
        Statement::Update => {
            let docs = batch_under(alloc, Batch::Changes(Change::Update), frame)?;
            let items = update_items(alloc, docs.as_slice())?;
            Ok(Op::Update { ns, items })
        }
        Statement::Delete => {
            let docs = batch_under(alloc, Batch::Changes(Change::Delete), frame)?;
            let items = delete_items(alloc, docs.as_slice())?;
            Ok(Op::Delete { ns, items })
        }
    }
}

/// The operation that the message asks for, read as that statement. Its fields are those of the
/// body, and after them the sections; of one name the first counts, and the others aren't looked
/// at.
///
/// Otherwise the first refusal is answered that is met front to back: `UnknownField` for a field
/// that the statement or an item of it hasn't, `WrongKind` with the name of the field or of the
/// inner field, or what `read_filter` and
/// `read_update` refuse. `Missing` comes where there is no other refusal: first what a field lacks
/// inside, then the list of documents, then `$db`, and of a statement of a transaction `lsid` and
/// `txnNumber`.
///
/// It goes through the message twice: it is checked first, and built when nothing was refused.
#[tactic(auto, unfolding(crate::specs::Operations::op_of))]
pub fn read_op(alloc: Global, statement: Statement, frame: &Frame) -> Result<Op, CrudErr>
    ensures { Gives (λ o. o) result (op_of statement frame.now) }
{
    check(alloc, Command::Statement(statement), frame)?;
    let ns = namespace_in(alloc, statement, &frame.body)?;
    build(alloc, statement, ns, frame)
}
