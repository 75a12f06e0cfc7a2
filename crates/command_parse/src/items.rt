ghost use Rattle.std.specs.Prelude.{◌≡◌, ◌≤◌, map, length, nat_le};
ghost use Rattle.std.specs.Option.{option_copied};
ghost use Rattle.txn_types.specs.Limits.{most_stored};
ghost use Rattle.bson_core.specs.declared.value.Value.TheViews.{out-Value};
ghost use Rattle.bson_core.specs.Fields.{value_of};
ghost use Rattle.bson_core.specs.Spelling.{spelling};
ghost use Rattle.crud_parse.specs.Results.{Gives};
ghost use Rattle.command_parse.specs.Commands.{item_rule};
ghost use Rattle.command_parse.specs.Checks.{check_each, firsts};
ghost use Rattle.command_parse.specs.Items.{id_check, document_check, item_field_check, is_true, is_replacement, holds, replaces_many, lacking_in, change_check, item_check};

use crate::checks::{is_among, or_wrong};
use crate::rules::{Batch, Change, ItemRule};
use crate::values::{all_in, no_upsert_in};
use bson_core::{Doc, Name, Value, get, size};
use crud_parse::{CrudErr, begins_with_operator, flag_in, read_inner, read_update};
use std::alloc::Global;
use txn_types::{Id, IdErr};

/// No stored document is longer, in bytes.
const MOST_STORED: u64 = 16_777_216;

/// What is missing of the id of a document to insert.
fn check_id(alloc: Global, id: Option<&Value>) -> Result<Option<Name>, CrudErr>
    ensures { Gives (λ m. m) result (id_check (option_copied id.entry)) }
{
    let Some(value) = id else {
        return Ok(Some(Name::from_str(alloc, "_id")?));
    };
    match Id::of(alloc, value) {
        Ok(_) => Ok(None),
        Err(IdErr::BadId) => Err(CrudErr::WrongKind {
            name: Name::from_str(alloc, "_id")?,
        }),
        Err(IdErr::Memory) => Err(CrudErr::Memory),
    }
}

/// Whether the document is short enough to be stored.
fn can_be_stored(doc: &Doc) -> bool
    ensures { result ≡ nat_le (length (spelling doc.now)) most_stored }
{
    size(doc) <= MOST_STORED
}

/// What is missing in a document to insert.
fn check_document(alloc: Global, doc: &Doc) -> Result<Option<Name>, CrudErr>
    ensures { Gives (λ m. m) result (document_check doc.now) }
{
    let missing = check_id(alloc, get(doc, "_id"))?;
    if !can_be_stored(doc) {
        return Err(CrudErr::WrongKind {
            name: Batch::Documents.name(alloc)?,
        });
    }
    Ok(missing)
}

/// Refuses a field of an item that isn't as it has to be.
fn check_item_field(
    alloc: Global,
    change: Change,
    name: &Name,
    value: &Value,
) -> Result<Option<Name>, CrudErr>
    ensures { Gives (λ m. m) result (item_field_check change (name.now, value.now)) }
{
    let Some(rule) = ItemRule::of(change, name.as_str()) else {
        return Err(CrudErr::UnknownField {
            name: name.copy(alloc)?,
        });
    };
    match rule {
        ItemRule::Query => {
            let _filter = read_inner(alloc, name, value)?;
        }
        ItemRule::Update => {
            let _update = read_update(alloc, value)?;
        }
        ItemRule::Multi => {
            let _many = flag_in(alloc, name, value)?;
        }
        ItemRule::Upsert => {
            let _upsert = no_upsert_in(alloc, name, value)?;
        }
        ItemRule::Limit => {
            let _all = or_wrong(alloc, name, all_in(value))?;
        }
    }
    Ok(None)
}

/// Refuses a field of an item that isn't as it has to be. An item has few fields of different
/// names, since any other is refused at once; so `names` stays short.
#[tactic(auto, using(crate::proofs::Behind::behind_behind))]
fn check_item_fields(
    alloc: Global,
    change: Change,
    fields: &[(Name, Value)],
) -> Result<Option<Name>, CrudErr>
    ensures { Gives (λ m. m) result (check_each (item_field_check change) (firsts fields.now)) }
{
    let mut names = Vec::new(alloc);
    let mut missing = None;
    for (name, value) in fields {
        if is_among(name, names.as_slice()) {
            continue;
        }
        missing = missing.or(check_item_field(alloc, change, name, value)?);
        names.push(name.copy(alloc)?)?;
    }
    Ok(missing)
}

fn is_true(value: Option<&Value>) -> bool
    ensures { result ≡ holds is_true (option_copied value.entry) }
{
    match value {
        Some(Value::Bool(flag)) => *flag,
        _ => false,
    }
}

fn is_replacement(value: Option<&Value>) -> bool
    ensures { result ≡ holds is_replacement (option_copied value.entry) }
{
    match value {
        Some(Value::Doc(doc)) => !begins_with_operator(doc.as_slice()),
        _ => false,
    }
}

/// Whether many documents are to be replaced by one.
fn replaces_many(item: &Doc) -> bool
    ensures { result ≡ replaces_many item.now }
{
    is_true(get(item, "multi")) && is_replacement(get(item, "u"))
}

/// The first of the fields that an item has to have and hasn't.
fn lacking_in(alloc: Global, change: Change, item: &Doc) -> Result<Option<Name>, CrudErr>
    ensures { Gives (λ m. m) result (Ok (lacking_in change item.now)) }
{
    if get(item, "q").is_none() {
        return Ok(Some(Name::from_str(alloc, "q")?));
    }
    match change {
        Change::Update => {
            if get(item, "u").is_none() {
                return Ok(Some(Name::from_str(alloc, "u")?));
            }
        }
        Change::Delete => {
            if get(item, "limit").is_none() {
                return Ok(Some(Name::from_str(alloc, "limit")?));
            }
        }
    }
    Ok(None)
}

/// What is missing in an item of a list of changes.
fn check_change(alloc: Global, change: Change, item: &Doc) -> Result<Option<Name>, CrudErr>
    ensures { Gives (λ m. m) result (change_check change item.now) }
{
    let inside = check_item_fields(alloc, change, item.as_slice())?;
    if replaces_many(item) {
        return Err(CrudErr::WrongKind {
            name: Name::from_str(alloc, "multi")?,
        });
    }
    Ok(inside.or(lacking_in(alloc, change, item)?))
}

fn check_item(alloc: Global, batch: Batch, doc: &Doc) -> Result<Option<Name>, CrudErr>
    ensures { Gives (λ m. m) result (item_check batch doc.now) }
{
    match batch {
        Batch::Documents => check_document(alloc, doc),
        Batch::Changes(change) => check_change(alloc, change, doc),
    }
}

/// What is missing first in the documents of a batch.
#[tactic(auto, using(crate::proofs::Behind::behind_behind))]
pub fn check_items(alloc: Global, batch: Batch, docs: &[&Doc]) -> Result<Option<Name>, CrudErr>
    ensures { Gives (λ m. m) result
        (check_each (item_check batch) (map (λ doc. doc.now) docs.now)) }
{
    let mut missing = None;
    for doc in docs {
        missing = missing.or(check_item(alloc, batch, doc)?);
    }
    Ok(missing)
}
