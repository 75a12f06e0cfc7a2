ghost use Rattle.std.specs.Prelude.{◌≡◌, ◌≤◌, map, length, IfOk, IsSome};
ghost use Rattle.txn_types.specs.Limits.{most_batch};
ghost use Rattle.bson_core.specs.declared.value.Value.TheViews.{out-Value};
ghost use Rattle.txn_types.specs.Ids.{id_in};
ghost use Rattle.crud_parse.specs.Results.{Gives};
ghost use Rattle.command_parse.specs.Checks.{field_in};
ghost use Rattle.command_parse.specs.Items.{each_at, insert_item, query_in, many_in, update_item, delete_item};

use crate::checks::or_wrong;
use crate::values::all_in;
use bson_core::{Doc, Name, Value, copy_doc, get};
use crud_parse::{CrudErr, flag_in, read_inner, read_update};
use sqlite_items::Items;
use std::alloc::Global;
use txn_types::{
    DeleteItem, DeleteItems, Filter, Id, InsertItem, InsertItems, UpdateItem, UpdateItems,
};

/// The first value of that name, which has to be there.
pub fn field_in<'a>(alloc: Global, doc: &'a Doc, name: &Name) -> Result<&'a Value, CrudErr>
    ensures { Gives (λ v. v.now) result (field_in name.now doc.now) }
{
    match get(doc, name.as_str()) {
        Some(value) => Ok(value),
        None => Err(CrudErr::Missing {
            name: name.copy(alloc)?,
        }),
    }
}

/// The document to insert at that place.
fn insert_item(alloc: Global, index: u32, doc: &Doc) -> Result<InsertItem, CrudErr>
    ensures item { Gives (λ i. i) result (insert_item index doc.now) }
    ensures id { IfOk result (λ i. IsSome (id_in i.doc)) }
{
    match Id::in_doc(alloc, doc)? {
        Some(_) => Ok(InsertItem {
            index,
            doc: copy_doc(alloc, doc)?,
        }),
        None => Err(CrudErr::Missing {
            name: Name::from_str(alloc, "_id")?,
        }),
    }
}

/// The filter of an item.
fn query_in(alloc: Global, item: &Doc) -> Result<Filter, CrudErr>
    ensures { Gives (λ f. f) result (query_in item.now) }
{
    let name = Name::from_str(alloc, "q")?;
    let value = field_in(alloc, item, &name)?;
    read_inner(alloc, &name, value)
}

/// Whether an item updates all documents that match.
fn many_in(alloc: Global, item: &Doc) -> Result<bool, CrudErr>
    ensures { Gives (λ b. b) result (many_in item.now) }
{
    match get(item, "multi") {
        Some(value) => flag_in(alloc, &Name::from_str(alloc, "multi")?, value),
        None => Ok(false),
    }
}

/// The update at that place.
fn update_item(alloc: Global, index: u32, item: &Doc) -> Result<UpdateItem, CrudErr>
    ensures { Gives (λ i. i) result (update_item index item.now) }
{
    let filter = query_in(alloc, item)?;
    let name = Name::from_str(alloc, "u")?;
    let update = read_update(alloc, field_in(alloc, item, &name)?)?;
    let many = many_in(alloc, item)?;
    Ok(UpdateItem {
        index,
        filter,
        update,
        many,
    })
}

/// The deletion at that place.
fn delete_item(alloc: Global, index: u32, item: &Doc) -> Result<DeleteItem, CrudErr>
    ensures { Gives (λ i. i) result (delete_item index item.now) }
{
    let filter = query_in(alloc, item)?;
    let name = Name::from_str(alloc, "limit")?;
    let value = field_in(alloc, item, &name)?;
    let many = or_wrong(alloc, &name, all_in(value))?;
    Ok(DeleteItem {
        index,
        filter,
        many,
    })
}

/// The documents to insert, each with its place.
pub fn insert_items(alloc: Global, docs: &[&Doc]) -> Result<InsertItems, CrudErr>
    requires { length docs.now ≤ most_batch }
    ensures { Gives (λ items. items) result
        (each_at insert_item 0 (map (λ doc. doc.now) docs.now)) }
{
    let mut items = InsertItems::new(alloc);
    for (index, doc) in docs.iter().enumerate() {
        items.push(insert_item(alloc, index as u32, doc)?)?;
    }
    Ok(items)
}

/// The updates, each with its place.
pub fn update_items(alloc: Global, docs: &[&Doc]) -> Result<UpdateItems, CrudErr>
    requires { length docs.now ≤ most_batch }
    ensures { Gives (λ items. items) result
        (each_at update_item 0 (map (λ doc. doc.now) docs.now)) }
{
    let mut items = Vec::new(alloc);
    for (index, doc) in docs.iter().enumerate() {
        items.push(update_item(alloc, index as u32, doc)?)?;
    }
    Ok(Items::from_vec(items))
}

/// The deletions, each with its place.
pub fn delete_items(alloc: Global, docs: &[&Doc]) -> Result<DeleteItems, CrudErr>
    requires { length docs.now ≤ most_batch }
    ensures { Gives (λ items. items) result
        (each_at delete_item 0 (map (λ doc. doc.now) docs.now)) }
{
    let mut items = Vec::new(alloc);
    for (index, doc) in docs.iter().enumerate() {
        items.push(delete_item(alloc, index as u32, doc)?)?;
    }
    Ok(Items::from_vec(items))
}
