ghost use Rattle.std.specs.Prelude.{◌≡◌, ◌∷◌, ◌++◌, [], IfOk, OnOk, None, Some, map, option_map, if◌then◌else◌};
ghost use Rattle.std.specs.List.{cons_option, filter_map};
ghost use Rattle.std.specs.Str.{bytes_eq};
ghost use Rattle.txn_types.specs.Ids.{id_of, id_in, id_name};
ghost use Rattle.txn_types.specs.declared.operation.UpdateItem.{UpdateItem};
ghost use Rattle.txn_types.specs.declared.operation.DeleteItem.{DeleteItem};
ghost use Rattle.txn_semantics.specs.Meaning.{ns_of};
ghost use Rattle.txn_semantics.specs.Touched.{ids_among, id_test, joined_tests, first_some, touched};

use bson_core::Value;
use std::alloc::{AllocError, Global};
use txn_types::{Cmp, DeleteItem, Filter, Id, IdErr, InsertItem, Ns, Op, UpdateItem};

/// The namespace of an operation.
pub fn namespace(op: &Op) -> &Ns
    ensures { result.now ≡ ns_of op.now }
{
    match op {
        Op::Insert { ns, .. } | Op::Find { ns, .. } => ns,
        Op::Update { ns, .. } | Op::Delete { ns, .. } => ns,
    }
}

/// The id that the value is, if it is one.
fn id_of(alloc: Global, value: &Value) -> Result<Option<Id>, AllocError>
    ensures { IfOk result (λ id. id ≡ id_of value.now) }
{
    match Id::of(alloc, value) {
        Ok(id) => Ok(Some(id)),
        Err(IdErr::BadId) => Ok(None),
        Err(IdErr::Memory) => Err(AllocError),
    }
}

/// Adds the id, where there is one.
fn keep(ids: &mut Vec<Id>, id: Option<Id>) -> Result<(), AllocError>
    ensures { OnOk result (ids.new.items ≡ ids.old.items ++ cons_option id []) }
{
    if let Some(id) = id {
        ids.push(id)?;
    }
    Ok(())
}

/// The ids among the values.
#[tactic(auto, using(crate::proofs::Tests::kept_more))]
fn ids_among(alloc: Global, values: &[Value]) -> Result<Vec<Id>, AllocError>
    ensures { IfOk result (λ ids. ids.items ≡ ids_among values.now) }
{
    let mut ids = Vec::new(alloc);
    for value in values {
        let id = id_of(alloc, value)?;
        keep(&mut ids, id)?;
    }
    Ok(ids)
}

/// The id that is the value, where the field is `_id`; all, where it isn't.
fn one_id(alloc: Global, name: &str, value: &Value) -> Result<Option<Vec<Id>>, AllocError>
    ensures { IfOk result (λ ids. option_map (λ v. v.items) ids
        ≡ (if bytes_eq name.now id_name then Some (ids_among (value.now ∷ [])) else None)) }
{
    if name != "_id" {
        return Ok(None);
    }
    let mut ids = Vec::new(alloc);
    let id = id_of(alloc, value)?;
    keep(&mut ids, id)?;
    Ok(Some(ids))
}

/// The ids among the values, where the field is `_id`; all, where it isn't.
fn some_ids(alloc: Global, name: &str, values: &[Value]) -> Result<Option<Vec<Id>>, AllocError>
    ensures { IfOk result (λ ids. option_map (λ v. v.items) ids
        ≡ (if bytes_eq name.now id_name then Some (ids_among values.now) else None)) }
{
    if name != "_id" {
        return Ok(None);
    }
    let ids = ids_among(alloc, values)?;
    Ok(Some(ids))
}

/// The ids of the filter's id test; all, where it has none.
#[cycle(id_test)]
#[tactic(auto, using(crate::proofs::Tests::id_test_and, crate::proofs::Tests::id_test_test, crate::proofs::Tests::id_test_in, crate::proofs::Tests::id_test_or, crate::proofs::Tests::id_test_nor, crate::proofs::Tests::id_test_nin, crate::proofs::Tests::id_test_exists))]
fn id_test(alloc: Global, filter: &Filter) -> Result<Option<Vec<Id>>, AllocError>
    ensures { IfOk result (λ ids. option_map (λ v. v.items) ids ≡ id_test filter.now) }
{
    match filter {
        Filter::And(filters) => first_test(alloc, filters.as_slice()),
        Filter::Test { name, cmp, value } => match cmp {
            Cmp::Eq => one_id(alloc, name.as_str(), value),
            _ => Ok(None),
        },
        Filter::In { name, values } => some_ids(alloc, name.as_str(), values.as_slice()),
        Filter::Or(_) => Ok(None),
        Filter::Nor(_) => Ok(None),
        Filter::Nin { .. } => Ok(None),
        Filter::Exists { .. } => Ok(None),
    }
}

/// The id test of the first of the filters that has one.
#[cycle(id_test)]
fn first_test(alloc: Global, filters: &[Filter]) -> Result<Option<Vec<Id>>, AllocError>
    ensures { IfOk result
        (λ ids. option_map (λ v. v.items) ids ≡ first_some (map id_test filters.now)) }
{
    for filter in filters {
        if let Some(ids) = id_test(alloc, filter)? {
            return Ok(Some(ids));
        }
    }
    Ok(None)
}

/// The ids of the documents.
#[tactic(auto, using(crate::proofs::Tests::kept_more))]
fn inserted(alloc: Global, items: &[InsertItem]) -> Result<Vec<Id>, AllocError>
    ensures { IfOk result (λ ids. ids.items ≡ filter_map (λ item. id_in item.doc) items.now) }
{
    let mut ids = Vec::new(alloc);
    for item in items {
        let id = Id::in_doc(alloc, &item.doc)?;
        keep(&mut ids, id)?;
    }
    Ok(ids)
}

/// The ids of the tests of all items; all, where an item has none.
#[tactic(auto, using(crate::proofs::Tests::joined_more))]
fn updated(alloc: Global, items: &[UpdateItem]) -> Result<Option<Vec<Id>>, AllocError>
    ensures { IfOk result (λ ids. option_map (λ v. v.items) ids
        ≡ joined_tests (map (λ (item : UpdateItem). id_test item.filter) items.now)) }
{
    let mut all = Vec::new(alloc);
    for item in items {
        let Some(mut ids) = id_test(alloc, &item.filter)? else {
            return Ok(None);
        };
        all.append(&mut ids)?;
    }
    Ok(Some(all))
}

/// The ids of the tests of all items; all, where an item has none.
#[tactic(auto, using(crate::proofs::Tests::joined_more))]
fn deleted(alloc: Global, items: &[DeleteItem]) -> Result<Option<Vec<Id>>, AllocError>
    ensures { IfOk result (λ ids. option_map (λ v. v.items) ids
        ≡ joined_tests (map (λ (item : DeleteItem). id_test item.filter) items.now)) }
{
    let mut all = Vec::new(alloc);
    for item in items {
        let Some(mut ids) = id_test(alloc, &item.filter)? else {
            return Ok(None);
        };
        all.append(&mut ids)?;
    }
    Ok(Some(all))
}

/// The ids that the operation touches; all, where no test tells them.
pub fn touched(alloc: Global, op: &Op) -> Result<Option<Vec<Id>>, AllocError>
    ensures { IfOk result (λ ids. option_map (λ v. v.items) ids ≡ touched op.now) }
{
    match op {
        Op::Insert { docs, .. } => {
            let ids = inserted(alloc, docs.as_slice())?;
            Ok(Some(ids))
        }
        Op::Find { filter, .. } => id_test(alloc, filter),
        Op::Update { items, .. } => updated(alloc, items.as_slice()),
        Op::Delete { items, .. } => deleted(alloc, items.as_slice()),
    }
}
