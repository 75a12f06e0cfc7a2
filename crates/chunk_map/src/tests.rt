//! The ids that a filter asks for.
ghost use Rattle.std.specs.Prelude.{◌≡◌, ◌++◌, [], ◌∷◌, map, option_map, if◌then◌else◌, None, Some, IfOk, OnOk};
ghost use Rattle.std.specs.Str.{bytes_eq};
ghost use Rattle.txn_types.specs.Ids.{id_name};
ghost use Rattle.txn_semantics.specs.Touched.{ids_among, first_some, id_test};
ghost use Rattle.chunk_map.specs.Place.{test_of};

use bson_core::Value;
use std::alloc::{AllocError, Global};
use txn_types::{Cmp, Filter, Id, IdErr};

/// Adds the id that the value is, where it is one.
fn push_id(alloc: Global, ids: &mut Vec<Id>, value: &Value) -> Result<(), AllocError>
    ensures { OnOk result (ids.new.items ≡ ids.old.items ++ ids_among (value.now ∷ [])) }
{
    match Id::of(alloc, value) {
        Ok(id) => {
            ids.push(id)?;
            Ok(())
        }
        Err(IdErr::BadId) => Ok(()),
        Err(IdErr::Memory) => Err(AllocError),
    }
}

/// The ids among the values.
#[tactic(auto, using(crate::proofs::Testing::ids_step))]
fn ids_among(alloc: Global, values: &[Value]) -> Result<Vec<Id>, AllocError>
    ensures { IfOk result (λ v. v.items ≡ ids_among values.now) }
{
    let mut ids = Vec::new(alloc);
    for value in values {
        push_id(alloc, &mut ids, value)?;
    }
    Ok(ids)
}

/// The id test of a comparison.
fn test_of(
    alloc: Global,
    name: &str,
    cmp: Cmp,
    value: &Value,
) -> Result<Option<Vec<Id>>, AllocError>
    ensures { IfOk result
        (λ test. option_map (λ v. v.items) test ≡ test_of name.now cmp value.now) }
{
    match cmp {
        Cmp::Eq => {
            if name == "_id" {
                let mut ids = Vec::new(alloc);
                push_id(alloc, &mut ids, value)?;
                Ok(Some(ids))
            } else {
                Ok(None)
            }
        }
        Cmp::Ne | Cmp::Gt | Cmp::Gte | Cmp::Lt | Cmp::Lte => Ok(None),
    }
}

/// The id test of a field that is to be one of the values.
fn test_among(alloc: Global, name: &str, values: &[Value]) -> Result<Option<Vec<Id>>, AllocError>
    ensures { IfOk result (λ test. option_map (λ v. v.items) test
        ≡ (if bytes_eq name.now id_name then Some (ids_among values.now) else None)) }
{
    if name == "_id" {
        Ok(Some(ids_among(alloc, values)?))
    } else {
        Ok(None)
    }
}

/// The ids of the filter's id test, which is the first comparison of `_id` for equality, or the
/// first `$in` of it, that is the filter itself or is reached from it through `$and` alone; None
/// where there is no such test, so that all ids are asked for.
#[cycle(id_test)]
#[tactic(auto, using(crate::proofs::Testing::id_test_and, crate::proofs::Testing::id_test_or, crate::proofs::Testing::id_test_nor, crate::proofs::Testing::id_test_test, crate::proofs::Testing::id_test_in, crate::proofs::Testing::id_test_nin, crate::proofs::Testing::id_test_exists))]
pub fn id_test(alloc: Global, filter: &Filter) -> Result<Option<Vec<Id>>, AllocError>
    ensures { IfOk result (λ test. option_map (λ v. v.items) test ≡ id_test filter.now) }
{
    match filter {
        Filter::And(filters) => first_test(alloc, filters.as_slice()),
        Filter::Or(_filters) | Filter::Nor(_filters) => Ok(None),
        Filter::Test { name, cmp, value } => test_of(alloc, name.as_str(), *cmp, value),
        Filter::In { name, values } => test_among(alloc, name.as_str(), values.as_slice()),
        Filter::Nin { .. } | Filter::Exists { .. } => Ok(None),
    }
}

/// The first id test of the filters.
#[cycle(id_test)]
fn first_test(alloc: Global, filters: &[Filter]) -> Result<Option<Vec<Id>>, AllocError>
    ensures { IfOk result
        (λ test. option_map (λ v. v.items) test ≡ first_some (map id_test filters.now)) }
{
    for filter in filters {
        if let Some(ids) = id_test(alloc, filter)? {
            return Ok(Some(ids));
        }
    }
    Ok(None)
}
