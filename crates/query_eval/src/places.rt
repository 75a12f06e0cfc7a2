//! Where an item may meet rows: at the place of one id, if its filter tests `_id` for equality, or
//! at every place.
ghost use Rattle.std.specs.Prelude.{◌≡◌, true, IfOk, IfSome};
ghost use Rattle.std.specs.List.{list_all};
ghost use Rattle.bson_core.specs.Fields.{Document};
ghost use Rattle.txn_types.specs.Ids.{id_name};
ghost use Rattle.txn_semantics.specs.Effect.{AreKnown};
ghost use Rattle.txn_semantics.specs.Filters.{equals, matches};
ghost use Rattle.txn_semantics.specs.Meaning.{document_rules};
ghost use Rattle.txn_semantics.specs.Rows.{IsRising};
ghost use Rattle.query_eval.specs.Held.{rows_in};
ghost use Rattle.query_eval.specs.Outside.{Outside, IsUnwanted, HasOtherId};

use crate::held::{Held, place_of};
use bson_core::Value;
use std::alloc::{AllocError, Global};
use txn_types::{Cmp, Filter, Id, IdErr};

/// The places from one up to another.
#[derive(Clone, Copy, PartialEq, Eq)]
pub struct Places {
    pub from: usize,
    pub to: usize,
}

/// The value that the filter wants `_id` to equal, by itself or through `$and`.
#[cycle(asked_id)]
fn asked_id(filter: &Filter) -> Option<&Value>
    ensures { IfSome result (λ value. (doc : Document) → matches filter.now doc ≡ true
        → equals id_name value.now doc ≡ true) }
{
    match filter {
        Filter::And(filters) => first_asked(filters.as_slice()),
        Filter::Test { name, cmp, value } => match cmp {
            Cmp::Eq if name.as_str() == "_id" => Some(value),
            _ => None,
        },
        _ => None,
    }
}

/// The value of the first of the filters that asks for one.
#[cycle(asked_id)]
fn first_asked(filters: &[Filter]) -> Option<&Value>
    ensures { IfSome result (λ value. (doc : Document)
        → list_all (λ filter. matches filter doc) filters.now ≡ true
        → equals id_name value.now doc ≡ true) }
{
    for filter in filters {
        if let Some(value) = asked_id(filter) {
            return Some(value);
        }
    }
    None
}

/// The place of the row of that id, if there is one.
fn place_alone(rows: &[(Id, Held<'_>)], id: &Id) -> Places
    requires { IsRising rows.now }
    ensures { Outside (HasOtherId id.now) rows.now result }
{
    match place_of(rows, id) {
        Ok(at) => Places {
            from: at,
            to: at + 1,
        },
        Err(at) => Places { from: at, to: at },
    }
}

/// The places of the rows that the filter may want: one at most where it asks for an `_id`, and all
/// where it doesn't.
pub fn wanted_places(
    alloc: Global,
    filter: &Filter,
    rows: &[(Id, Held<'_>)],
) -> Result<Places, AllocError>
    requires rising { IsRising rows.now }
    requires known { AreKnown document_rules (rows_in rows.now) }
    ensures { IfOk result (λ places. Outside (IsUnwanted filter.now) rows.now places) }
{
    let Some(value) = asked_id(filter) else {
        return Ok(Places {
            from: 0,
            to: rows.len(),
        });
    };
    match Id::of(alloc, value) {
        Ok(id) => Ok(place_alone(rows, &id)),
        Err(IdErr::BadId) => Ok(Places { from: 0, to: 0 }),
        Err(IdErr::Memory) => Err(AllocError),
    }
}
