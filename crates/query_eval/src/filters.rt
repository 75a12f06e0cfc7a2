ghost use Rattle.std.specs.Prelude.{◌≡◌, ◌∷◌};
ghost use Rattle.std.specs.List.{list_any, list_all};
ghost use Rattle.bson_core.specs.declared.value.Value.TheViews.{out-Value};
ghost use Rattle.txn_semantics.specs.Filters.{matches, passes, equals, some_compares, compares, within};
ghost use Rattle.query_eval.specs.Wanted.{wanted};

use bson_core::{Doc, Value, get};
use std::cmp::Ordering;
use txn_types::{Cmp, Filter};
use value_order::{bracket, compare};

/// Whether the comparison wants a candidate that stands so beside the operand. Inequality is
/// equality turned round.
fn is_wanted(cmp: Cmp, order: Ordering) -> bool
    ensures { result ≡ wanted cmp order }
{
    match cmp {
        Cmp::Eq | Cmp::Ne => order.is_eq(),
        Cmp::Gt => order.is_gt(),
        Cmp::Gte => order.is_ge(),
        Cmp::Lt => order.is_lt(),
        Cmp::Lte => order.is_le(),
    }
}

fn compares(cmp: Cmp, value: &Value, candidate: &Value) -> bool
    ensures { result ≡ compares (wanted cmp) value.now candidate.now }
{
    bracket(candidate) == bracket(value) && is_wanted(cmp, compare(candidate, value))
}

/// Whether one of the candidates compares so.
fn any_compares(cmp: Cmp, value: &Value, candidates: &[Value]) -> bool
    ensures { result ≡ list_any (compares (wanted cmp) value.now) candidates.now }
{
    for candidate in candidates {
        if compares(cmp, value, candidate) {
            return true;
        }
    }
    false
}

/// Whether a value in the list that the field is compares so.
fn any_within(cmp: Cmp, value: &Value, field: &Value) -> bool
    ensures { result ≡ list_any (compares (wanted cmp) value.now) (within (out-Value field.now)) }
{
    match field {
        Value::List(list) => any_compares(cmp, value, list.as_slice()),
        _ => false,
    }
}

/// Whether some candidate of the field compares so with the value.
fn some_compares(cmp: Cmp, name: &str, value: &Value, doc: &Doc) -> bool
    ensures { result ≡ some_compares (wanted cmp) name.now value.now doc.now }
{
    match get(doc, name) {
        Some(field) => compares(cmp, value, field) || any_within(cmp, value, field),
        None => compares(cmp, value, &Value::Null),
    }
}

fn equals(name: &str, value: &Value, doc: &Doc) -> bool
    ensures { result ≡ equals name.now value.now doc.now }
{
    some_compares(Cmp::Eq, name, value, doc)
}

fn passes(cmp: Cmp, name: &str, value: &Value, doc: &Doc) -> bool
    ensures { result ≡ passes cmp name.now value.now doc.now }
{
    match cmp {
        Cmp::Ne => !some_compares(Cmp::Ne, name, value, doc),
        Cmp::Eq => some_compares(Cmp::Eq, name, value, doc),
        Cmp::Gt => some_compares(Cmp::Gt, name, value, doc),
        Cmp::Gte => some_compares(Cmp::Gte, name, value, doc),
        Cmp::Lt => some_compares(Cmp::Lt, name, value, doc),
        Cmp::Lte => some_compares(Cmp::Lte, name, value, doc),
    }
}

/// Whether the field is equal to one of the values.
fn equals_some(name: &str, values: &[Value], doc: &Doc) -> bool
    ensures { result ≡ list_any (λ value. equals name.now value doc.now) values.now }
{
    for value in values {
        if equals(name, value, doc) {
            return true;
        }
    }
    false
}

/// Whether the document matches the filter. It takes no memory.
#[cycle(matches)]
#[tactic(auto, using(crate::proofs::Matching::matches_and, crate::proofs::Matching::matches_or, crate::proofs::Matching::matches_nor, crate::proofs::Matching::matches_test, crate::proofs::Matching::matches_in, crate::proofs::Matching::matches_nin, crate::proofs::Matching::matches_exists))]
pub fn matches(filter: &Filter, doc: &Doc) -> bool
    ensures { result ≡ matches filter.now doc.now }
{
    match filter {
        Filter::And(filters) => all_match(filters.as_slice(), doc),
        Filter::Or(filters) => some_match(filters.as_slice(), doc),
        Filter::Nor(filters) => !some_match(filters.as_slice(), doc),
        Filter::Test { name, cmp, value } => passes(*cmp, name.as_str(), value, doc),
        Filter::In { name, values } => equals_some(name.as_str(), values.as_slice(), doc),
        Filter::Nin { name, values } => !equals_some(name.as_str(), values.as_slice(), doc),
        Filter::Exists { name, yes } => {
            let there = get(doc, name.as_str()).is_some();
            if *yes { there } else { !there }
        }
    }
}

#[cycle(matches)]
fn all_match(filters: &[Filter], doc: &Doc) -> bool
    ensures { result ≡ list_all (λ filter. matches filter doc.now) filters.now }
{
    for filter in filters {
        if !matches(filter, doc) {
            return false;
        }
    }
    true
}

#[cycle(matches)]
fn some_match(filters: &[Filter], doc: &Doc) -> bool
    ensures { result ≡ list_any (λ filter. matches filter doc.now) filters.now }
{
    for filter in filters {
        if matches(filter, doc) {
            return true;
        }
    }
    false
}
