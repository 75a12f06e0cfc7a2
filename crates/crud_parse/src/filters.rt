ghost use Rattle.std.specs.Prelude.{◌≡◌, option_map};
ghost use Rattle.std.specs.List.{list_all};
ghost use Rattle.bson_core.specs.declared.value.Value.TheViews.{out-Value};
ghost use Rattle.crud_parse.specs.Results.{Gives, each};
ghost use Rattle.crud_parse.specs.Filters.{is_document, are_documents, operators_in, list_in, flag_in, condition, field_filter, inner_by, filters_by, element_by, filter_of};

use crate::error::CrudErr;
use crate::names::{begins_with_dollar, begins_with_operator, has_full_stop};
use crate::operators::{Junction, Operator};
use bson_core::{Doc, List, Name, Value, copy_list};
use sqlite_items::Items;
use std::alloc::Global;
use txn_types::{Cmp, Filter};

fn is_document(value: &Value) -> bool
    ensures { result ≡ is_document (out-Value value.now) }
{
    match value {
        Value::Doc(_) => true,
        _ => false,
    }
}

fn all_are_documents(values: &[Value]) -> bool
    ensures { result ≡ list_all (λ value. is_document (out-Value value)) values.now }
{
    values.iter().all(|value| is_document(value))
}

/// Whether there are values, and all of them are documents.
fn are_documents(values: &[Value]) -> bool
    ensures { result ≡ are_documents values.now }
{
    !values.is_empty() && all_are_documents(values)
}

/// The fields of the document that the value is, where the first of them is named as an operator
/// is.
fn operators_in(value: &Value) -> Option<&[(Name, Value)]>
    ensures { option_map (λ fields. fields.now) result ≡ operators_in (out-Value value.now) }
{
    match value {
        Value::Doc(doc) => {
            if begins_with_operator(doc.as_slice()) {
                Some(doc.as_slice())
            } else {
                None
            }
        }
        _ => None,
    }
}

/// The list that is the operator's value.
fn list_in(alloc: Global, operator: &Name, value: &Value) -> Result<List, CrudErr>
    ensures { Gives (λ l. l) result (list_in operator.now (out-Value value.now)) }
{
    match value {
        Value::List(list) => Ok(copy_list(alloc, list)?),
        _ => Err(CrudErr::WrongKind {
            name: operator.copy(alloc)?,
        }),
    }
}

/// The truth value that is the value of that name; a value of another kind is `WrongKind` with the
/// name.
pub fn flag_in(alloc: Global, operator: &Name, value: &Value) -> Result<bool, CrudErr>
    ensures { Gives (λ b. b) result (flag_in operator.now (out-Value value.now)) }
{
    match value {
        Value::Bool(flag) => Ok(*flag),
        _ => Err(CrudErr::WrongKind {
            name: operator.copy(alloc)?,
        }),
    }
}

/// What the operator of that name asks of the field.
fn read_condition(
    alloc: Global,
    field: &Name,
    operator: &Name,
    value: &Value,
) -> Result<Filter, CrudErr>
    ensures { Gives (λ f. f) result (condition field.now (operator.now, value.now)) }
{
    let Some(asked) = Operator::of(operator.as_str()) else {
        return Err(CrudErr::UnknownOperator {
            name: operator.copy(alloc)?,
        });
    };
    let name = field.copy(alloc)?;
    match asked {
        Operator::Compare(cmp) => Ok(Filter::Test {
            name,
            cmp,
            value: value.copy(alloc)?,
        }),
        Operator::In => Ok(Filter::In {
            name,
            values: list_in(alloc, operator, value)?,
        }),
        Operator::Nin => Ok(Filter::Nin {
            name,
            values: list_in(alloc, operator, value)?,
        }),
        Operator::Exists => Ok(Filter::Exists {
            name,
            yes: flag_in(alloc, operator, value)?,
        }),
    }
}

/// What each of the operators asks of the field.
fn read_conditions(
    alloc: Global,
    field: &Name,
    operators: &[(Name, Value)],
) -> Result<Vec<Filter>, CrudErr>
    ensures { Gives (λ f. f.items) result (each (condition field.now) operators.now) }
{
    let mut filters = Vec::new(alloc);
    for (operator, value) in operators {
        filters.push(read_condition(alloc, field, operator, value)?)?;
    }
    Ok(filters)
}

/// What is asked of the field of that name: what each operator in the value asks, or that the field
/// is equal to it.
fn read_field(alloc: Global, name: &Name, value: &Value) -> Result<Filter, CrudErr>
    ensures { Gives (λ f. f) result (field_filter name.now value.now) }
{
    match operators_in(value) {
        Some(operators) => {
            let filters = read_conditions(alloc, name, operators)?;
            Ok(Filter::And(Items::from_vec(filters)))
        }
        None => Ok(Filter::Test {
            name: name.copy(alloc)?,
            cmp: Cmp::Eq,
            value: value.copy(alloc)?,
        }),
    }
}

/// The filter that the value of that name is, which has to be a document; otherwise it is
/// `WrongKind` with the name, or what
/// `read_filter` refuses.
#[cycle(filter)]
pub fn read_inner(alloc: Global, name: &Name, value: &Value) -> Result<Filter, CrudErr>
    ensures { Gives (λ f. f) result (inner_by filter_of name.now (out-Value value.now)) }
{
    match value {
        Value::Doc(doc) => read_filter(alloc, doc),
        _ => Err(CrudErr::WrongKind {
            name: name.copy(alloc)?,
        }),
    }
}

#[cycle(filter)]
fn read_all_inner(alloc: Global, name: &Name, values: &[Value]) -> Result<Vec<Filter>, CrudErr>
    ensures { Gives (λ f. f.items) result
        (each (λ value. inner_by filter_of name.now (out-Value value)) values.now) }
{
    let mut filters = Vec::new(alloc);
    for value in values {
        filters.push(read_inner(alloc, name, value)?)?;
    }
    Ok(filters)
}

/// The filters that the documents in the list of that name are.
#[cycle(filter)]
fn read_filters(alloc: Global, name: &Name, value: &Value) -> Result<Vec<Filter>, CrudErr>
    ensures { Gives (λ f. f.items) result (filters_by filter_of name.now (out-Value value.now)) }
{
    match value {
        Value::List(list) => {
            if !are_documents(list.as_slice()) {
                return Err(CrudErr::WrongKind {
                    name: name.copy(alloc)?,
                });
            }
            read_all_inner(alloc, name, list.as_slice())
        }
        _ => Err(CrudErr::WrongKind {
            name: name.copy(alloc)?,
        }),
    }
}

/// What an element of a filter asks.
#[cycle(filter)]
#[tactic(auto, unfolding(crate::specs::Filters::element_by))]
fn read_element(alloc: Global, name: &Name, value: &Value) -> Result<Filter, CrudErr>
    ensures { Gives (λ f. f) result (element_by filter_of (name.now, value.now)) }
{
    if let Some(junction) = Junction::of(name.as_str()) {
        return Ok(junction.join(read_filters(alloc, name, value)?));
    }
    if begins_with_dollar(name.as_str()) {
        return Err(CrudErr::UnknownOperator {
            name: name.copy(alloc)?,
        });
    }
    if has_full_stop(name.as_str()) {
        return Err(CrudErr::DottedName {
            name: name.copy(alloc)?,
        });
    }
    read_field(alloc, name, value)
}

#[cycle(filter)]
fn read_elements(alloc: Global, fields: &[(Name, Value)]) -> Result<Vec<Filter>, CrudErr>
    ensures { Gives (λ f. f.items) result (each (element_by filter_of) fields.now) }
{
    let mut filters = Vec::new(alloc);
    for (name, value) in fields {
        filters.push(read_element(alloc, name, value)?)?;
    }
    Ok(filters)
}

/// The filter that the document is, however deep its filters lie: all of its elements hold. `$and`,
/// `$or` and `$nor` have a list, not empty, of documents, which are filters. A field has a document
/// of operators, or the value that it is to be equal to.
///
/// Otherwise the first refusal is answered that is met in the order of the elements:
/// `UnknownOperator`, `DottedName`, or
/// `WrongKind` with the operator's name. Of `$and`, `$or` and `$nor` the kinds of all the values in
/// the list are looked at first. `Missing` and `UnknownField` don't come.
///
/// It goes through the document once.
#[cycle(filter)]
#[tactic(auto, using(crate::proofs::Levels::filter_again))]
pub fn read_filter(alloc: Global, doc: &Doc) -> Result<Filter, CrudErr>
    ensures { Gives (λ f. f) result (filter_of doc.now) }
{
    let filters = read_elements(alloc, doc.as_slice())?;
    Ok(Filter::And(Items::from_vec(filters)))
}
