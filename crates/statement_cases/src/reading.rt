//! Filters and updates in words, as crud_parse reads them.

use crate::words::{document_of, document_text, text_of, value_of};
use bson_core::{List, Value};
use crud_parse::{CrudErr, read_filter, read_update};
use std::alloc::{AllocError, Global};
use txn_types::{Cmp, Filter, Update, UpdateKind, UpdateOp};

fn put_test(alloc: Global, out: &mut String, cmp: Cmp, value: &Value) -> Result<(), AllocError> {
    let word = match cmp {
        Cmp::Eq => "eq",
        Cmp::Ne => "ne",
        Cmp::Gt => "gt",
        Cmp::Gte => "gte",
        Cmp::Lt => "lt",
        Cmp::Lte => "lte",
    };
    let value = text_of(alloc, value)?;
    write!(out, " {word} {}", value.as_str())
}

fn put_list(alloc: Global, out: &mut String, values: &List) -> Result<(), AllocError> {
    for value in values.as_slice() {
        let value = text_of(alloc, value)?;
        write!(out, " {}", value.as_str())?;
    }
    Ok(())
}

/// Appends the filter as words.
#[cycle(put)]
fn put_filter(alloc: Global, out: &mut String, filter: &Filter) -> Result<(), AllocError> {
    match filter {
        Filter::And(filters) => put_filters(alloc, out, "and", filters.as_slice()),
        Filter::Or(filters) => put_filters(alloc, out, "or", filters.as_slice()),
        Filter::Nor(filters) => put_filters(alloc, out, "nor", filters.as_slice()),
        Filter::Test { name, cmp, value } => {
            out.push_str(name.as_str())?;
            put_test(alloc, out, *cmp, value)
        }
        Filter::In { name, values } => {
            write!(out, "{} in", name.as_str())?;
            put_list(alloc, out, values)
        }
        Filter::Nin { name, values } => {
            write!(out, "{} nin", name.as_str())?;
            put_list(alloc, out, values)
        }
        Filter::Exists { name, yes } => write!(out, "{} exists {yes}", name.as_str()),
    }
}

#[cycle(put)]
fn put_filters(
    alloc: Global,
    out: &mut String,
    word: &str,
    filters: &[Filter],
) -> Result<(), AllocError> {
    write!(out, "{word}(")?;
    for (place, filter) in filters.iter().enumerate() {
        if place > 0 {
            out.push_str(", ")?;
        }
        put_filter(alloc, out, filter)?;
    }
    out.push(')')
}

fn put_op(alloc: Global, out: &mut String, op: &UpdateOp) -> Result<(), AllocError> {
    let word = match op.kind {
        UpdateKind::Set => "set",
        UpdateKind::Unset => "unset",
        UpdateKind::Inc => "inc",
    };
    let value = text_of(alloc, &op.value)?;
    write!(out, "{word} {} {};", op.name.as_str(), value.as_str())
}

fn put_update(alloc: Global, out: &mut String, update: &Update) -> Result<(), AllocError> {
    match update {
        Update::Replace(doc) => {
            let doc = document_text(alloc, doc)?;
            write!(out, "replace {}", doc.as_str())
        }
        Update::Ops(ops) => {
            for op in ops.as_slice() {
                put_op(alloc, out, op)?;
            }
            Ok(())
        }
    }
}

fn put_error(out: &mut String, error: &CrudErr) -> Result<(), AllocError> {
    match error {
        CrudErr::UnknownOperator { name } => write!(out, "unknown operator {}", name.as_str()),
        CrudErr::DottedName { name } => write!(out, "dotted name {}", name.as_str()),
        CrudErr::WrongKind { name } => write!(out, "wrong kind {}", name.as_str()),
        CrudErr::Missing { name } => write!(out, "missing {}", name.as_str()),
        CrudErr::UnknownField { name } => write!(out, "unknown field {}", name.as_str()),
        CrudErr::Memory => out.push_str("memory"),
    }
}

/// What the document of these words is read as, as a filter.
pub fn filter_text(alloc: Global, words: &str) -> Result<String, AllocError> {
    let mut out = String::new(alloc);
    match read_filter(alloc, &document_of(alloc, words)?) {
        Ok(filter) => put_filter(alloc, &mut out, &filter)?,
        Err(error) => put_error(&mut out, &error)?,
    }
    Ok(out)
}

/// What the value of these words is read as, as an update.
pub fn update_text(alloc: Global, words: &str) -> Result<String, AllocError> {
    let mut out = String::new(alloc);
    match read_update(alloc, &value_of(alloc, words)?) {
        Ok(update) => put_update(alloc, &mut out, &update)?,
        Err(error) => put_error(&mut out, &error)?,
    }
    Ok(out)
}
