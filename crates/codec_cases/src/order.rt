//! The order of values.

use crate::documents::document_of;
use bson_core::Value;
use std::alloc::{AllocError, Global};
use std::cmp::Ordering;
use value_order::{bracket, compare};

/// The value of the first field.
pub fn first_value(alloc: Global, digits: &str) -> Result<Value, AllocError> {
    match document_of(alloc, digits)? {
        Ok(doc) => match doc.as_slice().first() {
            Some((_, value)) => value.copy(alloc),
            None => Ok(Value::Null),
        },
        Err(_) => Ok(Value::Null),
    }
}

/// The bracket of a value, where it comes after all of these; else the place of the first that it
/// doesn't.
pub fn risen(alloc: Global, lower: &[Value], value: &Value) -> Result<String, AllocError> {
    for (place, other) in lower.iter().enumerate() {
        let rises = compare(other, value) == Ordering::Less;
        let falls = compare(value, other) == Ordering::Greater;
        if !rises || !falls {
            return format!(in alloc; "not after value {place}");
        }
    }
    if compare(value, value) != Ordering::Equal {
        return String::from_str(alloc, "not itself");
    }
    format!(in alloc; "{}", bracket(value))
}

/// Where one value stands beside another.
pub fn compared(alloc: Global, left: &str, right: &str) -> Result<String, AllocError> {
    let left = first_value(alloc, left)?;
    let right = first_value(alloc, right)?;
    let word = match compare(&left, &right) {
        Ordering::Less => "before",
        Ordering::Equal => "same",
        Ordering::Greater => "after",
    };
    String::from_str(alloc, word)
}
