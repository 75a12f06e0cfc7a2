//! Lists of addresses.
ghost use Rattle.std.specs.Prelude.{◌≡◌, option_map, IfOk};
ghost use Rattle.toml.specs.Data.{get_member};
ghost use Rattle.toml.specs.View.{view, items_view, table_view};
ghost use Rattle.cluster_conf.specs.Conf.{Gives, or_key, texts_of, of_length, addresses_by, addresses_in};

use crate::conf::ConfErr;
use crate::fields::{bad_key, member, text_in};
use bson_core::Text;
use sqlite_items::Items;
use std::alloc::{AllocError, Global};
use toml::{Table, Value};

/// Texts, in their order.
pub type Texts = Items<Text>;

/// Equal texts.
pub fn copy_texts(alloc: Global, texts: &Texts) -> Result<Texts, AllocError>
    ensures { IfOk result (λ t. t ≡ texts.now) }
{
    let mut copy = Vec::new(alloc);
    for text in texts.as_slice() {
        copy.push(text.copy(alloc)?)?;
    }
    Ok(Items::from_vec(copy))
}

/// The texts that the values are, where all are texts.
fn texts_of(alloc: Global, values: &[Value]) -> Result<Option<Texts>, AllocError>
    ensures { IfOk result (λ t. t ≡ texts_of (items_view values.now)) }
{
    let mut texts = Items::new(alloc);
    for value in values {
        match text_in(alloc, value)? {
            Some(text) => texts.push(text)?,
            None => return Ok(None),
        }
    }
    Ok(Some(texts))
}

fn of_length(count: u16, texts: Option<Texts>) -> Option<Texts>
    ensures { result ≡ of_length count texts }
{
    match texts {
        Some(texts) => {
            let length = texts.len();
            let count = usize::from(count);
            if count <= length && length <= count {
                Some(texts)
            } else {
                None
            }
        }
        None => None,
    }
}

fn addresses_by(alloc: Global, count: u16, value: &Value) -> Result<Option<Texts>, AllocError>
    ensures { IfOk result (λ t. t ≡ addresses_by count (view value.now)) }
{
    match value.as_array() {
        Some(values) => Ok(of_length(count, texts_of(alloc, values.as_slice())?)),
        None => Ok(None),
    }
}

fn addresses_in(
    alloc: Global,
    count: u16,
    value: Option<&Value>,
) -> Result<Option<Texts>, AllocError>
    ensures { IfOk result (λ t. t ≡ addresses_in count (option_map (λ v. view v.now) value.entry)) }
{
    match value {
        Some(value) => addresses_by(alloc, count, value),
        None => Ok(Some(Items::new(alloc))),
    }
}

/// The addresses under that name: one for each of `count`, or none where they aren't given.
pub fn addresses_at(alloc: Global, table: &Table, name: &str, count: u16) -> Result<Texts, ConfErr>
    ensures { Gives (λ t. t) result
        (or_key name.now (addresses_in count (get_member name.now (table_view table.now)))) }
{
    match addresses_in(alloc, count, member(table, name))? {
        Some(texts) => Ok(texts),
        None => Err(bad_key(alloc, name)),
    }
}
