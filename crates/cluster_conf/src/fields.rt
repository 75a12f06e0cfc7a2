//! The fields of a configuration.
ghost use Rattle.std.specs.Prelude.{◌≡◌, ◌≤ℤ◌, pos, codes, option_map, false, IfOk};
ghost use Rattle.std.specs.List.{list_any};
ghost use Rattle.std.specs.Str.{bytes_eq};
ghost use Rattle.toml.specs.Data.{get_member};
ghost use Rattle.toml.specs.View.{view, table_view};
ghost use Rattle.cluster_conf.specs.Conf.{Gives, is_memory, or_key, number_within, count_in, text_in, listen_in, known_keys, unknown_in, only};
ghost use Rattle.cluster_conf.specs.declared.conf.ConfErr.TheVariants.{Key};

use crate::conf::{ConfErr, LISTEN};
use bson_core::Text;
use std::alloc::{AllocError, Global};
use toml::{Table, Value};

/// What stands under the name.
pub fn member<'a>(table: &'a Table, name: &str) -> Option<&'a Value>
    ensures { option_map (λ v. view v.now) result ≡ get_member name.now (table_view table.now) }
{
    table.get(name)
}

/// That the key is at fault; or that there is no memory to say so.
pub fn bad_key(alloc: Global, name: &str) -> ConfErr
    ensures { is_memory result ≡ false → result ≡ Key name.now }
{
    match String::from_str(alloc, name) {
        Ok(name) => ConfErr::Key {
            name: Text::new(name),
        },
        Err(_) => ConfErr::Memory,
    }
}

/// An integer within these bounds.
pub fn number_within(least: i64, most: i64, value: &Value) -> Option<u16>
    requires least { pos 0 ≤ℤ least }
    requires most { most ≤ℤ pos 65535 }
    ensures { result ≡ number_within least most (view value.now) }
{
    match value.as_integer() {
        Some(number) => {
            if least <= number && number <= most {
                Some(number.unsigned_abs() as u16)
            } else {
                None
            }
        }
        None => None,
    }
}

/// A count from 1 to `most`, 1 where it isn't given.
fn count_in(most: u16, value: Option<&Value>) -> Option<u16>
    ensures { result ≡ count_in most (option_map (λ v. view v.now) value.entry) }
{
    match value {
        Some(value) => number_within(1, i64::from(most), value),
        None => Some(1),
    }
}

/// The count under that name.
pub fn count_at(alloc: Global, table: &Table, name: &str, most: u16) -> Result<u16, ConfErr>
    ensures { Gives (λ n. n) result
        (or_key name.now (count_in most (get_member name.now (table_view table.now)))) }
{
    match count_in(most, member(table, name)) {
        Some(count) => Ok(count),
        None => Err(bad_key(alloc, name)),
    }
}

/// The text that the value is.
pub fn text_in(alloc: Global, value: &Value) -> Result<Option<Text>, AllocError>
    ensures { IfOk result (λ t. t ≡ text_in (view value.now)) }
{
    match value.as_str() {
        Some(text) => Ok(Some(Text::new(String::from_str(alloc, text)?))),
        None => Ok(None),
    }
}

fn listen_in(alloc: Global, value: Option<&Value>) -> Result<Option<Text>, AllocError>
    ensures { IfOk result (λ t. t ≡ listen_in (option_map (λ v. view v.now) value.entry)) }
{
    match value {
        Some(value) => text_in(alloc, value),
        None => Ok(Some(Text::new(String::from_str(alloc, LISTEN)?))),
    }
}

/// Where the cluster listens.
pub fn listen_at(alloc: Global, table: &Table) -> Result<Text, ConfErr>
    ensures { Gives (λ t. t) result
        (or_key (codes "listen") (listen_in (get_member (codes "listen") (table_view table.now)))) }
{
    match listen_in(alloc, member(table, "listen"))? {
        Some(text) => Ok(text),
        None => Err(bad_key(alloc, "listen")),
    }
}

/// Whether the key is one of a configuration's.
fn is_known(key: &str) -> bool
    ensures { result ≡ list_any (bytes_eq key.now) known_keys }
{
    key == "shards"
        || key == "routers"
        || key == "listen"
        || key == "shard_at"
        || key == "router_at"
        || key == "chunk"
}

/// Refuses the first key that isn't known.
pub fn only_known(alloc: Global, table: &Table) -> Result<(), ConfErr>
    ensures { Gives (λ u. u) result (only (unknown_in known_keys (table_view table.now))) }
{
    'members: for (key, _value) in table.iter() {
        if !is_known(key.as_str()) {
            return Err(bad_key(alloc, key.as_str()));
        }
    }
    Ok(())
}
