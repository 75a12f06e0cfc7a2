//! The rows of chunks.
ghost use Rattle.std.specs.Prelude.{◌≡◌, ◌∷◌, [], codes, nat_le, option_map, IfOk};
ghost use Rattle.std.specs.List.{list_any};
ghost use Rattle.std.specs.Str.{bytes_eq};
ghost use Rattle.toml.specs.Data.{get_member};
ghost use Rattle.toml.specs.View.{view, items_view, table_view};
ghost use Rattle.cluster_conf.specs.Conf.{Gives, or_key, ns_of_text, ns_in, shard_in, id_by, from_in, unknown_in, only, row_keys, row_in, row_of, rows_of, items_length, most_chunks, chunks_by, chunks_in};

use crate::conf::{ConfErr, MOST_CHUNKS};
use crate::fields::{bad_key, member, number_within, text_in};
use bson_core::Text;
use chunk_map::ChunkRow;
use std::alloc::{AllocError, Global};
use toml::{Table, Value};
use txn_types::{Id, Ns, NsErr};

/// The namespace that the text is, which is parted at its first full stop.
fn ns_of_text(alloc: Global, text: &str) -> Result<Option<Ns>, AllocError>
    ensures { IfOk result (λ n. n ≡ ns_of_text text.now) }
{
    match text.split_once('.') {
        Some((database, collection)) => match Ns::of(alloc, database, collection) {
            Ok(ns) => Ok(Some(ns)),
            Err(NsErr::Database) | Err(NsErr::Collection) => Ok(None),
            Err(NsErr::Memory) => Err(AllocError),
        },
        None => Ok(None),
    }
}

fn ns_in(alloc: Global, value: Option<&Value>) -> Result<Option<Ns>, AllocError>
    ensures { IfOk result (λ n. n ≡ ns_in (option_map (λ v. view v.now) value.entry)) }
{
    match value {
        Some(value) => match value.as_str() {
            Some(text) => ns_of_text(alloc, text),
            None => Ok(None),
        },
        None => Ok(None),
    }
}

/// The namespace of a row.
fn ns_at(alloc: Global, row: &Table) -> Result<Ns, ConfErr>
    ensures { Gives (λ n. n) result
        (or_key (codes "ns") (ns_in (get_member (codes "ns") (table_view row.now)))) }
{
    match ns_in(alloc, member(row, "ns"))? {
        Some(ns) => Ok(ns),
        None => Err(bad_key(alloc, "ns")),
    }
}

fn shard_in(value: Option<&Value>) -> Option<u16>
    ensures { result ≡ shard_in (option_map (λ v. view v.now) value.entry) }
{
    match value {
        Some(value) => number_within(0, 65535, value),
        None => None,
    }
}

/// The shard of a row.
fn shard_at(alloc: Global, row: &Table) -> Result<u16, ConfErr>
    ensures { Gives (λ n. n) result
        (or_key (codes "shard") (shard_in (get_member (codes "shard") (table_view row.now)))) }
{
    match shard_in(member(row, "shard")) {
        Some(shard) => Ok(shard),
        None => Err(bad_key(alloc, "shard")),
    }
}

/// The id that the value is: an integer or a text.
fn id_by(alloc: Global, value: &Value) -> Result<Option<Option<Id>>, AllocError>
    ensures { IfOk result (λ i. i ≡ id_by (view value.now)) }
{
    if let Some(number) = value.as_integer() {
        return Ok(Some(Some(Id::Num(number))));
    }
    match text_in(alloc, value)? {
        Some(text) => Ok(Some(Some(Id::Text(text)))),
        None => Ok(None),
    }
}

fn from_in(alloc: Global, value: Option<&Value>) -> Result<Option<Option<Id>>, AllocError>
    ensures { IfOk result (λ i. i ≡ from_in (option_map (λ v. view v.now) value.entry)) }
{
    match value {
        Some(value) => id_by(alloc, value),
        None => Ok(Some(None)),
    }
}

/// Where the ids of a row begin.
fn from_at(alloc: Global, row: &Table) -> Result<Option<Id>, ConfErr>
    ensures { Gives (λ i. i) result
        (or_key (codes "from") (from_in (get_member (codes "from") (table_view row.now)))) }
{
    match from_in(alloc, member(row, "from"))? {
        Some(from) => Ok(from),
        None => Err(bad_key(alloc, "from")),
    }
}

/// Whether the key is one of a row's.
fn is_known(key: &str) -> bool
    ensures { result ≡ list_any (bytes_eq key.now) row_keys }
{
    key == "ns" || key == "shard" || key == "from"
}

/// Refuses the first key that isn't known.
fn only_known(alloc: Global, row: &Table) -> Result<(), ConfErr>
    ensures { Gives (λ u. u) result (only (unknown_in row_keys (table_view row.now))) }
{
    'members: for (key, _value) in row.iter() {
        if !is_known(key.as_str()) {
            return Err(bad_key(alloc, key.as_str()));
        }
    }
    Ok(())
}

fn row_in(alloc: Global, row: &Table) -> Result<ChunkRow, ConfErr>
    ensures { Gives (λ r. r) result (row_in (table_view row.now)) }
{
    let ns = ns_at(alloc, row)?;
    let shard = shard_at(alloc, row)?;
    let from = from_at(alloc, row)?;
    only_known(alloc, row)?;
    Ok(ChunkRow { ns, from, shard })
}

fn row_of(alloc: Global, value: &Value) -> Result<ChunkRow, ConfErr>
    ensures { Gives (λ r. r) result (row_of (view value.now)) }
{
    match value.as_table() {
        Some(row) => row_in(alloc, row),
        None => Err(bad_key(alloc, "chunk")),
    }
}

/// The rows, up to the first at fault.
fn rows_of(alloc: Global, values: &[Value]) -> Result<Vec<ChunkRow>, ConfErr>
    ensures { Gives (λ v. v.items) result (rows_of (items_view values.now)) }
{
    let mut rows = Vec::new(alloc);
    for value in values {
        let row = row_of(alloc, value)?;
        rows.push(row)?;
    }
    Ok(rows)
}

/// Whether there are no more rows than a configuration may have.
#[tactic(auto, using(crate::proofs::Ranges::items_long))]
fn are_few(values: &[Value]) -> bool
    ensures { result ≡ nat_le (items_length (items_view values.now)) most_chunks }
{
    values.len() <= MOST_CHUNKS
}

fn chunks_by(alloc: Global, value: &Value) -> Result<Vec<ChunkRow>, ConfErr>
    ensures { Gives (λ v. v.items) result (chunks_by (view value.now)) }
{
    match value.as_array() {
        Some(values) => {
            if are_few(values.as_slice()) {
                rows_of(alloc, values.as_slice())
            } else {
                Err(bad_key(alloc, "chunk"))
            }
        }
        None => Err(bad_key(alloc, "chunk")),
    }
}

/// The rows of chunks.
pub fn chunks_at(alloc: Global, table: &Table) -> Result<Vec<ChunkRow>, ConfErr>
    ensures { Gives (λ v. v.items) result
        (chunks_in (get_member (codes "chunk") (table_view table.now))) }
{
    match member(table, "chunk") {
        Some(value) => chunks_by(alloc, value),
        None => Ok(Vec::new(alloc)),
    }
}
