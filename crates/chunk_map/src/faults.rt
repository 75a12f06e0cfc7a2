//! What is wrong with the rows of a map.
ghost use Rattle.std.specs.Prelude.{◌≡◌};
ghost use Rattle.std.specs.Option.{option_copied};
ghost use Rattle.chunk_map.specs.Map.{ranges_of, last_range, beginning_fault, row_fault, first_fault};

use crate::map::{ChunkRow, MapErr};
use txn_types::{Id, Ns};

/// The last row of the namespace.
fn last_range<'a>(ns: &Ns, rows: &'a [ChunkRow]) -> Option<&'a ChunkRow>
    ensures { option_copied result ≡ last_range (ranges_of ns.now rows.now) }
{
    let mut last = None;
    for row in rows {
        let is_here = row.ns.as_str() == ns.as_str();
        if !is_here {
            continue;
        }
        last = Some(row);
    }
    last
}

/// What is wrong with how a row begins, after the last of its namespace.
fn beginning_fault(place: usize, before: Option<&ChunkRow>, from: &Option<Id>) -> Option<MapErr>
    ensures { result ≡ beginning_fault place (option_copied before.entry) from.now }
{
    match (before, from) {
        (None, None) => None,
        (None, Some(_id)) => Some(MapErr::Gap { row: place }),
        (Some(_before), None) => Some(MapErr::Overlap { row: place }),
        (Some(before), Some(id)) => match &before.from {
            None => None,
            Some(low) if low.compare(id).is_lt() => None,
            Some(_low) => Some(MapErr::Overlap { row: place }),
        },
    }
}

/// What is wrong with a row, after those before it.
fn row_fault(shards: u16, place: usize, before: &[ChunkRow], row: &ChunkRow) -> Option<MapErr>
    ensures { result ≡ row_fault shards place before.now row.now }
{
    if let Some(fault) = beginning_fault(place, last_range(&row.ns, before), &row.from) {
        return Some(fault);
    }
    if row.shard < shards {
        None
    } else {
        Some(MapErr::NoShard { row: place })
    }
}

/// What is wrong with the first row at fault.
#[tactic(auto, using(crate::proofs::Behind::fault_found))]
pub fn first_fault(shards: u16, rows: &[ChunkRow]) -> Option<MapErr>
    ensures { result ≡ first_fault shards rows.now }
{
    for place in 0..rows.len() {
        let before = &rows[..place];
        if let Some(fault) = row_fault(shards, place, before, &rows[place]) {
            return Some(fault);
        }
    }
    None
}
