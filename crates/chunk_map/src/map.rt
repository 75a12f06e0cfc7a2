ghost use Rattle.std.specs.Prelude.{◌≡◌, IfOk};
ghost use Rattle.chunk_map.specs.Map.{map_of};
ghost use Rattle.chunk_map.specs.declared.map.MapErr.TheVariants.{Memory};

use crate::faults::first_fault;
use std::alloc::{AllocError, AllocFailed, Global};
use std::marker::Model;
use txn_types::{Id, Ns};

/// A range of a namespace's ids: from this one on, or from before all of them, to where the next
/// row of the namespace begins; and the shard that keeps their documents.
#[derive(Drop)]
pub struct ChunkRow {
    pub ns: Ns,
    pub from: Option<Id>,
    pub shard: u16,
}

/// Equal, where there is one.
fn copy_from(alloc: Global, from: &Option<Id>) -> Result<Option<Id>, AllocError>
    ensures { IfOk result (λ f. f ≡ from.now) }
{
    match from {
        Some(id) => Ok(Some(id.copy(alloc)?)),
        None => Ok(None),
    }
}

impl ChunkRow {
    pub fn copy(&self, alloc: Global) -> Result<ChunkRow, AllocError>
        ensures { IfOk result (λ r. r ≡ self.now) }
    {
        Ok(ChunkRow {
            ns: self.ns.copy(alloc)?,
            from: copy_from(alloc, &self.from)?,
            shard: self.shard,
        })
    }
}

/// Why rows make no map: the place of the first row at fault, from 0.
#[derive(Clone, Copy)]
pub enum MapErr {
    /// The first row of a namespace begins at an id, so that the ids below have no shard.
    Gap { row: usize },
    /// A later row doesn't begin above the one before it.
    Overlap { row: usize },
    /// There is no such shard.
    NoShard { row: usize },
    /// There was no memory.
    Memory,
}

impl From<AllocError> for MapErr {
    ghost from_gives = { λ _ e. e ≡ Memory };

    fn from(_e: AllocError) -> MapErr {
        MapErr::Memory
    }
}

/// Which shard keeps which documents. Contracts see how many shards there are, and the rows.
#[derive(Drop)]
pub struct ChunkMap {
    shards: u16,
    rows: Vec<ChunkRow>,
}

impl Model for ChunkMap {
    ghost use Rattle.chunk_map.specs.Map.{Map, IsMap};

    ghost Value = { Map };

    ghost view = { λ m. record { shards = m.shards; rows = m.rows.items } };

    ghost invariant = { λ m. IsMap (record { shards = m.shards; rows = m.rows.items }) };
}

impl ChunkMap {
    /// The map of these rows, over that many shards; or what is wrong with the first row at fault.
    /// It takes no memory.
    pub fn new(shards: u16, rows: Vec<ChunkRow>) -> Result<ChunkMap, MapErr>
        ensures { result ≡ map_of shards rows.items }
    {
        match first_fault(shards, rows.as_slice()) {
            Some(fault) => Err(fault),
            None => Ok(ChunkMap { shards, rows }),
        }
    }

    /// How many shards there are.
    pub fn shards(&self) -> u16
        ensures { result ≡ self.now.shards }
    {
        self.shards
    }

    /// The rows, in the order in which they were given.
    pub fn rows(&self) -> &[ChunkRow]
        ensures { result.now ≡ self.now.rows }
    {
        self.rows.as_slice()
    }

    pub fn copy(&self, alloc: Global) -> Result<ChunkMap, AllocError>
        ensures { IfOk result (λ m. m ≡ self.now) }
    {
        let mut rows = Vec::new(alloc);
        for row in self.rows.as_slice() {
            rows.push(row.copy(alloc)?)?;
        }
        Ok(ChunkMap {
            shards: self.shards,
            rows,
        })
    }
}
