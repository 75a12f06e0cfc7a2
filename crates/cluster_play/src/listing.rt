//! The list of commits, as a schedule writes it.
ghost use Rattle.std.specs.Prelude.{◌≡◌, ◌++◌, OnOk};
ghost use Rattle.play_text.specs.Dump.{kept_by};
ghost use Rattle.play_text.specs.Text.{dump_text};

use chunk_map::ChunkMap;
use play_steps::CommitList;
use play_text::put_dump;
use std::alloc::{AllocError, Global};
use txn_semantics::Entry;

/// A list of commits, and which shard keeps which documents.
#[derive(Drop)]
pub struct Listing<'a> {
    pub map: &'a ChunkMap,
    pub commits: &'a [Entry],
}

impl<'a> CommitList for Listing<'a> {
    ghost text = { λ l. dump_text (kept_by l.map.now) l.commits.now };

    fn put(&self, alloc: Global, out: &mut Vec<u8>) -> Result<(), AllocError> {
        put_dump(alloc, out, self.map, self.commits)
    }
}
