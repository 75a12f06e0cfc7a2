//! Where statements go: the documents of an insert each to its shard, and every other operation
//! whole to the shards of its filters, taken together.
use crate::map::ChunkMap;
use crate::place::rising;
use std::alloc::{AllocError, Global};
use txn_types::{DeleteItem, Filter, Id, InsertItem, InsertItems, Ns, Op, UpdateItem};

impl ChunkMap {
    ghost use Rattle.std.specs.Prelude.{◌≡◌, filter_map, flat_map, option_map, filter, IfOk};
    ghost use Rattle.std.specs.List.{list_any};
    ghost use Rattle.txn_types.specs.Ids.{id_in};
    ghost use Rattle.txn_semantics.specs.Meaning.{document_rules};
    ghost use Rattle.txn_semantics.specs.Splits.{here, goes};
    ghost use Rattle.chunk_map.specs.Place.{shard_of, shards_for};
    ghost use Rattle.chunk_map.specs.Parts.{shards_of, part_at, is_spread, has_spread};

    /// The shards of the documents.
    fn of_documents(
        &self,
        alloc: Global,
        ns: &Ns,
        items: &[InsertItem],
    ) -> Result<Vec<u16>, AllocError>
        ensures { IfOk result (λ v. v.items ≡ filter_map
            (λ item. option_map (shard_of self.now ns.now) (id_in item.doc)) items.now) }
    {
        let mut shards = Vec::new(alloc);
        for item in items {
            if let Some(id) = Id::in_doc(alloc, &item.doc)? {
                shards.push(self.shard_of(ns, &id))?;
            }
        }
        Ok(shards)
    }

    /// The shards of the items' filters.
    fn of_updates(
        &self,
        alloc: Global,
        ns: &Ns,
        items: &[UpdateItem],
    ) -> Result<Vec<u16>, AllocError>
        ensures { IfOk result
            (λ v. v.items ≡ flat_map (λ item. shards_for self.now ns.now item.filter) items.now) }
    {
        let mut shards = Vec::new(alloc);
        for item in items {
            let more = self.wanted(alloc, ns, &item.filter)?;
            shards.extend_from_slice(more.as_slice())?;
        }
        Ok(shards)
    }

    /// The shards of the items' filters.
    fn of_deletes(
        &self,
        alloc: Global,
        ns: &Ns,
        items: &[DeleteItem],
    ) -> Result<Vec<u16>, AllocError>
        ensures { IfOk result
            (λ v. v.items ≡ flat_map (λ item. shards_for self.now ns.now item.filter) items.now) }
    {
        let mut shards = Vec::new(alloc);
        for item in items {
            let more = self.wanted(alloc, ns, &item.filter)?;
            shards.extend_from_slice(more.as_slice())?;
        }
        Ok(shards)
    }

    /// The shards that a statement is sent to, rising.
    #[tactic(auto, unfolding(crate::specs::Parts::shards_of))]
    pub fn shards_of(&self, alloc: Global, op: &Op) -> Result<Vec<u16>, AllocError>
        ensures { IfOk result (λ v. v.items ≡ shards_of self.now op.now) }
    {
        match op {
            Op::Insert { ns, docs } => {
                let shards = self.of_documents(alloc, ns, docs.as_slice())?;
                rising(alloc, shards.as_slice())
            }
            Op::Find { ns, filter, .. } => self.wanted(alloc, ns, filter),
            Op::Update { ns, items } => {
                let shards = self.of_updates(alloc, ns, items.as_slice())?;
                rising(alloc, shards.as_slice())
            }
            Op::Delete { ns, items } => {
                let shards = self.of_deletes(alloc, ns, items.as_slice())?;
                rising(alloc, shards.as_slice())
            }
        }
    }

    /// The documents whose ids are at the shard.
    fn documents_at(
        &self,
        alloc: Global,
        ns: &Ns,
        items: &[InsertItem],
        shard: u16,
    ) -> Result<InsertItems, AllocError>
        ensures { IfOk result (λ i. i
            ≡ filter (goes document_rules (here (shard_of self.now ns.now) shard)) items.now) }
    {
        let mut kept = InsertItems::new(alloc);
        for item in items {
            let Some(id) = Id::in_doc(alloc, &item.doc)? else {
                continue;
            };
            if self.shard_of(ns, &id) == shard {
                kept.push(item.copy(alloc)?)?;
            }
        }
        Ok(kept)
    }

    /// The part of a statement that goes to the shard.
    pub fn part_at(&self, alloc: Global, op: &Op, shard: u16) -> Result<Op, AllocError>
        ensures { IfOk result (λ o. o ≡ part_at self.now op.now shard) }
    {
        match op {
            Op::Insert { ns, docs } => Ok(Op::Insert {
                ns: ns.copy(alloc)?,
                docs: self.documents_at(alloc, ns, docs.as_slice(), shard)?,
            }),
            Op::Find { .. } | Op::Update { .. } | Op::Delete { .. } => op.copy(alloc),
        }
    }

    /// Whether an item for one document has several shards.
    fn is_spread(
        &self,
        alloc: Global,
        ns: &Ns,
        many: bool,
        filter: &Filter,
    ) -> Result<bool, AllocError>
        ensures { IfOk result (λ b. b ≡ is_spread self.now ns.now many filter.now) }
    {
        if many {
            return Ok(false);
        }
        let shards = self.wanted(alloc, ns, filter)?;
        Ok(shards.len() > 1)
    }

    fn have_spread_updates(
        &self,
        alloc: Global,
        ns: &Ns,
        items: &[UpdateItem],
    ) -> Result<bool, AllocError>
        ensures { IfOk result (λ b. b
            ≡ list_any (λ item. is_spread self.now ns.now item.many item.filter) items.now) }
    {
        for item in items {
            if self.is_spread(alloc, ns, item.many, &item.filter)? {
                return Ok(true);
            }
        }
        Ok(false)
    }

    fn have_spread_deletes(
        &self,
        alloc: Global,
        ns: &Ns,
        items: &[DeleteItem],
    ) -> Result<bool, AllocError>
        ensures { IfOk result (λ b. b
            ≡ list_any (λ item. is_spread self.now ns.now item.many item.filter) items.now) }
    {
        for item in items {
            if self.is_spread(alloc, ns, item.many, &item.filter)? {
                return Ok(true);
            }
        }
        Ok(false)
    }

    /// Whether some item for one document has several shards.
    #[tactic(auto, unfolding(crate::specs::Parts::has_spread))]
    pub fn has_spread(&self, alloc: Global, op: &Op) -> Result<bool, AllocError>
        ensures { IfOk result (λ b. b ≡ has_spread self.now op.now) }
    {
        match op {
            Op::Insert { .. } | Op::Find { .. } => Ok(false),
            Op::Update { ns, items } => self.have_spread_updates(alloc, ns, items.as_slice()),
            Op::Delete { ns, items } => self.have_spread_deletes(alloc, ns, items.as_slice()),
        }
    }
}
