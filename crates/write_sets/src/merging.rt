ghost use Rattle.std.specs.Prelude.{◌≡◌, ◌++◌, map, IfOk, OnOk};
ghost use Rattle.txn_types.specs.Writes.{HasOwnId, AllHaveOwnIds};
ghost use Rattle.txn_semantics.specs.Keyed.{put, laid};
ghost use Rattle.txn_semantics.specs.Writes.{place_of, place_cmp, placed, write_set};

use crate::place::Place;
use std::alloc::{AllocError, Global};
use std::collections::BTreeMap;
use std::marker::Model;
use txn_types::{Write, Writes};
use version_store::Key;

/// A write; a document that is put stands under its own id.
#[derive(Drop)]
struct Kept {
    write: Write,
}

impl Model for Kept {
    ghost use Rattle.std.specs.Coded.{codes};
    ghost use Rattle.bson_core.specs.contracts.value.Value as value;
    ghost use Rattle.txn_types.specs.Writes.{HasOwnId};
    ghost use Rattle.txn_types.specs.declared.write.Write.{Write};

    ghost Value = { Write };

    ghost coded = { Prim.hlevel (codes, value.the_row.coded) };

    ghost view = { λ k. k.write };

    ghost invariant = { λ k. HasOwnId k.write };
}

impl Kept {
    fn new(write: Write) -> Kept
        requires { HasOwnId write }
        ensures { result ≡ write }
    {
        Kept { write }
    }

    fn into_write(self) -> Write
        ensures write { result ≡ self }
        ensures kept { HasOwnId self }
    {
        self.write
    }
}

/// The key that the write is to.
pub fn key_of(alloc: Global, write: &Write) -> Result<Key, AllocError>
    ensures { IfOk result (λ key. key ≡ place_of write.now) }
{
    match write {
        Write::Put { ns, id, .. } => Ok(Key::new(ns.copy(alloc)?, id.copy(alloc)?)),
        Write::Delete { ns, id } => Ok(Key::new(ns.copy(alloc)?, id.copy(alloc)?)),
    }
}

/// Lays a copy of the write over those in the map.
fn lay(rows: &mut BTreeMap<Place, Kept>, alloc: Global, write: &Write) -> Result<(), AllocError>
    requires { HasOwnId write.now }
    ensures { OnOk result
        (rows.new.entries ≡ put place_cmp (place_of write.now) write.now rows.old.entries) }
{
    let key = key_of(alloc, write)?;
    let write = Kept::new(write.copy(alloc)?);
    match rows.insert(Place::new(key), write) {
        Ok(old) => {
            drop(old);
            Ok(())
        }
        Err(failed) => {
            drop(failed);
            Err(AllocError)
        }
    }
}

/// Lays copies of the writes over those in the map, one after the other.
fn lay_all(
    rows: &mut BTreeMap<Place, Kept>,
    alloc: Global,
    writes: &[Write],
) -> Result<(), AllocError>
    requires { AllHaveOwnIds writes.now }
    ensures { OnOk result
        (rows.new.entries ≡ laid place_cmp rows.old.entries (map placed writes.now)) }
{
    for write in writes {
        lay(rows, alloc, write)?;
    }
    Ok(())
}

/// The writes of the map, in their order.
fn unloaded(alloc: Global, mut rows: BTreeMap<Place, Kept>) -> Result<Writes, AllocError>
    ensures { IfOk result (λ writes. writes ≡ map (λ row. row.1) rows.entries) }
{
    let mut writes = Writes::new(alloc);
    while let Some((place, kept)) = rows.pop_first() {
        drop(place);
        writes.push(kept.into_write())?;
    }
    Ok(writes)
}

/// The last write to each document, of some writes and of those after them, rising by namespace
/// and id.
pub fn merged(alloc: Global, own: &[Write], writes: &Writes) -> Result<Writes, AllocError>
    requires { AllHaveOwnIds own.now }
    ensures { IfOk result (λ all. all ≡ write_set (own.now ++ writes.now)) }
{
    let mut rows = BTreeMap::new(alloc);
    lay_all(&mut rows, alloc, own)?;
    lay_all(&mut rows, alloc, writes.as_slice())?;
    unloaded(alloc, rows)
}
