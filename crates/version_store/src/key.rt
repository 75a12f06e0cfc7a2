ghost use Rattle.std.specs.Prelude.{◌≡◌, IfOk};
ghost use Rattle.txn_semantics.specs.Writes.{place_cmp};

use sqlite_items::Items;
use std::alloc::{AllocError, Global};
use std::cmp::Ordering;
use std::marker::Model;
use txn_types::{Id, Ns};

/// The place of a document: a namespace and an id. Contracts see the pair.
#[derive(Drop)]
pub struct Key {
    ns: Ns,
    id: Id,
}

impl Model for Key {
    ghost use Rattle.std.specs.Coded.{codes};
    ghost use Rattle.txn_semantics.specs.Writes.{Place};

    ghost Value = { Place };

    ghost coded = { Prim.hlevel (codes) };

    ghost view = { λ k. (k.ns, k.id) };
}

/// Keys, in their order.
pub type Keys = Items<Key>;

impl Key {
    pub fn new(ns: Ns, id: Id) -> Key
        ensures { result ≡ (ns, id) }
    {
        Key { ns, id }
    }

    pub fn ns(&self) -> &Ns
        ensures { result.now ≡ self.now.0 }
    {
        &self.ns
    }

    pub fn id(&self) -> &Id
        ensures { result.now ≡ self.now.1 }
    {
        &self.id
    }

    pub fn into_parts(self) -> (Ns, Id)
        ensures { result ≡ self }
    {
        (self.ns, self.id)
    }

    /// Where the key stands beside another: by the bytes of the namespace, and then by id. It takes
    /// no memory.
    pub fn compare(&self, other: &Key) -> Ordering
        ensures { result ≡ place_cmp self.now other.now }
    {
        let names = self.ns.as_slice().cmp(other.ns.as_slice());
        names.then_with(|| self.id.compare(&other.id))
    }

    pub fn copy(&self, alloc: Global) -> Result<Key, AllocError>
        ensures { IfOk result (λ k. k ≡ self.now) }
    {
        Ok(Key {
            ns: self.ns.copy(alloc)?,
            id: self.id.copy(alloc)?,
        })
    }
}

pub fn copy_keys(alloc: Global, keys: &Keys) -> Result<Keys, AllocError>
    ensures { IfOk result (λ k. k ≡ keys.now) }
{
    let mut copy = Vec::new(alloc);
    for key in keys.as_slice() {
        copy.push(key.copy(alloc)?)?;
    }
    Ok(Items::from_vec(copy))
}
