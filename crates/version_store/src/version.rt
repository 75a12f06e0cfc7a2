ghost use Rattle.std.specs.Prelude.{◌≡◌, IfOk};

use crate::key::{Keys, copy_keys};
use bson_core::{Doc, copy_doc};
use sqlite_items::Items;
use std::alloc::{AllocError, Global};
use txn_types::{Id, Lsid, Tag, Ts};

/// Whose a version is, or when it was committed.
#[derive(Clone, Copy)]
pub enum Stamp {
    /// A transaction's that isn't prepared.
    Unfinished(Tag),
    /// A transaction's that may commit from this timestamp on.
    Prepared(Tag, Ts),
    /// A commit's.
    At(Ts),
}

impl Stamp {
    pub fn copy(&self) -> Stamp
        ensures { result ≡ self.now }
    {
        *self
    }
}

/// A version of a document; none where it was deleted.
#[derive(Drop)]
pub struct Version {
    pub stamp: Stamp,
    pub doc: Option<Doc>,
}

impl Version {
    pub fn copy(&self, alloc: Global) -> Result<Version, AllocError>
        ensures { IfOk result (λ v. v ≡ self.now) }
    {
        let doc = match &self.doc {
            Some(doc) => Some(copy_doc(alloc, doc)?),
            None => None,
        };
        Ok(Version {
            stamp: self.stamp,
            doc,
        })
    }
}

/// A document that is held: its id, the transaction that prepared it, and its prepare timestamp.
#[derive(Drop)]
pub struct Held {
    pub id: Id,
    pub tag: Tag,
    pub ts: Ts,
}

impl Held {
    pub fn copy(&self, alloc: Global) -> Result<Held, AllocError>
        ensures { IfOk result (λ h. h ≡ self.now) }
    {
        Ok(Held {
            id: self.id.copy(alloc)?,
            tag: self.tag,
            ts: self.ts,
        })
    }
}

/// A transaction that is prepared and not decided: its session, what it read at, and what it wrote.
#[derive(Drop)]
pub struct Pending {
    pub tag: Tag,
    pub lsid: Lsid,
    pub read_at: Ts,
    pub keys: Keys,
}

impl Pending {
    pub fn copy(&self, alloc: Global) -> Result<Pending, AllocError>
        ensures { IfOk result (λ p. p ≡ self.now) }
    {
        Ok(Pending {
            tag: self.tag,
            lsid: self.lsid,
            read_at: self.read_at,
            keys: copy_keys(alloc, &self.keys)?,
        })
    }
}

/// Prepared transactions, in the order in which they were prepared.
pub type Pendings = Items<Pending>;

pub fn copy_pendings(alloc: Global, pendings: &Pendings) -> Result<Pendings, AllocError>
    ensures { IfOk result (λ p. p ≡ pendings.now) }
{
    let mut copy = Vec::new(alloc);
    for pending in pendings.as_slice() {
        copy.push(pending.copy(alloc)?)?;
    }
    Ok(Items::from_vec(copy))
}
