ghost use Rattle.std.specs.Prelude.{
  ◌≡◌,
  [],
  ◌∷◌,
  ◌++◌,
  find,
  Ok,
  Err,
  Some,
  None,
  IfOk,
  IfErr,
  OnOk,
  OnErr,
  map,
  reverse,
};
ghost use Rattle.std.specs.List.{filter_map};
ghost use Rattle.std.specs.Option.{option_copied};
ghost use Rattle.txn_types.specs.Writes.{AllHaveOwnIds, HasOwnId as IsKeptWrite};
ghost use Rattle.txn_semantics.specs.Keyed.{put};
ghost use Rattle.txn_semantics.specs.Writes.{place_of, place_cmp};
ghost use Rattle.version_store.specs.Versions.{
  first,
  other_writer_of,
  versions_of,
  without,
  restamped,
  read,
  scan,
  newest,
  against,
  with_write,
  with_writes,
  is_of,
  content_of,
  prepared,
  decided,
  dropped,
  keys_of,
};
ghost use Rattle.version_store.specs.Chains.{
  write_of,
  IsKept,
  changed_at,
  changed_under,
  with_versions,
};
ghost use Rattle.version_store.specs.Ids.{HasId, HoldsId};
ghost use Rattle.version_store.specs.TakenBack.{
  AreFree,
  HadIds,
  put_back,
  laid_by,
  taken_back,
  all_taken_back,
};
ghost use Rattle.version_store.specs.Refusals.{IsRefused, IsHeld};

use crate::chain::{against, holder, newest_of, own, seen};
use crate::collection::Collection;
use crate::key::{Key, Keys};
use crate::laid::Laid;
use crate::refusal::{PutErr, ScanErr};
use crate::version::{Stamp, Version};
use bson_core::Doc;
use sqlite_items::Items;
use std::alloc::{AllocError, Global};
use std::collections::BTreeMap;
use std::marker::Model;
use txn_types::{By, Id, Ns, Tag, Ts, Write};

/// The versions of all documents. Contracts see them by key: the keys rise, each has a version, all
/// versions of a key but the first are committed, and each document stands under its own id.
#[derive(Drop)]
pub struct Store {
    alloc: Global,
    collections: BTreeMap<Ns, Collection>,
}

impl Model for Store {
    ghost use Rattle.std.specs.Coded.{codes};
    ghost use Rattle.bson_core.specs.contracts.value.Value as value;
    ghost use Rattle.version_store.specs.Versions.{Versions};
    ghost use Rattle.version_store.specs.Chains.{AreCollections};
    ghost use Rattle.version_store.specs.Nested.{flattened};

    ghost Value = { Versions };

    ghost coded = { Prim.hlevel (codes, value.the_row.coded) };

    ghost view = { λ s. flattened s.collections.entries };

    ghost invariant = { λ s. AreCollections s.collections.entries };
}

/// The namespace and the id of a write, and the document that it leaves there.
fn split(write: Write) -> (Ns, Id, Option<Doc>)
    ensures place { (result.0, result.1) ≡ place_of write }
    ensures doc { result.2 ≡ content_of write }
{
    match write {
        Write::Put { ns, id, doc } => (ns, id, Some(doc)),
        Write::Delete { ns, id } => (ns, id, None),
    }
}

/// The write of a document, or of none, at a place.
fn joined(ns: Ns, id: Id, doc: Option<Doc>) -> Write
    ensures { result ≡ write_of (ns, id) doc }
{
    match doc {
        Some(doc) => Write::Put { ns, id, doc },
        None => Write::Delete { ns, id },
    }
}

impl Store {
    /// A store without versions. It takes no memory.
    pub fn new(alloc: Global) -> Store
        ensures { result ≡ [] }
    {
        Store {
            alloc,
            collections: BTreeMap::new(alloc),
        }
    }

    /// The number of namespaces with a document, or that had one.
    pub fn collections(&self) -> usize
        ensures { IsKept self.now }
    {
        self.collections.len()
    }

    /// The versions of a document, oldest first.
    fn versions(&self, ns: &Ns, id: &Id) -> &[Version]
        ensures { reverse result.now ≡ versions_of self.now (ns.now, id.now) }
    {
        match self.collections.get(ns) {
            Some(collection) => collection.versions(id),
            None => &[],
        }
    }

    /// The document that the transaction sees there, or who holds it. It takes no memory.
    pub fn read(&self, ns: &Ns, id: &Id, at: Ts, tag: Tag) -> Result<Option<&Doc>, (Tag, Ts)>
        ensures ok { IfOk result
            (λ doc. read self.now (ns.now, id.now) at tag ≡ Ok (option_copied doc)) }
        ensures held { IfErr result (λ h. read self.now (ns.now, id.now) at tag ≡ Err h) }
    {
        let versions = self.versions(ns, id);
        match holder(at, &tag, versions) {
            Some(held) => Err(held),
            None => Ok(seen(at, &tag, versions)),
        }
    }

    /// The newest commit of the document. It takes no memory.
    pub fn newest(&self, ns: &Ns, id: &Id) -> Option<Ts>
        ensures { result ≡ newest self.now (ns.now, id.now) }
    {
        newest_of(self.versions(ns, id))
    }

    /// What stands against a write of the transaction there. It takes no memory.
    pub fn against(&self, ns: &Ns, id: &Id, at: Ts, tag: Tag) -> Option<By>
        ensures { result ≡ against at tag (versions_of self.now (ns.now, id.now)) }
    {
        against(at, &tag, self.versions(ns, id))
    }

    /// The keys of the documents with a version of the transaction, in their order.
    pub fn keys(&self, tag: Tag) -> Result<Keys, AllocError>
        ensures { IfOk result (λ keys. keys ≡ keys_of tag self.now) }
    {
        let mut keys = Vec::new(self.alloc);
        for (ns, collection) in &self.collections {
            collection.add_keys(self.alloc, ns, &tag, &mut keys)?;
        }
        Ok(Items::from_vec(keys))
    }

    /// The rows that the transaction sees of the touched ids of a namespace, all of them where
    /// there are none.
    pub fn scan(
        &self,
        ns: &Ns,
        ids: Option<&[Id]>,
        at: Ts,
        tag: Tag,
    ) -> Result<Vec<(Id, Doc)>, ScanErr>
        ensures rows { IfOk result
            (λ rows. scan self.now ns.now (option_copied ids.entry) at tag ≡ Ok rows.items) }
        ensures held { IfErr result
            (λ e. IsHeld (scan self.now ns.now (option_copied ids.entry) at tag) e) }
    {
        match self.collections.get(ns) {
            Some(collection) => collection.scan(self.alloc, ids, at, &tag),
            None => Ok(Vec::new(self.alloc)),
        }
    }

    /// A copy of all versions.
    pub fn copy(&self) -> Result<Store, AllocError>
        ensures { IfOk result (λ s. s ≡ self.now) }
    {
        let mut collections = BTreeMap::new(self.alloc);
        for (ns, collection) in &self.collections {
            collections.insert(ns.copy(self.alloc)?, collection.copy(self.alloc)?)?;
        }
        Ok(Store {
            alloc: self.alloc,
            collections,
        })
    }

    /// Puts a write of the transaction. A write that isn't put comes back.
    pub fn put(&mut self, tag: Tag, at: Ts, write: Write) -> Result<(), (PutErr, Write)>
        requires { IsKeptWrite write }
        ensures free { OnOk result (against at tag (versions_of self.old (place_of write)) ≡ None) }
        ensures ok { OnOk result (self.new ≡ with_write tag self.old write) }
        ensures refused { IfErr result (λ e. IsRefused (place_of write)
            (against at tag (versions_of self.old (place_of write))) e.0) }
        ensures back { IfErr result (λ e. e.1 ≡ write) }
        ensures err { OnErr result (self.new ≡ self.old) }
    {
        let (ns, id, doc) = split(write);
        if let Some(by) = against(at, &tag, self.versions(&ns, &id)) {
            let refusal = match id.copy(self.alloc) {
                Ok(id) => PutErr::Conflict { id, by },
                Err(_) => PutErr::Memory,
            };
            return Err((refusal, joined(ns, id, doc)));
        }
        let version = Version {
            stamp: Stamp::Unfinished(tag),
            doc,
        };
        match self.lay(&tag, ns, id, version) {
            Ok(()) => Ok(()),
            Err((ns, id, version)) => Err((PutErr::Memory, joined(ns, id, version.doc))),
        }
    }

    /// Puts a version of the transaction where no other one has a version.
    fn lay(&mut self, tag: &Tag, ns: Ns, id: Id, version: Version) -> Result<(), (Ns, Id, Version)>
        requires free { first (filter_map (other_writer_of tag.now) (versions_of self.old (ns, id)))
            ≡ None }
        requires known { HasId id version.doc }
        ensures ok { OnOk result (self.new ≡ put place_cmp (ns, id)
            (version ∷ without tag.now (versions_of self.old (ns, id))) self.old) }
        ensures back { IfErr result (λ e. e ≡ (ns, id, version)) }
        ensures err { OnErr result (self.new ≡ self.old) }
    {
        let alloc = self.alloc;
        if let Some(collection) = self.collections.get_mut(&ns) {
            return match collection.put(alloc, tag, id, version) {
                Ok(()) => Ok(()),
                Err((id, version)) => Err((ns, id, version)),
            };
        }
        let collection = match Collection::of(alloc, tag, id, version) {
            Ok(collection) => collection,
            Err((id, version)) => return Err((ns, id, version)),
        };
        match self.collections.insert(ns, collection) {
            Ok(_old) => Ok(()),
            Err(failed) => {
                let (ns, collection) = failed.value;
                let (id, version) = collection.into_only().unwrap();
                Err((ns, id, version))
            }
        }
    }

    /// Puts copies of all writes of the transaction, or none: where there is no memory, nothing has
    /// changed.
    pub fn put_all(&mut self, tag: Tag, writes: &[Write]) -> Result<(), AllocError>
        requires free { AreFree tag self.old writes.now }
        requires kept { AllHaveOwnIds writes.now }
        ensures ok { OnOk result (self.new ≡ with_writes tag self.old writes.now) }
        ensures err { OnErr result (self.new ≡ self.old) }
    {
        let mut laid = Vec::new(self.alloc);
        for write in writes {
            match self.lay_copy(&tag, write, &mut laid) {
                Ok(()) => {}
                Err(e) => {
                    self.take_all_back(&tag, laid);
                    return Err(e);
                }
            }
        }
        Ok(())
    }

    /// Puts a copy of a write of the transaction where no other one has a version, and adds what it
    /// replaced.
    fn lay_copy(&mut self, tag: &Tag, write: &Write, laid: &mut Vec<Laid>) -> Result<(), AllocError>
        requires free { first (filter_map (other_writer_of tag.now)
            (versions_of self.old (place_of write.now))) ≡ None }
        requires kept { IsKeptWrite write.now }
        ensures ok { OnOk result (self.new ≡ with_write tag.now self.old write.now) }
        ensures laid { OnOk result
            (laid.new.items ≡ laid.old.items ++ laid_by tag.now self.old write.now ∷ []) }
        ensures err { OnErr result (self.new ≡ self.old) }
        ensures left { OnErr result (laid.new.items ≡ laid.old.items) }
    {
        let (ns, id, doc) = split(write.copy(self.alloc)?);
        let key = Key::new(ns.copy(self.alloc)?, id.copy(self.alloc)?);
        let replaced = self.own_copy(tag, &ns, &id)?;
        let version = Version {
            stamp: Stamp::Unfinished(*tag),
            doc,
        };
        let before = laid.len();
        laid.push(Laid { key, replaced })?;
        match self.lay(tag, ns, id, version) {
            Ok(()) => Ok(()),
            Err(_) => {
                laid.truncate(before);
                Err(AllocError)
            }
        }
    }

    /// A copy of the transaction's own version of a document.
    fn own_copy(&self, tag: &Tag, ns: &Ns, id: &Id) -> Result<Option<Version>, AllocError>
        ensures { IfOk result
            (λ v. v ≡ find (is_of tag.now) (versions_of self.now (ns.now, id.now))) }
    {
        match own(tag, self.versions(ns, id)) {
            Some(version) => Ok(Some(version.copy(self.alloc)?)),
            None => Ok(None),
        }
    }

    /// Takes back all writes that were put, the last one first.
    fn take_all_back(&mut self, tag: &Tag, laid: Vec<Laid>)
        requires { HadIds laid.items }
        ensures { self.new ≡ all_taken_back tag.now laid.items self.old }
    {
        let mut left = laid;
        while let Some(last) = left.pop() {
            self.take_back(tag, last);
        }
    }

    /// Takes back a write that was put.
    fn take_back(&mut self, tag: &Tag, laid: Laid)
        requires { HoldsId laid.key.1 laid.replaced }
        ensures { self.new ≡ taken_back tag.now laid self.old }
    {
        let Laid { key, replaced } = laid;
        match replaced {
            Some(version) => self.put_back_at(tag, &key, version),
            None => self.take_out_at(tag, &key),
        }
    }

    /// Puts a version in place of the transaction's own one under a key, where it has one.
    fn put_back_at(&mut self, tag: &Tag, key: &Key, version: Version)
        requires { HasId key.now.1 version.doc }
        ensures { self.new ≡ changed_at place_cmp (put_back tag.now version) key.now self.old }
    {
        if let Some(collection) = self.collections.get_mut(key.ns()) {
            collection.put_back(tag, key.id(), version);
        }
    }

    /// Marks the transaction's versions as prepared. It takes no memory.
    pub fn prepare(&mut self, tag: Tag, keys: &[Key], at: Ts)
        requires { keys.now ≡ keys_of tag self.old }
        ensures { self.new ≡ prepared tag at self.old }
    {
        let stamp = Stamp::Prepared(tag, at);
        self.restamp(&tag, keys, &stamp);
    }

    /// Gives the transaction's versions under these keys a stamp.
    fn restamp(&mut self, tag: &Tag, keys: &[Key], stamp: &Stamp)
        ensures changed { self.new
            ≡ changed_under place_cmp (map (restamped tag.now stamp.now)) keys.now self.old }
        ensures kept { IsKept self.old }
    {
        let _collections = self.collections();
        for key in keys {
            self.restamp_at(tag, key, stamp);
        }
    }

    /// Gives the transaction's version under a key a stamp.
    fn restamp_at(&mut self, tag: &Tag, key: &Key, stamp: &Stamp)
        ensures { self.new
            ≡ changed_at place_cmp (map (restamped tag.now stamp.now)) key.now self.old }
    {
        if let Some(collection) = self.collections.get_mut(key.ns()) {
            collection.restamp(tag, key.id(), stamp);
        }
    }

    /// Ends the transaction: its versions become commits at this time, or are taken out. It takes
    /// no memory.
    pub fn decide(&mut self, tag: Tag, keys: &[Key], at: Option<Ts>)
        requires { keys.now ≡ keys_of tag self.old }
        ensures { self.new ≡ decided tag at self.old }
    {
        match at {
            Some(at) => {
                let stamp = Stamp::At(at);
                self.restamp(&tag, keys, &stamp);
            }
            None => self.drop_txn(tag, keys),
        }
    }

    /// Takes out the transaction's versions. It takes no memory.
    pub fn drop_txn(&mut self, tag: Tag, keys: &[Key])
        requires { keys.now ≡ keys_of tag self.old }
        ensures { self.new ≡ dropped tag self.old }
    {
        self.take_out(&tag, keys);
    }

    /// Takes out the transaction's versions under these keys.
    fn take_out(&mut self, tag: &Tag, keys: &[Key])
        ensures changed { self.new
            ≡ with_versions (changed_under place_cmp (without tag.now) keys.now self.old) }
        ensures kept { IsKept self.old }
    {
        let _collections = self.collections();
        for key in keys {
            self.take_out_at(tag, key);
        }
        let _left = self.collections();
    }

    /// Takes out the transaction's version under a key.
    fn take_out_at(&mut self, tag: &Tag, key: &Key)
        ensures { self.new
            ≡ with_versions (changed_at place_cmp (without tag.now) key.now self.old) }
    {
        if let Some(collection) = self.collections.get_mut(key.ns()) {
            collection.take_out(tag, key.id());
        }
    }
}
