ghost use Rattle.std.specs.Prelude.{◌≡◌, [], find, map, option_map, IsOk, IsSome, IfOk, OnOk, OnErr};
ghost use Rattle.std.specs.Option.{option_copied};
ghost use Rattle.txn_types.specs.BySession.{entry_of};
ghost use Rattle.txn_types.specs.Order.{lsid_cmp};
ghost use Rattle.txn_semantics.specs.Keyed.{put, taken_out, Rises};
ghost use Rattle.txn_semantics.specs.Writes.{place_of};
ghost use Rattle.participant.specs.Stands.{is_older};

use crate::key::SessionKey;
use crate::said::Open;
use std::alloc::{AllocError, AllocFailed, Global};
use std::collections::BTreeMap;
use std::marker::Model;
use txn_types::{Lsid, Tag, Ts, Writes};
use version_store::{Key, Keys, copy_keys};

/// A transaction that isn't prepared lives so many seconds.
const LIFETIME: u32 = 60;

/// What a live transaction has, and the keys that it wrote.
#[derive(Drop)]
pub struct Live {
    held: Open,
    keys: Keys,
}

impl Model for Live {
    ghost use Rattle.std.specs.Prelude.{◌≡◌, map};
    ghost use Rattle.std.specs.Coded.{codes};
    ghost use Rattle.bson_core.specs.contracts.value.Value as value;
    ghost use Rattle.txn_semantics.specs.Writes.{place_of};
    ghost use Rattle.participant.specs.declared.said.Open.{Open};

    ghost Value = { Open };

    ghost coded = { Prim.hlevel (codes, value.the_row.coded) };

    ghost view = { λ l. l.held };

    ghost invariant = { λ l. l.keys ≡ map place_of l.held.writes };
}

impl Live {
    pub fn new(held: Open, keys: Keys) -> Live
        requires { keys ≡ map place_of held.writes }
        ensures { result ≡ held }
    {
        Live { held, keys }
    }

    pub fn copy(&self, alloc: Global) -> Result<Live, AllocError>
        ensures { IfOk result (λ l. l ≡ self.now) }
    {
        Ok(Live {
            held: self.held.copy(alloc)?,
            keys: copy_keys(alloc, &self.keys)?,
        })
    }

    pub fn open(&self) -> &Open
        ensures { result.now ≡ self.now }
    {
        &self.held
    }

    pub fn tag(&self) -> Tag
        ensures { result ≡ self.now.tag }
    {
        self.held.tag
    }

    /// The keys of its writes.
    pub fn keys(&self) -> &[Key]
        ensures { result.now ≡ map place_of self.now.writes }
    {
        self.keys.as_slice()
    }

    /// Its tag, its read timestamp and what it wrote.
    pub fn into_written(self) -> (Tag, Ts, Writes)
        ensures { result ≡ (self.tag, self.read_at, self.writes) }
    {
        let held = self.held;
        (held.tag, held.read_at, held.writes)
    }
}

/// What the live transactions have, by session.
#[derive(Drop)]
pub struct Lives {
    lives: BTreeMap<SessionKey, Live>,
}

impl Model for Lives {
    ghost use Rattle.std.specs.Prelude.{List};
    ghost use Rattle.std.specs.Coded.{codes};
    ghost use Rattle.bson_core.specs.contracts.value.Value as value;
    ghost use Rattle.txn_types.specs.declared.node.Lsid.{Lsid};
    ghost use Rattle.participant.specs.declared.said.Open.{Open};

    ghost Value = { List (Lsid × Open) };

    ghost coded = { Prim.hlevel (codes, value.the_row.coded) };

    ghost view = { λ l. l.lives.entries };
}

impl Lives {
    pub fn new(alloc: Global) -> Lives
        ensures { result ≡ [] }
    {
        Lives {
            lives: BTreeMap::new(alloc),
        }
    }

    pub fn copy(&self, alloc: Global) -> Result<Lives, AllocError>
        ensures { IfOk result (λ l. l ≡ self.now) }
    {
        let _count = self.len();
        let mut copy = Lives::new(alloc);
        for (key, live) in &self.lives {
            copy.put(key.lsid(), live.copy(alloc)?)?;
        }
        Ok(copy)
    }

    /// How many live transactions there are.
    pub fn len(&self) -> usize
        ensures { Rises lsid_cmp self.now }
    {
        self.lives.len()
    }

    /// What the session's live transaction has.
    pub fn get(&self, lsid: &Lsid) -> Option<&Live>
        ensures { option_copied result ≡ entry_of lsid.now self.now }
    {
        self.lives.get(&SessionKey::new(lsid))
    }

    /// The first session, in their order, whose transaction became live more than 60 seconds before
    /// the wall; and when.
    pub fn first_older(&self, wall: u32) -> Option<(Lsid, u32)>
        ensures rises { Rises lsid_cmp self.now }
        ensures first { result
            ≡ option_map (λ e. (e.0, e.1.begun)) (find (is_older wall) self.now) }
    {
        let _count = self.len();
        for (key, live) in self.lives.iter() {
            let begun = live.open().begun;
            if LIFETIME < wall.saturating_sub(begun) {
                return Some((*key.lsid(), begun));
            }
        }
        None
    }

    /// Puts what the session's live transaction has, whatever stood there; only a session that is
    /// new may want memory.
    pub fn put(&mut self, lsid: &Lsid, live: Live) -> Result<(), AllocFailed<Live>>
        ensures ok { OnOk result (self.new ≡ put lsid_cmp lsid.now live self.old) }
        ensures there { IsSome (entry_of lsid.now self.old) → IsOk result }
        ensures err { OnErr result (self.new ≡ self.old) }
    {
        match self.lives.insert(SessionKey::new(lsid), live) {
            Ok(old) => {
                drop(old);
                Ok(())
            }
            Err(failed) => Err(AllocFailed {
                value: failed.value.1,
            }),
        }
    }

    /// Takes out what the session's live transaction has.
    pub fn take_out(&mut self, lsid: &Lsid) -> Option<Live>
        ensures left { self.new ≡ taken_out lsid_cmp lsid.now self.old }
        ensures taken { result ≡ entry_of lsid.now self.old }
    {
        let _count = self.lives.len();
        self.lives.remove(&SessionKey::new(lsid))
    }
}
