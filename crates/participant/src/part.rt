ghost use Rattle.std.specs.Prelude.{◌≡◌, [], IfOk, IsSomeAnd};
ghost use Rattle.std.specs.Option.{option_copied};
ghost use Rattle.session_table.specs.declared.session.SessionState.TheVariants.{Live};
ghost use Rattle.participant.specs.Part.{session, open_of, end_live};
ghost use Rattle.participant.specs.Stands.{Stands};
ghost use Rattle.participant.specs.Statement.{own_of};

use crate::lives::Lives;
use session_table::{Session, SessionState, Sessions};
use sqlite_items::Items;
use std::alloc::{AllocError, Global};
use std::marker::Model;
use txn_types::{Cause, Lsid, Ts, Write};
use version_store::{Pendings, Store, copy_pendings};

/// A shard's part in transactions: its sessions, what its live transactions have, its prepared
/// ones, and the versions of its documents.
#[derive(Drop)]
pub struct Participant {
    pub(crate) alloc: Global,
    pub(crate) shard: u16,
    pub(crate) boot: u32,
    pub(crate) sessions: Sessions,
    pub(crate) live: Lives,
    pub(crate) pending: Pendings,
    pub(crate) store: Store,
}

impl Model for Participant {
    ghost use Rattle.std.specs.Coded.{codes};
    ghost use Rattle.bson_core.specs.contracts.value.Value as value;
    ghost use Rattle.participant.specs.Part.{Part};
    ghost use Rattle.participant.specs.Stands.{Stands};

    ghost Value = { Part };

    ghost coded = { Prim.hlevel (codes, value.the_row.coded) };

    ghost view = { λ p. record { shard = p.shard; boot = p.boot; sessions = p.sessions; live = p.live; pending = p.pending; store = p.store } };

    ghost invariant = { λ p. Stands (record { shard = p.shard; boot = p.boot; sessions = p.sessions; live = p.live; pending = p.pending; store = p.store }) };
}

impl Participant {
    /// A part without sessions and documents; as many sessions as `limit` may come.
    pub fn new(alloc: Global, shard: u16, boot: u32, limit: u32) -> Participant
        ensures { result ≡ record {
          shard = shard;
          boot = boot;
          sessions = record { limit = limit; entries = [] };
          live = [];
          pending = [];
          store = [];
        } }
    {
        Participant {
            alloc,
            shard,
            boot,
            sessions: Sessions::new(alloc, limit),
            live: Lives::new(alloc),
            pending: Items::new(alloc),
            store: Store::new(alloc),
        }
    }

    /// A part that starts again with what an image has. Its condition implies that no session is
    /// live, that the newest of `pending` with the tag of a prepared session has the keys of its
    /// versions, and that no two sessions are prepared with one tag.
    pub fn of(
        alloc: Global,
        shard: u16,
        boot: u32,
        store: Store,
        sessions: Sessions,
        pending: Pendings,
    ) -> Participant
        requires { Stands (record {
          shard = shard;
          boot = boot;
          sessions = sessions;
          live = [];
          pending = pending;
          store = store;
        }) }
        ensures { result ≡ record {
          shard = shard;
          boot = boot;
          sessions = sessions;
          live = [];
          pending = pending;
          store = store;
        } }
    {
        Participant {
            alloc,
            shard,
            boot,
            sessions,
            live: Lives::new(alloc),
            pending,
            store,
        }
    }

    /// A copy of all that the part has.
    pub fn copy(&self) -> Result<Participant, AllocError>
        ensures { IfOk result (λ copy. copy ≡ self.now) }
    {
        Ok(Participant {
            alloc: self.alloc,
            shard: self.shard,
            boot: self.boot,
            sessions: self.sessions.copy(self.alloc)?,
            live: self.live.copy(self.alloc)?,
            pending: copy_pendings(self.alloc, &self.pending)?,
            store: self.store.copy()?,
        })
    }

    /// The shard's number.
    pub fn shard(&self) -> u16
        ensures { result ≡ self.now.shard }
    {
        self.shard
    }

    /// How often the shard's journal was started.
    pub fn boot(&self) -> u32
        ensures { result ≡ self.now.boot }
    {
        self.boot
    }

    /// What the session's live transaction has written so far, in its order; nothing, where none is
    /// live.
    pub fn writes_of<'a>(&'a self, lsid: &Lsid) -> &'a [Write]
        ensures { result.now ≡ own_of (open_of self.now lsid.now) }
    {
        match self.live.get(lsid) {
            Some(live) => live.open().writes.as_slice(),
            None => &[],
        }
    }

    /// The session's newest transaction here.
    pub fn session(&self, lsid: &Lsid) -> Option<&Session>
        ensures { option_copied result ≡ session self.now lsid.now }
    {
        self.sessions.find(lsid)
    }

    /// Ends the session's live transaction with this cause. It takes no memory.
    pub fn end_live(&mut self, lsid: &Lsid, cause: Cause)
        requires { IsSomeAnd (session self.old lsid.now) (λ s. s.state ≡ Live) }
        ensures { self.new ≡ end_live self.old lsid.now cause }
    {
        let _count = self.live.len();
        match self.live.take_out(lsid) {
            Some(live) => {
                self.store.drop_txn(live.tag(), live.keys());
                let state = SessionState::Aborted {
                    cause,
                    read_at: Ts(0),
                };
                self.sessions.end(lsid, state);
                drop(live);
            }
            None => drop(cause),
        }
    }
}
