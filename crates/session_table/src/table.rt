ghost use Rattle.std.specs.Prelude.{◌≡◌, ◌++◌, ◌∷◌, [], List, length, slice_get, None, Some, option_map, IsOk, IsSome, IfOk, IfErr, IfSome, OnOk, OnErr};
ghost use Rattle.std.specs.Option.{option_copied};
ghost use Rattle.txn_types.specs.declared.node.Lsid.{Lsid};
ghost use Rattle.session_table.specs.declared.session.Session.{Session};
ghost use Rattle.session_table.specs.Sessions.{
  Table,
  session_of,
  is_full,
  standing_refusal,
  refusal_of,
  refusal,
  begun,
  with_session,
  with_state,
};
ghost use Rattle.session_table.specs.Refusals.{IsRefused};

use crate::key::Key;
use crate::session::{Session, SessionErr, SessionState};
use indexmap::IndexMap;
use std::alloc::{AllocError, AllocFailed, Global};
use std::cmp::Ordering;
use std::marker::Model;
use txn_types::{Lsid, Tag};

/// The sessions, in the order in which they first came. None is forgotten.
#[derive(Drop)]
pub struct Sessions {
    limit: u32,
    entries: IndexMap<Key, Session>,
}

impl Model for Sessions {
    ghost use Rattle.std.specs.Coded.{codes};
    ghost use Rattle.bson_core.specs.contracts.value.Value as value;
    ghost use Rattle.session_table.specs.Sessions.{Table};

    ghost Value = { Table };

    ghost coded = { Prim.hlevel (codes, value.the_row.coded) };

    ghost view = { λ s. record { limit = s.limit; entries = s.entries.entries } };
}

impl Sessions {
    /// No sessions; as many as `limit` may come.
    pub fn new(alloc: Global, limit: u32) -> Sessions
        ensures { result ≡ record { limit = limit; entries = [] } }
    {
        Sessions {
            limit,
            entries: IndexMap::new(alloc),
        }
    }

    pub fn copy(&self, alloc: Global) -> Result<Sessions, AllocError>
        ensures { IfOk result (λ s. s ≡ self.now) }
    {
        let mut copy = Sessions::new(alloc, self.limit);
        for (key, session) in &self.entries {
            copy.set(key.lsid(), session.copy(alloc)?)?;
        }
        Ok(copy)
    }

    /// The session's newest transaction. It takes no memory.
    pub fn find(&self, lsid: &Lsid) -> Option<&Session>
        ensures { option_copied result ≡ session_of self.now lsid.now }
    {
        self.entries.get(&Key::new(lsid))
    }

    /// Whether no further session may come.
    pub fn is_full(&self) -> bool
        ensures { result ≡ is_full self.now }
    {
        self.limit as usize <= self.entries.len()
    }

    /// How many sessions stand.
    pub fn len(&self) -> usize
        ensures { result ≡ length self.now.entries }
    {
        self.entries.len()
    }

    /// The session that came at this place, and its newest transaction.
    pub fn entry(&self, place: usize) -> Option<(&Lsid, &Session)>
        ensures { option_map (λ e. (e.0.now, e.1.now)) result ≡ slice_get self.now.entries place }
    {
        let (key, session) = self.entries.get_index(place)?;
        Some((key.lsid(), session))
    }

    /// Why the session can't begin a transaction of this number, where it can't.
    fn refusal(&self, lsid: &Lsid, number: i64) -> Option<SessionErr>
        ensures { result ≡ refusal self.now lsid.now number }
    {
        match self.find(lsid) {
            Some(session) => refusal_of(session, number),
            None => {
                if self.is_full() {
                    return Some(SessionErr::TooMany);
                }
                None
            }
        }
    }

    /// Begins a transaction of the session, which is live.
    pub fn begin(&mut self, lsid: Lsid, number: i64, tag: Tag) -> Result<(), SessionErr>
        ensures free { OnOk result (refusal self.old lsid number ≡ None) }
        ensures ok { OnOk result (self.new ≡ begun self.old lsid number tag) }
        ensures refused { IfErr result (IsRefused (refusal self.old lsid number)) }
        ensures err { OnErr result (self.new ≡ self.old) }
    {
        if let Some(refusal) = self.refusal(&lsid, number) {
            return Err(refusal);
        }
        let session = Session {
            number,
            tag,
            state: SessionState::Live,
        };
        match self.set(&lsid, session) {
            Ok(()) => Ok(()),
            Err(failed) => {
                drop(failed);
                Err(SessionErr::Memory)
            }
        }
    }

    /// Sets the session's newest transaction, whatever stood there; only a session that is new may
    /// want memory.
    pub fn set(&mut self, lsid: &Lsid, session: Session) -> Result<(), AllocFailed<Session>>
        ensures ok { OnOk result (self.new ≡ with_session self.old lsid.now session) }
        ensures there { IsSome (session_of self.old lsid.now) → IsOk result }
        ensures err { OnErr result (self.new ≡ self.old) }
        ensures back { IfErr result (λ failed. failed.value ≡ session) }
    {
        match self.entries.insert(Key::new(lsid), session) {
            Ok(old) => {
                drop(old);
                Ok(())
            }
            Err(failed) => Err(AllocFailed {
                value: failed.value.1,
            }),
        }
    }

    /// Sets the newest transaction of a session that is there. It takes no memory.
    pub fn replace(&mut self, lsid: &Lsid, session: Session)
        requires { IsSome (session_of self.old lsid.now) }
        ensures { self.new ≡ with_session self.old lsid.now session }
    {
        let done = self.set(lsid, session);
        drop(done);
    }

    /// Sets the state of the transaction of a session that is there. It takes no memory.
    pub fn end(&mut self, lsid: &Lsid, state: SessionState)
        requires { IsSome (session_of self.old lsid.now) }
        ensures { IfSome (session_of self.old lsid.now)
            (λ session. self.new ≡ with_state self.old lsid.now session state) }
    {
        match self.find(lsid) {
            Some(session) => {
                let session = Session {
                    number: session.number,
                    tag: session.tag,
                    state,
                };
                self.replace(lsid, session);
            }
            None => drop(state),
        }
    }

    /// Takes out the session that came last.
    pub fn take_back(&mut self)
        ensures limit { self.new.limit ≡ self.old.limit }
        ensures entries { (entries : List (Lsid × Session)) (last : Lsid × Session)
            → self.old.entries ≡ entries ++ last ∷ [] → self.new.entries ≡ entries }
    {
        let _last = self.entries.pop();
    }
}

/// Why a session with this transaction refuses one of this number.
fn refusal_of(session: &Session, number: i64) -> Option<SessionErr>
    ensures { (table : Table) → result ≡ refusal_of table number (Some session.now) }
{
    match number.cmp(&session.number) {
        Ordering::Less => Some(SessionErr::TooOld {
            number,
            have: session.number,
        }),
        Ordering::Equal => Some(SessionErr::InUse { tag: session.tag }),
        Ordering::Greater => standing_refusal(session),
    }
}

/// A prepared transaction can't be left.
fn standing_refusal(session: &Session) -> Option<SessionErr>
    ensures { result ≡ standing_refusal session.now.tag session.now.state }
{
    match session.state {
        SessionState::Prepared { .. } => Some(SessionErr::PreparedStands { tag: session.tag }),
        _ => None,
    }
}
