ghost use Rattle.std.specs.Prelude.{◌≡◌, ◌≤◌, ◌⊎◌, ℕ, None, Some, true, false, IfOk, IsSomeAnd, OnErr};
ghost use Rattle.txn_types.specs.Clock.{last_time, next_time};
ghost use Rattle.txn_types.specs.declared.decision.Told.TheVariants as told;
ghost use Rattle.session_table.specs.declared.session.Session.{Session};
ghost use Rattle.session_table.specs.declared.session.SessionState.TheVariants as state;
ghost use Rattle.participant.specs.declared.said.Open.{Open};
ghost use Rattle.participant.specs.Memory.{may_tell_memory};
ghost use Rattle.participant.specs.Part.{session, open_of};
ghost use Rattle.participant.specs.Commit.{commit, commits, commits_live, fails, releases};
ghost use Rattle.participant.specs.Stands.{has_writes};
ghost use Rattle.txn_types.specs.declared.cause.Cause.TheVariants as cause;

use crate::clock::next_tick;
use crate::part::Participant;
use crate::said::{Done, Open, PartErr};
use journal_rec::Rec;
use session_table::{SessionState, is_same_tag};
use txn_types::{Cause, Commit, HybridClock, Lsid, Told, Ts};

/// Told, without a record.
fn tells(told: Told) -> Done
    ensures { result ≡ record { told = Some told; rec = None } }
{
    Done {
        told: Some(told),
        rec: None,
    }
}

impl Participant {
    /// What a shard tells of a commit that it makes alone: its clock's next time, with a record of
    /// what was written.
    #[tactic(auto, unfolding(crate::specs::Commit::commit))]
    pub fn commit(
        &mut self,
        clock: &mut HybridClock,
        wall: u32,
        m: &Commit,
    ) -> Result<Done, PartErr>
        requires clock { (clock.old.last ≡ last_time)
            ⊎ (next_time clock.old.last wall ≤ clock.old.ceiling) }
        ensures done { IfOk result (λ done. commit self.old clock.old.last wall m.now
            ≡ record { told = done.told; rec = done.rec; last = clock.new.last; part = self.new }) }
        ensures ceiling { clock.new.ceiling ≡ clock.old.ceiling }
        ensures err { OnErr result ((self.new ≡ self.old) × (clock.new ≡ clock.old)) }
        ensures memory { OnErr result
            (may_tell_memory self.old m.now.lsid m.now.number m.now.tag ≡ true) }
    {
        let Some(session) = self.session(&m.lsid) else {
            return Ok(self.commit_none(m));
        };
        if m.number < session.number {
            return Ok(tells(Told::TooOld {
                have: session.number,
            }));
        }
        if !is_same_tag(&session.tag, &m.tag) {
            return Ok(self.commit_none(m));
        }
        match &session.state {
            SessionState::Live => Ok(self.commit_live(clock, wall, m)),
            SessionState::Prepared { .. } => Ok(Done {
                told: None,
                rec: None,
            }),
            SessionState::Committed { at } => Ok(tells(Told::Committed { at: *at })),
            SessionState::Released => Ok(tells(Told::Released)),
            SessionState::Aborted { cause, .. } => Ok(tells(Told::Aborted {
                cause: cause.copy(self.alloc)?,
            })),
        }
    }

    /// What is told of a transaction that isn't here.
    fn commit_none(&self, m: &Commit) -> Done
        ensures { result ≡ record {
          told = Some (told.Aborted (cause.Unavailable m.now.boot self.now.boot));
          rec = None;
        } }
    {
        tells(Told::Aborted {
            cause: Cause::Unavailable {
                carried: m.boot,
                have: self.boot,
            },
        })
    }

    /// What is told of a live transaction, and what becomes of it.
    fn commit_live(&mut self, clock: &mut HybridClock, wall: u32, m: &Commit) -> Done
        requires clock { (clock.old.last ≡ last_time)
            ⊎ (next_time clock.old.last wall ≤ clock.old.ceiling) }
        requires live { IsSomeAnd (session self.old m.now.lsid) (λ s. s.state ≡ state.Live) }
        ensures done { (s : Session) → session self.old m.now.lsid ≡ Some s
            → commits_live self.old clock.old.last wall m.now s ≡ record {
              told = result.told;
              rec = result.rec;
              last = clock.new.last;
              part = self.new;
            } }
        ensures ceiling { clock.new.ceiling ≡ clock.old.ceiling }
    {
        if m.boot != self.boot {
            let have = self.boot;
            let carried = m.boot;
            return self.commit_fails(
                m,
                Cause::Unavailable { carried, have },
                Cause::Unavailable { carried, have },
            );
        }
        if !self.has_writes(&m.lsid) {
            return self.release(m);
        }
        match next_tick(clock, wall) {
            Some(at) => Done {
                told: Some(Told::Committed { at }),
                rec: self.commit_at(m, at),
            },
            None => {
                let last = clock.last;
                self.commit_fails(m, Cause::ClockEnd { last }, Cause::ClockEnd { last })
            }
        }
    }

    /// Whether the session's live transaction wrote here.
    fn has_writes(&self, lsid: &Lsid) -> bool
        ensures { result ≡ has_writes (open_of self.now lsid.now) }
    {
        match self.live.get(lsid) {
            Some(live) => !live.open().writes.as_slice().is_empty(),
            None => false,
        }
    }

    /// The transaction ends with a cause, and so it is told.
    fn commit_fails(&mut self, m: &Commit, cause: Cause, again: Cause) -> Done
        requires live { IsSomeAnd (session self.old m.now.lsid) (λ s. s.state ≡ state.Live) }
        requires again { again ≡ cause }
        ensures { (last : ℕ) (s : Session) → session self.old m.now.lsid ≡ Some s
            → fails self.old last m.now s cause
            ≡ record { told = result.told; rec = result.rec; last = last; part = self.new } }
    {
        self.end_live(&m.lsid, cause);
        tells(Told::Aborted { cause: again })
    }

    /// The transaction ends without a write.
    fn release(&mut self, m: &Commit) -> Done
        requires live { IsSomeAnd (session self.old m.now.lsid) (λ s. s.state ≡ state.Live) }
        requires none { has_writes (open_of self.old m.now.lsid) ≡ false }
        ensures { (last : ℕ) (s : Session) → session self.old m.now.lsid ≡ Some s
            → releases self.old last m.now s
            ≡ record { told = result.told; rec = result.rec; last = last; part = self.new } }
    {
        let _count = self.live.len();
        let live = self.live.take_out(&m.lsid);
        drop(live);
        self.sessions.end(&m.lsid, SessionState::Released);
        tells(Told::Released)
    }

    /// The number of the session's transaction.
    pub(crate) fn number(&self, lsid: &Lsid) -> i64
        ensures { (s : Session) → session self.now lsid.now ≡ Some s → result ≡ s.number }
    {
        match self.session(lsid) {
            Some(session) => session.number,
            None => 0,
        }
    }

    /// The transaction commits at this time; the record of it.
    fn commit_at(&mut self, m: &Commit, at: Ts) -> Option<Rec>
        requires { IsSomeAnd (session self.old m.now.lsid) (λ s. s.state ≡ state.Live) }
        ensures { (s : Session) (o : Open) → session self.old m.now.lsid ≡ Some s
            → open_of self.old m.now.lsid ≡ Some o → commits self.old m.now s o at
            ≡ record { told = Some (told.Committed at); rec = result; last = at; part = self.new } }
    {
        let _count = self.live.len();
        let number = self.number(&m.lsid);
        let live = self.live.take_out(&m.lsid)?;
        self.store.decide(live.tag(), live.keys(), Some(at));
        self.sessions.end(&m.lsid, SessionState::Committed { at });
        let (tag, read_at, writes) = live.into_written();
        Some(Rec::Commit {
            tag,
            lsid: m.lsid,
            number,
            read_at,
            at,
            writes,
        })
    }
}
