ghost use Rattle.std.specs.Prelude.{◌≡◌, ◌≢◌, ◌≤◌, ◌⊎◌, ℕ, None, Some, Ok, Err, true, map, option_map, IfOk, IsSomeAnd, OnErr};
ghost use Rattle.txn_types.specs.Clock.{last_time, next_time};
ghost use Rattle.txn_types.specs.declared.cause.Cause.TheVariants as cause;
ghost use Rattle.txn_semantics.specs.Writes.{place_of};
ghost use Rattle.journal_rec.specs.declared.record.Rec.TheVariants as rec;
ghost use Rattle.session_table.specs.declared.session.Session.{Session};
ghost use Rattle.session_table.specs.declared.session.SessionState.TheVariants as state;
ghost use Rattle.version_store.specs.Versions.{prepared, keys_of};
ghost use Rattle.participant.specs.declared.said.Open.{Open};
ghost use Rattle.participant.specs.Memory.{may_tell_memory};
ghost use Rattle.participant.specs.Part.{session, open_of, ended, is_replaced};
ghost use Rattle.participant.specs.Prepare.{prepare, prepares_live, prepares_open, vetoes};
ghost use Rattle.participant.specs.Stands.{pending_of, pending_keys};

use crate::clock::{is_at_end, next_tick};
use crate::merging::copied_keys;
use crate::part::Participant;
use crate::said::{PartErr, Voted};
use journal_rec::Rec;
use session_table::{Session, SessionState, is_same_tag};
use std::alloc::AllocError;
use txn_types::{Cause, HybridClock, Lsid, Prepare, Tag, Ts};
use version_store::Pending;

/// Voted, without a record.
fn votes(vote: Result<Ts, Cause>) -> Voted
    ensures { result ≡ record { vote = Some vote; rec = None } }
{
    Voted {
        vote: Some(vote),
        rec: None,
    }
}

/// It came too late to be asked.
fn votes_not() -> Voted
    ensures { result ≡ record { vote = None; rec = None } }
{
    Voted {
        vote: None,
        rec: None,
    }
}

/// Whether the session has a larger number, or another transaction on this one.
pub fn is_replaced(session: &Session, number: i64, tag: &Tag) -> bool
    ensures { result ≡ is_replaced session.now number tag.now }
{
    if number < session.number {
        return true;
    }
    if session.number < number {
        return false;
    }
    !is_same_tag(&session.tag, tag)
}

impl Participant {
    /// How a shard votes on a commit that a coordinator asks for: a live transaction is prepared at
    /// its clock's next time, with a record of what it wrote.
    #[tactic(auto, unfolding(crate::specs::Prepare::prepare))]
    pub fn prepare(
        &mut self,
        clock: &mut HybridClock,
        wall: u32,
        m: &Prepare,
    ) -> Result<Voted, PartErr>
        requires clock { (clock.old.last ≡ last_time)
            ⊎ (next_time clock.old.last wall ≤ clock.old.ceiling) }
        ensures voted { IfOk result (λ voted. prepare self.old clock.old.last wall m.now ≡ record {
          told = voted.vote;
          rec = voted.rec;
          last = clock.new.last;
          part = self.new;
        }) }
        ensures ceiling { clock.new.ceiling ≡ clock.old.ceiling }
        ensures err { OnErr result ((self.new ≡ self.old) × (clock.new ≡ clock.old)) }
        ensures memory { OnErr result
            (may_tell_memory self.old m.now.lsid m.now.number m.now.tag ≡ true) }
    {
        let Some(session) = self.session(&m.lsid) else {
            return Ok(self.prepare_none(m));
        };
        if is_replaced(session, m.number, &m.tag) {
            return Ok(votes(Err(Cause::Replaced {
                number: session.number,
                tag: session.tag,
            })));
        }
        if !is_same_tag(&session.tag, &m.tag) {
            return Ok(self.prepare_none(m));
        }
        match &session.state {
            SessionState::Live => self.prepare_live(clock, wall, m),
            SessionState::Prepared { at, .. } => Ok(votes(Ok(*at))),
            SessionState::Committed { .. } => Ok(votes_not()),
            SessionState::Released => Ok(votes_not()),
            SessionState::Aborted { cause, .. } => Ok(votes(Err(cause.copy(self.alloc)?))),
        }
    }

    /// The vote on a transaction that isn't here.
    fn prepare_none(&self, m: &Prepare) -> Voted
        ensures { result ≡ record {
          vote = Some (Err (cause.Unavailable m.now.boot self.now.boot));
          rec = None;
        } }
    {
        votes(Err(Cause::Unavailable {
            carried: m.boot,
            have: self.boot,
        }))
    }

    /// The vote on a live transaction, and what becomes of it.
    fn prepare_live(
        &mut self,
        clock: &mut HybridClock,
        wall: u32,
        m: &Prepare,
    ) -> Result<Voted, PartErr>
        requires clock { (clock.old.last ≡ last_time)
            ⊎ (next_time clock.old.last wall ≤ clock.old.ceiling) }
        requires live { IsSomeAnd (session self.old m.now.lsid) (λ s. s.state ≡ state.Live) }
        ensures voted { IfOk result (λ voted. (s : Session) → session self.old m.now.lsid ≡ Some s
            → prepares_live self.old clock.old.last wall m.now s ≡ record {
              told = voted.vote;
              rec = voted.rec;
              last = clock.new.last;
              part = self.new;
            }) }
        ensures ceiling { clock.new.ceiling ≡ clock.old.ceiling }
        ensures err { OnErr result ((self.new ≡ self.old) × (clock.new ≡ clock.old)) }
    {
        if m.boot != self.boot {
            let have = self.boot;
            let carried = m.boot;
            return Ok(self.veto(
                m,
                Cause::Unavailable { carried, have },
                Cause::Unavailable { carried, have },
            ));
        }
        let Some(pending) = self.pending_of(&m.lsid)? else {
            return Ok(votes_not());
        };
        self.prepare_open(clock, wall, m, pending)
    }

    /// What is to stand among the prepared transactions.
    fn pending_of(&self, lsid: &Lsid) -> Result<Option<Pending>, AllocError>
        ensures { IfOk result
            (λ pending. pending ≡ option_map (pending_of lsid.now) (open_of self.now lsid.now)) }
    {
        match self.live.get(lsid) {
            Some(live) => Ok(Some(Pending {
                tag: live.tag(),
                lsid: *lsid,
                read_at: live.open().read_at,
                keys: copied_keys(self.alloc, live.keys())?,
            })),
            None => Ok(None),
        }
    }

    /// The vote on a transaction that has something here.
    fn prepare_open(
        &mut self,
        clock: &mut HybridClock,
        wall: u32,
        m: &Prepare,
        pending: Pending,
    ) -> Result<Voted, PartErr>
        requires clock { (clock.old.last ≡ last_time)
            ⊎ (next_time clock.old.last wall ≤ clock.old.ceiling) }
        requires live { IsSomeAnd (session self.old m.now.lsid) (λ s. s.state ≡ state.Live) }
        requires pending { Some pending
            ≡ option_map (pending_of m.now.lsid) (open_of self.old m.now.lsid) }
        ensures voted { IfOk result
            (λ voted. (s : Session) → session self.old m.now.lsid ≡ Some s → prepares_open self.old
            clock.old.last wall m.now s (open_of self.old m.now.lsid) ≡ record {
              told = voted.vote;
              rec = voted.rec;
              last = clock.new.last;
              part = self.new;
            }) }
        ensures ceiling { clock.new.ceiling ≡ clock.old.ceiling }
        ensures err { OnErr result ((self.new ≡ self.old) × (clock.new ≡ clock.old)) }
    {
        if is_at_end(clock) {
            let last = clock.last;
            return Ok(self.veto(m, Cause::ClockEnd { last }, Cause::ClockEnd { last }));
        }
        self.pending.push(pending)?;
        match next_tick(clock, wall) {
            Some(at) => Ok(Voted {
                vote: Some(Ok(at)),
                rec: self.prepare_at(m, at),
            }),
            None => Ok(votes_not()),
        }
    }

    /// The transaction ends with a cause, which is the vote.
    fn veto(&mut self, m: &Prepare, cause: Cause, again: Cause) -> Voted
        requires live { IsSomeAnd (session self.old m.now.lsid) (λ s. s.state ≡ state.Live) }
        requires again { again ≡ cause }
        ensures { (last : ℕ) (s : Session) → session self.old m.now.lsid ≡ Some s
            → vetoes self.old last m.now s cause
            ≡ record { told = result.vote; rec = result.rec; last = last; part = self.new } }
    {
        self.end_live(&m.lsid, cause);
        votes(Err(again))
    }

    /// The transaction is prepared at this time; the record of it.
    fn prepare_at(&mut self, m: &Prepare, at: Ts) -> Option<Rec>
        requires live { IsSomeAnd (session self.old m.now.lsid) (λ s. s.state ≡ state.Live) }
        requires listed { (s : Session) → session self.old m.now.lsid ≡ Some s
            → pending_keys self.old s.tag ≡ keys_of s.tag self.old.store }
        ensures rec { (s : Session) (o : Open) → session self.old m.now.lsid ≡ Some s
            → open_of self.old m.now.lsid ≡ Some o → result ≡ Some (rec.Prepared s.tag m.now.lsid
            s.number self.old.boot o.read_at at m.now.coordinator o.writes) }
        ensures part { (s : Session) → session self.old m.now.lsid ≡ Some s
            → self.new ≡ ended (record self.old { store = prepared s.tag at self.old.store })
            m.now.lsid s (state.Prepared at m.now.coordinator) }
    {
        let _count = self.live.len();
        let number = self.number(&m.lsid);
        let live = self.live.take_out(&m.lsid)?;
        self.store.prepare(live.tag(), live.keys(), at);
        let coordinator = m.coordinator;
        self.sessions
            .end(&m.lsid, SessionState::Prepared { at, coordinator });
        let (tag, read_at, writes) = live.into_written();
        Some(Rec::Prepared {
            tag,
            lsid: m.lsid,
            number,
            boot: self.boot,
            read_at,
            at,
            coordinator,
            writes,
        })
    }
}
