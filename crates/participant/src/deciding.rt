ghost use Rattle.std.specs.Prelude.{◌≡◌, [], Some, None, IsSome, IsSomeAnd};
ghost use Rattle.session_table.specs.Sessions.{commit_time, state_behind, prepared_at};
ghost use Rattle.session_table.specs.declared.session.Session.{Session};
ghost use Rattle.session_table.specs.declared.session.SessionState.TheVariants as state;
ghost use Rattle.participant.specs.Part.{session};
ghost use Rattle.participant.specs.Decide.{decide, decides_live, decides_prepared, applies, record_of};
ghost use Rattle.participant.specs.Stands.{newest_keys};

use crate::part::Participant;
use journal_rec::Decided;
use session_table::{Session, SessionState, is_same_tag};
use txn_types::{Cause, Decide, Decision, Tag, Ts};
use version_store::{Key, Pending, forget};

/// The time of a commit.
fn commit_time(decision: &Decision) -> Option<Ts>
    ensures { result ≡ commit_time decision.now }
{
    match decision {
        Decision::Commit(at) => Some(*at),
        Decision::Abort { .. } => None,
    }
}

/// How a prepared transaction stands after the decision.
fn state_behind(decision: &Decision) -> SessionState
    ensures { result ≡ state_behind decision.now }
{
    match decision {
        Decision::Commit(at) => SessionState::Committed { at: *at },
        Decision::Abort { shard, code } => SessionState::Aborted {
            cause: Cause::Voted {
                shard: *shard,
                code: *code,
            },
            read_at: Ts(0),
        },
    }
}

/// The keys of the newest prepared transaction of the tag; none, where there is no such
/// transaction.
fn newest_keys<'a>(tag: &Tag, pendings: &'a [Pending]) -> &'a [Key]
    ensures { result.now ≡ newest_keys tag.now [] pendings.now }
{
    let mut keys: &'a [Key] = &[];
    for pending in pendings {
        if is_same_tag(&pending.tag, tag) {
            keys = pending.keys.as_slice();
        }
    }
    keys
}

/// The record of the decision.
fn record_of(m: &Decide, session: &Session) -> Decided
    ensures { result ≡ record_of m.now session.now }
{
    Decided {
        tag: session.tag,
        lsid: m.lsid,
        number: session.number,
        decision: m.decision,
    }
}

impl Participant {
    /// Applies a coordinator's decision, and answers the record of it; none, where it changes
    /// nothing or ends a transaction that wasn't prepared. It takes no memory.
    #[tactic(auto, unfolding(crate::specs::Decide::decide))]
    pub fn decide(&mut self, m: &Decide) -> Option<Decided>
        ensures { decide self.old m.now ≡ (result, self.new) }
    {
        let Some(session) = self.session(&m.lsid) else {
            return None;
        };
        if !is_same_tag(&session.tag, &m.tag) {
            return None;
        }
        match session.state {
            SessionState::Live => {
                self.decide_live(m);
                None
            }
            SessionState::Prepared { at, .. } => self.decide_prepared(m, at),
            SessionState::Committed { .. } => None,
            SessionState::Released => None,
            SessionState::Aborted { .. } => None,
        }
    }

    /// A decision to abort ends the live transaction.
    fn decide_live(&mut self, m: &Decide)
        requires { IsSomeAnd (session self.old m.now.lsid) (λ s. s.state ≡ state.Live) }
        ensures { (s : Session) → session self.old m.now.lsid ≡ Some s
            → decides_live self.old m.now s m.now.decision ≡ (None, self.new) }
    {
        match m.decision {
            Decision::Commit(_at) => {}
            Decision::Abort { shard, code } => {
                self.end_live(&m.lsid, Cause::Voted { shard, code });
            }
        }
    }

    /// The transaction is prepared at this time: a commit below it changes nothing.
    fn decide_prepared(&mut self, m: &Decide, at: Ts) -> Option<Decided>
        requires { IsSomeAnd (session self.old m.now.lsid) (λ s. prepared_at s.state ≡ Some at) }
        ensures { (s : Session) → session self.old m.now.lsid ≡ Some s
            → decides_prepared self.old m.now s at m.now.decision ≡ (result, self.new) }
    {
        match m.decision {
            Decision::Commit(time) => {
                if time < at {
                    return None;
                }
                self.apply(m)
            }
            Decision::Abort { .. } => self.apply(m),
        }
    }

    /// The prepared transaction ends as it is decided; the record of it.
    fn apply(&mut self, m: &Decide) -> Option<Decided>
        requires { IsSomeAnd (session self.old m.now.lsid) (λ s. IsSome (prepared_at s.state)) }
        ensures { (s : Session) → session self.old m.now.lsid ≡ Some s
            → applies self.old m.now s ≡ (result, self.new) }
    {
        let session = self.session(&m.lsid)?;
        let tag = session.tag;
        let decided = record_of(m, session);
        let _count = self.live.len();
        let keys = newest_keys(&tag, self.pending.as_slice());
        self.store.decide(tag, keys, commit_time(&m.decision));
        self.sessions.end(&m.lsid, state_behind(&m.decision));
        forget(&mut self.pending, &tag);
        Some(decided)
    }
}
