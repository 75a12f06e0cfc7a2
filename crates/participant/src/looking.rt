ghost use Rattle.std.specs.Prelude.{◌≡◌, ◌&&◌, not, Some, slice_get};
ghost use Rattle.txn_types.specs.Order.{same_tag, same_lsid};
ghost use Rattle.txn_types.specs.declared.node.Lsid.{Lsid};
ghost use Rattle.session_table.specs.declared.session.Session.{Session};
ghost use Rattle.participant.specs.Part.{is_open, elsewhere, least_prepared};
ghost use Rattle.participant.specs.Stands.{lesser};
ghost use Rattle.session_table.specs.Sessions.{prepared_at};

use crate::part::Participant;
use session_table::{Session, SessionState, is_same_lsid, is_same_tag};
use txn_types::{Lsid, Tag, Ts};

/// Whether the transaction is live or prepared.
fn is_open(state: &SessionState) -> bool
    ensures { result ≡ is_open state.now }
{
    match state {
        SessionState::Live => true,
        SessionState::Prepared { .. } => true,
        SessionState::Committed { .. } => false,
        SessionState::Released => false,
        SessionState::Aborted { .. } => false,
    }
}

/// Whether it is another session, with this tag, live or prepared.
fn has_tag(other: &Lsid, session: &Session, lsid: &Lsid, tag: &Tag) -> bool
    ensures { result ≡ (not (same_lsid other.now lsid.now) && same_tag session.now.tag tag.now
        && is_open session.now.state) }
{
    !is_same_lsid(other, lsid) && is_same_tag(&session.tag, tag) && is_open(&session.state)
}

/// When a transaction was prepared.
fn prepared_at(state: &SessionState) -> Option<Ts>
    ensures { result ≡ prepared_at state.now }
{
    match state {
        SessionState::Prepared { at, .. } => Some(*at),
        SessionState::Live => None,
        SessionState::Committed { .. } => None,
        SessionState::Released => None,
        SessionState::Aborted { .. } => None,
    }
}

/// The lesser of two timestamps, where both are there.
fn lesser(a: Option<Ts>, b: Option<Ts>) -> Option<Ts>
    ensures { result ≡ lesser a b }
{
    match (a, b) {
        (Some(a), Some(b)) => Some(Ts(a.0.min(b.0))),
        (Some(a), None) => Some(a),
        (None, b) => b,
    }
}

impl Participant {
    /// Whether another session has this tag, live or prepared. It goes through all sessions, and
    /// takes no memory.
    pub fn elsewhere(&self, lsid: &Lsid, tag: Tag) -> bool
        ensures { result ≡ elsewhere self.now lsid.now tag }
    {
        for place in 0..self.sessions.len() {
            if self.is_elsewhere(place, lsid, &tag) {
                return true;
            }
        }
        false
    }

    /// Whether the session that came at this place is such.
    fn is_elsewhere(&self, place: usize, lsid: &Lsid, tag: &Tag) -> bool
        ensures { (e : Lsid × Session) → slice_get self.now.sessions.entries place ≡ Some e → result
            ≡ (not (same_lsid e.0 lsid.now) && same_tag e.1.tag tag.now && is_open e.1.state) }
    {
        match self.sessions.entry(place) {
            Some((other, session)) => has_tag(other, session, lsid, tag),
            None => false,
        }
    }

    /// The least prepare timestamp that stands. It goes through all sessions, and takes no memory.
    pub fn least_prepared(&self) -> Option<Ts>
        ensures { result ≡ least_prepared self.now }
    {
        let mut least = None;
        for place in 0..self.sessions.len() {
            least = lesser(least, self.prepared_at(place));
        }
        least
    }

    /// When the transaction of the session that came at this place was prepared.
    fn prepared_at(&self, place: usize) -> Option<Ts>
        ensures { (e : Lsid × Session) → slice_get self.now.sessions.entries place ≡ Some e
            → result ≡ prepared_at e.1.state }
    {
        match self.sessions.entry(place) {
            Some((_lsid, session)) => prepared_at(&session.state),
            None => None,
        }
    }
}
