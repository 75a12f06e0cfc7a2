//! Which record can follow.
ghost use Rattle.std.specs.Prelude.{◌≡◌, ◌&&◌, int_lt, not, is_none, unwrap_or, option_and_then, option_map};
ghost use Rattle.std.specs.List.{list_any, list_all};
ghost use Rattle.std.specs.Option.{option_copied};
ghost use Rattle.txn_types.specs.Order.{same_lsid};
ghost use Rattle.coordinator.specs.TwoPhase.{coordinated_of};
ghost use Rattle.txn_semantics.specs.Writes.{place_of};
ghost use Rattle.session_table.specs.Sessions.{Table, session_of, prepared_at};
ghost use Rattle.version_store.specs.Versions.{against, versions_of};
ghost use Rattle.journal_rec.specs.Follows as journal;
ghost use Rattle.journal_rec.specs.Follows.{standing_of, coordination_of};
ghost use Rattle.shard_image.specs.Image.{ledger_of, standing_by, number_of as numbered, can_follow_image};
ghost use Rattle.shard_image.specs.Sound.{pending_of};

use crate::image::Image;
use coordinator::Coord;
use journal_rec::{Decided, Rec};
use session_table::{SessionState, Sessions, is_same_lsid, is_same_tag};
use txn_types::{Decision, Lsid, Tag, Ts, Write, Writes};
use version_store::{Pending, Store};

/// Whether a transaction of the session is prepared.
fn has_session(pending: &[Pending], lsid: &Lsid) -> bool
    ensures { result ≡ list_any (λ q. same_lsid q.lsid lsid.now) pending.now }
{
    for q in pending {
        if is_same_lsid(&q.lsid, lsid) {
            return true;
        }
    }
    false
}

/// The prepared transaction of the tag.
pub fn find_pending<'a>(pending: &'a [Pending], tag: &Tag) -> Option<&'a Pending>
    ensures { option_copied result ≡ pending_of pending.now tag.now }
{
    for q in pending {
        if is_same_tag(&q.tag, tag) {
            return Some(q);
        }
    }
    None
}

/// Whether the timestamp is at or below the ceiling, above what was read at, and above each earlier
/// one.
fn is_next_time(image: &Image, read_at: Ts, at: Ts) -> bool
    ensures { result ≡ journal.is_next_time (ledger_of image.now) read_at at }
{
    at.0 <= image.ceiling.0 && read_at.0 < at.0 && image.place.greatest.0 < at.0
}

/// Whether a number is below another.
fn is_below(older: i64, number: i64) -> bool
    ensures { result ≡ int_lt older number }
{
    older < number
}

/// Whether a number is above an older one.
fn is_newer(older: &i64, number: &i64) -> bool
    ensures { result ≡ int_lt older.now number.now }
{
    *older < *number
}

/// Whether the session's number rises, and there is room for the session.
fn is_next_number(image: &Image, lsid: &Lsid, number: &i64) -> bool
    ensures { result ≡ journal.is_next_number (ledger_of image.now) lsid.now number.now }
{
    match image.sessions.find(lsid) {
        Some(session) => is_newer(&session.number, number),
        None => !image.sessions.is_full(),
    }
}

/// Whether neither the session nor the tag has a prepared transaction.
fn is_undisturbed(image: &Image, lsid: &Lsid, tag: &Tag) -> bool
    ensures { result ≡ journal.is_undisturbed (ledger_of image.now) lsid.now tag.now }
{
    are_undisturbed(image.pending.as_slice(), lsid, tag)
}

fn are_undisturbed(pending: &[Pending], lsid: &Lsid, tag: &Tag) -> bool
    ensures { result ≡ (not (list_any (λ q. same_lsid q.lsid lsid.now) pending.now)
        && is_none (pending_of pending.now tag.now)) }
{
    !has_session(pending, lsid) && find_pending(pending, tag).is_none()
}

/// Whether nothing stands against a write.
fn is_free(store: &Store, tag: &Tag, read_at: Ts, write: &Write) -> bool
    ensures { result
        ≡ is_none (against read_at tag.now (versions_of store.now (place_of write.now))) }
{
    match write {
        Write::Put { ns, id, .. } => store.against(ns, id, read_at, *tag).is_none(),
        Write::Delete { ns, id } => store.against(ns, id, read_at, *tag).is_none(),
    }
}

/// Whether nothing stands against any of the writes.
fn are_free(store: &Store, tag: &Tag, read_at: Ts, writes: &[Write]) -> bool
    ensures { result ≡ list_all (λ write.
        is_none (against read_at tag.now (versions_of store.now (place_of write)))) writes.now }
{
    for write in writes {
        if !is_free(store, tag, read_at, write) {
            return false;
        }
    }
    true
}

/// Whether nothing stands against any of the writes.
fn is_clear(image: &Image, tag: &Tag, read_at: Ts, writes: &[Write]) -> bool
    ensures { result ≡ list_all (λ write. is_none
        (against read_at tag.now (versions_of image.now.store (place_of write)))) writes.now }
{
    are_free(&image.store, tag, read_at, writes)
}

/// Whether the time and the session's number are next, and neither session nor tag has a prepared
/// transaction.
fn is_next(image: &Image, tag: &Tag, lsid: &Lsid, number: &i64, read_at: Ts, at: Ts) -> bool
    ensures { result ≡ (journal.is_next_time (ledger_of image.now) read_at at
        && journal.is_next_number (ledger_of image.now) lsid.now number.now
        && journal.is_undisturbed (ledger_of image.now) lsid.now tag.now) }
{
    is_next_time(image, read_at, at)
        && is_next_number(image, lsid, number)
        && is_undisturbed(image, lsid, tag)
}

/// Whether a transaction can commit or prepare.
fn can_write(
    image: &Image,
    tag: &Tag,
    lsid: &Lsid,
    number: &i64,
    read_at: Ts,
    at: Ts,
    writes: &Writes,
) -> bool
    ensures { result ≡ journal.can_write (ledger_of image.now) tag.now lsid.now number.now read_at
        at writes.now }
{
    let next = is_next(image, tag, lsid, number, read_at, at);
    let clear = is_clear(image, tag, read_at, writes.as_slice());
    let _place = &image.place;
    both(next, clear)
}

fn both(a: bool, b: bool) -> bool
    ensures { result ≡ (a && b) }
{
    a && b
}

/// Whether a decision to commit is at or below the ceiling.
fn is_below_ceiling(image: &Image, decision: &Decision) -> bool
    ensures { result ≡ journal.is_below_ceiling (ledger_of image.now) decision.now }
{
    match decision {
        Decision::Commit(at) => at.0 <= image.ceiling.0,
        Decision::Abort { .. } => true,
    }
}

/// Whether a decision to commit is at or above this timestamp.
fn is_from(at: Ts, decision: &Decision) -> bool
    ensures { result ≡ journal.is_from at decision.now }
{
    match decision {
        Decision::Commit(time) => at.0 <= time.0,
        Decision::Abort { .. } => true,
    }
}

/// The session's number, 0 where there is none.
fn number_of(sessions: &Sessions, lsid: &Lsid) -> i64
    ensures { result ≡ numbered (session_of sessions.now lsid.now) }
{
    match sessions.find(lsid) {
        Some(session) => session.number,
        None => 0,
    }
}

/// When the session's transaction was prepared, 0 where it isn't.
fn prepared_at(sessions: &Sessions, lsid: &Lsid) -> Ts
    ensures { result ≡ unwrap_or (option_and_then (λ s. prepared_at s.state)
        (session_of sessions.now lsid.now)) 0 }
{
    match sessions.find(lsid) {
        Some(session) => match &session.state {
            SessionState::Prepared { at, .. } => *at,
            _ => Ts(0),
        },
        None => Ts(0),
    }
}

/// Whether the decision is of this prepared transaction, of its session and number, and at or above
/// its timestamp.
fn decides(sessions: &Sessions, q: &Pending, d: &Decided) -> bool
    ensures { result ≡ journal.decides d.now (option_map (standing_by sessions.now) (Some q.now)) }
{
    is_same_lsid(&q.lsid, &d.lsid)
        && !is_below(number_of(sessions, &q.lsid), d.number)
        && !is_below(d.number, number_of(sessions, &q.lsid))
        && is_from(prepared_at(sessions, &q.lsid), &d.decision)
}

/// Whether a prepared transaction of the tag stands, and the decision is of it.
fn finds(sessions: &Sessions, pending: &[Pending], d: &Decided) -> bool
    ensures { result ≡ journal.decides d.now (option_map (standing_by sessions.now)
        (pending_of pending.now d.now.tag)) }
{
    match find_pending(pending, &d.tag) {
        Some(q) => decides(sessions, q, d),
        None => false,
    }
}

fn is_decision(image: &Image, d: &Decided) -> bool
    ensures { result ≡ journal.decides d.now (option_map (standing_by image.now.sessions)
        (pending_of image.now.pending d.now.tag)) }
{
    finds(&image.sessions, image.pending.as_slice(), d)
}

/// Whether a prepared transaction can be decided so.
fn can_decide(image: &Image, d: &Decided) -> bool
    ensures { result ≡ (journal.is_below_ceiling (ledger_of image.now) d.now.decision
        && journal.decides d.now (standing_of (ledger_of image.now) d.now.tag)) }
{
    let below = is_below_ceiling(image, &d.decision);
    let decides = is_decision(image, d);
    both(below, decides)
}

/// Whether the first record can be this one.
fn can_begin(rec: &Rec) -> bool
    ensures { result ≡ journal.can_begin rec.now }
{
    match rec {
        Rec::Boot { boot } => *boot < u32::MAX,
        _ => false,
    }
}

/// How the coordination of the tag stands: its decision, where it stands.
fn coordination(coord: &Coord, tag: &Tag) -> Option<Option<Decision>>
    ensures { result ≡ option_map (λ c. c.decision) (coordinated_of coord.now tag.now) }
{
    match coord.decision(*tag) {
        Ok(decision) => Some(decision),
        Err(_) => None,
    }
}

/// Whether a coordination stands without a decision.
fn is_undecided(coordination: Option<Option<Decision>>) -> bool
    ensures { result ≡ journal.is_undecided coordination }
{
    match coordination {
        Some(decision) => decision.is_none(),
        None => false,
    }
}

/// Whether a coordination stands with a decision.
fn is_decided(coordination: Option<Option<Decision>>) -> bool
    ensures { result ≡ journal.is_decided coordination }
{
    match coordination {
        Some(decision) => decision.is_some(),
        None => false,
    }
}

fn coordination_in(image: &Image, tag: &Tag) -> Option<Option<Decision>>
    ensures { result ≡ coordination_of (ledger_of image.now) tag.now }
{
    coordination(&image.coord, tag)
}

fn can_restore(image: &Image, tag: &Tag, decision: &Decision) -> bool
    ensures { result ≡ (journal.is_below_ceiling (ledger_of image.now) decision.now
        && journal.is_undecided (coordination_of (ledger_of image.now) tag.now)) }
{
    is_below_ceiling(image, decision) && is_undecided(coordination_in(image, tag))
}

/// Whether the record can follow earlier ones, of which there are some.
fn can_go_on(image: &Image, rec: &Rec) -> bool
    ensures { result ≡ journal.can_go_on (ledger_of image.now) image.now.boot rec.now }
{
    match rec {
        Rec::Boot { boot } => image.boot < *boot && *boot < u32::MAX,
        Rec::Ceiling { bound } => image.ceiling.0 < bound.0,
        Rec::Commit {
            tag,
            lsid,
            number,
            read_at,
            at,
            writes,
        } => can_write(image, tag, lsid, number, *read_at, *at, writes),
        Rec::Prepared {
            tag,
            lsid,
            number,
            read_at,
            at,
            writes,
            ..
        } => can_write(image, tag, lsid, number, *read_at, *at, writes),
        Rec::Decided(d) => can_decide(image, d),
        Rec::CoordStart { tag, .. } => coordination_in(image, tag).is_none(),
        Rec::CoordDecision { tag, decision } => can_restore(image, tag, decision),
        Rec::CoordEnd { tag } => is_decided(coordination_in(image, tag)),
        Rec::Floor { .. } => false,
    }
}

/// Whether the record can follow those of the state.
pub fn can_follow(image: &Image, rec: &Rec) -> bool
    ensures { result ≡ can_follow_image image.now rec.now }
{
    if image.place.count == 0 {
        can_begin(rec)
    } else {
        can_go_on(image, rec)
    }
}
