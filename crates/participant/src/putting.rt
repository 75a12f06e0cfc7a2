ghost use Rattle.std.specs.Prelude.{◌≡◌, None, Some, false, map, IsSome, OnOk, OnErr};
ghost use Rattle.txn_types.specs.BySession.{entry_of};
ghost use Rattle.txn_types.specs.Order.{same_tag, lsid_cmp};
ghost use Rattle.txn_types.specs.Writes.{AllHaveOwnIds};
ghost use Rattle.txn_semantics.specs.Keyed.{put, taken_out};
ghost use Rattle.txn_semantics.specs.Writes.{place_of};
ghost use Rattle.session_table.specs.Sessions.{session_of, with_session};
ghost use Rattle.version_store.specs.Versions.{keys_of, with_writes};
ghost use Rattle.version_store.specs.TakenBack.{AreFree};
ghost use Rattle.participant.specs.declared.said.Open.{Open};
ghost use Rattle.participant.specs.Stands.{live_session, without_older, without_open};

use crate::lives::{Live, Lives};
use crate::said::PartErr;
use session_table::{Session, SessionState, Sessions, is_same_tag};
use txn_types::{Lsid, Statement, Write};
use version_store::Store;

/// The session, where its transaction is the statement's and live.
fn live_session(m: &Statement) -> Session
    ensures { result ≡ live_session m.now }
{
    Session {
        number: m.number,
        tag: m.tag,
        state: SessionState::Live,
    }
}

/// Puts the writes of a session's first transaction, and the session; where there is no memory,
/// nothing has changed.
fn put_new_session(
    sessions: &mut Sessions,
    store: &mut Store,
    m: &Statement,
    writes: &[Write],
) -> Result<(), PartErr>
    requires free { AreFree m.now.tag store.old writes.now }
    requires kept { AllHaveOwnIds writes.now }
    requires new { session_of sessions.old m.now.lsid ≡ None }
    ensures sessions { OnOk result
        (sessions.new ≡ with_session sessions.old m.now.lsid (live_session m.now)) }
    ensures store { OnOk result (store.new ≡ with_writes m.now.tag store.old writes.now) }
    ensures old_sessions { OnErr result (sessions.new ≡ sessions.old) }
    ensures old_store { OnErr result (store.new ≡ store.old) }
{
    sessions.set(&m.lsid, live_session(m))?;
    match store.put_all(m.tag, writes) {
        Ok(()) => Ok(()),
        Err(_) => {
            sessions.take_back();
            Err(PartErr::Memory)
        }
    }
}

/// Puts the writes of the session's transaction, and the session; where there is no memory, nothing
/// has changed.
fn put_session(
    sessions: &mut Sessions,
    store: &mut Store,
    m: &Statement,
    writes: &[Write],
) -> Result<(), PartErr>
    requires free { AreFree m.now.tag store.old writes.now }
    requires kept { AllHaveOwnIds writes.now }
    ensures sessions { OnOk result
        (sessions.new ≡ with_session sessions.old m.now.lsid (live_session m.now)) }
    ensures store { OnOk result (store.new ≡ with_writes m.now.tag store.old writes.now) }
    ensures old_sessions { OnErr result (sessions.new ≡ sessions.old) }
    ensures old_store { OnErr result (store.new ≡ store.old) }
{
    if sessions.find(&m.lsid).is_none() {
        return put_new_session(sessions, store, m, writes);
    }
    store.put_all(m.tag, writes)?;
    sessions.replace(&m.lsid, live_session(m));
    Ok(())
}

/// Puts all that a transaction has where the session has nothing live; where there is no memory,
/// nothing has changed.
fn put_first(
    sessions: &mut Sessions,
    lives: &mut Lives,
    store: &mut Store,
    m: &Statement,
    live: Live,
    writes: &[Write],
) -> Result<(), PartErr>
    requires free { AreFree m.now.tag store.old writes.now }
    requires kept { AllHaveOwnIds writes.now }
    requires none { entry_of m.now.lsid lives.old ≡ None }
    ensures sessions { OnOk result
        (sessions.new ≡ with_session sessions.old m.now.lsid (live_session m.now)) }
    ensures lives { OnOk result (lives.new ≡ put lsid_cmp m.now.lsid live lives.old) }
    ensures store { OnOk result (store.new ≡ with_writes m.now.tag store.old writes.now) }
    ensures old_sessions { OnErr result (sessions.new ≡ sessions.old) }
    ensures old_lives { OnErr result (lives.new ≡ lives.old) }
    ensures old_store { OnErr result (store.new ≡ store.old) }
{
    let _count = lives.len();
    lives.put(&m.lsid, live)?;
    match put_session(sessions, store, m, writes) {
        Ok(()) => Ok(()),
        Err(e) => {
            drop(lives.take_out(&m.lsid));
            Err(e)
        }
    }
}

/// Drops the versions of an older live transaction of the session.
fn drop_older(store: &mut Store, lives: &Lives, m: &Statement)
    requires keys { (o : Open) → entry_of m.now.lsid lives.now ≡ Some o
        → same_tag o.tag m.now.tag ≡ false → map place_of o.writes ≡ keys_of o.tag store.old }
    ensures { store.new ≡ without_older m.now.tag (entry_of m.now.lsid lives.now) store.old }
{
    if let Some(older) = lives.get(&m.lsid) {
        if !is_same_tag(&older.tag(), &m.tag) {
            store.drop_txn(older.tag(), older.keys());
        }
    }
}

/// Puts what the transaction has in place of what the session had live. It takes no memory.
fn put_live(lives: &mut Lives, m: &Statement, live: Live)
    requires { IsSome (entry_of m.now.lsid lives.old) }
    ensures { lives.new ≡ put lsid_cmp m.now.lsid live lives.old }
{
    let done = lives.put(&m.lsid, live);
    drop(done);
}

/// Puts all that a transaction has in place of what the session had live; an older transaction's
/// versions are dropped. Where there is no memory, nothing has changed.
fn put_again(
    sessions: &mut Sessions,
    lives: &mut Lives,
    store: &mut Store,
    m: &Statement,
    live: Live,
    writes: &[Write],
) -> Result<(), PartErr>
    requires free { AreFree m.now.tag store.old writes.now }
    requires kept { AllHaveOwnIds writes.now }
    requires there { IsSome (session_of sessions.old m.now.lsid) }
    requires some { IsSome (entry_of m.now.lsid lives.old) }
    requires keys { (o : Open) → entry_of m.now.lsid lives.old ≡ Some o
        → map place_of o.writes ≡ keys_of o.tag store.old }
    ensures sessions { OnOk result
        (sessions.new ≡ with_session sessions.old m.now.lsid (live_session m.now)) }
    ensures lives { OnOk result (lives.new ≡ put lsid_cmp m.now.lsid live lives.old) }
    ensures store { OnOk result (store.new ≡ with_writes m.now.tag
        (without_older m.now.tag (entry_of m.now.lsid lives.old) store.old) writes.now) }
    ensures old_sessions { OnErr result (sessions.new ≡ sessions.old) }
    ensures old_lives { OnErr result (lives.new ≡ lives.old) }
    ensures old_store { OnErr result (store.new ≡ store.old) }
{
    let _collections = store.collections();
    store.put_all(m.tag, writes)?;
    drop_older(store, lives, m);
    put_live(lives, m, live);
    sessions.replace(&m.lsid, live_session(m));
    Ok(())
}

/// Puts all that a transaction has: its writes, its entry and its session. What the session's older
/// transaction had is dropped. Where there is no memory, nothing has changed.
pub fn put_all(
    sessions: &mut Sessions,
    lives: &mut Lives,
    store: &mut Store,
    m: &Statement,
    live: Live,
    writes: &[Write],
) -> Result<(), PartErr>
    requires free { AreFree m.now.tag store.old writes.now }
    requires kept { AllHaveOwnIds writes.now }
    requires there { IsSome (entry_of m.now.lsid lives.old)
        → IsSome (session_of sessions.old m.now.lsid) }
    requires keys { (o : Open) → entry_of m.now.lsid lives.old ≡ Some o
        → map place_of o.writes ≡ keys_of o.tag store.old }
    ensures sessions { OnOk result
        (sessions.new ≡ with_session sessions.old m.now.lsid (live_session m.now)) }
    ensures lives { OnOk result (lives.new ≡ put lsid_cmp m.now.lsid live lives.old) }
    ensures store { OnOk result (store.new ≡ with_writes m.now.tag
        (without_older m.now.tag (entry_of m.now.lsid lives.old) store.old) writes.now) }
    ensures old_sessions { OnErr result (sessions.new ≡ sessions.old) }
    ensures old_lives { OnErr result (lives.new ≡ lives.old) }
    ensures old_store { OnErr result (store.new ≡ store.old) }
{
    if lives.get(&m.lsid).is_some() {
        return put_again(sessions, lives, store, m, live, writes);
    }
    put_first(sessions, lives, store, m, live, writes)
}

/// Takes out what the session's live transaction has, and drops its versions. It takes no memory.
pub fn drop_live(lives: &mut Lives, store: &mut Store, lsid: &Lsid)
    requires keys { (o : Open) → entry_of lsid.now lives.old ≡ Some o
        → map place_of o.writes ≡ keys_of o.tag store.old }
    ensures lives { lives.new ≡ taken_out lsid_cmp lsid.now lives.old }
    ensures store { store.new ≡ without_open (entry_of lsid.now lives.old) store.old }
{
    let _count = lives.len();
    match lives.take_out(lsid) {
        Some(live) => {
            store.drop_txn(live.tag(), live.keys());
            drop(live);
        }
        None => {}
    }
}
