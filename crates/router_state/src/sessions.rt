//! What stands under the names of sessions.
ghost use Rattle.std.specs.Prelude.{◌≡◌};
ghost use Rattle.std.specs.List.{list_any};
ghost use Rattle.std.specs.Option.{option_copied};
ghost use Rattle.txn_types.specs.BySession.{entry_of};
ghost use Rattle.txn_types.specs.Order.{lsid_cmp, same_lsid};
ghost use Rattle.router_state.specs.State.{asker_of, is_from};

use crate::state::{Session, asker_of, is_from};
use std::cmp::Ordering;
use txn_types::Lsid;

/// Those that clients named come first, by their bytes; then those of connections, by router, boot
/// and connection.
fn lsid_cmp(a: &Lsid, b: &Lsid) -> Ordering
    ensures { result ≡ lsid_cmp a.now b.now }
{
    match (a, b) {
        (Lsid::Client(x), Lsid::Client(y)) => x.as_slice().cmp(y.as_slice()),
        (Lsid::Client(_), Lsid::Own { .. }) => Ordering::Less,
        (Lsid::Own { .. }, Lsid::Client(_)) => Ordering::Greater,
        (
            Lsid::Own { router, boot, conn },
            Lsid::Own {
                router: other_router,
                boot: other_boot,
                conn: other_conn,
            },
        ) => {
            let later = boot.cmp(other_boot).then(conn.cmp(other_conn));
            router.cmp(other_router).then(later)
        }
    }
}

/// Whether these are the names of one session.
pub fn same_lsid(a: &Lsid, b: &Lsid) -> bool
    ensures { result ≡ same_lsid a.now b.now }
{
    lsid_cmp(a, b).is_eq()
}

/// What stands under the session.
pub fn entry_of<'a>(lsid: &Lsid, sessions: &'a [(Lsid, Session)]) -> Option<&'a Session>
    ensures { option_copied result ≡ entry_of lsid.now sessions.now }
{
    for (other, session) in sessions {
        if same_lsid(lsid, other) {
            return Some(session);
        }
    }
    None
}

/// Whether a request of the connection is unanswered.
pub fn is_waiting(conn: u32, sessions: &[(Lsid, Session)]) -> bool
    ensures { result ≡ list_any (λ entry. is_from conn (asker_of entry.1.doing)) sessions.now }
{
    for (_lsid, session) in sessions {
        if is_from(conn, asker_of(&session.doing)) {
            return true;
        }
    }
    false
}
