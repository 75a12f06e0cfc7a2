//! What a step changes of a router's sessions.
ghost use Rattle.std.specs.Prelude.{◌≡◌, length, OnOk, OnErr};
ghost use Rattle.router_plan.specs.Plans.{changed, replaced, FitIn, FitsIn};

use router_state::{Session, Table, put_entry};
use std::alloc::AllocError;
use txn_types::Lsid;

/// What a step changes of the sessions.
#[derive(Drop)]
pub enum Change {
    Nothing,
    /// This stands under the session.
    One(Lsid, Session),
    /// These stand at those places.
    Places(Vec<(usize, (Lsid, Session))>),
    /// All sessions are these.
    All(Table),
}

/// Puts the sessions at their places.
fn put_places(sessions: &mut Table, places: Vec<(usize, (Lsid, Session))>)
    requires { FitIn (length sessions.old) places.items }
    ensures { sessions.new ≡ replaced places.items sessions.old }
{
    let mut places = places;
    while let Some((place, entry)) = places.pop() {
        sessions.set(place, entry);
    }
}

/// Makes the change. Out of memory, the sessions are as they were.
pub fn make(sessions: &mut Table, change: Change) -> Result<(), AllocError>
    requires { FitsIn (length sessions.old) change }
    ensures ok { OnOk result (sessions.new ≡ changed change sessions.old) }
    ensures err { OnErr result (sessions.new ≡ sessions.old) }
{
    match change {
        Change::Nothing => Ok(()),
        Change::One(lsid, session) => put_entry(sessions, lsid, session),
        Change::Places(places) => {
            put_places(sessions, places);
            Ok(())
        }
        Change::All(all) => {
            *sessions = all;
            Ok(())
        }
    }
}
