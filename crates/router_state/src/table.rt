//! The table of sessions, in the order in which they first came.
ghost use Rattle.std.specs.Prelude.{◌≡◌, ◌<◌, length, position, IfOk, IfSome, OnOk, OnErr};
ghost use Rattle.txn_types.specs.BySession.{with_entry};
ghost use Rattle.txn_types.specs.Order.{same_lsid};

use crate::sessions::same_lsid;
use crate::state::Session;
use sqlite_items::Items;
use std::alloc::{AllocError, Global};
use txn_types::Lsid;

/// Sessions, each under its name.
pub type Table = Items<(Lsid, Session)>;

/// The place of the session.
fn place_of(lsid: &Lsid, sessions: &[(Lsid, Session)]) -> Option<usize>
    ensures place { result ≡ position (λ entry. same_lsid lsid.now entry.0) sessions.now }
    ensures within { IfSome result (λ at. at < length sessions.now) }
{
    sessions.iter().position(|entry| same_lsid(lsid, &entry.0))
}

/// Puts the session in place of what stood under its name, or after the others. Out of memory,
/// the table is as it was.
pub fn put_entry(table: &mut Table, lsid: Lsid, session: Session) -> Result<(), AllocError>
    ensures ok { OnOk result (table.new ≡ with_entry lsid session table.old) }
    ensures err { OnErr result (table.new ≡ table.old) }
{
    if let Some(at) = place_of(&lsid, table.as_slice()) {
        table.set(at, (lsid, session));
        return Ok(());
    }
    table.push((lsid, session))?;
    Ok(())
}

/// An equal table.
pub fn copy_table(alloc: Global, sessions: &[(Lsid, Session)]) -> Result<Table, AllocError>
    ensures { IfOk result (λ t. t ≡ sessions.now) }
{
    let mut copy = Vec::new(alloc);
    for (lsid, session) in sessions {
        copy.push((*lsid, session.copy(alloc)?))?;
    }
    Ok(Items::from_vec(copy))
}
