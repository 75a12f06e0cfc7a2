ghost use Rattle.std.specs.Prelude.{◌≡◌, refl};
ghost use Rattle.std.specs.Cmp.{eq_by_cmp_equiv, partial_equiv_from_equiv};
ghost use Rattle.std.specs.Hash as fed;
ghost use Rattle.std.specs.Ordering.{eq_by_cmp};
ghost use Rattle.txn_types.specs.Order.{lsid_cmp, same_lsid, same_tag, lsid_kind, lsid_numbers};
ghost use Rattle.txn_types.proofs.Orders.{lsid_total};
ghost use Rattle.session_table.specs.Hashed.{lsid_input, same_lsids_hash_alike};

use std::cmp::Ordering;
use std::hash::{Hash, Hasher};
use std::marker::Model;
use txn_types::{Lsid, Tag};

/// Whether the tags are the same.
pub fn is_same_tag(a: &Tag, b: &Tag) -> bool
    ensures { result ≡ same_tag a.now b.now }
{
    let later = a.boot.cmp(&b.boot).then(a.serial.cmp(&b.serial));
    a.router.cmp(&b.router).then(later).is_eq()
}

/// Where the session stands beside another: those that clients named come first, by their bytes;
/// then those of connections, by router, boot and connection.
pub fn compare_lsids(a: &Lsid, b: &Lsid) -> Ordering
    ensures { result ≡ lsid_cmp a.now b.now }
{
    match (a, b) {
        (Lsid::Client(x), Lsid::Client(y)) => x.as_slice().cmp(y.as_slice()),
        (Lsid::Client(_), Lsid::Own { .. }) => Ordering::Less,
        (Lsid::Own { .. }, Lsid::Client(_)) => Ordering::Greater,
        (
            Lsid::Own { router, boot, conn },
            Lsid::Own {
                router: other_router,
                boot: other_boot,
                conn: other_conn,
            },
        ) => {
            let later = boot.cmp(other_boot).then(conn.cmp(other_conn));
            router.cmp(other_router).then(later)
        }
    }
}

/// Whether the sessions are the same.
pub fn is_same_lsid(a: &Lsid, b: &Lsid) -> bool
    ensures { result ≡ same_lsid a.now b.now }
{
    compare_lsids(a, b).is_eq()
}

/// A session as a key of a map. Contracts see the session.
#[derive(Clone, Copy)]
pub struct Key {
    lsid: Lsid,
}

impl Model for Key {
    ghost use Rattle.txn_types.specs.declared.node.Lsid.{Lsid};

    ghost Value = { Lsid };

    ghost view = { λ k. k.lsid };

    ghost inverse = { λ lsid. record { lsid = lsid } };
}

impl Key {
    pub fn new(lsid: &Lsid) -> Key
        ensures { result ≡ lsid.now }
    {
        Key { lsid: *lsid }
    }

    pub fn lsid(&self) -> &Lsid
        ensures { result.now ≡ self.now }
    {
        &self.lsid
    }
}

impl PartialEq for Key {
    ghost eq = { eq_by_cmp lsid_cmp };

    ghost laws = { partial_equiv_from_equiv (eq_by_cmp_equiv lsid_total) };

    fn eq(&self, other: &Key) -> bool {
        is_same_lsid(&self.lsid, &other.lsid)
    }
}

impl Eq for Key {
    ghost laws = { eq_by_cmp_equiv lsid_total };
}

impl Hash for Key {
    ghost hash_input = { lsid_input };

    ghost respects_eq = { same_lsids_hash_alike };

    fn hash<H: Hasher>(&self, state: &mut H) {
        match self.lsid {
            Lsid::Client(bytes) => state.write(bytes.as_slice()),
            Lsid::Own { router, boot, conn } => {
                state.write_u16(router);
                state.write_u32(boot);
                state.write_u32(conn);
            }
        }
    }
}
