ghost use Rattle.std.specs.Prelude.{◌≡◌, refl};
ghost use Rattle.std.specs.Cmp.{
  partial_order_from_total,
  eq_by_cmp_equiv,
  partial_equiv_from_equiv,
};
ghost use Rattle.std.specs.Ordering.{eq_by_cmp, as_partial_cmp};
ghost use Rattle.txn_types.specs.Order.{lsid_cmp};
ghost use Rattle.txn_types.proofs.Orders.{lsid_total};

use session_table::compare_lsids;
use std::cmp::Ordering;
use std::marker::Model;
use txn_types::Lsid;

/// A session as a key of a tree. Contracts see the session.
#[derive(Clone, Copy)]
pub struct SessionKey {
    lsid: Lsid,
}

impl Model for SessionKey {
    ghost use Rattle.txn_types.specs.declared.node.Lsid.{Lsid};

    ghost Value = { Lsid };

    ghost view = { λ k. k.lsid };

    ghost inverse = { λ lsid. record { lsid = lsid } };
}

impl SessionKey {
    pub fn new(lsid: &Lsid) -> SessionKey
        ensures { result ≡ lsid.now }
    {
        SessionKey { lsid: *lsid }
    }

    pub fn lsid(&self) -> &Lsid
        ensures { result.now ≡ self.now }
    {
        &self.lsid
    }
}

impl PartialEq for SessionKey {
    ghost eq = { eq_by_cmp lsid_cmp };

    ghost laws = { partial_equiv_from_equiv (eq_by_cmp_equiv lsid_total) };

    fn eq(&self, other: &SessionKey) -> bool {
        compare_lsids(&self.lsid, &other.lsid).is_eq()
    }
}

impl Eq for SessionKey {
    ghost laws = { eq_by_cmp_equiv lsid_total };
}

impl PartialOrd for SessionKey {
    ghost partial_cmp = { as_partial_cmp lsid_cmp };

    ghost laws = { partial_order_from_total lsid_total };

    fn partial_cmp(&self, other: &SessionKey) -> Option<Ordering> {
        Some(compare_lsids(&self.lsid, &other.lsid))
    }
}

impl Ord for SessionKey {
    ghost cmp = { lsid_cmp };

    ghost total = { lsid_total };

    ghost matches_partial_cmp = { λ x y. refl };

    ghost matches_eq = { λ x y. refl };

    fn cmp(&self, other: &SessionKey) -> Ordering {
        compare_lsids(&self.lsid, &other.lsid)
    }
}
