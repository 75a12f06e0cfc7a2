ghost use Rattle.std.specs.Prelude.{◌≡◌, refl};
ghost use Rattle.std.specs.Cmp.{
  partial_order_from_total,
  eq_by_cmp_equiv,
  partial_equiv_from_equiv,
};
ghost use Rattle.std.specs.Ordering.{eq_by_cmp, as_partial_cmp};
ghost use Rattle.txn_semantics.specs.Writes.{place_cmp};
ghost use Rattle.txn_semantics.proofs.Places.{place_total};

use std::cmp::Ordering;
use std::marker::Model;
use version_store::Key;

/// A key of a document as a key of a tree.
#[derive(Drop)]
pub struct Place {
    key: Key,
}

impl Model for Place {
    ghost use Rattle.std.specs.Coded.{codes};
    ghost use Rattle.txn_semantics.specs.Writes.{Place};

    ghost Value = { Place };

    ghost coded = { Prim.hlevel (codes) };

    ghost view = { λ p. p.key };
}

impl Place {
    pub fn new(key: Key) -> Place
        ensures { result ≡ key }
    {
        Place { key }
    }
}

impl PartialEq for Place {
    ghost eq = { eq_by_cmp place_cmp };

    ghost laws = { partial_equiv_from_equiv (eq_by_cmp_equiv place_total) };

    fn eq(&self, other: &Place) -> bool {
        self.key.compare(&other.key).is_eq()
    }
}

impl Eq for Place {
    ghost laws = { eq_by_cmp_equiv place_total };
}

impl PartialOrd for Place {
    ghost partial_cmp = { as_partial_cmp place_cmp };

    ghost laws = { partial_order_from_total place_total };

    fn partial_cmp(&self, other: &Place) -> Option<Ordering> {
        Some(self.key.compare(&other.key))
    }
}

impl Ord for Place {
    ghost cmp = { place_cmp };

    ghost total = { place_total };

    ghost matches_partial_cmp = { λ x y. refl };

    ghost matches_eq = { λ x y. refl };

    fn cmp(&self, other: &Place) -> Ordering {
        self.key.compare(&other.key)
    }
}
