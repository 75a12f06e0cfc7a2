//! Tags as the keys of an ordered map.
ghost use Rattle.std.specs.Prelude.{◌≡◌, refl};
ghost use Rattle.std.specs.Cmp.{
  partial_order_from_total,
  eq_by_cmp_equiv,
  partial_equiv_from_equiv,
};
ghost use Rattle.std.specs.Ordering.{eq_by_cmp, as_partial_cmp};
ghost use Rattle.txn_types.specs.Order.{tag_cmp};
ghost use Rattle.txn_types.proofs.Orders.{tag_total};

use std::cmp::Ordering;
use std::marker::Model;
use txn_types::Tag;

/// A tag in its order: by router, then by boot, then by serial.
#[derive(Drop)]
pub struct Key {
    tag: Tag,
}

impl Model for Key {
    ghost use Rattle.txn_types.specs.declared.names.Tag.{Tag};

    ghost Value = { Tag };

    ghost view = { λ k. k.tag };
}

impl Key {
    pub fn new(tag: Tag) -> Key
        ensures { result ≡ tag }
    {
        Key { tag }
    }

    pub fn tag(&self) -> Tag
        ensures { result ≡ self.now }
    {
        self.tag
    }

    /// Where the tag stands beside another.
    fn compare(&self, other: &Key) -> Ordering
        ensures { result ≡ tag_cmp self.now other.now }
    {
        let (own, other) = (self.tag, other.tag);
        own.router
            .cmp(&other.router)
            .then_with(|| own.boot.cmp(&other.boot))
            .then_with(|| own.serial.cmp(&other.serial))
    }
}

impl PartialEq for Key {
    ghost eq = { eq_by_cmp tag_cmp };

    ghost laws = { partial_equiv_from_equiv (eq_by_cmp_equiv tag_total) };

    fn eq(&self, other: &Key) -> bool {
        self.compare(other).is_eq()
    }
}

impl Eq for Key {
    ghost laws = { eq_by_cmp_equiv tag_total };
}

impl PartialOrd for Key {
    ghost partial_cmp = { as_partial_cmp tag_cmp };

    ghost laws = { partial_order_from_total tag_total };

    fn partial_cmp(&self, other: &Key) -> Option<Ordering> {
        Some(self.compare(other))
    }
}

impl Ord for Key {
    ghost cmp = { tag_cmp };

    ghost total = { tag_total };

    ghost matches_partial_cmp = { λ x y. refl };

    ghost matches_eq = { λ x y. refl };

    fn cmp(&self, other: &Key) -> Ordering {
        self.compare(other)
    }
}
