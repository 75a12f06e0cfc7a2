//! A law is the contract of a function with an empty body.
ghost use Rattle.std.specs.Prelude.{◌≡◌, Some};
ghost use Rattle.bson_core.specs.declared.value.Value.{Value};
ghost use Rattle.bson_core.specs.Order.{value_cmp};
ghost use Rattle.txn_types.specs.Ids.{id_of};
ghost use Rattle.txn_types.specs.Order.{id_cmp};
ghost use Rattle.txn_types.specs.declared.id.Id.{Id};

/// Ids stand to one another as the values that they are, so that documents that rise by id rise by
/// the value of `_id`.
pub fn ids_have_the_order_of_values()
    ensures { (a b : Value) (i j : Id) → id_of a ≡ Some i → id_of b ≡ Some j
        → id_cmp i j ≡ value_cmp a b }
{}
