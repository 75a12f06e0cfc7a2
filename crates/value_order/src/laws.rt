//! Laws of the order: a law is the contract of a function with an empty body.
ghost use Rattle.std.specs.Prelude.{◌≡◌, ◌≢◌, ◌↔◌, ◌∷◌, ◌++◌, [], ℕ, ℤ, Bool, List, Some};
ghost use Rattle.std.specs.Cmp.{IsTotalOrder};
ghost use Rattle.std.specs.Cmp.Lexicographic.{slice_cmp};
ghost use Rattle.std.specs.Ordering.{ordering_then, nat_cmp, int_cmp, bool_cmp};
ghost use Rattle.std.specs.declared.cmp.Ordering.TheVariants.{Less, Equal};
ghost use Rattle.bson_core.specs.declared.value.Bin.{Bin};
ghost use Rattle.bson_core.specs.declared.value.Value.{Value};
ghost use Rattle.bson_core.specs.declared.value.Value.TheVariants as leaves;
ghost use Rattle.bson_core.specs.declared.value.Value.TheViews as nests;
ghost use Rattle.bson_core.specs.Order.{bracket, value_cmp};
ghost use Rattle.value_order.specs.Numbers.{number_in, in_longs};
ghost use Rattle.value_order.specs.Parts.{binary_cmp, field_cmp};

/// All values stand in one order, in which two are in one place exactly where they are the same but
/// for the kinds of their numbers.
pub fn values_are_in_order()
    ensures total { IsTotalOrder value_cmp }
    ensures one_place { (a b : Value) → (value_cmp a b ≡ Equal) ↔ (in_longs a ≡ in_longs b) }
{}

/// A number is compared by its value, whatever its kind: an int32 and an int64 of one value are in
/// one place.
pub fn numbers_are_compared_by_value()
    ensures one_place { (n : ℤ) → value_cmp (leaves.Int n) (leaves.Long n) ≡ Equal }
    ensures by_value { (a b : Value) (m n : ℤ) → number_in a ≡ Some m → number_in b ≡ Some n
        → value_cmp a b ≡ int_cmp m n }
{}

/// Where the brackets differ, they decide.
pub fn brackets_come_first()
    ensures first { (a b : Value) → bracket a ≢ bracket b
        → value_cmp a b ≡ nat_cmp (bracket a) (bracket b) }
    ensures alike { (a b : Value) → value_cmp a b ≡ Equal → bracket a ≡ bracket b }
{}

/// Documents are compared field by field, each by the bracket of its value, its name and its value;
/// lists are compared value by value. In both a proper prefix comes first.
pub fn documents_and_lists_by_parts()
    ensures no_fields { value_cmp (nests.Doc []) (nests.Doc []) ≡ Equal }
    ensures fields { (x y : List ℕ × Value) (xs ys : List (List ℕ × Value))
        → value_cmp (nests.Doc (x ∷ xs)) (nests.Doc (y ∷ ys))
        ≡ ordering_then (field_cmp x y) (value_cmp (nests.Doc xs) (nests.Doc ys)) }
    ensures fewer_fields { (xs ys : List (List ℕ × Value)) (y : List ℕ × Value)
        → value_cmp (nests.Doc xs) (nests.Doc (xs ++ y ∷ ys)) ≡ Less }
    ensures no_values { value_cmp (nests.List []) (nests.List []) ≡ Equal }
    ensures values { (x y : Value) (xs ys : List Value)
        → value_cmp (nests.List (x ∷ xs)) (nests.List (y ∷ ys))
        ≡ ordering_then (value_cmp x y) (value_cmp (nests.List xs) (nests.List ys)) }
    ensures fewer_values { (xs ys : List Value) (y : Value)
        → value_cmp (nests.List xs) (nests.List (xs ++ y ∷ ys)) ≡ Less }
{}

/// Values of one of the other kinds are compared by what they are: bytes, a truth value, a moment
/// or a timestamp.
pub fn other_kinds_by_content()
    ensures texts { (s t : List ℕ)
        → value_cmp (leaves.Text s) (leaves.Text t) ≡ slice_cmp nat_cmp s t }
    ensures binaries { (a b : Bin) → value_cmp (leaves.Bin a) (leaves.Bin b) ≡ binary_cmp a b }
    ensures object_ids { (a b : List ℕ)
        → value_cmp (leaves.Oid a) (leaves.Oid b) ≡ slice_cmp nat_cmp a b }
    ensures bools { (a b : Bool) → value_cmp (leaves.Bool a) (leaves.Bool b) ≡ bool_cmp a b }
    ensures dates { (m n : ℤ) → value_cmp (leaves.Date m) (leaves.Date n) ≡ int_cmp m n }
    ensures stamps { (m n : ℕ) → value_cmp (leaves.Stamp m) (leaves.Stamp n) ≡ nat_cmp m n }
{}
