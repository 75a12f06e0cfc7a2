//! A law is the contract of a function with an empty body.
ghost use Rattle.std.specs.Prelude.{◌≡◌, ◌∷◌, [], ℕ, ℤ, pos, Bool, List, Ok, Some, None, FitsSigned};
ghost use Rattle.std.specs.Int.{w32, w64};
ghost use Rattle.bson_core.specs.Fields.{Document, value_of};
ghost use Rattle.bson_core.specs.declared.value.Value.{Value};
ghost use Rattle.bson_core.specs.declared.value.Value.TheVariants as values;
ghost use Rattle.txn_types.specs.Ids.{id_name};
ghost use Rattle.txn_types.specs.declared.update.UpdateOp.{UpdateOp};
ghost use Rattle.txn_types.specs.declared.update.UpdateKind.TheVariants.{Set, Unset, Inc};
ghost use Rattle.txn_types.specs.declared.update.Update.TheVariants.{Replace, Ops};
ghost use Rattle.txn_semantics.specs.Updates.{apply, applied, without_name};
ghost use Rattle.update_laws.specs.Others.{NoneNamed, fields_of};

/// Operators leave the fields of other names, with what stands under a name more than once, in
/// their order.
pub fn other_fields_stay()
    ensures { (kept : List ℕ → Bool) (ops : List UpdateOp) (doc new : Document) → NoneNamed kept ops
        → apply (Ops ops) doc ≡ Ok new → fields_of kept new ≡ fields_of kept doc }
{}

/// What is set has the new value; what is unset isn't there, however often it stood there.
pub fn operators_do_what_they_say()
    ensures set { (name : List ℕ) (value : Value) (doc new : Document)
        → apply (Ops (record { kind = Set; name = name; value = value } ∷ [])) doc ≡ Ok new
        → value_of name new ≡ Some value }
    ensures unset { (name : List ℕ) (value : Value) (doc new : Document)
        → apply (Ops (record { kind = Unset; name = name; value = value } ∷ [])) doc ≡ Ok new
        → value_of name new ≡ None }
    ensures zero32 { (name : List ℕ) (n : ℤ) (doc : Document)
        → FitsSigned w32 n → value_of name doc ≡ Some (values.Int n)
        → applied Inc name (values.Int (pos 0)) doc ≡ Ok doc }
    ensures zero64 { (name : List ℕ) (n : ℤ) (doc : Document)
        → FitsSigned w64 n → value_of name doc ≡ Some (values.Long n)
        → applied Inc name (values.Int (pos 0)) doc ≡ Ok doc }
{}

/// A document that replaces another has the old `_id`, where there is one, and its own other fields
/// in their order.
pub fn a_replacement_keeps_the_id()
    ensures id { (other doc new : Document) → apply (Replace other) doc ≡ Ok new
        → value_of id_name new ≡ value_of id_name doc }
    ensures fields { (other doc new : Document) → apply (Replace other) doc ≡ Ok new
        → without_name id_name new ≡ without_name id_name other }
{}
