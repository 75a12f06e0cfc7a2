ghost use Rattle.std.specs.Prelude.{◌≡◌};
ghost use Rattle.crud_parse.specs.Operators.{junction_of, operator_of, kind_of, joined};

use sqlite_items::Items;
use txn_types::{Cmp, Filter, UpdateKind};

/// How the filters in a list go together.
#[derive(Clone, Copy, PartialEq, Eq)]
pub enum Junction {
    And,
    Or,
    Nor,
}

impl Junction {
    /// The one of that name.
    pub fn of(name: &str) -> Option<Junction>
        ensures { result ≡ junction_of name.now }
    {
        match name {
            "$and" => Some(Junction::And),
            "$or" => Some(Junction::Or),
            "$nor" => Some(Junction::Nor),
            _ => None,
        }
    }

    /// The filter that these make together.
    pub fn join(self, filters: Vec<Filter>) -> Filter
        ensures { result ≡ joined self filters.items }
    {
        let filters = Items::from_vec(filters);
        match self {
            Junction::And => Filter::And(filters),
            Junction::Or => Filter::Or(filters),
            Junction::Nor => Filter::Nor(filters),
        }
    }
}

/// What a filter asks of one field.
#[derive(Clone, Copy, PartialEq, Eq)]
pub enum Operator {
    /// It compares so with a value.
    Compare(Cmp),
    /// It is equal to one of the values in a list.
    In,
    /// It is equal to none of the values in a list.
    Nin,
    /// It is there, or isn't.
    Exists,
}

impl Operator {
    /// The one of that name.
    pub fn of(name: &str) -> Option<Operator>
        ensures { result ≡ operator_of name.now }
    {
        match name {
            "$eq" => Some(Operator::Compare(Cmp::Eq)),
            "$ne" => Some(Operator::Compare(Cmp::Ne)),
            "$gt" => Some(Operator::Compare(Cmp::Gt)),
            "$gte" => Some(Operator::Compare(Cmp::Gte)),
            "$lt" => Some(Operator::Compare(Cmp::Lt)),
            "$lte" => Some(Operator::Compare(Cmp::Lte)),
            "$in" => Some(Operator::In),
            "$nin" => Some(Operator::Nin),
            "$exists" => Some(Operator::Exists),
            _ => None,
        }
    }
}

/// What the operator of that name does to fields.
pub fn kind_of(name: &str) -> Option<UpdateKind>
    ensures { result ≡ kind_of name.now }
{
    match name {
        "$set" => Some(UpdateKind::Set),
        "$unset" => Some(UpdateKind::Unset),
        "$inc" => Some(UpdateKind::Inc),
        _ => None,
    }
}
