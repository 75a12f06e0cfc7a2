ghost use Rattle.std.specs.Prelude.{◌≡◌, IfOk};

use bson_core::{List, Name, Value, copy_list};
use sqlite_items::Items;
use std::alloc::{AllocError, Global};

/// A comparison.
#[derive(Clone, Copy, PartialEq, Eq)]
pub enum Cmp {
    Eq,
    Ne,
    Gt,
    Gte,
    Lt,
    Lte,
}

impl Cmp {
    pub fn copy(&self) -> Cmp
        ensures { result ≡ self.now }
    {
        *self
    }
}

/// Filters, in their order.
pub type Filters = Items<Filter>;

/// What a document is asked.
#[derive(Drop)]
pub enum Filter {
    /// All of these hold.
    And(Filters),
    /// One of these holds.
    Or(Filters),
    /// None of these holds.
    Nor(Filters),
    /// A field compares so with the value.
    Test { name: Name, cmp: Cmp, value: Value },
    /// A field is equal to one of the values.
    In { name: Name, values: List },
    /// A field is equal to none of the values.
    Nin { name: Name, values: List },
    /// A field of the name is there, or isn't.
    Exists { name: Name, yes: bool },
}

impl Filter {
    #[cycle(copy_filter)]
    pub fn copy(&self, alloc: Global) -> Result<Filter, AllocError>
        ensures { IfOk result (λ f. f ≡ self.now) }
    {
        match self {
            Filter::And(filters) => Ok(Filter::And(copy_filters(alloc, filters)?)),
            Filter::Or(filters) => Ok(Filter::Or(copy_filters(alloc, filters)?)),
            Filter::Nor(filters) => Ok(Filter::Nor(copy_filters(alloc, filters)?)),
            Filter::Test { name, cmp, value } => Ok(Filter::Test {
                name: name.copy(alloc)?,
                cmp: *cmp,
                value: value.copy(alloc)?,
            }),
            Filter::In { name, values } => Ok(Filter::In {
                name: name.copy(alloc)?,
                values: copy_list(alloc, values)?,
            }),
            Filter::Nin { name, values } => Ok(Filter::Nin {
                name: name.copy(alloc)?,
                values: copy_list(alloc, values)?,
            }),
            Filter::Exists { name, yes } => Ok(Filter::Exists {
                name: name.copy(alloc)?,
                yes: *yes,
            }),
        }
    }
}

/// Equal filters.
#[cycle(copy_filter)]
pub fn copy_filters(alloc: Global, filters: &Filters) -> Result<Filters, AllocError>
    ensures { IfOk result (λ f. f ≡ filters.now) }
{
    let mut copy = Vec::new(alloc);
    for filter in filters.as_slice() {
        copy.push(filter.copy(alloc)?)?;
    }
    Ok(Items::from_vec(copy))
}
