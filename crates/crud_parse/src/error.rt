ghost use Rattle.std.specs.Prelude.{◌≡◌};
ghost use Rattle.crud_parse.specs.declared.error.CrudErr.TheVariants.{Memory};

use bson_core::Name;
use std::alloc::{AllocError, AllocFailed};

/// Why a filter, an update or a statement isn't read. Each but `Memory` has the name at which it
/// was met.
#[derive(Drop)]
pub enum CrudErr {
    /// The name begins with `$`, and is that of no operator that may stand there; or it stands
    /// beside operators and is none.
    UnknownOperator { name: Name },
    /// The name of a field has a full stop: paths into documents aren't served.
    DottedName { name: Name },
    /// The value of that name is of another kind, or outside its range.
    WrongKind { name: Name },
    /// There is no field of that name.
    Missing { name: Name },
    /// A field of that name isn't known there.
    UnknownField { name: Name },
    /// There was no memory.
    Memory,
}

impl From<AllocError> for CrudErr {
    ghost from_gives = { λ _ e. e ≡ Memory };

    fn from(_e: AllocError) -> CrudErr {
        CrudErr::Memory
    }
}

impl<T: Drop> From<AllocFailed<T>> for CrudErr {
    ghost from_gives = { λ _ e. e ≡ Memory };

    fn from(_e: AllocFailed<T>) -> CrudErr {
        CrudErr::Memory
    }
}
