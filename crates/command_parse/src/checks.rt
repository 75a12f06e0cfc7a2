ghost use Rattle.std.specs.Prelude.{◌≡◌, Result, OnOk};
ghost use Rattle.crud_parse.specs.Results.{Gives};
ghost use Rattle.command_parse.specs.Checks.{or_wrong, is_among, present};

use bson_core::Name;
use crud_parse::CrudErr;
use std::alloc::Global;

/// Whether the name is one of these.
pub fn is_among(name: &Name, names: &[Name]) -> bool
    ensures { result ≡ is_among name.now names.now }
{
    names.iter().any(|other| other.as_str() == name.as_str())
}

/// What was found in the value of that name, which has to be of that kind.
pub fn or_wrong<T: Drop>(alloc: Global, name: &Name, found: Option<T>) -> Result<T, CrudErr>
    ensures { Gives (λ x. x) result (or_wrong name.now found) }
{
    match found {
        Some(found) => Ok(found),
        None => Err(CrudErr::WrongKind {
            name: name.copy(alloc)?,
        }),
    }
}

/// Refuses what is missing.
pub fn present(missing: Option<Name>) -> Result<(), CrudErr>
    ensures { Gives (λ u. u) result (present missing) }
{
    match missing {
        Some(name) => Err(CrudErr::Missing { name }),
        None => Ok(()),
    }
}
