ghost use Rattle.std.specs.Prelude.{◌≡◌};
ghost use Rattle.crud_parse.specs.Names.{begins_with_dollar, has_full_stop, begins_with_operator};

use bson_core::{Name, Value};

/// Whether the name is that of an operator, and not of a field.
pub fn begins_with_dollar(name: &str) -> bool
    ensures { result ≡ begins_with_dollar name.now }
{
    matches!(name.as_bytes(), [b'$', ..])
}

/// Whether the name is a path into a document.
pub fn has_full_stop(name: &str) -> bool
    ensures { result ≡ has_full_stop name.now }
{
    name.as_bytes().iter().any(|byte| *byte == b'.')
}

/// Whether the first of the fields is named as an operator is.
pub fn begins_with_operator(fields: &[(Name, Value)]) -> bool
    ensures { result ≡ begins_with_operator fields.now }
{
    match fields {
        [] => false,
        [(name, _), ..] => begins_with_dollar(name.as_str()),
    }
}
