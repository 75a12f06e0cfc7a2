ghost use Rattle.std.specs.Prelude.{◌≡◌};
ghost use Rattle.query_eval.specs.declared.error.ApplyErr.TheVariants as applies;
ghost use Rattle.query_eval.specs.declared.error.EvalErr.TheVariants as evals;

use std::alloc::{AllocError, AllocFailed};
use txn_types::OpErr;

/// Why an update makes nothing of a document.
#[derive(Clone, Copy, PartialEq, Eq)]
pub enum ApplyErr {
    /// A number is to be added to a field that is none, or what is to be added is no number.
    NotNumber,
    /// A sum doesn't fit an int64.
    Overflow,
    /// The `_id` would change.
    Immutable,
    /// The result would have more than 16,777,216 bytes.
    TooLarge,
    /// There was no memory.
    Memory,
}

impl From<AllocError> for ApplyErr {
    ghost from_gives = { λ _ e. e ≡ applies.Memory };

    fn from(_e: AllocError) -> ApplyErr {
        ApplyErr::Memory
    }
}

impl<T: Drop> From<AllocFailed<T>> for ApplyErr {
    ghost from_gives = { λ _ e. e ≡ applies.Memory };

    fn from(_e: AllocFailed<T>) -> ApplyErr {
        ApplyErr::Memory
    }
}

/// Why an operation isn't answered.
#[derive(Drop)]
pub enum EvalErr {
    /// It is refused.
    Op(OpErr),
    /// There was no memory.
    Memory,
}

impl From<AllocError> for EvalErr {
    ghost from_gives = { λ _ e. e ≡ evals.Memory };

    fn from(_e: AllocError) -> EvalErr {
        EvalErr::Memory
    }
}

impl<T: Drop> From<AllocFailed<T>> for EvalErr {
    ghost from_gives = { λ _ e. e ≡ evals.Memory };

    fn from(_e: AllocFailed<T>) -> EvalErr {
        EvalErr::Memory
    }
}
