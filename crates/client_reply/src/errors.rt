ghost use Rattle.std.specs.Prelude.{◌≡◌};
ghost use Rattle.client_reply.specs.Errors.{code_number, code_name, label_name, kind_numbered, code_of_what, kind_of_cause, kind_of_refusal};

use crate::reply::Refusal;
use txn_types::{Cause, What};

/// The errors that clients are told.
#[derive(Clone, Copy)]
pub enum Code {
    InternalError,
    BadValue,
    HostUnreachable,
    FailedToParse,
    IllegalOperation,
    CommandNotFound,
    ImmutableField,
    WriteConflict,
    TransactionTooOld,
    SnapshotTooOld,
    NoSuchTransaction,
    DuplicateKey,
}

/// What a client may do after an error.
#[derive(Clone, Copy)]
pub enum Label {
    /// Begin the transaction anew.
    Transient,
    /// Commit it again.
    UnknownResult,
}

/// A code, and a label where there is one.
pub type Kind = (Code, Option<Label>);

impl Code {
    pub fn number(self) -> i32
        ensures { result ≡ code_number self }
    {
        match self {
            Code::InternalError => 1,
            Code::BadValue => 2,
            Code::HostUnreachable => 6,
            Code::FailedToParse => 9,
            Code::IllegalOperation => 20,
            Code::CommandNotFound => 59,
            Code::ImmutableField => 66,
            Code::WriteConflict => 112,
            Code::TransactionTooOld => 225,
            Code::SnapshotTooOld => 239,
            Code::NoSuchTransaction => 251,
            Code::DuplicateKey => 11000,
        }
    }

    pub fn name(self) -> &'static str
        ensures { result.now ≡ code_name self }
    {
        match self {
            Code::InternalError => "InternalError",
            Code::BadValue => "BadValue",
            Code::HostUnreachable => "HostUnreachable",
            Code::FailedToParse => "FailedToParse",
            Code::IllegalOperation => "IllegalOperation",
            Code::CommandNotFound => "CommandNotFound",
            Code::ImmutableField => "ImmutableField",
            Code::WriteConflict => "WriteConflict",
            Code::TransactionTooOld => "TransactionTooOld",
            Code::SnapshotTooOld => "SnapshotTooOld",
            Code::NoSuchTransaction => "NoSuchTransaction",
            Code::DuplicateKey => "DuplicateKey",
        }
    }

    /// The code of a statement's refusal over the rows that it saw.
    fn of_what(what: What) -> Code
        ensures { result ≡ code_of_what what }
    {
        match what {
            What::Duplicate => Code::DuplicateKey,
            What::Immutable => Code::ImmutableField,
            What::NotNumber | What::Overflow | What::TooLarge => Code::BadValue,
        }
    }
}

impl Label {
    pub fn name(self) -> &'static str
        ensures { result.now ≡ label_name self }
    {
        match self {
            Label::Transient => "TransientTransactionError",
            Label::UnknownResult => "UnknownTransactionCommitResult",
        }
    }
}

/// The kind of the causes of that number; any that is none is as out of memory.
fn kind_numbered(number: u8) -> Kind
    ensures { result ≡ kind_numbered number }
{
    match number {
        1 => (Code::WriteConflict, Some(Label::Transient)),
        2 | 3 | 7 | 10 => (Code::NoSuchTransaction, Some(Label::Transient)),
        4 | 5 => (Code::HostUnreachable, Some(Label::Transient)),
        6 | 8 => (Code::BadValue, None),
        9 | 11 => (Code::IllegalOperation, None),
        14 => (Code::SnapshotTooOld, Some(Label::Transient)),
        _ => (Code::InternalError, Some(Label::Transient)),
    }
}

/// The kind of a cause of a transaction of this number; a vote's is that of the cause whose number
/// it has.
pub fn kind_of_cause(number: i64, cause: &Cause) -> Kind
    ensures { result ≡ kind_of_cause number cause.now }
{
    match cause {
        Cause::Statement { err } => (Code::of_what(err.what), None),
        Cause::Replaced { number: have, .. } => {
            if number < *have {
                (Code::TransactionTooOld, None)
            } else {
                kind_numbered(7)
            }
        }
        Cause::Voted { code, .. } => kind_numbered(*code),
        Cause::WriteConflict { .. } => kind_numbered(1),
        Cause::Expired { .. } => kind_numbered(2),
        Cause::ClientAbort { .. } => kind_numbered(3),
        Cause::Unavailable { .. } => kind_numbered(4),
        Cause::Faulted { .. } => kind_numbered(5),
        Cause::Volume { .. } => kind_numbered(8),
        Cause::ClockEnd { .. } => kind_numbered(9),
        Cause::PreparedStands { .. } => kind_numbered(10),
        Cause::TooManySessions => kind_numbered(11),
        Cause::Memory => kind_numbered(13),
        Cause::SnapshotTooOld { .. } => kind_numbered(14),
    }
}

/// The kind of a request's refusal.
pub fn kind_of_refusal(refusal: &Refusal) -> Kind
    ensures { result ≡ kind_of_refusal refusal.now }
{
    match refusal {
        Refusal::Aborted => (Code::NoSuchTransaction, Some(Label::Transient)),
        Refusal::NoDecision => (Code::NoSuchTransaction, Some(Label::UnknownResult)),
        Refusal::NoTransaction { commit, .. } => (
            Code::NoSuchTransaction,
            Some(if *commit {
                Label::UnknownResult
            } else {
                Label::Transient
            }),
        ),
        Refusal::Busy
        | Refusal::Started { .. }
        | Refusal::AfterCommit
        | Refusal::TooLong
        | Refusal::TooMany
        | Refusal::Spent
        | Refusal::RetryWrite => (Code::IllegalOperation, None),
        Refusal::Unknown { .. } => (Code::CommandNotFound, None),
        Refusal::Missing { .. } | Refusal::UnknownField { .. } | Refusal::BadMessage { .. } => {
            (Code::FailedToParse, None)
        }
        Refusal::ManyShards
        | Refusal::ReplyTooLarge
        | Refusal::UnknownOperator { .. }
        | Refusal::DottedName { .. }
        | Refusal::WrongKind { .. }
        | Refusal::ClusterTimeAhead { .. }
        | Refusal::Unacknowledged
        | Refusal::BadKind { .. } => (Code::BadValue, None),
    }
}
