ghost use Rattle.std.specs.Prelude.{◌≡◌, [], ◌∷◌, ◌++◌, IfOk, codes, string_bytes};
ghost use Rattle.std.specs.Fmt.{decimal, signed_decimal};
ghost use Rattle.bson_text.specs.Text.{hex_digits, value_text};
ghost use Rattle.client_reply.specs.Texts.{time_text, tag_text, id_text, document_text, what_text, err_text, by_text, too_old_text, cause_text, refusal_text};

use crate::reply::Refusal;
use bson_core::{Name, Value};
use bson_text::{TextErr, print_value};
use std::alloc::{AllocError, Global};
use txn_types::{By, Cause, Id, OpErr, Tag, Ts, What};

fn value_text(alloc: Global, value: Value) -> Result<String, AllocError>
    ensures { IfOk result (λ s. string_bytes s ≡ value_text value) }
{
    match print_value(alloc, &value) {
        Ok(text) => Ok(text),
        Err(TextErr::Memory) => Err(AllocError),
    }
}

/// The id's text, of a number its digits alone.
fn id_text(alloc: Global, id: &Id) -> Result<String, AllocError>
    ensures { IfOk result (λ s. string_bytes s ≡ id_text id.now) }
{
    match id {
        Id::Num(number) => format!(in alloc; "{number}"),
        Id::Text(text) => value_text(alloc, Value::Text(text.copy(alloc)?)),
        Id::Bin(bin) => value_text(alloc, Value::Bin(bin.copy(alloc)?)),
        Id::Oid(bytes) => value_text(alloc, Value::Oid(*bytes)),
        Id::Bool(flag) => value_text(alloc, Value::Bool(*flag)),
        Id::Date(moment) => value_text(alloc, Value::Date(*moment)),
    }
}

/// The document that has nothing but that id.
#[tactic(auto, using(crate::proofs::Messages::append_append))]
fn document_text(alloc: Global, id: &Id) -> Result<String, AllocError>
    ensures { IfOk result (λ s. string_bytes s ≡ document_text id.now) }
{
    let id = id_text(alloc, id)?;
    Ok(format!(in alloc; "{{\"_id\": {id}}}")?)
}

/// What went wrong with a document, in front of the document.
fn what_text(what: What) -> &'static str
    ensures { result.now ≡ what_text what }
{
    match what {
        What::Duplicate => "duplicate key",
        What::NotNumber => "not a number in",
        What::Overflow => "overflow in",
        What::Immutable => "_id can't change in",
        What::TooLarge => "too large in",
    }
}

/// Why a statement was refused over the rows that it saw.
#[tactic(auto, using(crate::proofs::Messages::append_append))]
fn err_text(alloc: Global, err: &OpErr) -> Result<String, AllocError>
    ensures { IfOk result (λ s. string_bytes s ≡ err_text err.now) }
{
    let what = what_text(err.what);
    let document = document_text(alloc, &err.id)?;
    let index = err.index;
    Ok(format!(in alloc; "{what} {document} at index {index}")?)
}

/// The time as its seconds and its increment.
#[tactic(auto, using(crate::proofs::Messages::append_append))]
fn time_text(alloc: Global, time: Ts) -> Result<String, AllocError>
    ensures { IfOk result (λ s. string_bytes s ≡ time_text time) }
{
    let seconds = time.0 >> 32;
    let increment = time.0 % (1 << 32);
    Ok(format!(in alloc; "{seconds}.{increment}")?)
}

/// The tag as its router, boot and serial.
#[tactic(auto, using(crate::proofs::Messages::append_append))]
fn tag_text(alloc: Global, tag: Tag) -> Result<String, AllocError>
    ensures { IfOk result (λ s. string_bytes s ≡ tag_text tag) }
{
    let router = tag.router;
    let boot = tag.boot;
    let serial = tag.serial;
    Ok(format!(in alloc; "{router}.{boot}.{serial}")?)
}

/// With what a write conflicts.
#[tactic(auto, using(crate::proofs::Messages::append_append))]
fn by_text(alloc: Global, by: By) -> Result<String, AllocError>
    ensures { IfOk result (λ s. string_bytes s ≡ by_text by) }
{
    match by {
        By::Tag(tag) => {
            let tag = tag_text(alloc, tag)?;
            Ok(format!(in alloc; "transaction {tag}")?)
        }
        By::At(at) => {
            let at = time_text(alloc, at)?;
            Ok(format!(in alloc; "the commit at {at}")?)
        }
    }
}

#[tactic(auto, using(crate::proofs::Messages::append_append))]
fn conflict_text(alloc: Global, id: &Id, by: By) -> Result<String, AllocError>
    ensures { IfOk result (λ s. string_bytes s
        ≡ codes "write conflict on " ++ document_text id.now ++ codes " with " ++ by_text by) }
{
    let document = document_text(alloc, id)?;
    let by = by_text(alloc, by)?;
    Ok(format!(in alloc; "write conflict on {document} with {by}")?)
}

#[tactic(auto, using(crate::proofs::Messages::append_append))]
fn expired_text(alloc: Global, begun: u32, now: u32) -> Result<String, AllocError>
    ensures { IfOk result (λ s. string_bytes s ≡ codes "transaction expired: begun at "
        ++ decimal begun ++ codes ", now " ++ decimal now) }
{
    Ok(format!(in alloc; "transaction expired: begun at {begun}, now {now}")?)
}

#[tactic(auto, using(crate::proofs::Messages::append_append))]
fn unavailable_text(
    alloc: Global,
    shard: u16,
    carried: u32,
    have: u32,
) -> Result<String, AllocError>
    ensures { IfOk result (λ s. string_bytes s ≡ codes "shard " ++ decimal shard
        ++ codes " was restarted: boot " ++ decimal carried ++ codes " is now " ++ decimal have) }
{
    Ok(format!(in alloc; "shard {shard} was restarted: boot {carried} is now {have}")?)
}

#[tactic(auto, using(crate::proofs::Messages::append_append))]
fn faulted_text(alloc: Global, shard: u16, faults: u64) -> Result<String, AllocError>
    ensures { IfOk result (λ s. string_bytes s ≡ codes "shard " ++ decimal shard
        ++ codes " stopped after " ++ decimal faults ++ codes " disk faults") }
{
    Ok(format!(in alloc; "shard {shard} stopped after {faults} disk faults")?)
}

#[tactic(auto, using(crate::proofs::Messages::append_append))]
fn older_text(alloc: Global, number: i64) -> Result<String, AllocError>
    ensures { IfOk result (λ s. string_bytes s
        ≡ codes "transaction number " ++ signed_decimal number ++ codes " is older than ") }
{
    Ok(format!(in alloc; "transaction number {number} is older than ")?)
}

/// That a transaction's own number is below the one that its session has.
pub fn too_old_text(alloc: Global, number: i64, have: i64) -> Result<String, AllocError>
    ensures { IfOk result (λ s. string_bytes s ≡ too_old_text number have) }
{
    let mut text = older_text(alloc, number)?;
    let have = format!(in alloc; "{have}")?;
    text.push_str(have.as_str())?;
    Ok(text)
}

#[tactic(auto, using(crate::proofs::Messages::append_append))]
fn taken_text(alloc: Global, number: i64, tag: Tag) -> Result<String, AllocError>
    ensures { IfOk result (λ s. string_bytes s ≡ codes "number " ++ signed_decimal number
        ++ codes " is taken by transaction " ++ tag_text tag) }
{
    let tag = tag_text(alloc, tag)?;
    Ok(format!(in alloc; "number {number} is taken by transaction {tag}")?)
}

#[tactic(auto, using(crate::proofs::Messages::append_append))]
fn volume_text(alloc: Global, shard: u16, bytes: u64) -> Result<String, AllocError>
    ensures { IfOk result (λ s. string_bytes s ≡ codes "transaction writes " ++ decimal bytes
        ++ codes " bytes on shard " ++ decimal shard) }
{
    Ok(format!(in alloc; "transaction writes {bytes} bytes on shard {shard}")?)
}

#[tactic(auto, using(crate::proofs::Messages::append_append))]
fn clock_end_text(alloc: Global, shard: u16) -> Result<String, AllocError>
    ensures { IfOk result
        (λ s. string_bytes s ≡ codes "clock of shard " ++ decimal shard ++ codes " is at its end") }
{
    Ok(format!(in alloc; "clock of shard {shard} is at its end")?)
}

#[tactic(auto, using(crate::proofs::Messages::append_append))]
fn prepared_text(alloc: Global, tag: Tag) -> Result<String, AllocError>
    ensures { IfOk result
        (λ s. string_bytes s ≡ codes "transaction " ++ tag_text tag ++ codes " is prepared") }
{
    let tag = tag_text(alloc, tag)?;
    Ok(format!(in alloc; "transaction {tag} is prepared")?)
}

#[tactic(auto, using(crate::proofs::Messages::append_append))]
fn many_sessions_text(alloc: Global, shard: u16) -> Result<String, AllocError>
    ensures { IfOk result
        (λ s. string_bytes s ≡ codes "shard " ++ decimal shard ++ codes " has too many sessions") }
{
    Ok(format!(in alloc; "shard {shard} has too many sessions")?)
}

#[tactic(auto, using(crate::proofs::Messages::append_append))]
fn voted_text(alloc: Global, voter: u16, code: u8) -> Result<String, AllocError>
    ensures { IfOk result (λ s. string_bytes s
        ≡ codes "shard " ++ decimal voter ++ codes " voted to abort: cause " ++ decimal code) }
{
    Ok(format!(in alloc; "shard {voter} voted to abort: cause {code}")?)
}

#[tactic(auto, using(crate::proofs::Messages::append_append))]
fn snapshot_text(alloc: Global, shard: u16, at: Ts, floor: Ts) -> Result<String, AllocError>
    ensures { IfOk result (λ s. string_bytes s ≡ codes "snapshot " ++ time_text at
        ++ codes " is older than " ++ time_text floor ++ codes " on shard " ++ decimal shard) }
{
    let at = time_text(alloc, at)?;
    let floor = time_text(alloc, floor)?;
    Ok(format!(in alloc; "snapshot {at} is older than {floor} on shard {shard}")?)
}

/// The message that tells why that shard refused or ended the transaction of that number.
pub fn cause_text(
    alloc: Global,
    shard: u16,
    number: i64,
    cause: &Cause,
) -> Result<String, AllocError>
    ensures { IfOk result (λ s. string_bytes s ≡ cause_text shard number cause.now) }
{
    match cause {
        Cause::WriteConflict { id, by } => conflict_text(alloc, id, *by),
        Cause::Expired { begun, now } => expired_text(alloc, *begun, *now),
        Cause::ClientAbort { why } => format!(in alloc; "transaction was ended: reason {why}"),
        Cause::Unavailable { carried, have } => unavailable_text(alloc, shard, *carried, *have),
        Cause::Faulted { faults } => faulted_text(alloc, shard, *faults),
        Cause::Statement { err } => err_text(alloc, err),
        Cause::Replaced { number: have, tag } => {
            if number < *have {
                too_old_text(alloc, number, *have)
            } else {
                taken_text(alloc, number, *tag)
            }
        }
        Cause::Volume { bytes } => volume_text(alloc, shard, *bytes),
        Cause::ClockEnd { .. } => clock_end_text(alloc, shard),
        Cause::PreparedStands { tag } => prepared_text(alloc, *tag),
        Cause::TooManySessions => many_sessions_text(alloc, shard),
        Cause::Voted { shard: voter, code } => voted_text(alloc, *voter, *code),
        Cause::Memory => String::from_str(alloc, "want of memory"),
        Cause::SnapshotTooOld { at, floor } => snapshot_text(alloc, shard, *at, *floor),
    }
}

/// The words, and after them the name.
fn with_name(alloc: Global, words: &str, name: &Name) -> Result<String, AllocError>
    ensures { IfOk result (λ s. string_bytes s ≡ words.now ++ name.now) }
{
    let mut text = String::from_str(alloc, words)?;
    text.push_str(name.as_str())?;
    Ok(text)
}

fn bad_kind_text(alloc: Global, byte: u8, place: u64) -> Result<String, AllocError>
    ensures { IfOk result (λ s. string_bytes s
        ≡ codes "type 0x" ++ hex_digits (byte ∷ []) ++ codes " at byte " ++ decimal place) }
{
    format!(in alloc; "type 0x{byte:02x} at byte {place}")
}

#[tactic(auto, using(crate::proofs::Messages::append_append))]
fn no_transaction_text(alloc: Global, number: i64) -> Result<String, AllocError>
    ensures { IfOk result
        (λ s. string_bytes s ≡ codes "no transaction " ++ signed_decimal number ++ codes " here") }
{
    Ok(format!(in alloc; "no transaction {number} here")?)
}

#[tactic(auto, using(crate::proofs::Messages::append_append))]
fn started_text(alloc: Global, number: i64) -> Result<String, AllocError>
    ensures { IfOk result
        (λ s. string_bytes s ≡ codes "number " ++ signed_decimal number ++ codes " was begun") }
{
    Ok(format!(in alloc; "number {number} was begun")?)
}

#[tactic(auto, using(crate::proofs::Messages::append_append))]
fn ahead_text(alloc: Global, secs: u32, wall: u32) -> Result<String, AllocError>
    ensures { IfOk result (λ s. string_bytes s
        ≡ codes "cluster time " ++ decimal secs ++ codes " is ahead of " ++ decimal wall) }
{
    Ok(format!(in alloc; "cluster time {secs} is ahead of {wall}")?)
}

/// The message that tells why a request was refused.
pub fn refusal_text(alloc: Global, refusal: &Refusal) -> Result<String, AllocError>
    ensures { IfOk result (λ s. string_bytes s ≡ refusal_text refusal.now) }
{
    match refusal {
        Refusal::Aborted => String::from_str(alloc, "transaction is aborted"),
        Refusal::NoDecision => String::from_str(alloc, "no decision is known"),
        Refusal::NoTransaction { number, .. } => no_transaction_text(alloc, *number),
        Refusal::Busy => String::from_str(alloc, "session is busy"),
        Refusal::Started { number } => started_text(alloc, *number),
        Refusal::AfterCommit => String::from_str(alloc, "commit was sent"),
        Refusal::TooLong => String::from_str(alloc, "too many statements"),
        Refusal::TooMany => String::from_str(alloc, "too many sessions"),
        Refusal::Spent => String::from_str(alloc, "no serial left"),
        Refusal::ManyShards => String::from_str(alloc, "one document needs _id equality"),
        Refusal::ReplyTooLarge => String::from_str(alloc, "answer is too large"),
        Refusal::Unknown { name } => with_name(alloc, "no such command ", name),
        Refusal::UnknownOperator { name } => with_name(alloc, "unknown operator ", name),
        Refusal::DottedName { name } => with_name(alloc, "dotted name ", name),
        Refusal::WrongKind { name } => with_name(alloc, "wrong kind for ", name),
        Refusal::Missing { name } => with_name(alloc, "missing ", name),
        Refusal::UnknownField { name } => with_name(alloc, "unknown field ", name),
        Refusal::RetryWrite => String::from_str(alloc, "retryable writes are not served"),
        Refusal::ClusterTimeAhead { secs, wall } => ahead_text(alloc, *secs, *wall),
        Refusal::Unacknowledged => String::from_str(alloc, "unacknowledged writes are not served"),
        Refusal::BadKind { byte, at } => bad_kind_text(alloc, *byte, *at),
        Refusal::BadMessage { number } => format!(in alloc; "bad message {number}"),
    }
}
