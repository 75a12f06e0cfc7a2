//! Writing causes, and what is told with them: answers, votes and ends.
ghost use Rattle.std.specs.Prelude.{◌≡◌, ◌++◌, ◌∷◌, [], OnOk};
ghost use Rattle.std.specs.List.{flat_map};
ghost use Rattle.bson_core.specs.Spelling.{bit, spelling};
ghost use Rattle.node_wire.specs.Output.{joined};
ghost use Rattle.node_wire.specs.Spelling.{half, word, long, signed, tag_bytes, id_bytes, counted, cut_bytes, reply_bytes, what_code, op_err_bytes, by_bytes, cause_fields, cause_bytes, outcome_bytes, vote_bytes, told_bytes};

use crate::output::Output;
use crate::spell_contents::put_id;
use crate::spell_fields::{put_count, put_i64, put_tag, put_u16, put_u32, put_u64};
use bson_core::Doc;
use std::alloc::{AllocError, Global};
use txn_types::{By, Cause, Id, OpErr, OpReply, Tag, Told, Ts, What};

fn put_each_document(alloc: Global, out: &mut Output, docs: &[Doc]) -> Result<(), AllocError>
    ensures { OnOk result (out.new ≡ joined out.old (flat_map spelling docs.now)) }
{
    for doc in docs {
        out.put_document(alloc, doc)?;
    }
    Ok(())
}

#[tactic(auto, using(crate::proofs::Joined::joined_twice))]
fn put_documents(alloc: Global, out: &mut Output, docs: &[Doc]) -> Result<(), AllocError>
    ensures { OnOk result (out.new ≡ joined out.old (counted spelling docs.now)) }
{
    put_count(out, docs.len())?;
    put_each_document(alloc, out, docs)
}

#[tactic(auto, using(crate::proofs::Joined::joined_twice))]
fn put_cut(alloc: Global, out: &mut Output, cut: &Option<Id>) -> Result<(), AllocError>
    ensures { OnOk result (out.new ≡ joined out.old (cut_bytes cut.now)) }
{
    match cut {
        Some(id) => {
            out.put(&[1])?;
            put_id(alloc, out, id)
        }
        None => { out.put(&[0]) }
    }
}

#[tactic(auto, using(crate::proofs::Joined::joined_twice))]
fn put_count_reply(out: &mut Output, n: u64, modified: u64) -> Result<(), AllocError>
    ensures { OnOk result (out.new ≡ joined out.old (1 ∷ long n ++ long modified)) }
{
    out.put(&[1])?;
    put_u64(out, n)?;
    put_u64(out, modified)
}

#[tactic(auto, using(crate::proofs::Joined::joined_twice))]
fn put_rows(
    alloc: Global,
    out: &mut Output,
    docs: &[Doc],
    cut: &Option<Id>,
) -> Result<(), AllocError>
    ensures { OnOk result
        (out.new ≡ joined out.old (2 ∷ counted spelling docs.now ++ cut_bytes cut.now)) }
{
    out.put(&[2])?;
    put_documents(alloc, out, docs)?;
    put_cut(alloc, out, cut)
}

#[tactic(auto, using(crate::proofs::Joined::joined_twice))]
fn put_reply(alloc: Global, out: &mut Output, reply: &OpReply) -> Result<(), AllocError>
    ensures { OnOk result (out.new ≡ joined out.old (reply_bytes reply.now)) }
{
    match reply {
        OpReply::Count { n, modified } => { put_count_reply(out, *n, *modified) }
        OpReply::Rows { docs, cut } => put_rows(alloc, out, docs.as_slice(), cut),
    }
}

fn what_code(what: What) -> u8
    ensures { result ≡ what_code what }
{
    match what {
        What::Duplicate => 1,
        What::NotNumber => 2,
        What::Overflow => 3,
        What::Immutable => 4,
        What::TooLarge => 5,
    }
}

#[tactic(auto, using(crate::proofs::Joined::joined_twice))]
fn put_op_err(alloc: Global, out: &mut Output, err: &OpErr) -> Result<(), AllocError>
    ensures { OnOk result (out.new ≡ joined out.old (op_err_bytes err.now)) }
{
    put_u32(out, err.index)?;
    put_id(alloc, out, &err.id)?;
    out.put(&[what_code(err.what)])
}

#[tactic(auto, using(crate::proofs::Joined::joined_twice))]
fn put_by(out: &mut Output, by: &By) -> Result<(), AllocError>
    ensures { OnOk result (out.new ≡ joined out.old (by_bytes by.now)) }
{
    match by {
        By::Tag(tag) => {
            out.put(&[1])?;
            put_tag(out, *tag)
        }
        By::At(at) => {
            out.put(&[2])?;
            put_u64(out, at.0)
        }
    }
}

#[tactic(auto, using(crate::proofs::Joined::joined_twice))]
fn put_conflict(alloc: Global, out: &mut Output, id: &Id, by: &By) -> Result<(), AllocError>
    ensures { OnOk result (out.new ≡ joined out.old (id_bytes id.now ++ by_bytes by.now)) }
{
    put_id(alloc, out, id)?;
    put_by(out, by)
}

#[tactic(auto, using(crate::proofs::Joined::joined_twice))]
fn put_u32_pair(out: &mut Output, first: u32, second: u32) -> Result<(), AllocError>
    ensures { OnOk result (out.new ≡ joined out.old (word first ++ word second)) }
{
    put_u32(out, first)?;
    put_u32(out, second)
}

#[tactic(auto, using(crate::proofs::Joined::joined_twice))]
fn put_u64_pair(out: &mut Output, first: u64, second: u64) -> Result<(), AllocError>
    ensures { OnOk result (out.new ≡ joined out.old (long first ++ long second)) }
{
    put_u64(out, first)?;
    put_u64(out, second)
}

#[tactic(auto, using(crate::proofs::Joined::joined_twice))]
fn put_replaced(out: &mut Output, number: i64, tag: Tag) -> Result<(), AllocError>
    ensures { OnOk result (out.new ≡ joined out.old (signed number ++ tag_bytes tag)) }
{
    put_i64(out, number)?;
    put_tag(out, tag)
}

#[tactic(auto, using(crate::proofs::Joined::joined_twice))]
fn put_voted(out: &mut Output, shard: u16, code: u8) -> Result<(), AllocError>
    ensures { OnOk result (out.new ≡ joined out.old (half shard ++ code ∷ [])) }
{
    put_u16(out, shard)?;
    out.put(&[code])
}

#[tactic(auto, using(crate::proofs::Joined::joined_twice))]
fn put_byte(out: &mut Output, byte: u8) -> Result<(), AllocError>
    ensures { OnOk result (out.new ≡ joined out.old (byte ∷ [])) }
{
    out.put(&[byte])
}

/// The fields of a cause.
#[tactic(auto, using(crate::proofs::Joined::joined_twice))]
fn put_cause_fields(alloc: Global, out: &mut Output, cause: &Cause) -> Result<(), AllocError>
    ensures { OnOk result (out.new ≡ joined out.old (cause_fields cause.now)) }
{
    match cause {
        Cause::WriteConflict { id, by } => put_conflict(alloc, out, id, by),
        Cause::Statement { err } => put_op_err(alloc, out, err),
        Cause::Expired { begun, now } => put_u32_pair(out, *begun, *now),
        Cause::ClientAbort { why } => put_byte(out, *why),
        Cause::Unavailable { carried, have } => put_u32_pair(out, *carried, *have),
        Cause::Faulted { faults } => put_u64(out, *faults),
        Cause::Replaced { number, tag } => put_replaced(out, *number, *tag),
        Cause::Volume { bytes } => put_u64(out, *bytes),
        Cause::ClockEnd { last } => put_u64(out, last.0),
        Cause::PreparedStands { tag } => put_tag(out, *tag),
        Cause::Voted { shard, code } => put_voted(out, *shard, *code),
        Cause::SnapshotTooOld { at, floor } => put_u64_pair(out, at.0, floor.0),
        Cause::TooManySessions | Cause::Memory => out.put(&[]),
    }
}

/// A cause: its number and its fields.
#[tactic(auto, using(crate::proofs::Joined::joined_twice))]
fn put_cause(alloc: Global, out: &mut Output, cause: &Cause) -> Result<(), AllocError>
    ensures { OnOk result (out.new ≡ joined out.old (cause_bytes cause.now)) }
{
    out.put(&[cause.number()])?;
    put_cause_fields(alloc, out, cause)
}

/// A byte, and a cause after it.
#[tactic(auto, using(crate::proofs::Joined::joined_twice))]
fn put_because(alloc: Global, out: &mut Output, byte: u8, cause: &Cause) -> Result<(), AllocError>
    ensures { OnOk result (out.new ≡ joined out.old (byte ∷ cause_bytes cause.now)) }
{
    out.put(&[byte])?;
    put_cause(alloc, out, cause)
}

#[tactic(auto, using(crate::proofs::Joined::joined_twice))]
fn put_answered(
    alloc: Global,
    out: &mut Output,
    reply: &OpReply,
    wrote: bool,
) -> Result<(), AllocError>
    ensures { OnOk result (out.new ≡ joined out.old (1 ∷ reply_bytes reply.now ++ bit wrote ∷ [])) }
{
    out.put(&[1])?;
    put_reply(alloc, out, reply)?;
    out.put(&[u8::from(wrote)])
}

#[tactic(auto, using(crate::proofs::Joined::joined_twice))]
pub fn put_outcome(
    alloc: Global,
    out: &mut Output,
    outcome: &Result<(OpReply, bool), Cause>,
) -> Result<(), AllocError>
    ensures { OnOk result (out.new ≡ joined out.old (outcome_bytes outcome.now)) }
{
    match outcome {
        Ok((reply, wrote)) => put_answered(alloc, out, reply, *wrote),
        Err(cause) => put_because(alloc, out, 0, cause),
    }
}

/// A byte, and a time after it.
#[tactic(auto, using(crate::proofs::Joined::joined_twice))]
fn put_time(out: &mut Output, byte: u8, at: Ts) -> Result<(), AllocError>
    ensures { OnOk result (out.new ≡ joined out.old (byte ∷ long at)) }
{
    out.put(&[byte])?;
    put_u64(out, at.0)
}

#[tactic(auto, using(crate::proofs::Joined::joined_twice))]
pub fn put_vote(alloc: Global, out: &mut Output, vote: &Result<Ts, Cause>) -> Result<(), AllocError>
    ensures { OnOk result (out.new ≡ joined out.old (vote_bytes vote.now)) }
{
    match vote {
        Ok(at) => { Ok(put_time(out, 1, *at)?) }
        Err(cause) => put_because(alloc, out, 0, cause),
    }
}

#[tactic(auto, using(crate::proofs::Joined::joined_twice))]
fn put_too_old(out: &mut Output, have: i64) -> Result<(), AllocError>
    ensures { OnOk result (out.new ≡ joined out.old (4 ∷ signed have)) }
{
    out.put(&[4])?;
    put_i64(out, have)
}

#[tactic(auto, using(crate::proofs::Joined::joined_twice))]
pub fn put_told(alloc: Global, out: &mut Output, told: &Told) -> Result<(), AllocError>
    ensures { OnOk result (out.new ≡ joined out.old (told_bytes told.now)) }
{
    match told {
        Told::Committed { at } => put_time(out, 1, *at),
        Told::Released => put_byte(out, 2),
        Told::Aborted { cause } => put_because(alloc, out, 3, cause),
        Told::TooOld { have } => put_too_old(out, *have),
        Told::NoTrace => put_byte(out, 5),
    }
}
