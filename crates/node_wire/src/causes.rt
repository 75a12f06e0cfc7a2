//! Causes, and what is told with them: answers, votes and ends.
ghost use Rattle.std.specs.Prelude.{◌≡◌};
ghost use Rattle.std.specs.Int.{w32, w64};
ghost use Rattle.node_wire.specs.Errors.{Gives};
ghost use Rattle.node_wire.specs.Reading.{code_at, what_of, op_err_at, by_at, conflict_at, pair_at, one_at, replaced_at, voted_at, cause_by, cause_at, told_at, vote_at};
ghost use Rattle.txn_types.specs.declared.cause.Cause.TheVariants as cause;

use crate::contents::read_id;
use crate::error::WireErr;
use crate::fields::read_tag;
use crate::numbers::{
    fault, read_flag, read_i64, read_one_to, read_u8, read_u16, read_u32, read_u64,
};
use std::alloc::Global;
use txn_types::{By, Cause, OpErr, Told, Ts, What};

#[tactic(auto, unfolding(crate::specs::Reading::code_at))]
fn read_what(end: u64, bytes: &[u8]) -> Result<(What, &[u8]), WireErr>
    ensures { Gives (λ x. (x.0, x.1.now)) result (code_at what_of end bytes.now) }
{
    let (byte, rest) = read_u8(end, bytes)?;
    match byte {
        1 => Ok((What::Duplicate, rest)),
        2 => Ok((What::NotNumber, rest)),
        3 => Ok((What::Overflow, rest)),
        4 => Ok((What::Immutable, rest)),
        5 => Ok((What::TooLarge, rest)),
        _ => Err(fault(end, bytes)),
    }
}

#[tactic(auto, unfolding(crate::specs::Reading::op_err_at))]
fn read_op_err(alloc: Global, end: u64, bytes: &[u8]) -> Result<(OpErr, &[u8]), WireErr>
    ensures { Gives (λ x. (x.0, x.1.now)) result (op_err_at end bytes.now) }
{
    let (index, rest) = read_u32(end, bytes)?;
    let (id, rest) = read_id(alloc, end, rest)?;
    match read_what(end, rest) {
        Ok((what, rest)) => Ok((OpErr { index, id, what }, rest)),
        Err(error) => Err(error),
    }
}

#[tactic(auto, unfolding(crate::specs::Reading::by_at))]
fn read_by(end: u64, bytes: &[u8]) -> Result<(By, &[u8]), WireErr>
    ensures { Gives (λ x. (x.0, x.1.now)) result (by_at end bytes.now) }
{
    let (kind, rest) = read_one_to(2, end, bytes)?;
    if kind == 1 {
        let (tag, rest) = read_tag(end, rest)?;
        Ok((By::Tag(tag), rest))
    } else {
        let (at, rest) = read_u64(end, rest)?;
        Ok((By::At(Ts(at)), rest))
    }
}

#[tactic(auto, unfolding(crate::specs::Reading::conflict_at))]
fn read_conflict(alloc: Global, end: u64, bytes: &[u8]) -> Result<(Cause, &[u8]), WireErr>
    ensures { Gives (λ x. (x.0, x.1.now)) result (conflict_at end bytes.now) }
{
    let (id, rest) = read_id(alloc, end, bytes)?;
    match read_by(end, rest) {
        Ok((by, rest)) => Ok((Cause::WriteConflict { id, by }, rest)),
        Err(error) => Err(error),
    }
}

#[tactic(auto, unfolding(crate::specs::Reading::pair_at))]
fn read_expired(end: u64, bytes: &[u8]) -> Result<(Cause, &[u8]), WireErr>
    ensures { Gives (λ x. (x.0, x.1.now)) result (pair_at w32 cause.Expired end bytes.now) }
{
    let (begun, rest) = read_u32(end, bytes)?;
    let (now, rest) = read_u32(end, rest)?;
    Ok((Cause::Expired { begun, now }, rest))
}

#[tactic(auto, unfolding(crate::specs::Reading::pair_at))]
fn read_unavailable(end: u64, bytes: &[u8]) -> Result<(Cause, &[u8]), WireErr>
    ensures { Gives (λ x. (x.0, x.1.now)) result (pair_at w32 cause.Unavailable end bytes.now) }
{
    let (carried, rest) = read_u32(end, bytes)?;
    let (have, rest) = read_u32(end, rest)?;
    Ok((Cause::Unavailable { carried, have }, rest))
}

#[tactic(auto, unfolding(crate::specs::Reading::pair_at))]
fn read_too_old(end: u64, bytes: &[u8]) -> Result<(Cause, &[u8]), WireErr>
    ensures { Gives (λ x. (x.0, x.1.now)) result (pair_at w64 cause.SnapshotTooOld end bytes.now) }
{
    let (at, rest) = read_u64(end, bytes)?;
    let (floor, rest) = read_u64(end, rest)?;
    let cause = Cause::SnapshotTooOld {
        at: Ts(at),
        floor: Ts(floor),
    };
    Ok((cause, rest))
}

#[tactic(auto, unfolding(crate::specs::Reading::replaced_at))]
fn read_replaced(end: u64, bytes: &[u8]) -> Result<(Cause, &[u8]), WireErr>
    ensures { Gives (λ x. (x.0, x.1.now)) result (replaced_at end bytes.now) }
{
    let (number, rest) = read_i64(end, bytes)?;
    let (tag, rest) = read_tag(end, rest)?;
    Ok((Cause::Replaced { number, tag }, rest))
}

#[tactic(auto, unfolding(crate::specs::Reading::voted_at))]
fn read_voted(end: u64, bytes: &[u8]) -> Result<(Cause, &[u8]), WireErr>
    ensures { Gives (λ x. (x.0, x.1.now)) result (voted_at end bytes.now) }
{
    let (shard, rest) = read_u16(end, bytes)?;
    let (code, rest) = read_u8(end, rest)?;
    Ok((Cause::Voted { shard, code }, rest))
}

#[tactic(auto, unfolding(crate::specs::Reading::cause_by))]
fn read_cause_by(
    alloc: Global,
    number: u8,
    end: u64,
    bytes: &[u8],
) -> Result<(Cause, &[u8]), WireErr>
    ensures { Gives (λ x. (x.0, x.1.now)) result (cause_by number end bytes.now) }
{
    match number {
        1 => read_conflict(alloc, end, bytes),
        2 => read_expired(end, bytes),
        3 => {
            let (why, rest) = read_u8(end, bytes)?;
            Ok((Cause::ClientAbort { why }, rest))
        }
        4 => read_unavailable(end, bytes),
        5 => {
            let (faults, rest) = read_u64(end, bytes)?;
            Ok((Cause::Faulted { faults }, rest))
        }
        6 => {
            let (err, rest) = read_op_err(alloc, end, bytes)?;
            Ok((Cause::Statement { err }, rest))
        }
        7 => read_replaced(end, bytes),
        8 => {
            let (bytes, rest) = read_u64(end, bytes)?;
            Ok((Cause::Volume { bytes }, rest))
        }
        9 => {
            let (last, rest) = read_u64(end, bytes)?;
            Ok((Cause::ClockEnd { last: Ts(last) }, rest))
        }
        10 => {
            let (tag, rest) = read_tag(end, bytes)?;
            Ok((Cause::PreparedStands { tag }, rest))
        }
        11 => Ok((Cause::TooManySessions, bytes)),
        12 => read_voted(end, bytes),
        13 => Ok((Cause::Memory, bytes)),
        _ => read_too_old(end, bytes),
    }
}

/// A cause: its number and its fields.
#[tactic(auto, unfolding(crate::specs::Reading::cause_at))]
pub fn read_cause(alloc: Global, end: u64, bytes: &[u8]) -> Result<(Cause, &[u8]), WireErr>
    ensures { Gives (λ x. (x.0, x.1.now)) result (cause_at end bytes.now) }
{
    let (number, rest) = read_one_to(14, end, bytes)?;
    read_cause_by(alloc, number, end, rest)
}

#[tactic(auto, unfolding(crate::specs::Reading::vote_at))]
pub fn read_vote(
    alloc: Global,
    end: u64,
    bytes: &[u8],
) -> Result<(Result<Ts, Cause>, &[u8]), WireErr>
    ensures { Gives (λ x. (x.0, x.1.now)) result (vote_at end bytes.now) }
{
    let (ok, rest) = read_flag(end, bytes)?;
    if ok {
        let (at, rest) = read_u64(end, rest)?;
        Ok((Ok(Ts(at)), rest))
    } else {
        let (cause, rest) = read_cause(alloc, end, rest)?;
        Ok((Err(cause), rest))
    }
}

#[tactic(auto, unfolding(crate::specs::Reading::told_at))]
pub fn read_told(alloc: Global, end: u64, bytes: &[u8]) -> Result<(Told, &[u8]), WireErr>
    ensures { Gives (λ x. (x.0, x.1.now)) result (told_at end bytes.now) }
{
    let (kind, rest) = read_one_to(5, end, bytes)?;
    match kind {
        1 => {
            let (at, rest) = read_u64(end, rest)?;
            Ok((Told::Committed { at: Ts(at) }, rest))
        }
        2 => Ok((Told::Released, rest)),
        3 => {
            let (cause, rest) = read_cause(alloc, end, rest)?;
            Ok((Told::Aborted { cause }, rest))
        }
        4 => {
            let (have, rest) = read_i64(end, rest)?;
            Ok((Told::TooOld { have }, rest))
        }
        _ => Ok((Told::NoTrace, rest)),
    }
}
