//! Messages, envelopes and batches.
ghost use Rattle.std.specs.Prelude.{◌≡◌, ◌+◌, ◌<◌, [], length, IfOk};
ghost use Rattle.node_wire.specs.Errors.{Gives};
ghost use Rattle.node_wire.specs.Reading.{statement_at, answer_at, named_boot_at, commit_at, told_msg_at, abort_at, commit_two_at, prepare_at, vote_msg_at, decide_at, acked_at, recover_at, msg_by, whole, envelope_of, code_at, one_to, length_at, batched_at, each_at, counted_at, batch_of};

use crate::answers::read_outcome;
use crate::causes::{read_told, read_vote};
use crate::error::WireErr;
use crate::fields::{read_decision, read_named, read_node, read_parts, read_tag};
use crate::numbers::{fault, read_count, read_u8, read_u16, read_u32, read_u64, start_of};
use crate::operations::read_op;
use std::alloc::Global;
use txn_types::{
    Abort, Acked, Answer, Commit, CommitTwo, Decide, Envelope, Lsid, Msg, Outcome, Prepare,
    Recover, Statement, Tag, Ts, Vote,
};

#[tactic(auto, unfolding(crate::specs::Reading::statement_at))]
fn read_statement(alloc: Global, end: u64, bytes: &[u8]) -> Result<(Msg, &[u8]), WireErr>
    ensures { Gives (λ x. (x.0, x.1.now)) result (statement_at end bytes.now) }
{
    let ((tag, lsid, number), rest) = read_named(end, bytes)?;
    let (k, rest) = read_u32(end, rest)?;
    let (read_at, rest) = read_u64(end, rest)?;
    let (boot, rest) = read_u32(end, rest)?;
    let (op, rest) = read_op(alloc, end, rest)?;
    let statement = Statement {
        tag,
        lsid,
        number,
        k,
        read_at: Ts(read_at),
        boot,
        op,
    };
    Ok((Msg::Statement(statement), rest))
}

#[tactic(auto, unfolding(crate::specs::Reading::answer_at))]
fn read_answer(alloc: Global, end: u64, bytes: &[u8]) -> Result<(Msg, &[u8]), WireErr>
    ensures { Gives (λ x. (x.0, x.1.now)) result (answer_at end bytes.now) }
{
    let (tag, rest) = read_tag(end, bytes)?;
    let (k, rest) = read_u32(end, rest)?;
    let (shard, rest) = read_u16(end, rest)?;
    let (boot, rest) = read_u32(end, rest)?;
    let (read_at, rest) = read_u64(end, rest)?;
    let (outcome, rest) = read_outcome(alloc, end, rest)?;
    let answer = Answer {
        tag,
        k,
        shard,
        boot,
        read_at: Ts(read_at),
        outcome,
    };
    Ok((Msg::Answer(answer), rest))
}

/// A transaction, and the boot of the shard that the message goes to.
#[tactic(auto, unfolding(crate::specs::Reading::named_boot_at))]
fn read_named_boot(end: u64, bytes: &[u8]) -> Result<((Tag, Lsid, i64), u32, &[u8]), WireErr>
    ensures { Gives (λ x. ((x.0, x.1), x.2.now)) result (named_boot_at end bytes.now) }
{
    let (named, rest) = read_named(end, bytes)?;
    let (boot, rest) = read_u32(end, rest)?;
    Ok((named, boot, rest))
}

#[tactic(auto, unfolding(crate::specs::Reading::commit_at))]
fn read_commit(end: u64, bytes: &[u8]) -> Result<(Msg, &[u8]), WireErr>
    ensures { Gives (λ x. (x.0, x.1.now)) result (commit_at end bytes.now) }
{
    let ((tag, lsid, number), boot, rest) = read_named_boot(end, bytes)?;
    let commit = Commit {
        tag,
        lsid,
        number,
        boot,
    };
    Ok((Msg::Commit(commit), rest))
}

#[tactic(auto, unfolding(crate::specs::Reading::told_msg_at))]
fn read_told_msg(alloc: Global, end: u64, bytes: &[u8]) -> Result<(Msg, &[u8]), WireErr>
    ensures { Gives (λ x. (x.0, x.1.now)) result (told_msg_at end bytes.now) }
{
    let (tag, rest) = read_tag(end, bytes)?;
    let (shard, rest) = read_u16(end, rest)?;
    let (boot, rest) = read_u32(end, rest)?;
    let (told, rest) = read_told(alloc, end, rest)?;
    let outcome = Outcome {
        tag,
        shard,
        boot,
        told,
    };
    Ok((Msg::Outcome(outcome), rest))
}

#[tactic(auto, unfolding(crate::specs::Reading::abort_at))]
fn read_abort(end: u64, bytes: &[u8]) -> Result<(Msg, &[u8]), WireErr>
    ensures { Gives (λ x. (x.0, x.1.now)) result (abort_at end bytes.now) }
{
    let ((tag, lsid, number), rest) = read_named(end, bytes)?;
    let (why, rest) = read_u8(end, rest)?;
    let abort = Abort {
        tag,
        lsid,
        number,
        why,
    };
    Ok((Msg::Abort(abort), rest))
}

#[tactic(auto, unfolding(crate::specs::Reading::commit_two_at))]
fn read_commit_two(alloc: Global, end: u64, bytes: &[u8]) -> Result<(Msg, &[u8]), WireErr>
    ensures { Gives (λ x. (x.0, x.1.now)) result (commit_two_at end bytes.now) }
{
    let ((tag, lsid, number), boot, rest) = read_named_boot(end, bytes)?;
    let (parts, rest) = read_parts(alloc, end, rest)?;
    let commit = CommitTwo {
        tag,
        lsid,
        number,
        boot,
        parts,
    };
    Ok((Msg::CommitTwo(commit), rest))
}

#[tactic(auto, unfolding(crate::specs::Reading::prepare_at))]
fn read_prepare(end: u64, bytes: &[u8]) -> Result<(Msg, &[u8]), WireErr>
    ensures { Gives (λ x. (x.0, x.1.now)) result (prepare_at end bytes.now) }
{
    let ((tag, lsid, number), boot, rest) = read_named_boot(end, bytes)?;
    let (coordinator, rest) = read_u16(end, rest)?;
    let prepare = Prepare {
        tag,
        lsid,
        number,
        boot,
        coordinator,
    };
    Ok((Msg::Prepare(prepare), rest))
}

#[tactic(auto, unfolding(crate::specs::Reading::vote_msg_at))]
fn read_vote_msg(alloc: Global, end: u64, bytes: &[u8]) -> Result<(Msg, &[u8]), WireErr>
    ensures { Gives (λ x. (x.0, x.1.now)) result (vote_msg_at end bytes.now) }
{
    let (tag, rest) = read_tag(end, bytes)?;
    let (shard, rest) = read_u16(end, rest)?;
    let (vote, rest) = read_vote(alloc, end, rest)?;
    Ok((Msg::Vote(Vote { tag, shard, vote }), rest))
}

#[tactic(auto, unfolding(crate::specs::Reading::decide_at))]
fn read_decide(end: u64, bytes: &[u8]) -> Result<(Msg, &[u8]), WireErr>
    ensures { Gives (λ x. (x.0, x.1.now)) result (decide_at end bytes.now) }
{
    let ((tag, lsid, number), rest) = read_named(end, bytes)?;
    match read_decision(end, rest) {
        Ok((decision, rest)) => {
            let decide = Decide {
                tag,
                lsid,
                number,
                decision,
            };
            Ok((Msg::Decide(decide), rest))
        }
        Err(error) => Err(error),
    }
}

#[tactic(auto, unfolding(crate::specs::Reading::acked_at))]
fn read_acked(end: u64, bytes: &[u8]) -> Result<(Msg, &[u8]), WireErr>
    ensures { Gives (λ x. (x.0, x.1.now)) result (acked_at end bytes.now) }
{
    let (tag, rest) = read_tag(end, bytes)?;
    let (shard, rest) = read_u16(end, rest)?;
    Ok((Msg::Acked(Acked { tag, shard }), rest))
}

#[tactic(auto, unfolding(crate::specs::Reading::recover_at))]
fn read_recover(end: u64, bytes: &[u8]) -> Result<(Msg, &[u8]), WireErr>
    ensures { Gives (λ x. (x.0, x.1.now)) result (recover_at end bytes.now) }
{
    let ((tag, lsid, number), boot, rest) = read_named_boot(end, bytes)?;
    let recover = Recover {
        tag,
        lsid,
        number,
        boot,
    };
    Ok((Msg::Recover(recover), rest))
}

/// The message of this kind.
#[tactic(auto, unfolding(crate::specs::Reading::msg_by))]
fn read_msg(alloc: Global, kind: u8, end: u64, bytes: &[u8]) -> Result<(Msg, &[u8]), WireErr>
    ensures { Gives (λ x. (x.0, x.1.now)) result (msg_by kind end bytes.now) }
{
    match kind {
        1 => read_statement(alloc, end, bytes),
        2 => read_answer(alloc, end, bytes),
        3 => read_commit(end, bytes),
        4 => read_told_msg(alloc, end, bytes),
        5 => read_abort(end, bytes),
        6 => read_commit_two(alloc, end, bytes),
        7 => read_prepare(end, bytes),
        8 => read_vote_msg(alloc, end, bytes),
        9 => read_decide(end, bytes),
        10 => read_acked(end, bytes),
        11 => read_recover(end, bytes),
        _ => Ok((Msg::Nudge, bytes)),
    }
}

/// The envelope, where nothing is left after it.
fn complete(end: u64, envelope: Envelope, rest: &[u8]) -> Result<Envelope, WireErr>
    ensures { Gives (λ e. e) result (whole end envelope rest.now) }
{
    if !rest.is_empty() {
        return Err(fault(end, rest));
    }
    Ok(envelope)
}

/// The envelope of this kind that is all of the bytes.
#[tactic(auto, unfolding(crate::specs::Reading::envelope_of))]
pub fn read_envelope(alloc: Global, kind: u8, end: u64, bytes: &[u8]) -> Result<Envelope, WireErr>
    ensures { Gives (λ e. e) result (envelope_of kind end bytes.now) }
{
    let (from, rest) = read_node(end, bytes)?;
    let (to, rest) = read_node(end, rest)?;
    let (time, rest) = read_u64(end, rest)?;
    let (msg, rest) = read_msg(alloc, kind, end, rest)?;
    let envelope = Envelope {
        from,
        to,
        time: Ts(time),
        msg,
    };
    complete(end, envelope, rest)
}

/// The length of an envelope in a batch.
#[tactic(auto, unfolding(crate::specs::Reading::length_at))]
fn read_length(end: u64, bytes: &[u8]) -> Result<(usize, &[u8]), WireErr>
    ensures found { Gives (λ x. (x.0, x.1.now)) result (length_at end bytes.now) }
    ensures within { IfOk result (λ x. x.0 < length x.1.now) }
{
    let (count, rest) = read_u32(end, bytes)?;
    let count = count as usize;
    if count < rest.len() {
        Ok((count, rest))
    } else {
        Err(fault(end, bytes))
    }
}

/// The kind of an envelope in a batch.
#[tactic(auto, unfolding(crate::specs::Reading::code_at))]
fn read_kind(end: u64, bytes: &[u8]) -> Result<(u8, &[u8]), WireErr>
    ensures kind { Gives (λ x. (x.0, x.1.now)) result (code_at (one_to 12) end bytes.now) }
    ensures one { IfOk result (λ x. length bytes.now ≡ length x.1.now + 1) }
{
    match bytes.split_first() {
        Some((byte, rest)) => {
            if 1 <= *byte && *byte <= 12 {
                Ok((*byte, rest))
            } else {
                Err(fault(end, bytes))
            }
        }
        None => Err(WireErr::Field { at: end }),
    }
}

#[tactic(auto, unfolding(crate::specs::Reading::batched_at))]
fn read_batched(alloc: Global, end: u64, bytes: &[u8]) -> Result<(Envelope, &[u8]), WireErr>
    ensures { Gives (λ x. (x.0, x.1.now)) result (batched_at end bytes.now) }
{
    let (count, rest) = read_length(end, bytes)?;
    let (kind, rest) = read_kind(end, rest)?;
    let (own, rest) = rest.split_at(count);
    let envelope = read_envelope(alloc, kind, start_of(end, rest), own)?;
    Ok((envelope, rest))
}

/// So many envelopes.
fn read_each_batched(
    alloc: Global,
    count: usize,
    end: u64,
    bytes: &[u8],
) -> Result<(Vec<Envelope>, &[u8]), WireErr>
    ensures { Gives (λ x. (x.0.items, x.1.now)) result
        (each_at (batched_at end) count [] bytes.now) }
{
    let mut envelopes = Vec::new(alloc);
    let mut rest = bytes;
    for _ in 0..count {
        let (envelope, after) = read_batched(alloc, end, rest)?;
        envelopes.push(envelope)?;
        rest = after;
    }
    Ok((envelopes, rest))
}

/// The envelopes of a batch that is all of the bytes.
#[tactic(auto, unfolding(crate::specs::Reading::batch_of, crate::specs::Reading::counted_at))]
pub fn read_batch(alloc: Global, bytes: &[u8]) -> Result<Vec<Envelope>, WireErr>
    ensures { Gives (λ v. v.items) result (batch_of bytes.now) }
{
    let end = bytes.len() as u64;
    let (count, rest) = read_count(end, bytes)?;
    let (envelopes, rest) = read_each_batched(alloc, count, end, rest)?;
    if !rest.is_empty() {
        return Err(fault(end, rest));
    }
    Ok(envelopes)
}
