//! Writing messages, envelopes and batches.
ghost use Rattle.std.specs.Prelude.{◌≡◌, ◌++◌, ◌∷◌, [], length, OnOk};
ghost use Rattle.std.specs.List.{flat_map};
ghost use Rattle.node_wire.specs.Output.{joined};
ghost use Rattle.txn_types.specs.declared.message.Msg.TheVariants as msg;
ghost use Rattle.node_wire.specs.Spelling.{half, word, long, tag_bytes, named_bytes, node_bytes, msg_kind, msg_bytes, envelope_bytes, batched_bytes, batch_bytes};

use crate::output::Output;
use crate::spell_causes::{put_outcome, put_told, put_vote};
use crate::spell_fields::{
    put_count, put_decision, put_named, put_node, put_parts, put_tag, put_u16, put_u32, put_u64,
};
use crate::spell_operations::put_op;
use std::alloc::{AllocError, Global};
use txn_types::{
    Abort, Acked, Answer, Commit, CommitTwo, Decide, Envelope, Lsid, Msg, NodeId, Outcome, Prepare,
    Recover, Statement, Tag, Ts, Vote,
};

/// The number of a message's kind.
pub fn msg_kind(msg: &Msg) -> u8
    ensures { result ≡ msg_kind msg.now }
{
    match msg {
        Msg::Statement(_) => 1,
        Msg::Answer(_) => 2,
        Msg::Commit(_) => 3,
        Msg::Outcome(_) => 4,
        Msg::Abort(_) => 5,
        Msg::CommitTwo(_) => 6,
        Msg::Prepare(_) => 7,
        Msg::Vote(_) => 8,
        Msg::Decide(_) => 9,
        Msg::Acked(_) => 10,
        Msg::Recover(_) => 11,
        Msg::Nudge => 12,
    }
}

/// What stands in front of a statement's operation.
#[tactic(auto, using(crate::proofs::Joined::joined_twice))]
fn put_statement_front(out: &mut Output, m: &Statement) -> Result<(), AllocError>
    ensures { OnOk result (out.new ≡ joined out.old (named_bytes m.now.tag m.now.lsid m.now.number
        ++ word m.now.k ++ long m.now.read_at ++ word m.now.boot)) }
{
    put_named(out, m.tag, &m.lsid, m.number)?;
    put_u32(out, m.k)?;
    put_u64(out, m.read_at.0)?;
    put_u32(out, m.boot)
}

#[tactic(auto, using(crate::proofs::Joined::joined_twice))]
fn put_statement(alloc: Global, out: &mut Output, m: &Statement) -> Result<(), AllocError>
    ensures { OnOk result (out.new ≡ joined out.old (msg_bytes (msg.Statement m.now))) }
{
    put_statement_front(out, m)?;
    put_op(alloc, out, &m.op)
}

/// What stands in front of an answer's outcome.
#[tactic(auto, using(crate::proofs::Joined::joined_twice))]
fn put_answer_front(out: &mut Output, m: &Answer) -> Result<(), AllocError>
    ensures { OnOk result (out.new ≡ joined out.old (tag_bytes m.now.tag ++ word m.now.k
        ++ half m.now.shard ++ word m.now.boot ++ long m.now.read_at)) }
{
    put_tag(out, m.tag)?;
    put_u32(out, m.k)?;
    put_u16(out, m.shard)?;
    put_u32(out, m.boot)?;
    put_u64(out, m.read_at.0)
}

#[tactic(auto, using(crate::proofs::Joined::joined_twice))]
fn put_answer(alloc: Global, out: &mut Output, m: &Answer) -> Result<(), AllocError>
    ensures { OnOk result (out.new ≡ joined out.old (msg_bytes (msg.Answer m.now))) }
{
    put_answer_front(out, m)?;
    put_outcome(alloc, out, &m.outcome)
}

/// A transaction, and the boot of the shard that the message goes to.
#[tactic(auto, using(crate::proofs::Joined::joined_twice))]
fn put_named_boot(
    out: &mut Output,
    tag: Tag,
    lsid: &Lsid,
    number: i64,
    boot: u32,
) -> Result<(), AllocError>
    ensures { OnOk result
        (out.new ≡ joined out.old (named_bytes tag lsid.now number ++ word boot)) }
{
    put_named(out, tag, lsid, number)?;
    put_u32(out, boot)
}

/// A transaction's tag and a shard.
#[tactic(auto, using(crate::proofs::Joined::joined_twice))]
fn put_tag_shard(out: &mut Output, tag: Tag, shard: u16) -> Result<(), AllocError>
    ensures { OnOk result (out.new ≡ joined out.old (tag_bytes tag ++ half shard)) }
{
    put_tag(out, tag)?;
    put_u16(out, shard)
}

#[tactic(auto, using(crate::proofs::Joined::joined_twice))]
fn put_outcome_msg(alloc: Global, out: &mut Output, m: &Outcome) -> Result<(), AllocError>
    ensures { OnOk result (out.new ≡ joined out.old (msg_bytes (msg.Outcome m.now))) }
{
    put_tag_shard(out, m.tag, m.shard)?;
    put_u32(out, m.boot)?;
    put_told(alloc, out, &m.told)
}

#[tactic(auto, using(crate::proofs::Joined::joined_twice))]
fn put_abort(out: &mut Output, m: &Abort) -> Result<(), AllocError>
    ensures { OnOk result (out.new ≡ joined out.old (msg_bytes (msg.Abort m.now))) }
{
    put_named(out, m.tag, &m.lsid, m.number)?;
    out.put(&[m.why])
}

#[tactic(auto, using(crate::proofs::Joined::joined_twice))]
fn put_commit(out: &mut Output, m: &Commit) -> Result<(), AllocError>
    ensures { OnOk result (out.new ≡ joined out.old (msg_bytes (msg.Commit m.now))) }
{
    put_named_boot(out, m.tag, &m.lsid, m.number, m.boot)
}

#[tactic(auto, using(crate::proofs::Joined::joined_twice))]
fn put_commit_two(out: &mut Output, m: &CommitTwo) -> Result<(), AllocError>
    ensures { OnOk result (out.new ≡ joined out.old (msg_bytes (msg.CommitTwo m.now))) }
{
    put_named_boot(out, m.tag, &m.lsid, m.number, m.boot)?;
    put_parts(out, &m.parts)
}

#[tactic(auto, using(crate::proofs::Joined::joined_twice))]
fn put_prepare(out: &mut Output, m: &Prepare) -> Result<(), AllocError>
    ensures { OnOk result (out.new ≡ joined out.old (msg_bytes (msg.Prepare m.now))) }
{
    put_named_boot(out, m.tag, &m.lsid, m.number, m.boot)?;
    put_u16(out, m.coordinator)
}

#[tactic(auto, using(crate::proofs::Joined::joined_twice))]
fn put_vote_msg(alloc: Global, out: &mut Output, m: &Vote) -> Result<(), AllocError>
    ensures { OnOk result (out.new ≡ joined out.old (msg_bytes (msg.Vote m.now))) }
{
    put_tag_shard(out, m.tag, m.shard)?;
    put_vote(alloc, out, &m.vote)
}

#[tactic(auto, using(crate::proofs::Joined::joined_twice))]
fn put_decide(out: &mut Output, m: &Decide) -> Result<(), AllocError>
    ensures { OnOk result (out.new ≡ joined out.old (msg_bytes (msg.Decide m.now))) }
{
    put_named(out, m.tag, &m.lsid, m.number)?;
    put_decision(out, &m.decision)
}

#[tactic(auto, using(crate::proofs::Joined::joined_twice))]
fn put_acked(out: &mut Output, m: &Acked) -> Result<(), AllocError>
    ensures { OnOk result (out.new ≡ joined out.old (msg_bytes (msg.Acked m.now))) }
{
    put_tag_shard(out, m.tag, m.shard)
}

#[tactic(auto, using(crate::proofs::Joined::joined_twice))]
fn put_recover(out: &mut Output, m: &Recover) -> Result<(), AllocError>
    ensures { OnOk result (out.new ≡ joined out.old (msg_bytes (msg.Recover m.now))) }
{
    put_named_boot(out, m.tag, &m.lsid, m.number, m.boot)
}

#[tactic(auto, using(crate::proofs::Joined::joined_twice))]
fn put_msg(alloc: Global, out: &mut Output, msg: &Msg) -> Result<(), AllocError>
    ensures { OnOk result (out.new ≡ joined out.old (msg_bytes msg.now)) }
{
    match msg {
        Msg::Statement(m) => put_statement(alloc, out, m),
        Msg::Answer(m) => put_answer(alloc, out, m),
        Msg::Commit(m) => put_commit(out, m),
        Msg::Outcome(m) => put_outcome_msg(alloc, out, m),
        Msg::Abort(m) => put_abort(out, m),
        Msg::CommitTwo(m) => put_commit_two(out, m),
        Msg::Prepare(m) => put_prepare(out, m),
        Msg::Vote(m) => put_vote_msg(alloc, out, m),
        Msg::Decide(m) => put_decide(out, m),
        Msg::Acked(m) => put_acked(out, m),
        Msg::Recover(m) => put_recover(out, m),
        Msg::Nudge => out.put(&[]),
    }
}

/// What stands in front of an envelope's message.
#[tactic(auto, using(crate::proofs::Joined::joined_twice))]
fn put_front(out: &mut Output, from: NodeId, to: NodeId, time: Ts) -> Result<(), AllocError>
    ensures { OnOk result
        (out.new ≡ joined out.old (node_bytes from ++ node_bytes to ++ long time)) }
{
    put_node(out, from)?;
    put_node(out, to)?;
    put_u64(out, time.0)
}

/// What `b` holds of an envelope.
#[tactic(auto, using(crate::proofs::Joined::joined_twice))]
pub fn put_envelope(alloc: Global, out: &mut Output, envelope: &Envelope) -> Result<(), AllocError>
    ensures { OnOk result (out.new ≡ joined out.old (envelope_bytes envelope.now)) }
{
    put_front(out, envelope.from, envelope.to, envelope.time)?;
    put_msg(alloc, out, &envelope.msg)
}

/// The length of an envelope's bytes, its kind, and its bytes.
#[tactic(auto, using(crate::proofs::Joined::joined_twice))]
fn put_length(out: &mut Output, kind: u8, bytes: &[u8]) -> Result<(), AllocError>
    ensures { OnOk result (out.new ≡ joined out.old (word (length bytes.now) ++ kind ∷ bytes.now)) }
{
    put_count(out, bytes.len())?;
    out.put(&[kind])?;
    out.put(bytes)
}

/// An envelope in a batch. Its bytes are written into an output of their own first.
#[tactic(auto, using(crate::proofs::Joined::batched_none, crate::proofs::Joined::kept))]
fn put_batched(alloc: Global, out: &mut Output, envelope: &Envelope) -> Result<(), AllocError>
    ensures { OnOk result (out.new ≡ joined out.old (batched_bytes envelope.now)) }
{
    let mut own = Output::new(alloc);
    put_envelope(alloc, &mut own, envelope)?;
    match own.finish() {
        Some(bytes) => put_length(out, msg_kind(&envelope.msg), bytes.as_slice()),
        None => {
            out.fill();
            Ok(())
        }
    }
}

fn put_each_batched(
    alloc: Global,
    out: &mut Output,
    envelopes: &[Envelope],
) -> Result<(), AllocError>
    ensures { OnOk result (out.new ≡ joined out.old (flat_map batched_bytes envelopes.now)) }
{
    for envelope in envelopes {
        put_batched(alloc, out, envelope)?;
    }
    Ok(())
}

/// What `b` holds of a batch.
#[tactic(auto, using(crate::proofs::Joined::joined_twice))]
pub fn put_batch(alloc: Global, out: &mut Output, envelopes: &[Envelope]) -> Result<(), AllocError>
    ensures { OnOk result (out.new ≡ joined out.old (batch_bytes envelopes.now)) }
{
    put_count(out, envelopes.len())?;
    put_each_batched(alloc, out, envelopes)
}
