//! The messages of a coordinator to participants.
ghost use Rattle.std.specs.Prelude.{◌≡◌, IfOk, map};
ghost use Rattle.txn_types.specs.Letters.{sent_by, all_sent_by};
ghost use Rattle.coordinator.specs.TwoPhase.{prepare_to, decide_to};

use crate::plan::Plan;
use std::alloc::{AllocError, Global};
use txn_types::{Decide, Decision, Envelope, Msg, NodeId, Prepare, Tag, Ts};

/// The message that asks a participant to prepare.
fn prepare_letter(from: u16, time: Ts, tag: Tag, plan: &Plan, to: &(u16, u32)) -> Envelope
    ensures { result ≡ sent_by (NodeId.Shard from) time (prepare_to from tag plan.now to.now) }
{
    Envelope {
        from: NodeId::Shard(from),
        to: NodeId::Shard(to.0),
        time,
        msg: Msg::Prepare(Prepare {
            tag,
            lsid: plan.lsid,
            number: plan.number,
            boot: to.1,
            coordinator: from,
        }),
    }
}

/// The messages by which shard `from` asks these participants to prepare, in their order.
pub fn prepares(
    alloc: Global,
    from: u16,
    time: Ts,
    tag: Tag,
    plan: &Plan,
    to: &[(u16, u32)],
) -> Result<Vec<Envelope>, AllocError>
    ensures { IfOk result (λ v. v.items
        ≡ all_sent_by (NodeId.Shard from) time (map (prepare_to from tag plan.now) to.now)) }
{
    let mut letters = Vec::new(alloc);
    for participant in to {
        letters.push(prepare_letter(from, time, tag, plan, participant))?;
    }
    Ok(letters)
}

/// The message that tells a participant the decision.
fn decide_letter(
    from: u16,
    time: Ts,
    tag: Tag,
    plan: &Plan,
    decision: &Decision,
    to: &(u16, u32),
) -> Envelope
    ensures { result
        ≡ sent_by (NodeId.Shard from) time (decide_to tag plan.now decision.now to.now) }
{
    Envelope {
        from: NodeId::Shard(from),
        to: NodeId::Shard(to.0),
        time,
        msg: Msg::Decide(Decide {
            tag,
            lsid: plan.lsid,
            number: plan.number,
            decision: *decision,
        }),
    }
}

/// The messages by which shard `from` tells these participants the decision, in their order.
pub fn decides(
    alloc: Global,
    from: u16,
    time: Ts,
    tag: Tag,
    plan: &Plan,
    decision: &Decision,
    to: &[(u16, u32)],
) -> Result<Vec<Envelope>, AllocError>
    ensures { IfOk result (λ v. v.items
        ≡ all_sent_by (NodeId.Shard from) time (map (decide_to tag plan.now decision.now) to.now)) }
{
    let mut letters = Vec::new(alloc);
    for participant in to {
        letters.push(decide_letter(from, time, tag, plan, decision, participant))?;
    }
    Ok(letters)
}
