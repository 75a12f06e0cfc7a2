//! What a step gives out, as envelopes and as bytes.
ghost use Rattle.std.specs.Prelude.{◌≡◌, ◌++◌, map, IfOk, OnOk};
ghost use Rattle.client_reply.specs.Replies.{FitsReply};
ghost use Rattle.txn_types.specs.Letters.{all_sent_by};
ghost use Rattle.txn_types.specs.declared.node.NodeId.TheVariants.{Router};
ghost use Rattle.router_rules.specs.Safe.{AllFit};
ghost use Rattle.router_plan.specs.Spelling.{letter_of, spelled};

use bson_core::Bytes;
use client_reply::write_reply;
use op_msg::write_frame;
use router_state::Sent;
use sqlite_items::Items;
use std::alloc::{AllocError, Global};
use txn_types::{Envelope, Envelopes, Msg, NodeId, Replies, Ts};

/// Adds the messages, sent by the router at this time.
fn push_sent(
    alloc: Global,
    router: u16,
    time: Ts,
    posts: &[(u16, Msg)],
    out: &mut Envelopes,
) -> Result<(), AllocError>
    ensures { OnOk result
        (out.new ≡ out.old ++ all_sent_by (Router router) time (map letter_of posts.now)) }
{
    for (shard, msg) in posts {
        out.push(Envelope {
            from: NodeId::Router(router),
            to: NodeId::Shard(*shard),
            time,
            msg: msg.copy(alloc)?,
        })?;
    }
    Ok(())
}

/// The messages as envelopes of the router: first aborts, then the others.
pub fn envelopes(
    alloc: Global,
    router: u16,
    time: Ts,
    aborts: &[(u16, Msg)],
    sends: &[(u16, Msg)],
) -> Result<Envelopes, AllocError>
    ensures { IfOk result
        (λ e. e ≡ all_sent_by (Router router) time (map letter_of (aborts.now ++ sends.now))) }
{
    let mut out = Items::new(alloc);
    push_sent(alloc, router, time, aborts, &mut out)?;
    push_sent(alloc, router, time, sends, &mut out)?;
    Ok(out)
}

/// The bytes of a reply, at the router's time after the step. A reply of more than 400,000,000
/// bytes finds no memory.
fn spelled(alloc: Global, time: Ts, sent: &Sent) -> Result<Bytes, AllocError>
    requires { FitsReply sent.now.reply }
    ensures { IfOk result (λ b. (sent.now.conn, b) ≡ spelled time sent.now) }
{
    let frame = write_reply(alloc, &sent.reply, sent.request, sent.legacy, time)?;
    let mut bytes = Vec::new(alloc);
    match write_frame(alloc, &frame, &mut bytes) {
        Ok(()) => Ok(Bytes::new(bytes)),
        Err(_error) => Err(AllocError),
    }
}

/// The bytes of the replies, each to its connection.
pub fn all_spelled(alloc: Global, time: Ts, replies: &[Sent]) -> Result<Replies, AllocError>
    requires { AllFit replies.now }
    ensures { IfOk result (λ r. r ≡ map (spelled time) replies.now) }
{
    let mut all = Items::new(alloc);
    for sent in replies {
        all.push((sent.conn, spelled(alloc, time, sent)?))?;
    }
    Ok(all)
}
