//! Transactions, nodes, decisions and participants.
ghost use Rattle.std.specs.Prelude.{◌≡◌, ◌≤◌, [], length};
ghost use Rattle.node_wire.specs.Errors.{Gives};
ghost use Rattle.node_wire.specs.Reading.{tag_at, client_at, own_at, lsid_at, named_at, node_of, node_at, committed_at, aborted_at, decision_at, part_at, each_at, parts_at};

use crate::error::WireErr;
use crate::numbers::{
    fault, read_bytes, read_flag, read_i64, read_one_to, read_u8, read_u16, read_u32, read_u64,
    read_zeros,
};
use std::alloc::Global;
use txn_types::{Decision, Lsid, NodeId, Parts, Tag, Ts};

/// Shards have smaller numbers.
const SHARDS: u16 = 64;

/// Routers have smaller numbers.
const ROUTERS: u16 = 8;

#[tactic(auto, unfolding(crate::specs::Reading::tag_at))]
pub fn read_tag(end: u64, bytes: &[u8]) -> Result<(Tag, &[u8]), WireErr>
    ensures { Gives (λ x. (x.0, x.1.now)) result (tag_at end bytes.now) }
{
    let (router, rest) = read_u16(end, bytes)?;
    let (boot, rest) = read_u32(end, rest)?;
    let (serial, rest) = read_u64(end, rest)?;
    let tag = Tag {
        router,
        boot,
        serial,
    };
    Ok((tag, rest))
}

/// The bytes of a session that a client named.
#[tactic(auto, unfolding(crate::specs::Reading::bytes_of))]
fn read_client(end: u64, bytes: &[u8]) -> Result<(Lsid, &[u8]), WireErr>
    ensures { Gives (λ x. (x.0, x.1.now)) result (client_at end bytes.now) }
{
    let (front, rest) = read_bytes(16, end, bytes)?;
    let mut id = [0u8; 16];
    id.copy_from_slice(front);
    Ok((Lsid::Client(id), rest))
}

/// The numbers of a connection's own session.
#[tactic(auto, unfolding(crate::specs::Reading::own_at))]
fn read_own(end: u64, bytes: &[u8]) -> Result<(Lsid, &[u8]), WireErr>
    ensures { Gives (λ x. (x.0, x.1.now)) result (own_at end bytes.now) }
{
    let (router, rest) = read_u16(end, bytes)?;
    let (boot, rest) = read_u32(end, rest)?;
    let (conn, rest) = read_u32(end, rest)?;
    let rest = read_zeros(6, end, rest)?;
    Ok((Lsid::Own { router, boot, conn }, rest))
}

#[tactic(auto, unfolding(crate::specs::Reading::lsid_at))]
fn read_lsid(end: u64, bytes: &[u8]) -> Result<(Lsid, &[u8]), WireErr>
    ensures { Gives (λ x. (x.0, x.1.now)) result (lsid_at end bytes.now) }
{
    let (own, rest) = read_flag(end, bytes)?;
    if own {
        read_own(end, rest)
    } else {
        read_client(end, rest)
    }
}

/// A transaction: its tag, its session and the session's number.
#[tactic(auto, unfolding(crate::specs::Reading::named_at))]
pub fn read_named(end: u64, bytes: &[u8]) -> Result<((Tag, Lsid, i64), &[u8]), WireErr>
    ensures { Gives (λ x. (x.0, x.1.now)) result (named_at end bytes.now) }
{
    let (tag, rest) = read_tag(end, bytes)?;
    let (lsid, rest) = read_lsid(end, rest)?;
    let (number, rest) = read_i64(end, rest)?;
    Ok(((tag, lsid, number), rest))
}

/// A node of this kind and number, where the number isn't too large.
fn node_of(router: bool, number: u16) -> Option<NodeId>
    ensures { result ≡ node_of router number }
{
    if router {
        (number < ROUTERS).then_some(NodeId::Router(number))
    } else {
        (number < SHARDS).then_some(NodeId::Shard(number))
    }
}

#[tactic(auto, unfolding(crate::specs::Reading::node_at))]
pub fn read_node(end: u64, bytes: &[u8]) -> Result<(NodeId, &[u8]), WireErr>
    ensures { Gives (λ x. (x.0, x.1.now)) result (node_at end bytes.now) }
{
    let (router, behind) = read_flag(end, bytes)?;
    let (number, rest) = read_u16(end, behind)?;
    match node_of(router, number) {
        Some(node) => Ok((node, rest)),
        None => Err(fault(end, behind)),
    }
}

#[tactic(auto, unfolding(crate::specs::Reading::committed_at))]
fn read_committed(end: u64, bytes: &[u8]) -> Result<(Decision, &[u8]), WireErr>
    ensures { Gives (λ x. (x.0, x.1.now)) result (committed_at end bytes.now) }
{
    let (at, rest) = read_u64(end, bytes)?;
    let rest = read_zeros(3, end, rest)?;
    Ok((Decision::Commit(Ts(at)), rest))
}

#[tactic(auto, unfolding(crate::specs::Reading::aborted_at))]
fn read_aborted(end: u64, bytes: &[u8]) -> Result<(Decision, &[u8]), WireErr>
    ensures { Gives (λ x. (x.0, x.1.now)) result (aborted_at end bytes.now) }
{
    let rest = read_zeros(8, end, bytes)?;
    let (shard, rest) = read_u16(end, rest)?;
    let (code, rest) = read_u8(end, rest)?;
    Ok((Decision::Abort { shard, code }, rest))
}

#[tactic(auto, unfolding(crate::specs::Reading::decision_at))]
pub fn read_decision(end: u64, bytes: &[u8]) -> Result<(Decision, &[u8]), WireErr>
    ensures { Gives (λ x. (x.0, x.1.now)) result (decision_at end bytes.now) }
{
    let (way, rest) = read_one_to(2, end, bytes)?;
    if way == 1 {
        read_committed(end, rest)
    } else {
        read_aborted(end, rest)
    }
}

#[tactic(auto, unfolding(crate::specs::Reading::part_at))]
fn read_part(end: u64, bytes: &[u8]) -> Result<((u16, u32), &[u8]), WireErr>
    ensures { Gives (λ x. (x.0, x.1.now)) result (part_at end bytes.now) }
{
    let (shard, rest) = read_u16(end, bytes)?;
    let (boot, rest) = read_u32(end, rest)?;
    Ok(((shard, boot), rest))
}

/// So many participants.
fn read_each_part(
    alloc: Global,
    count: u16,
    end: u64,
    bytes: &[u8],
) -> Result<(Parts, &[u8]), WireErr>
    ensures { Gives (λ x. (x.0, x.1.now)) result (each_at (part_at end) count [] bytes.now) }
{
    let mut parts = Parts::new(alloc);
    let mut rest = bytes;
    for _ in 0..count {
        let ((shard, boot), after) = read_part(end, rest)?;
        parts.push(shard, boot)?;
        rest = after;
    }
    Ok((parts, rest))
}

#[tactic(auto, unfolding(crate::specs::Reading::parts_at))]
pub fn read_parts(alloc: Global, end: u64, bytes: &[u8]) -> Result<(Parts, &[u8]), WireErr>
    ensures { Gives (λ x. (x.0, x.1.now)) result (parts_at end bytes.now) }
{
    let (count, rest) = read_u16(end, bytes)?;
    read_each_part(alloc, count, end, rest)
}
