//! Fields of records: each reader gives what it found and the bytes after it.
ghost use Rattle.std.specs.Prelude.{◌≡◌, ◌+◌, ◌≤◌, [], length};
ghost use Rattle.journal_rec.specs.Errors.{Gives};
ghost use Rattle.journal_rec.specs.Reading.{tag_at, client_at, own_at, lsid_at, named_at, commit_at, abort_at, decision_at, part_at, parts_at};

use crate::error::RecErr;
use crate::numbers::{
    read_bytes, read_i64, read_u8, read_u16, read_u32, read_u64, read_zeros, start_of,
};
use std::alloc::Global;
use txn_types::{Decision, Lsid, Parts, Tag, Ts};

#[tactic(auto, unfolding(crate::specs::Reading::tag_at))]
pub fn read_tag(bytes: &[u8]) -> Result<(Tag, &[u8]), RecErr>
    ensures { Gives (λ x. (x.0, x.1.now)) result (tag_at bytes.now) }
{
    let (router, rest) = read_u16(bytes)?;
    let (boot, rest) = read_u32(rest)?;
    let (serial, rest) = read_u64(rest)?;
    let tag = Tag {
        router,
        boot,
        serial,
    };
    Ok((tag, rest))
}

/// The bytes of a session that a client named.
#[tactic(auto, unfolding(crate::specs::Reading::client_at, crate::specs::Reading::bytes_at))]
fn read_client(bytes: &[u8]) -> Result<(Lsid, &[u8]), RecErr>
    ensures { Gives (λ x. (x.0, x.1.now)) result (client_at bytes.now) }
{
    let (front, rest) = read_bytes(16, bytes)?;
    let mut id = [0u8; 16];
    id.copy_from_slice(front);
    Ok((Lsid::Client(id), rest))
}

/// The numbers of a connection's own session.
#[tactic(auto, unfolding(crate::specs::Reading::own_at))]
fn read_own(end: u64, bytes: &[u8]) -> Result<(Lsid, &[u8]), RecErr>
    ensures { Gives (λ x. (x.0, x.1.now)) result (own_at end bytes.now) }
{
    let (router, rest) = read_u16(bytes)?;
    let (boot, rest) = read_u32(rest)?;
    let (conn, rest) = read_u32(rest)?;
    let rest = read_zeros(end, 6, rest)?;
    Ok((Lsid::Own { router, boot, conn }, rest))
}

#[tactic(auto, unfolding(crate::specs::Reading::lsid_at))]
fn read_lsid(end: u64, bytes: &[u8]) -> Result<(Lsid, &[u8]), RecErr>
    ensures { Gives (λ x. (x.0, x.1.now)) result (lsid_at end bytes.now) }
{
    let (kind, rest) = read_u8(bytes)?;
    match kind {
        0 => read_client(rest),
        1 => read_own(end, rest),
        _ => Err(RecErr::Field {
            at: start_of(end, bytes),
        }),
    }
}

/// The transaction that a record is of: its tag, its session and the session's number.
#[tactic(auto, unfolding(crate::specs::Reading::named_at))]
pub fn read_named(end: u64, bytes: &[u8]) -> Result<((Tag, Lsid, i64), &[u8]), RecErr>
    ensures { Gives (λ x. (x.0, x.1.now)) result (named_at end bytes.now) }
{
    let (tag, rest) = read_tag(bytes)?;
    let (lsid, rest) = read_lsid(end, rest)?;
    let (number, rest) = read_i64(rest)?;
    Ok(((tag, lsid, number), rest))
}

#[tactic(auto, unfolding(crate::specs::Reading::commit_at))]
fn read_commit(end: u64, bytes: &[u8]) -> Result<(Decision, &[u8]), RecErr>
    ensures { Gives (λ x. (x.0, x.1.now)) result (commit_at end bytes.now) }
{
    let (at, rest) = read_u64(bytes)?;
    let rest = read_zeros(end, 3, rest)?;
    Ok((Decision::Commit(Ts(at)), rest))
}

#[tactic(auto, unfolding(crate::specs::Reading::abort_at))]
fn read_abort(end: u64, bytes: &[u8]) -> Result<(Decision, &[u8]), RecErr>
    ensures { Gives (λ x. (x.0, x.1.now)) result (abort_at end bytes.now) }
{
    let rest = read_zeros(end, 8, bytes)?;
    let (shard, rest) = read_u16(rest)?;
    let (code, rest) = read_u8(rest)?;
    Ok((Decision::Abort { shard, code }, rest))
}

#[tactic(auto, unfolding(crate::specs::Reading::decision_at))]
pub fn read_decision(end: u64, bytes: &[u8]) -> Result<(Decision, &[u8]), RecErr>
    ensures { Gives (λ x. (x.0, x.1.now)) result (decision_at end bytes.now) }
{
    let (kind, rest) = read_u8(bytes)?;
    match kind {
        1 => read_commit(end, rest),
        2 => read_abort(end, rest),
        _ => Err(RecErr::Field {
            at: start_of(end, bytes),
        }),
    }
}

#[tactic(auto, unfolding(crate::specs::Reading::part_at))]
fn read_part(bytes: &[u8]) -> Result<((u16, u32), &[u8]), RecErr>
    ensures { Gives (λ x. (x.0, x.1.now)) result (part_at bytes.now) }
{
    let (shard, rest) = read_u16(bytes)?;
    let (boot, rest) = read_u32(rest)?;
    Ok(((shard, boot), rest))
}

/// So many participants.
pub fn read_parts(alloc: Global, count: u16, bytes: &[u8]) -> Result<(Parts, &[u8]), RecErr>
    ensures { Gives (λ x. (x.0, x.1.now)) result (parts_at count [] bytes.now) }
{
    let mut parts = Parts::new(alloc);
    let mut rest = bytes;
    for _ in 0..count {
        let ((shard, boot), after) = read_part(rest)?;
        parts.push(shard, boot)?;
        rest = after;
    }
    Ok((parts, rest))
}
