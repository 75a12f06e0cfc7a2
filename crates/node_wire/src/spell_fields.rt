//! Writing numbers, transactions, nodes, decisions and participants. Each appends its bytes.
ghost use Rattle.std.specs.Prelude.{◌≡◌, ◌≤◌, length, ◌++◌, ◌∷◌, OnOk};
ghost use Rattle.std.specs.List.{flat_map};
ghost use Rattle.node_wire.specs.Output.{joined};
ghost use Rattle.node_wire.specs.Spelling.{half, word, long, signed, tag_bytes, own_bytes, lsid_bytes, named_bytes, node_bytes, decision_bytes, part_bytes, parts_bytes};

use crate::output::Output;
use std::alloc::AllocError;
use txn_types::{Decision, Lsid, NodeId, Parts, Tag};

#[tactic(auto, using(crate::proofs::Joined::joined_twice), unfolding(crate::specs::Spelling::half))]
pub fn put_u16(out: &mut Output, number: u16) -> Result<(), AllocError>
    ensures { OnOk result (out.new ≡ joined out.old (half number)) }
{
    out.put(&number.to_le_bytes())
}

#[tactic(auto, using(crate::proofs::Joined::joined_twice), unfolding(crate::specs::Spelling::word))]
pub fn put_u32(out: &mut Output, number: u32) -> Result<(), AllocError>
    ensures { OnOk result (out.new ≡ joined out.old (word number)) }
{
    out.put(&number.to_le_bytes())
}

/// A number of things. There can't be as many as don't fit: they would have more bytes than a
/// message.
#[tactic(auto, unfolding(crate::specs::Spelling::word))]
pub fn put_count(out: &mut Output, count: usize) -> Result<(), AllocError>
    ensures { OnOk result (out.new ≡ joined out.old (word count)) }
{
    let low = (count as u64 & 0xffff_ffff) as u32;
    out.put(&low.to_le_bytes())
}

#[tactic(auto, using(crate::proofs::Joined::joined_twice), unfolding(crate::specs::Spelling::long))]
pub fn put_u64(out: &mut Output, number: u64) -> Result<(), AllocError>
    ensures { OnOk result (out.new ≡ joined out.old (long number)) }
{
    out.put(&number.to_le_bytes())
}

#[tactic(auto, using(crate::proofs::Joined::joined_twice), unfolding(crate::specs::Spelling::signed))]
pub fn put_i64(out: &mut Output, number: i64) -> Result<(), AllocError>
    ensures { OnOk result (out.new ≡ joined out.old (signed number)) }
{
    out.put(&number.to_le_bytes())
}

/// 14 bytes.
#[tactic(auto, using(crate::proofs::Joined::joined_twice), unfolding(crate::specs::Spelling::tag_bytes))]
pub fn put_tag(out: &mut Output, tag: Tag) -> Result<(), AllocError>
    ensures { OnOk result (out.new ≡ joined out.old (tag_bytes tag)) }
{
    put_u16(out, tag.router)?;
    put_u32(out, tag.boot)?;
    put_u64(out, tag.serial)
}

/// 10 bytes.
#[tactic(auto, using(crate::proofs::Joined::joined_twice), unfolding(crate::specs::Spelling::own_bytes))]
fn put_own(out: &mut Output, router: u16, boot: u32, conn: u32) -> Result<(), AllocError>
    ensures { OnOk result (out.new ≡ joined out.old (own_bytes router boot conn)) }
{
    put_u16(out, router)?;
    put_u32(out, boot)?;
    put_u32(out, conn)
}

/// 17 bytes.
#[tactic(auto, using(crate::proofs::Joined::joined_twice), unfolding(crate::specs::Spelling::lsid_bytes))]
fn put_lsid(out: &mut Output, lsid: &Lsid) -> Result<(), AllocError>
    ensures { OnOk result (out.new ≡ joined out.old (lsid_bytes lsid.now)) }
{
    match lsid {
        Lsid::Client(bytes) => {
            out.put(&[0])?;
            out.put(bytes)
        }
        Lsid::Own { router, boot, conn } => {
            out.put(&[1])?;
            put_own(out, *router, *boot, *conn)?;
            out.put(&[0; 6])
        }
    }
}

/// 39 bytes: a transaction.
#[tactic(auto, using(crate::proofs::Joined::joined_twice))]
pub fn put_named(out: &mut Output, tag: Tag, lsid: &Lsid, number: i64) -> Result<(), AllocError>
    ensures { OnOk result (out.new ≡ joined out.old (named_bytes tag lsid.now number)) }
{
    put_tag(out, tag)?;
    put_lsid(out, lsid)?;
    put_i64(out, number)
}

/// 3 bytes.
#[tactic(auto, using(crate::proofs::Joined::joined_twice))]
pub fn put_node(out: &mut Output, node: NodeId) -> Result<(), AllocError>
    ensures { OnOk result (out.new ≡ joined out.old (node_bytes node)) }
{
    match node {
        NodeId::Shard(number) => {
            out.put(&[0])?;
            put_u16(out, number)
        }
        NodeId::Router(number) => {
            out.put(&[1])?;
            put_u16(out, number)
        }
    }
}

/// 12 bytes.
#[tactic(auto, using(crate::proofs::Joined::joined_twice), unfolding(crate::specs::Spelling::decision_bytes))]
pub fn put_decision(out: &mut Output, decision: &Decision) -> Result<(), AllocError>
    ensures { OnOk result (out.new ≡ joined out.old (decision_bytes decision.now)) }
{
    match decision {
        Decision::Commit(at) => {
            out.put(&[1])?;
            put_u64(out, at.0)?;
            out.put(&[0; 3])
        }
        Decision::Abort { shard, code } => {
            out.put(&[2, 0, 0, 0, 0, 0, 0, 0, 0])?;
            put_u16(out, *shard)?;
            out.put(&[*code])
        }
    }
}

/// A participant, in 6 bytes.
#[tactic(auto, using(crate::proofs::Joined::joined_twice), unfolding(crate::specs::Spelling::part_bytes))]
fn put_part(out: &mut Output, part: &(u16, u32)) -> Result<(), AllocError>
    ensures { OnOk result (out.new ≡ joined out.old (part_bytes part.now)) }
{
    put_u16(out, part.0)?;
    put_u32(out, part.1)
}

fn put_each_part(out: &mut Output, parts: &[(u16, u32)]) -> Result<(), AllocError>
    ensures { OnOk result (out.new ≡ joined out.old (flat_map part_bytes parts.now)) }
{
    for part in parts {
        put_part(out, part)?;
    }
    Ok(())
}

#[tactic(auto, using(crate::proofs::Joined::joined_twice))]
fn put_counted_parts(out: &mut Output, parts: &[(u16, u32)]) -> Result<(), AllocError>
    requires { length parts.now ≤ 65535 }
    ensures { OnOk result (out.new ≡ joined out.old (parts_bytes parts.now)) }
{
    put_u16(out, parts.len() as u16)?;
    put_each_part(out, parts)
}

pub fn put_parts(out: &mut Output, parts: &Parts) -> Result<(), AllocError>
    ensures { OnOk result (out.new ≡ joined out.old (parts_bytes parts.now)) }
{
    put_counted_parts(out, parts.as_slice())
}
