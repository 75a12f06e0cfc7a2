//! Replies of shards to statements.
ghost use Rattle.std.specs.Prelude.{◌≡◌, []};
ghost use Rattle.node_wire.specs.Errors.{Gives};
ghost use Rattle.node_wire.specs.Reading.{document_at, each_at, counted_at, cut_at, number_reply_at, rows_at, reply_at, answered_at, outcome_at};

use crate::causes::read_cause;
use crate::contents::{read_document, read_id};
use crate::error::WireErr;
use crate::numbers::{read_count, read_flag, read_one_to, read_u64};
use bson_core::Doc;
use sqlite_items::Items;
use std::alloc::Global;
use txn_types::{Cause, Docs, Id, OpReply};

/// The id at which a list was cut, where it was.
#[tactic(auto, unfolding(crate::specs::Reading::cut_at))]
fn read_cut(alloc: Global, end: u64, bytes: &[u8]) -> Result<(Option<Id>, &[u8]), WireErr>
    ensures { Gives (λ x. (x.0, x.1.now)) result (cut_at end bytes.now) }
{
    let (there, rest) = read_flag(end, bytes)?;
    if !there {
        return Ok((None, rest));
    }
    let (id, rest) = read_id(alloc, end, rest)?;
    Ok((Some(id), rest))
}

#[tactic(auto, unfolding(crate::specs::Reading::number_reply_at))]
fn read_count_reply(end: u64, bytes: &[u8]) -> Result<(OpReply, &[u8]), WireErr>
    ensures { Gives (λ x. (x.0, x.1.now)) result (number_reply_at end bytes.now) }
{
    let (n, rest) = read_u64(end, bytes)?;
    let (modified, rest) = read_u64(end, rest)?;
    Ok((OpReply::Count { n, modified }, rest))
}

/// So many documents.
fn read_each_document(
    alloc: Global,
    count: usize,
    end: u64,
    bytes: &[u8],
) -> Result<(Vec<Doc>, &[u8]), WireErr>
    ensures { Gives (λ x. (x.0.items, x.1.now)) result
        (each_at (document_at end) count [] bytes.now) }
{
    let mut docs = Vec::new(alloc);
    let mut rest = bytes;
    for _ in 0..count {
        let (doc, after) = read_document(alloc, end, rest)?;
        docs.push(doc)?;
        rest = after;
    }
    Ok((docs, rest))
}

#[tactic(auto, unfolding(crate::specs::Reading::counted_at))]
fn read_documents(alloc: Global, end: u64, bytes: &[u8]) -> Result<(Docs, &[u8]), WireErr>
    ensures { Gives (λ x. (x.0, x.1.now)) result (counted_at (document_at end) end bytes.now) }
{
    let (count, rest) = read_count(end, bytes)?;
    let (docs, rest) = read_each_document(alloc, count, end, rest)?;
    Ok((Items::from_vec(docs), rest))
}

#[tactic(auto, unfolding(crate::specs::Reading::rows_at))]
fn read_rows(alloc: Global, end: u64, bytes: &[u8]) -> Result<(OpReply, &[u8]), WireErr>
    ensures { Gives (λ x. (x.0, x.1.now)) result (rows_at end bytes.now) }
{
    let (docs, rest) = read_documents(alloc, end, bytes)?;
    let (cut, rest) = read_cut(alloc, end, rest)?;
    Ok((OpReply::Rows { docs, cut }, rest))
}

#[tactic(auto, unfolding(crate::specs::Reading::reply_at))]
fn read_reply(alloc: Global, end: u64, bytes: &[u8]) -> Result<(OpReply, &[u8]), WireErr>
    ensures { Gives (λ x. (x.0, x.1.now)) result (reply_at end bytes.now) }
{
    let (kind, rest) = read_one_to(2, end, bytes)?;
    if kind == 1 {
        read_count_reply(end, rest)
    } else {
        read_rows(alloc, end, rest)
    }
}

/// A reply, and whether the statement wrote.
#[tactic(auto, unfolding(crate::specs::Reading::answered_at))]
fn read_answered(
    alloc: Global,
    end: u64,
    bytes: &[u8],
) -> Result<(Result<(OpReply, bool), Cause>, &[u8]), WireErr>
    ensures { Gives (λ x. (x.0, x.1.now)) result (answered_at end bytes.now) }
{
    let (reply, rest) = read_reply(alloc, end, bytes)?;
    let (wrote, rest) = read_flag(end, rest)?;
    Ok((Ok((reply, wrote)), rest))
}

#[tactic(auto, unfolding(crate::specs::Reading::outcome_at))]
pub fn read_outcome(
    alloc: Global,
    end: u64,
    bytes: &[u8],
) -> Result<(Result<(OpReply, bool), Cause>, &[u8]), WireErr>
    ensures { Gives (λ x. (x.0, x.1.now)) result (outcome_at end bytes.now) }
{
    let (ok, rest) = read_flag(end, bytes)?;
    if ok {
        read_answered(alloc, end, rest)
    } else {
        let (cause, rest) = read_cause(alloc, end, rest)?;
        Ok((Err(cause), rest))
    }
}
