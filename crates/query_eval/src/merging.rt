ghost use Rattle.std.specs.Prelude.{◌≡◌, [], map, IfOk, IfErr, OnOk};
ghost use Rattle.txn_semantics.specs.Found.{ordered, marks_of, joined};
ghost use Rattle.txn_semantics.specs.Meaning.{document_rules};
ghost use Rattle.txn_semantics.specs.Merge.{n_of, modified_of, found_of, merge_counts, merge};
ghost use Rattle.txn_semantics.specs.Rows.{IsRising, laid_over};
ghost use Rattle.query_eval.specs.Held.{mark_of};
ghost use Rattle.query_eval.specs.declared.error.EvalErr.TheVariants.{Memory};

use crate::counts::counted;
use crate::error::EvalErr;
use crate::finding::{ordered, told};
use crate::held::{Held, put};
use std::alloc::{AllocError, Global};
use txn_types::{Id, Op, OpReply};

fn n_of(part: &OpReply) -> u64
    ensures { result ≡ n_of part.now }
{
    match part {
        OpReply::Count { n, .. } => *n,
        OpReply::Rows { .. } => 0,
    }
}

fn modified_of(part: &OpReply) -> u64
    ensures { result ≡ modified_of part.now }
{
    match part {
        OpReply::Count { modified, .. } => *modified,
        OpReply::Rows { .. } => 0,
    }
}

fn merge_counts(parts: &[OpReply]) -> OpReply
    ensures { result ≡ merge_counts parts.now }
{
    let mut n = 0;
    let mut modified = 0;
    for part in parts {
        n = counted(n, n_of(part));
        modified = counted(modified, modified_of(part));
    }
    OpReply::Count { n, modified }
}

/// What a shard told, document by document, and then the id of its next.
fn marks_of<'a>(alloc: Global, part: &'a OpReply) -> Result<Vec<(Id, Held<'a>)>, AllocError>
    ensures { IfOk result (λ v. map mark_of v.items ≡ marks_of document_rules (found_of part.now)) }
{
    let mut marks = Vec::new(alloc);
    let OpReply::Rows { docs, cut } = part else {
        return Ok(marks);
    };
    for doc in docs.as_slice() {
        let Some(id) = Id::in_doc(alloc, doc)? else {
            continue;
        };
        marks.push((id, Held::Lent(doc)))?;
    }
    let Some(id) = cut else {
        return Ok(marks);
    };
    marks.push((id.copy(alloc)?, Held::Nothing))?;
    Ok(marks)
}

/// Lays the marks of one shard over those before.
fn lay<'a>(all: &mut Vec<(Id, Held<'a>)>, marks: Vec<(Id, Held<'a>)>) -> Result<(), AllocError>
    requires { IsRising all.old.items }
    ensures laid { OnOk result (all.new.items ≡ laid_over all.old.items marks.entry.items) }
    ensures rising { OnOk result (IsRising all.new.items) }
{
    for (id, held) in marks {
        put(all, id, held)?;
    }
    Ok(())
}

fn joined<'a>(
    alloc: Global,
    parts: &'a [OpReply],
    down: bool,
) -> Result<Vec<(Id, Held<'a>)>, AllocError>
    ensures { IfOk result (λ v. map mark_of v.items ≡ joined []
        (map (λ told. ordered down (marks_of document_rules told)) (map found_of parts.now))) }
{
    let mut all = Vec::new(alloc);
    for part in parts {
        let marks = ordered(marks_of(alloc, part)?, down);
        lay(&mut all, marks)?;
    }
    Ok(all)
}

/// The reply over the joined rows of several shards, from what each replied. It is refused for want
/// of memory alone.
pub fn merge(alloc: Global, op: &Op, parts: &[OpReply]) -> Result<OpReply, EvalErr>
    ensures ok { IfOk result (λ r. r ≡ merge op.now parts.now) }
    ensures err { IfErr result (λ e. e ≡ Memory) }
{
    match op {
        Op::Find { down, limit, .. } => {
            let marks = joined(alloc, parts, *down)?;
            Ok(told(alloc, marks, *down, *limit)?)
        }
        Op::Insert { .. } | Op::Update { .. } | Op::Delete { .. } => Ok(merge_counts(parts)),
    }
}
