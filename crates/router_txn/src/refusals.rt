//! Which of the shards' refusals is told.
ghost use Rattle.std.specs.Prelude.{◌≡◌, filter_map, not, find, IfOk};
ghost use Rattle.std.specs.Option.{option_copied};
ghost use Rattle.txn_semantics.specs.Splits.{err_cmp};
ghost use Rattle.router_rules.specs.Statements.{cause_in, err_in, is_err, lesser_err, least_err, winning};

use sqlite_items::Items;
use std::alloc::{AllocError, Global};
use std::cmp::Ordering;
use txn_types::{Answer, Cause, OpErr};

/// The refusals among the answers.
pub fn causes_in(
    alloc: Global,
    answers: &[(u16, Answer)],
) -> Result<Items<(u16, Cause)>, AllocError>
    ensures { IfOk result (λ c. c ≡ filter_map cause_in answers.now) }
{
    let mut causes = Items::new(alloc);
    for (shard, answer) in answers {
        if let Err(cause) = &answer.outcome {
            causes.push((*shard, cause.copy(alloc)?))?;
        }
    }
    Ok(causes)
}

/// The first refusal whose cause isn't the statement's own.
fn first_other(alloc: Global, refusals: &[(u16, Cause)]) -> Result<Option<(u16, Cause)>, AllocError>
    ensures { IfOk result (λ c. c ≡ find (λ refusal. not (is_err refusal)) refusals.now) }
{
    for (shard, cause) in refusals {
        match cause {
            Cause::Statement { .. } => {}
            _ => return Ok(Some((*shard, cause.copy(alloc)?))),
        }
    }
    Ok(None)
}

/// The refusals of the statement itself.
fn errs_in(alloc: Global, refusals: &[(u16, Cause)]) -> Result<Items<(u16, OpErr)>, AllocError>
    ensures { IfOk result (λ e. e ≡ filter_map err_in refusals.now) }
{
    let mut errs = Items::new(alloc);
    for (shard, cause) in refusals {
        if let Cause::Statement { err } = cause {
            errs.push((*shard, err.copy(alloc)?))?;
        }
    }
    Ok(errs)
}

/// Errors by index, and then by id.
fn err_cmp(e: &OpErr, f: &OpErr) -> Ordering
    ensures { result ≡ err_cmp e.now f.now }
{
    e.index.cmp(&f.index).then(e.id.compare(&f.id))
}

/// The first of an error and of what may be another.
fn lesser<'a>(e: &'a (u16, OpErr), other: Option<&'a (u16, OpErr)>) -> &'a (u16, OpErr)
    ensures { result.now ≡ lesser_err e.now (option_copied other.entry) }
{
    match other {
        Some(f) => { if err_cmp(&f.1, &e.1).is_lt() { f } else { e } }
        None => e,
    }
}

/// The least of these by index and then by id, that of the lowest shard among equals.
fn least_err(errs: &[(u16, OpErr)]) -> Option<&(u16, OpErr)>
    ensures { option_copied result ≡ least_err errs.now }
{
    let mut least = None;
    let mut left = errs.len();
    while left > 0 {
        left -= 1;
        least = Some(lesser(&errs[left], least));
    }
    least
}

/// The refusal that is told: that of the lowest shard whose cause isn't the statement's own, or
/// else the least of these.
pub fn winning(alloc: Global, refusals: &[(u16, Cause)]) -> Result<Option<(u16, Cause)>, AllocError>
    ensures { IfOk result (λ c. c ≡ winning refusals.now) }
{
    if let Some(refusal) = first_other(alloc, refusals)? {
        return Ok(Some(refusal));
    }
    let errs = errs_in(alloc, refusals)?;
    match least_err(errs.as_slice()) {
        Some((shard, err)) => Ok(Some((
            *shard,
            Cause::Statement {
                err: err.copy(alloc)?,
            },
        ))),
        None => Ok(None),
    }
}
