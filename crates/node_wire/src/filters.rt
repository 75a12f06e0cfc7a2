//! Filters.
ghost use Rattle.std.specs.Prelude.{◌≡◌, []};
ghost use Rattle.node_wire.specs.Errors.{Gives};
ghost use Rattle.node_wire.specs.Reading.{code_at, cmp_of, test_at, among_at, exists_at, value_at, each_at, counted_at, filter_by, filter_at, filter_levels};
ghost use Rattle.txn_types.specs.declared.filter.Filter.TheVariants as asks;

use crate::contents::{read_name, read_value};
use crate::error::WireErr;
use crate::numbers::{fault, read_count, read_flag, read_one_to, read_u8};
use bson_core::{List, Value};
use sqlite_items::Items;
use std::alloc::Global;
use txn_types::{Cmp, Filter, Filters};

/// Filters in filters go no deeper, the outermost included.
const LEVELS: u32 = 200;

#[tactic(auto, unfolding(crate::specs::Reading::code_at))]
fn read_cmp(end: u64, bytes: &[u8]) -> Result<(Cmp, &[u8]), WireErr>
    ensures { Gives (λ x. (x.0, x.1.now)) result (code_at cmp_of end bytes.now) }
{
    let (byte, rest) = read_u8(end, bytes)?;
    match byte {
        1 => Ok((Cmp::Eq, rest)),
        2 => Ok((Cmp::Ne, rest)),
        3 => Ok((Cmp::Gt, rest)),
        4 => Ok((Cmp::Gte, rest)),
        5 => Ok((Cmp::Lt, rest)),
        6 => Ok((Cmp::Lte, rest)),
        _ => Err(fault(end, bytes)),
    }
}

/// So many values.
fn read_each_value(
    alloc: Global,
    count: usize,
    end: u64,
    bytes: &[u8],
) -> Result<(Vec<Value>, &[u8]), WireErr>
    ensures { Gives (λ x. (x.0.items, x.1.now)) result (each_at (value_at end) count [] bytes.now) }
{
    let mut values = Vec::new(alloc);
    let mut rest = bytes;
    for _ in 0..count {
        let (value, after) = read_value(alloc, end, rest)?;
        values.push(value)?;
        rest = after;
    }
    Ok((values, rest))
}

#[tactic(auto, unfolding(crate::specs::Reading::counted_at))]
fn read_values(alloc: Global, end: u64, bytes: &[u8]) -> Result<(List, &[u8]), WireErr>
    ensures { Gives (λ x. (x.0, x.1.now)) result (counted_at (value_at end) end bytes.now) }
{
    let (count, rest) = read_count(end, bytes)?;
    let (values, rest) = read_each_value(alloc, count, end, rest)?;
    Ok((Items::from_vec(values), rest))
}

#[tactic(auto, unfolding(crate::specs::Reading::test_at))]
fn read_test(alloc: Global, end: u64, bytes: &[u8]) -> Result<(Filter, &[u8]), WireErr>
    ensures { Gives (λ x. (x.0, x.1.now)) result (test_at end bytes.now) }
{
    let (name, rest) = read_name(alloc, end, bytes)?;
    let (cmp, rest) = read_cmp(end, rest)?;
    let (value, rest) = read_value(alloc, end, rest)?;
    Ok((Filter::Test { name, cmp, value }, rest))
}

#[tactic(auto, unfolding(crate::specs::Reading::among_at))]
fn read_in(alloc: Global, end: u64, bytes: &[u8]) -> Result<(Filter, &[u8]), WireErr>
    ensures { Gives (λ x. (x.0, x.1.now)) result (among_at asks.In end bytes.now) }
{
    let (name, rest) = read_name(alloc, end, bytes)?;
    let (values, rest) = read_values(alloc, end, rest)?;
    Ok((Filter::In { name, values }, rest))
}

#[tactic(auto, unfolding(crate::specs::Reading::among_at))]
fn read_not_in(alloc: Global, end: u64, bytes: &[u8]) -> Result<(Filter, &[u8]), WireErr>
    ensures { Gives (λ x. (x.0, x.1.now)) result (among_at asks.Nin end bytes.now) }
{
    let (name, rest) = read_name(alloc, end, bytes)?;
    let (values, rest) = read_values(alloc, end, rest)?;
    Ok((Filter::Nin { name, values }, rest))
}

#[tactic(auto, unfolding(crate::specs::Reading::exists_at))]
fn read_exists(alloc: Global, end: u64, bytes: &[u8]) -> Result<(Filter, &[u8]), WireErr>
    ensures { Gives (λ x. (x.0, x.1.now)) result (exists_at end bytes.now) }
{
    let (name, rest) = read_name(alloc, end, bytes)?;
    let (yes, rest) = read_flag(end, rest)?;
    Ok((Filter::Exists { name, yes }, rest))
}

/// So many filters, each with at most so many levels.
#[cycle(filter)]
fn read_each_filter(
    alloc: Global,
    levels: u32,
    count: usize,
    end: u64,
    bytes: &[u8],
) -> Result<(Vec<Filter>, &[u8]), WireErr>
    ensures { Gives (λ x. (x.0.items, x.1.now)) result
        (each_at (filter_at levels end) count [] bytes.now) }
{
    let mut filters = Vec::new(alloc);
    let mut rest = bytes;
    for _ in 0..count {
        let (filter, after) = read_filter_within(alloc, levels, end, rest)?;
        filters.push(filter)?;
        rest = after;
    }
    Ok((filters, rest))
}

#[cycle(filter)]
#[tactic(auto, unfolding(crate::specs::Reading::counted_at))]
fn read_filters(
    alloc: Global,
    levels: u32,
    end: u64,
    bytes: &[u8],
) -> Result<(Filters, &[u8]), WireErr>
    ensures { Gives (λ x. (x.0, x.1.now)) result (counted_at (filter_at levels end) end bytes.now) }
{
    let (count, rest) = read_count(end, bytes)?;
    let (filters, rest) = read_each_filter(alloc, levels, count, end, rest)?;
    Ok((Items::from_vec(filters), rest))
}

/// A filter of this kind, whose filters have at most so many levels.
#[cycle(filter)]
#[tactic(auto, unfolding(crate::specs::Reading::filter_by, crate::specs::Reading::joined_at))]
fn read_filter_by(
    alloc: Global,
    levels: u32,
    kind: u8,
    end: u64,
    bytes: &[u8],
) -> Result<(Filter, &[u8]), WireErr>
    ensures { Gives (λ x. (x.0, x.1.now)) result
        (filter_by (filter_at levels end) kind end bytes.now) }
{
    match kind {
        1 => {
            let (filters, rest) = read_filters(alloc, levels, end, bytes)?;
            Ok((Filter::And(filters), rest))
        }
        2 => {
            let (filters, rest) = read_filters(alloc, levels, end, bytes)?;
            Ok((Filter::Or(filters), rest))
        }
        3 => {
            let (filters, rest) = read_filters(alloc, levels, end, bytes)?;
            Ok((Filter::Nor(filters), rest))
        }
        4 => read_test(alloc, end, bytes),
        5 => read_in(alloc, end, bytes),
        6 => read_not_in(alloc, end, bytes),
        _ => read_exists(alloc, end, bytes),
    }
}

/// A filter of at most so many levels.
#[cycle(filter)]
#[tactic(auto, unfolding(crate::specs::Reading::filter_at))]
fn read_filter_within(
    alloc: Global,
    levels: u32,
    end: u64,
    bytes: &[u8],
) -> Result<(Filter, &[u8]), WireErr>
    ensures { Gives (λ x. (x.0, x.1.now)) result (filter_at levels end bytes.now) }
{
    if levels == 0 {
        return Err(fault(end, bytes));
    }
    let (kind, rest) = read_one_to(7, end, bytes)?;
    read_filter_by(alloc, levels - 1, kind, end, rest)
}

pub fn read_filter(alloc: Global, end: u64, bytes: &[u8]) -> Result<(Filter, &[u8]), WireErr>
    ensures { Gives (λ x. (x.0, x.1.now)) result (filter_at filter_levels end bytes.now) }
{
    read_filter_within(alloc, LEVELS, end, bytes)
}
