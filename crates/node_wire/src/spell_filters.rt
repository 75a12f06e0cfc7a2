//! Writing filters.
ghost use Rattle.std.specs.Prelude.{◌≡◌, ◌++◌, ◌∷◌, [], OnOk};
ghost use Rattle.std.specs.List.{flat_map};
ghost use Rattle.bson_core.specs.Spelling.{bit};
ghost use Rattle.node_wire.specs.Output.{joined};
ghost use Rattle.node_wire.specs.Spelling.{text_bytes, value_bytes, counted, cmp_code, filter_bytes};

use crate::output::Output;
use crate::spell_contents::{put_text, put_value};
use crate::spell_fields::put_count;
use bson_core::{Name, Value};
use std::alloc::{AllocError, Global};
use txn_types::{Cmp, Filter};

fn cmp_code(cmp: Cmp) -> u8
    ensures { result ≡ cmp_code cmp }
{
    match cmp {
        Cmp::Eq => 1,
        Cmp::Ne => 2,
        Cmp::Gt => 3,
        Cmp::Gte => 4,
        Cmp::Lt => 5,
        Cmp::Lte => 6,
    }
}

fn put_each_value(alloc: Global, out: &mut Output, values: &[Value]) -> Result<(), AllocError>
    ensures { OnOk result (out.new ≡ joined out.old (flat_map value_bytes values.now)) }
{
    for value in values {
        put_value(alloc, out, value)?;
    }
    Ok(())
}

#[tactic(auto, using(crate::proofs::Joined::joined_twice))]
fn put_values(alloc: Global, out: &mut Output, values: &[Value]) -> Result<(), AllocError>
    ensures { OnOk result (out.new ≡ joined out.old (counted value_bytes values.now)) }
{
    put_count(out, values.len())?;
    put_each_value(alloc, out, values)
}

#[tactic(auto, using(crate::proofs::Joined::joined_twice))]
fn put_test(
    alloc: Global,
    out: &mut Output,
    name: &Name,
    cmp: Cmp,
    value: &Value,
) -> Result<(), AllocError>
    ensures { OnOk result (out.new
        ≡ joined out.old (4 ∷ text_bytes name.now ++ cmp_code cmp ∷ value_bytes value.now)) }
{
    out.put(&[4])?;
    put_text(out, name.as_str().as_bytes())?;
    out.put(&[cmp_code(cmp)])?;
    put_value(alloc, out, value)
}

/// A filter of this kind, which has a name and values.
#[tactic(auto, using(crate::proofs::Joined::joined_twice))]
fn put_among(
    alloc: Global,
    out: &mut Output,
    kind: u8,
    name: &Name,
    values: &[Value],
) -> Result<(), AllocError>
    ensures { OnOk result
        (out.new ≡ joined out.old (kind ∷ text_bytes name.now ++ counted value_bytes values.now)) }
{
    out.put(&[kind])?;
    put_text(out, name.as_str().as_bytes())?;
    put_values(alloc, out, values)
}

#[tactic(auto, using(crate::proofs::Joined::joined_twice))]
fn put_exists(out: &mut Output, name: &Name, yes: bool) -> Result<(), AllocError>
    ensures { OnOk result (out.new ≡ joined out.old (7 ∷ text_bytes name.now ++ bit yes ∷ [])) }
{
    out.put(&[7])?;
    put_text(out, name.as_str().as_bytes())?;
    out.put(&[u8::from(yes)])
}

#[cycle(put_filter)]
fn put_each_filter(alloc: Global, out: &mut Output, filters: &[Filter]) -> Result<(), AllocError>
    ensures { OnOk result (out.new ≡ joined out.old (flat_map filter_bytes filters.now)) }
{
    for filter in filters {
        put_filter(alloc, out, filter)?;
    }
    Ok(())
}

/// A filter of this kind, which has filters.
#[cycle(put_filter)]
#[tactic(auto, using(crate::proofs::Joined::joined_twice))]
fn put_joined(
    alloc: Global,
    out: &mut Output,
    kind: u8,
    filters: &[Filter],
) -> Result<(), AllocError>
    ensures { OnOk result (out.new ≡ joined out.old (kind ∷ counted filter_bytes filters.now)) }
{
    out.put(&[kind])?;
    put_count(out, filters.len())?;
    put_each_filter(alloc, out, filters)
}

#[cycle(put_filter)]
#[tactic(auto, using(crate::proofs::FilterBytes::bytes_of_filter))]
pub fn put_filter(alloc: Global, out: &mut Output, filter: &Filter) -> Result<(), AllocError>
    ensures { OnOk result (out.new ≡ joined out.old (filter_bytes filter.now)) }
{
    match filter {
        Filter::And(filters) => put_joined(alloc, out, 1, filters.as_slice()),
        Filter::Or(filters) => put_joined(alloc, out, 2, filters.as_slice()),
        Filter::Nor(filters) => put_joined(alloc, out, 3, filters.as_slice()),
        Filter::Test { name, cmp, value } => put_test(alloc, out, name, *cmp, value),
        Filter::In { name, values } => put_among(alloc, out, 5, name, values.as_slice()),
        Filter::Nin { name, values } => put_among(alloc, out, 6, name, values.as_slice()),
        Filter::Exists { name, yes } => put_exists(out, name, *yes),
    }
}
