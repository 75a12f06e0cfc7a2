ghost use Rattle.std.specs.Prelude.{◌≡◌, IfOk, OnOk};
ghost use Rattle.txn_semantics.specs.Rows.{IsRising, put_row, written, under};
ghost use Rattle.txn_semantics.specs.View.{view};

use crate::rows::{put, take_out};
use bson_core::{Doc, copy_doc};
use std::alloc::{AllocError, Global};
use txn_semantics::Entry;
use txn_types::{Id, Ns, Ts, Write};

/// Puts a copy of the document under its id.
fn keep(alloc: Global, rows: &mut Vec<(Id, Doc)>, id: &Id, doc: &Doc) -> Result<(), AllocError>
    requires { IsRising rows.old.items }
    ensures { OnOk result (rows.new.items ≡ put_row id.now doc.now rows.old.items) }
{
    let id = id.copy(alloc)?;
    let doc = copy_doc(alloc, doc)?;
    put(rows, id, doc)?;
    Ok(())
}

/// Lays a write over rows of the namespace.
fn lay(alloc: Global, ns: &Ns, rows: &mut Vec<(Id, Doc)>, write: &Write) -> Result<(), AllocError>
    requires { IsRising rows.old.items }
    ensures rows { OnOk result (rows.new.items ≡ written ns.now rows.old.items write.now) }
    ensures rising { OnOk result (IsRising rows.new.items) }
{
    match write {
        Write::Put { ns: there, id, doc } => {
            if ns.as_slice() == there.as_slice() {
                keep(alloc, rows, id, doc)?;
            }
            Ok(())
        }
        Write::Delete { ns: there, id } => {
            if ns.as_slice() == there.as_slice() {
                take_out(rows, id);
            }
            Ok(())
        }
    }
}

/// Lays writes over rows of the namespace, one after the other.
fn lay_all(
    alloc: Global,
    ns: &Ns,
    rows: &mut Vec<(Id, Doc)>,
    writes: &[Write],
) -> Result<(), AllocError>
    requires { IsRising rows.old.items }
    ensures rows { OnOk result (rows.new.items ≡ under ns.now rows.old.items writes.now) }
    ensures rising { OnOk result (IsRising rows.new.items) }
{
    for write in writes {
        lay(alloc, ns, rows, write)?;
    }
    Ok(())
}

/// The rows of a namespace at a moment: what the commits at or below it wrote, in their order,
/// rising by id. It goes through all entries, and copies each document that they put.
pub fn view(alloc: Global, entries: &[Entry], at: Ts, ns: &Ns) -> Result<Vec<(Id, Doc)>, AllocError>
    ensures { IfOk result (λ rows. rows.items ≡ view entries.now at ns.now) }
{
    let mut rows = Vec::new(alloc);
    for entry in entries {
        if entry.at <= at {
            lay_all(alloc, ns, &mut rows, entry.writes.as_slice())?;
        }
    }
    Ok(rows)
}
