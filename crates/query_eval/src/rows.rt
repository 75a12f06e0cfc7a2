ghost use Rattle.std.specs.Prelude.{◌≡◌, [], map, IfOk, OnOk};
ghost use Rattle.txn_semantics.specs.Effect.{AreKnown};
ghost use Rattle.txn_semantics.specs.Meaning.{document_rules};
ghost use Rattle.txn_semantics.specs.Rows.{IsRising, put_row, delete_row, written, under};
ghost use Rattle.std.specs.Option.{option_copied};
ghost use Rattle.query_eval.specs.Acts.{wanted_in};
ghost use Rattle.query_eval.specs.Held.{rows_in, all_written, write_of, mark_of, some_of};

use crate::filters::matches;
use crate::held::{Held, put, take_out};
use bson_core::Doc;
use std::alloc::{AllocError, Global};
use txn_types::{Filter, Id, Ns, Write, Writes};

/// The rows, lent: no document is copied.
fn lent<'a>(alloc: Global, rows: &'a [(Id, Doc)]) -> Result<Vec<(Id, Held<'a>)>, AllocError>
    ensures lent { IfOk result (λ r. map mark_of r.items ≡ map some_of rows.now) }
    ensures unwritten { IfOk result (λ r. all_written r.items ≡ []) }
{
    let mut held = Vec::new(alloc);
    for (id, doc) in rows {
        held.push((id.copy(alloc)?, Held::Lent(doc)))?;
    }
    Ok(held)
}

/// Puts a document, lent, under its id.
fn lend<'a>(
    alloc: Global,
    rows: &mut Vec<(Id, Held<'a>)>,
    id: &Id,
    doc: &'a Doc,
) -> Result<(), AllocError>
    requires rising { IsRising rows.old.items }
    requires unwritten { all_written rows.old.items ≡ [] }
    ensures rows { OnOk result
        (rows_in rows.new.items ≡ put_row id.now doc.now (rows_in rows.old.items)) }
    ensures rising { OnOk result (IsRising rows.new.items) }
    ensures unwritten { OnOk result (all_written rows.new.items ≡ []) }
{
    let id = id.copy(alloc)?;
    put(rows, id, Held::Lent(doc))?;
    Ok(())
}

/// Takes back what was lent under the id.
fn take_back(rows: &mut Vec<(Id, Held<'_>)>, id: &Id)
    requires rising { IsRising rows.old.items }
    requires unwritten { all_written rows.old.items ≡ [] }
    ensures rows { rows_in rows.new.items ≡ delete_row id.now (rows_in rows.old.items) }
    ensures rising { IsRising rows.new.items }
    ensures unwritten { all_written rows.new.items ≡ [] }
{
    take_out(rows, id);
}

/// Lays a write over rows of the namespace.
fn lay<'a>(
    alloc: Global,
    ns: &Ns,
    rows: &mut Vec<(Id, Held<'a>)>,
    write: &'a Write,
) -> Result<(), AllocError>
    requires rising { IsRising rows.old.items }
    requires unwritten { all_written rows.old.items ≡ [] }
    ensures rows { OnOk result
        (rows_in rows.new.items ≡ written ns.now (rows_in rows.old.items) write.now) }
    ensures rising { OnOk result (IsRising rows.new.items) }
    ensures unwritten { OnOk result (all_written rows.new.items ≡ []) }
{
    match write {
        Write::Put { ns: there, id, doc } => {
            if ns.as_slice() == there.as_slice() {
                lend(alloc, rows, id, doc)?;
            }
            Ok(())
        }
        Write::Delete { ns: there, id } => {
            if ns.as_slice() == there.as_slice() {
                take_back(rows, id);
            }
            Ok(())
        }
    }
}

/// The rows of the namespace under a transaction's own writes. They are lent: no document is
/// copied.
pub fn rows_under<'a>(
    alloc: Global,
    ns: &Ns,
    rows: &'a [(Id, Doc)],
    own: &'a [Write],
) -> Result<Vec<(Id, Held<'a>)>, AllocError>
    requires { IsRising rows.now }
    ensures rows { IfOk result (λ r. rows_in r.items ≡ under ns.now rows.now own.now) }
    ensures rising { IfOk result (λ r. IsRising r.items) }
    ensures unwritten { IfOk result (λ r. all_written r.items ≡ []) }
{
    let mut held = lent(alloc, rows)?;
    for write in own {
        lay(alloc, ns, &mut held, write)?;
    }
    Ok(held)
}

/// The writes to the rows that aren't as they were lent.
pub fn writes_to(alloc: Global, ns: &Ns, rows: Vec<(Id, Held<'_>)>) -> Result<Writes, AllocError>
    requires { AreKnown document_rules (rows_in rows.items) }
    ensures { IfOk result (λ w. w ≡ map (write_of ns.now) (all_written rows.entry.items)) }
{
    let mut writes = Writes::new(alloc);
    for (id, held) in rows {
        match held {
            Held::Lent(_) => {}
            Held::Own(doc) => writes.push(Write::Put {
                ns: ns.copy(alloc)?,
                id,
                doc,
            })?,
            Held::Nothing => writes.push(Write::Delete {
                ns: ns.copy(alloc)?,
                id,
            })?,
        }
    }
    Ok(writes)
}

/// The document, where there is one and the filter wants it.
pub fn wanted<'r>(filter: &Filter, held: &'r Held<'_>) -> Option<&'r Doc>
    ensures { option_copied result ≡ wanted_in filter.now held.now }
{
    let doc = held.doc()?;
    if matches(filter, doc) {
        Some(doc)
    } else {
        None
    }
}
