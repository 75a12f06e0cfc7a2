ghost use Rattle.std.specs.Prelude.{◌≡◌, ◌≤◌, length, map, IfOk, IfSome};
ghost use Rattle.std.specs.Option.{option_copied};
ghost use Rattle.txn_types.specs.Limits.{most_found};
ghost use Rattle.bson_core.specs.Spelling.{spelling};
ghost use Rattle.txn_semantics.specs.Found.{found, first_of, ordered, cut_marks};
ghost use Rattle.txn_semantics.specs.Meaning.{rows_of, document_rules};
ghost use Rattle.txn_semantics.specs.Effect.{matching};
ghost use Rattle.query_eval.specs.Held.{mark_of, some_of, rows_in, fitting_in};

use crate::held::Held;
use crate::rows::wanted;
use bson_core::{Doc, copy_doc, size};
use sqlite_items::Items;
use std::alloc::{AllocError, Global};
use txn_types::{Filter, Id, OpReply};

/// The bytes of documents that fit into one answer.
const ROOM: u64 = 16_000_000;

/// The document, where there is one and it fits.
fn fitting<'r>(held: &'r Held<'_>, room: u64) -> Option<&'r Doc>
    requires { room ≤ most_found }
    ensures doc { option_copied result ≡ fitting_in room held.now }
    ensures fits { IfSome result (λ d. length (spelling d.now) ≤ room) }
{
    let doc = held.doc()?;
    if size(doc) <= room { Some(doc) } else { None }
}

/// The documents from the front that fit, and the id of the next.
fn cut(alloc: Global, marks: &[(Id, Held<'_>)]) -> Result<OpReply, AllocError>
    ensures { IfOk result
        (λ r. r ≡ rows_of (cut_marks document_rules most_found (map mark_of marks.now))) }
{
    let mut docs = Vec::new(alloc);
    let mut room = ROOM;
    for (id, held) in marks {
        let Some(doc) = fitting(held, room) else {
            return Ok(OpReply::Rows {
                docs: Items::from_vec(docs),
                cut: Some(id.copy(alloc)?),
            });
        };
        docs.push(copy_doc(alloc, doc)?)?;
        room -= size(doc);
    }
    Ok(OpReply::Rows {
        docs: Items::from_vec(docs),
        cut: None,
    })
}

/// Rising, or falling.
pub fn ordered<'a>(mut marks: Vec<(Id, Held<'a>)>, down: bool) -> Vec<(Id, Held<'a>)>
    ensures { result.items ≡ ordered down marks.entry.items }
{
    if down {
        marks.reverse();
    }
    marks
}

/// The first so many, or all where the limit is 0.
fn first_of<'a>(mut marks: Vec<(Id, Held<'a>)>, limit: u64) -> Vec<(Id, Held<'a>)>
    ensures { result.items ≡ first_of limit marks.entry.items }
{
    if limit != 0 {
        marks.truncate(limit as usize);
    }
    marks
}

/// The first of these, rising or falling, as far as they fit.
pub fn told(
    alloc: Global,
    marks: Vec<(Id, Held<'_>)>,
    down: bool,
    limit: u64,
) -> Result<OpReply, AllocError>
    ensures { IfOk result (λ r. r ≡ rows_of (cut_marks document_rules most_found
        (first_of limit (ordered down (map mark_of marks.entry.items))))) }
{
    let marks = first_of(ordered(marks, down), limit);
    cut(alloc, &marks)
}

/// The rows that match, rising.
fn matching<'a, 'b>(
    alloc: Global,
    filter: &Filter,
    rows: &'a [(Id, Held<'b>)],
) -> Result<Vec<(Id, Held<'a>)>, AllocError>
    ensures { IfOk result (λ r. map mark_of r.items
        ≡ map some_of (matching document_rules filter.now (rows_in rows.now))) }
{
    let mut marks = Vec::new(alloc);
    for (id, held) in rows {
        let Some(doc) = wanted(filter, held) else {
            continue;
        };
        marks.push((id.copy(alloc)?, Held::Lent(doc)))?;
    }
    Ok(marks)
}

/// The first documents that match, in the order asked for.
pub fn find(
    alloc: Global,
    filter: &Filter,
    down: bool,
    limit: u64,
    rows: &[(Id, Held<'_>)],
) -> Result<OpReply, AllocError>
    ensures { IfOk result (λ r. r
        ≡ rows_of (found document_rules most_found filter.now down limit (rows_in rows.now))) }
{
    let marks = matching(alloc, filter, rows)?;
    told(alloc, marks, down, limit)
}
