ghost use Rattle.std.specs.Prelude.{◌≡◌, ◌≤◌, map, length, IfOk};
ghost use Rattle.txn_types.specs.Limits.{most_batch};
ghost use Rattle.bson_core.specs.declared.value.Value.TheViews.{out-Value};
ghost use Rattle.crud_parse.specs.Results.{Gives, each};
ghost use Rattle.command_parse.specs.Commands.{list_name};
ghost use Rattle.command_parse.specs.Values.{document_in};
ghost use Rattle.command_parse.specs.Checks.{or_wrong};
ghost use Rattle.command_parse.specs.Items.{InBody, InSection, documents_in, of_batch_size, batch_in};

use crate::rules::Batch;
use crate::values::document_in;
use bson_core::{Doc, Value};
use crud_parse::CrudErr;
use std::alloc::Global;

/// A batch has no more documents: the manual's `maxWriteBatchSize`.
const MAX_WRITE_BATCH_SIZE: usize = 100_000;

/// The documents that the values are.
fn read_documents<'a>(
    alloc: Global,
    batch: Batch,
    values: &'a [Value],
) -> Result<Vec<&'a Doc>, CrudErr>
    ensures { Gives (λ docs. map (λ doc. doc.now) docs.items) result
        (each (λ value. or_wrong (list_name batch) (document_in (out-Value value))) values.now) }
{
    let mut docs = Vec::new(alloc);
    for value in values {
        let Some(doc) = document_in(value) else {
            return Err(CrudErr::WrongKind {
                name: batch.name(alloc)?,
            });
        };
        docs.push(doc)?;
    }
    Ok(docs)
}

/// These documents, where they are 1 to 100,000.
fn of_batch_size<'a>(
    alloc: Global,
    batch: Batch,
    docs: Vec<&'a Doc>,
) -> Result<Vec<&'a Doc>, CrudErr>
    ensures docs { Gives (λ docs. map (λ doc. doc.now) docs.items) result
        (of_batch_size (list_name batch) (map (λ doc. doc.now) docs.entry.items)) }
    ensures most { IfOk result (λ docs. length docs.items ≤ most_batch) }
{
    if docs.is_empty() || docs.len() > MAX_WRITE_BATCH_SIZE {
        return Err(CrudErr::WrongKind {
            name: batch.name(alloc)?,
        });
    }
    Ok(docs)
}

/// The documents of the batch in its field's value.
pub fn batch_in_value<'a>(
    alloc: Global,
    batch: Batch,
    value: &'a Value,
) -> Result<Vec<&'a Doc>, CrudErr>
    ensures docs { Gives (λ docs. map (λ doc. doc.now) docs.items) result
        (batch_in batch (InBody value.now)) }
    ensures most { IfOk result (λ docs. length docs.items ≤ most_batch) }
{
    match value {
        Value::List(list) => {
            let docs = read_documents(alloc, batch, list.as_slice())?;
            of_batch_size(alloc, batch, docs)
        }
        _ => Err(CrudErr::WrongKind {
            name: batch.name(alloc)?,
        }),
    }
}

/// The documents of the batch in its section.
pub fn batch_in_section<'a>(
    alloc: Global,
    batch: Batch,
    section: &'a [Doc],
) -> Result<Vec<&'a Doc>, CrudErr>
    ensures docs { Gives (λ docs. map (λ doc. doc.now) docs.items) result
        (batch_in batch (InSection section.now)) }
    ensures most { IfOk result (λ docs. length docs.items ≤ most_batch) }
{
    let mut docs = Vec::new(alloc);
    for doc in section {
        docs.push(doc)?;
    }
    of_batch_size(alloc, batch, docs)
}
