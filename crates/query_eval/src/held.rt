ghost use Rattle.std.specs.Prelude.{◌≡◌, length, IfOk, IfErr, OnOk};
ghost use Rattle.std.specs.List.{HoldsAt};
ghost use Rattle.std.specs.List.Sorted.{IsSearchInRange, IsPartitionPoint};
ghost use Rattle.std.specs.Option.{option_copied};
ghost use Rattle.std.specs.declared.cmp.Ordering.TheVariants.{Less, Equal, Greater};
ghost use Rattle.txn_types.specs.Order.{id_cmp};
ghost use Rattle.txn_semantics.specs.Rows.{IsRising, put_row, delete_row, holds_id};
ghost use Rattle.query_eval.specs.Held.{doc_in, rows_in};

use bson_core::Doc;
use std::alloc::AllocError;
use std::cmp::Ordering;
use txn_types::Id;

/// What stands under an id.
#[derive(Drop)]
pub enum Held<'a> {
    /// A document that the caller lends.
    Lent(&'a Doc),
    /// A document of its own.
    Own(Doc),
    /// No document.
    Nothing,
}

impl<'a> Held<'a> {
    /// The document, where there is one.
    pub fn doc(&self) -> Option<&Doc>
        ensures { option_copied result ≡ doc_in self.now }
    {
        match self {
            Held::Lent(doc) => Some(*doc),
            Held::Own(doc) => Some(doc),
            Held::Nothing => None,
        }
    }
}

/// Where the id stands in a list that rises by id, or where it belongs.
pub fn place_of(rows: &[(Id, Held<'_>)], id: &Id) -> Result<usize, usize>
    requires { IsRising rows.now }
    ensures within { IsSearchInRange result (length rows.now) }
    ensures there { IfOk result (HoldsAt (λ row. id_cmp row.0 id.now ≡ Equal) rows.now) }
    ensures between { IfErr result (IsPartitionPoint (λ row. id_cmp row.0 id.now ≡ Less)
        (λ row. id_cmp row.0 id.now ≡ Greater) rows.now) }
{
    let mut low = 0;
    let mut high = rows.len();
    while low < high {
        let middle = low + (high - low) / 2;
        match rows[middle].0.compare(id) {
            Ordering::Less => low = middle + 1,
            Ordering::Equal => return Ok(middle),
            Ordering::Greater => high = middle,
        }
    }
    Err(low)
}

/// Puts what is held under the id, in place of what stood there, in a list that rises by id.
pub fn put<'a>(rows: &mut Vec<(Id, Held<'a>)>, id: Id, held: Held<'a>) -> Result<(), AllocError>
    requires { IsRising rows.old.items }
    ensures { OnOk result (rows.new.items ≡ put_row id held.entry rows.old.items) }
{
    match place_of(rows, &id) {
        Ok(at) => rows[at] = (id, held),
        Err(at) => rows.insert(at, (id, held))?,
    }
    Ok(())
}

/// Takes out what stands under the id, in a list that rises by id.
pub fn take_out(rows: &mut Vec<(Id, Held<'_>)>, id: &Id)
    requires { IsRising rows.old.items }
    ensures { rows.new.items ≡ delete_row id.now rows.old.items }
{
    match place_of(rows, id) {
        Ok(at) => {
            rows.remove(at);
        }
        Err(_at) => {}
    }
}

/// Whether a document stands under the id, in a list that rises by id.
pub fn holds(rows: &[(Id, Held<'_>)], id: &Id) -> bool
    requires { IsRising rows.now }
    ensures { result ≡ holds_id id.now (rows_in rows.now) }
{
    match place_of(rows, id) {
        Ok(at) => rows[at].1.doc().is_some(),
        Err(_at) => false,
    }
}
