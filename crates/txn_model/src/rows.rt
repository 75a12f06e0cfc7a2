ghost use Rattle.std.specs.Prelude.{◌≡◌, length, IfOk, IfErr, OnOk, OnErr};
ghost use Rattle.std.specs.List.{HoldsAt};
ghost use Rattle.std.specs.List.Sorted.{IsSearchInRange, IsPartitionPoint};
ghost use Rattle.std.specs.declared.cmp.Ordering.TheVariants.{Less, Equal, Greater};
ghost use Rattle.txn_types.specs.Order.{id_cmp};
ghost use Rattle.txn_semantics.specs.Rows.{IsRising, put_row, delete_row};

use bson_core::Doc;
use std::alloc::AllocError;
use txn_types::Id;

/// Where the id stands in rows that rise by id, or where it belongs.
fn place_of(rows: &[(Id, Doc)], id: &Id) -> Result<usize, usize>
    requires { IsRising rows.now }
    ensures within { IsSearchInRange result (length rows.now) }
    ensures there { IfOk result (HoldsAt (λ row. id_cmp row.0 id.now ≡ Equal) rows.now) }
    ensures between { IfErr result (IsPartitionPoint (λ row. id_cmp row.0 id.now ≡ Less)
        (λ row. id_cmp row.0 id.now ≡ Greater) rows.now) }
{
    rows.binary_search_by(|(key, _)| key.compare(id))
}

/// Puts the document under the id, in place of what stood there, in rows that rise by id.
pub fn put(rows: &mut Vec<(Id, Doc)>, id: Id, doc: Doc) -> Result<(), AllocError>
    requires { IsRising rows.old.items }
    ensures ok { OnOk result (rows.new.items ≡ put_row id doc rows.old.items) }
    ensures err { OnErr result (rows.new.items ≡ rows.old.items) }
{
    match place_of(rows, &id) {
        Ok(at) => rows[at] = (id, doc),
        Err(at) => rows.insert(at, (id, doc))?,
    }
    Ok(())
}

/// Takes out what stands under the id, in rows that rise by id.
pub fn take_out(rows: &mut Vec<(Id, Doc)>, id: &Id)
    requires { IsRising rows.old.items }
    ensures { rows.new.items ≡ delete_row id.now rows.old.items }
{
    match place_of(rows, id) {
        Ok(at) => {
            rows.remove(at);
        }
        Err(_at) => {}
    }
}
