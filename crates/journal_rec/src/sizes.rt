ghost use Rattle.std.specs.Prelude.{◌≡◌, ◌-◌, ◌^◌, length, min};
ghost use Rattle.bson_core.specs.Spelling.{coded, spelling};
ghost use Rattle.txn_types.specs.Ids.{value_of_id, id_document};
ghost use Rattle.journal_rec.specs.Volume.{write_bytes, volume};

use bson_core::size;
use txn_types::{Id, Write};

/// The bytes of the id as a value.
#[tactic(auto, using(bson_core::proofs::Lengths::length_coded, crate::proofs::Bytes::length_value))]
fn value_size(id: &Id) -> u64
    ensures { result ≡ min (length (coded (value_of_id id.now)).1) (2 ^ 64 - 1) }
{
    match id {
        Id::Text(text) => (text.as_str().len() as u64).saturating_add(5),
        Id::Bin(bin) => (bin.bytes.as_slice().len() as u64).saturating_add(5),
        Id::Oid(bytes) => bytes.as_slice().len() as u64,
        Id::Bool(_) => 1,
        Id::Num(_) | Id::Date(_) => 8,
    }
}

/// The bytes of the id as a document: beside its value a count of all bytes, the value's kind, the
/// name and its 00, and a 00 at the end.
#[tactic(auto, using(crate::proofs::Bytes::length_id_document))]
fn id_size(id: &Id) -> u64
    ensures { result ≡ min (length (spelling (id_document id.now))) (2 ^ 64 - 1) }
{
    value_size(id).saturating_add(10)
}

/// The bytes of a write in a record.
fn write_size(write: &Write) -> u64
    ensures { result ≡ min (length (write_bytes write.now)) (2 ^ 64 - 1) }
{
    match write {
        Write::Put { ns, doc, .. } => (ns.as_slice().len() as u64)
            .saturating_add(3)
            .saturating_add(size(doc)),
        Write::Delete { ns, id } => (ns.as_slice().len() as u64)
            .saturating_add(3)
            .saturating_add(id_size(id)),
    }
}

/// The bytes of the writes in a record, with the count in front of them; at most 2^64 - 1. It takes
/// no memory.
#[tactic(auto, unfolding(crate::specs::Volume::volume))]
pub fn volume(writes: &[Write]) -> u64
    ensures { result ≡ volume writes.now }
{
    let mut bytes = 4u64;
    for write in writes {
        bytes = bytes.saturating_add(write_size(write));
    }
    bytes
}
