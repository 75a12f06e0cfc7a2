//! The list of commits, as it is written.
ghost use Rattle.std.specs.Prelude.{◌≡◌, ◌++◌, string_bytes, IfOk, OnOk};
ghost use Rattle.hex.specs.Hex.{encode_lower};
ghost use Rattle.bson_core.specs.Spelling.{spelling};
ghost use Rattle.txn_types.specs.Ids.{id_document, value_of_id};
ghost use Rattle.txn_semantics.specs.Writes.{place_of};
ghost use Rattle.play_text.specs.Text.{commit_line, write_line, by_shard, dump_text};
ghost use Rattle.play_text.specs.Dump.{kept_by, doc_line, share, lines_of, past_from};

use crate::text::{put_tag, put_time};
use bson_core::{Doc, Name, Value, append};
use chunk_map::ChunkMap;
use sqlite_items::Items;
use std::alloc::{AllocError, Global};
use txn_semantics::Entry;
use txn_types::{Id, Ns, Write};

/// A line on the commit.
fn put_commit(alloc: Global, out: &mut Vec<u8>, entry: &Entry) -> Result<(), AllocError>
    ensures { OnOk result (out.new.items ≡ out.old.items ++ commit_line entry.now) }
{
    out.extend_from_slice(b"commit ")?;
    put_time(alloc, out, entry.at)?;
    out.extend_from_slice(b" tag ")?;
    put_tag(alloc, out, entry.tag)?;
    out.extend_from_slice(b" read ")?;
    put_time(alloc, out, entry.read_at)?;
    out.extend_from_slice(b"\n")
}

/// The digits of a document's bytes.
fn digits_of(alloc: Global, doc: &Doc) -> Result<String, AllocError>
    ensures { IfOk result (λ s. string_bytes s ≡ encode_lower (spelling doc.now)) }
{
    let mut bytes = Vec::new(alloc);
    append(doc, &mut bytes)?;
    hex::encode(alloc, bytes.as_slice())
}

/// The value of an id, where a number is an int64.
fn value_of_id(alloc: Global, id: &Id) -> Result<Value, AllocError>
    ensures { IfOk result (λ v. v ≡ value_of_id id.now) }
{
    match id {
        Id::Num(number) => Ok(Value::Long(*number)),
        Id::Text(text) => Ok(Value::Text(text.copy(alloc)?)),
        Id::Bin(bin) => Ok(Value::Bin(bin.copy(alloc)?)),
        Id::Oid(bytes) => Ok(Value::Oid(*bytes)),
        Id::Bool(flag) => Ok(Value::Bool(*flag)),
        Id::Date(moment) => Ok(Value::Date(*moment)),
    }
}

/// A document that is its id alone.
fn id_document(alloc: Global, id: &Id) -> Result<Doc, AllocError>
    ensures { IfOk result (λ d. d ≡ id_document id.now) }
{
    let mut fields = Vec::new(alloc);
    let name = Name::from_str(alloc, "_id")?;
    fields.push((name, value_of_id(alloc, id)?))?;
    Ok(Items::from_vec(fields))
}

/// A line on a document that was put or deleted, at a shard.
fn put_line(
    alloc: Global,
    out: &mut Vec<u8>,
    word: &str,
    shard: u16,
    ns: &Ns,
    doc: &Doc,
) -> Result<(), AllocError>
    ensures { OnOk result
        (out.new.items ≡ out.old.items ++ doc_line word.now shard ns.now doc.now) }
{
    let digits = digits_of(alloc, doc)?;
    let text = format!(in alloc; "{word} {shard} ")?;
    out.extend_from_slice(text.as_bytes())?;
    out.extend_from_slice(ns.as_slice())?;
    out.extend_from_slice(b" ")?;
    out.extend_from_slice(digits.as_bytes())?;
    out.extend_from_slice(b"\n")
}

/// The shard that keeps a write's document.
fn shard_of(map: &ChunkMap, write: &Write) -> u16
    ensures { result ≡ kept_by map.now (place_of write.now) }
{
    match write {
        Write::Put { ns, id, .. } => map.shard_of(ns, id),
        Write::Delete { ns, id } => map.shard_of(ns, id),
    }
}

/// A line on the write, at a shard.
fn put_write(alloc: Global, out: &mut Vec<u8>, shard: u16, write: &Write) -> Result<(), AllocError>
    ensures { OnOk result (out.new.items ≡ out.old.items ++ write_line shard write.now) }
{
    match write {
        Write::Put { ns, doc, .. } => put_line(alloc, out, "write", shard, ns, doc),
        Write::Delete { ns, id } => {
            let doc = id_document(alloc, id)?;
            put_line(alloc, out, "delete", shard, ns, &doc)
        }
    }
}

/// Lines on the writes whose documents one shard keeps, in their order.
fn put_share(
    alloc: Global,
    out: &mut Vec<u8>,
    map: &ChunkMap,
    shard: u32,
    writes: &[Write],
) -> Result<(), AllocError>
    ensures { OnOk result (out.new.items
        ≡ out.old.items ++ lines_of (kept_by map.now) (share (kept_by map.now) writes.now shard)) }
{
    for write in writes {
        let kept = shard_of(map, write);
        if u32::from(kept) == shard {
            put_write(alloc, out, kept, write)?;
        }
    }
    Ok(())
}

/// One above the greatest shard that keeps a document of these writes; 0 where there are none.
fn past_of(map: &ChunkMap, writes: &[Write]) -> u32
    ensures { result ≡ past_from (kept_by map.now) 0 writes.now }
{
    let mut past = 0;
    for write in writes {
        past = past.max(u32::from(shard_of(map, write)) + 1);
    }
    past
}

/// Lines on the writes, by rising shard.
fn put_writes(
    alloc: Global,
    out: &mut Vec<u8>,
    map: &ChunkMap,
    writes: &[Write],
) -> Result<(), AllocError>
    ensures { OnOk result (out.new.items
        ≡ out.old.items ++ lines_of (kept_by map.now) (by_shard (kept_by map.now) writes.now)) }
{
    for shard in 0..past_of(map, writes) {
        put_share(alloc, out, map, shard, writes)?;
    }
    Ok(())
}

/// The list of commits: how many there are, and for each a line, and a line for each write.
pub fn put_dump(
    alloc: Global,
    out: &mut Vec<u8>,
    map: &ChunkMap,
    entries: &[Entry],
) -> Result<(), AllocError>
    ensures { OnOk result
        (out.new.items ≡ out.old.items ++ dump_text (kept_by map.now) entries.now) }
{
    let count = entries.len();
    let text = format!(in alloc; "dump {count}\n")?;
    out.extend_from_slice(text.as_bytes())?;
    for entry in entries {
        put_commit(alloc, out, entry)?;
        put_writes(alloc, out, map, entry.writes.as_slice())?;
    }
    Ok(())
}
