//! Writing a record.
ghost use Rattle.std.specs.Prelude.{◌≡◌, ◌≤◌, ◌∷◌, ◌++◌, length, IfErr, IfOk, OnOk, OnErr};
ghost use Rattle.txn_types.specs.Ids.{value_of_id, id_document};
ghost use Rattle.journal_rec.specs.Volume.{write_bytes, each_write_bytes, writes_bytes};
ghost use Rattle.std.specs.Int.{w16, w32, to_le_bytes};
ghost use Rattle.journal_rec.specs.Spelling.{tag_bytes, named_bytes, decision_bytes, decided_bytes, part_bytes, each_part_bytes, parts_bytes, preparing_bytes, time_bytes, record_bytes};

use crate::error::RecErr;
use crate::fixed::{decision_array, named_array, tag_array, write_decided};
use crate::record::{Decided, Rec};
use bson_core::{Doc, Name, Value, append, low_bytes};
use sqlite_items::Items;
use std::alloc::{AllocError, Global};
use txn_types::{Decision, Id, Lsid, Ns, Parts, Tag, Ts, Write};

#[tactic(auto, unfolding(crate::specs::Spelling::time_bytes))]
fn put_time(out: &mut Vec<u8>, at: Ts) -> Result<(), AllocError>
    ensures { OnOk result (out.new.items ≡ out.old.items ++ time_bytes at) }
{
    out.extend_from_slice(&at.0.to_le_bytes())
}

#[tactic(auto, unfolding(crate::specs::Spelling::part_bytes))]
fn put_part(out: &mut Vec<u8>, part: &(u16, u32)) -> Result<(), AllocError>
    ensures { OnOk result (out.new.items ≡ out.old.items ++ part_bytes part.now) }
{
    out.extend_from_slice(&part.0.to_le_bytes())?;
    out.extend_from_slice(&part.1.to_le_bytes())
}

fn put_parts(out: &mut Vec<u8>, parts: &[(u16, u32)]) -> Result<(), AllocError>
    ensures { OnOk result (out.new.items ≡ out.old.items ++ each_part_bytes parts.now) }
{
    for part in parts {
        put_part(out, part)?;
    }
    Ok(())
}

fn value_of_id(alloc: Global, id: &Id) -> Result<Value, AllocError>
    ensures { IfOk result (λ v. v ≡ value_of_id id.now) }
{
    match id {
        Id::Num(number) => Ok(Value::Long(*number)),
        Id::Text(text) => Ok(Value::Text(text.copy(alloc)?)),
        Id::Bin(bin) => Ok(Value::Bin(bin.copy(alloc)?)),
        Id::Oid(bytes) => Ok(Value::Oid(*bytes)),
        Id::Bool(flag) => Ok(Value::Bool(*flag)),
        Id::Date(moment) => Ok(Value::Date(*moment)),
    }
}

/// A document that is its id alone.
fn id_document(alloc: Global, id: &Id) -> Result<Doc, AllocError>
    ensures { IfOk result (λ d. d ≡ id_document id.now) }
{
    let mut fields = Vec::new(alloc);
    let name = Name::from_str(alloc, "_id")?;
    fields.push((name, value_of_id(alloc, id)?))?;
    Ok(Items::from_vec(fields))
}

/// The length of a namespace, and its bytes.
fn put_namespace(out: &mut Vec<u8>, ns: &Ns) -> Result<(), AllocError>
    ensures { OnOk result
        (out.new.items ≡ out.old.items ++ to_le_bytes w16 (length ns.now) ++ ns.now) }
{
    let bytes = ns.as_slice();
    out.extend_from_slice(&(bytes.len() as u16).to_le_bytes())?;
    out.extend_from_slice(bytes)
}

fn put_write(alloc: Global, out: &mut Vec<u8>, write: &Write) -> Result<(), AllocError>
    ensures { OnOk result (out.new.items ≡ out.old.items ++ write_bytes write.now) }
{
    match write {
        Write::Put { ns, doc, .. } => {
            put_namespace(out, ns)?;
            out.push(1)?;
            append(doc, out)
        }
        Write::Delete { ns, id } => {
            put_namespace(out, ns)?;
            out.push(0)?;
            append(&id_document(alloc, id)?, out)
        }
    }
}

fn put_each(alloc: Global, out: &mut Vec<u8>, writes: &[Write]) -> Result<(), AllocError>
    ensures { OnOk result (out.new.items ≡ out.old.items ++ each_write_bytes writes.now) }
{
    for write in writes {
        put_write(alloc, out, write)?;
    }
    Ok(())
}

/// The number of writes, and the writes.
fn put_writes(alloc: Global, out: &mut Vec<u8>, writes: &[Write]) -> Result<(), AllocError>
    ensures { OnOk result (out.new.items ≡ out.old.items ++ writes_bytes writes.now) }
{
    out.extend_from_slice(&low_bytes(writes.len() as u64))?;
    put_each(alloc, out, writes)
}

fn put_boot(out: &mut Vec<u8>, boot: u32) -> Result<(), AllocError>
    ensures { OnOk result (out.new.items ≡ out.old.items ++ 1 ∷ to_le_bytes w32 boot) }
{
    out.push(1)?;
    out.extend_from_slice(&boot.to_le_bytes())
}

/// A record that is a kind and a time.
fn put_one_time(out: &mut Vec<u8>, kind: u8, at: Ts) -> Result<(), AllocError>
    ensures { OnOk result (out.new.items ≡ out.old.items ++ kind ∷ time_bytes at) }
{
    out.push(kind)?;
    put_time(out, at)
}

/// A kind, and the transaction that the record is of.
fn put_front(
    out: &mut Vec<u8>,
    kind: u8,
    tag: Tag,
    lsid: &Lsid,
    number: i64,
) -> Result<(), AllocError>
    ensures { OnOk result
        (out.new.items ≡ out.old.items ++ kind ∷ named_bytes tag lsid.now number) }
{
    out.push(kind)?;
    out.extend_from_slice(&named_array(tag, lsid, number))
}

/// Two times and writes, with which Commit and Prepared records end.
fn put_times(out: &mut Vec<u8>, read_at: Ts, at: Ts) -> Result<(), AllocError>
    ensures { OnOk result (out.new.items ≡ out.old.items ++ time_bytes read_at ++ time_bytes at) }
{
    put_time(out, read_at)?;
    put_time(out, at)
}

fn put_prepared(
    out: &mut Vec<u8>,
    boot: u32,
    read_at: Ts,
    at: Ts,
    coordinator: u16,
) -> Result<(), AllocError>
    ensures { OnOk result
        (out.new.items ≡ out.old.items ++ preparing_bytes boot read_at at coordinator) }
{
    out.extend_from_slice(&boot.to_le_bytes())?;
    put_time(out, read_at)?;
    put_time(out, at)?;
    out.extend_from_slice(&coordinator.to_le_bytes())
}

fn put_decided(out: &mut Vec<u8>, decided: &Decided) -> Result<(), AllocError>
    ensures { OnOk result (out.new.items ≡ out.old.items ++ decided_bytes decided.now) }
{
    let mut bytes = [0u8; 64];
    write_decided(decided, &mut bytes);
    out.extend_from_slice(&bytes)
}

fn put_coord_start(out: &mut Vec<u8>, parts: &Parts) -> Result<(), AllocError>
    ensures { OnOk result (out.new.items ≡ out.old.items ++ to_le_bytes w16 (length parts.now)
        ++ each_part_bytes parts.now) }
{
    let parts = parts.as_slice();
    out.extend_from_slice(&(parts.len() as u16).to_le_bytes())?;
    put_parts(out, parts)
}

fn put_coord_decision(out: &mut Vec<u8>, tag: Tag, decision: &Decision) -> Result<(), AllocError>
    ensures { OnOk result
        (out.new.items ≡ out.old.items ++ 7 ∷ tag_bytes tag ++ decision_bytes decision.now) }
{
    out.push(7)?;
    out.extend_from_slice(&tag_array(tag))?;
    out.extend_from_slice(&decision_array(decision))
}

fn put_coord_end(out: &mut Vec<u8>, tag: Tag) -> Result<(), AllocError>
    ensures { OnOk result (out.new.items ≡ out.old.items ++ 8 ∷ tag_bytes tag) }
{
    out.push(8)?;
    out.extend_from_slice(&tag_array(tag))
}

fn put_record(alloc: Global, out: &mut Vec<u8>, rec: &Rec) -> Result<(), AllocError>
    ensures { OnOk result (out.new.items ≡ out.old.items ++ record_bytes rec.now) }
{
    match rec {
        Rec::Boot { boot } => put_boot(out, *boot),
        Rec::Ceiling { bound } => put_one_time(out, 2, *bound),
        Rec::Commit {
            tag,
            lsid,
            number,
            read_at,
            at,
            writes,
        } => {
            put_front(out, 3, *tag, lsid, *number)?;
            put_times(out, *read_at, *at)?;
            put_writes(alloc, out, writes.as_slice())
        }
        Rec::Prepared {
            tag,
            lsid,
            number,
            boot,
            read_at,
            at,
            coordinator,
            writes,
        } => {
            put_front(out, 4, *tag, lsid, *number)?;
            put_prepared(out, *boot, *read_at, *at, *coordinator)?;
            put_writes(alloc, out, writes.as_slice())
        }
        Rec::Decided(decided) => put_decided(out, decided),
        Rec::CoordStart {
            tag,
            lsid,
            number,
            parts,
        } => {
            put_front(out, 6, *tag, lsid, *number)?;
            put_coord_start(out, parts)
        }
        Rec::CoordDecision { tag, decision } => put_coord_decision(out, *tag, decision),
        Rec::CoordEnd { tag } => put_coord_end(out, *tag),
        Rec::Floor { floor } => put_one_time(out, 9, *floor),
    }
}

/// Appends the bytes of writes, as they stand in a record. It is refused only out of memory.
pub fn encode_writes(alloc: Global, writes: &[Write], out: &mut Vec<u8>) -> Result<(), RecErr>
    ensures ok { OnOk result (out.new.items ≡ out.old.items ++ writes_bytes writes.now) }
    ensures memory { IfErr result (λ e. e ≡ RecErr.Memory) }
{
    put_writes(alloc, out, writes)?;
    Ok(())
}

/// Appends the bytes of participants, as they stand in a record.
pub fn encode_parts(parts: &Parts, out: &mut Vec<u8>) -> Result<(), RecErr>
    ensures ok { OnOk result (out.new.items ≡ out.old.items ++ parts_bytes parts.now) }
    ensures memory { IfErr result (λ e. e ≡ RecErr.Memory) }
{
    put_coord_start(out, parts)?;
    Ok(())
}

/// Appends the record's bytes, in its one spelling. It is refused only out of memory. (A reader
/// takes no document of more than 2,147,483,647 bytes; no shard makes one.)
pub fn encode(alloc: Global, rec: &Rec, out: &mut Vec<u8>) -> Result<(), RecErr>
    ensures ok { OnOk result (out.new.items ≡ out.old.items ++ record_bytes rec.now) }
    ensures unchanged { OnErr result (out.new.items ≡ out.old.items) }
    ensures memory { IfErr result (λ e. e ≡ RecErr.Memory) }
{
    let mut whole = Vec::new(alloc);
    put_record(alloc, &mut whole, rec)?;
    out.extend_from_slice(&whole)?;
    Ok(())
}
