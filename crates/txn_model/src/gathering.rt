ghost use Rattle.std.specs.Prelude.{◌≡◌, ◌++◌, [], ◌∷◌, None, map, IfOk, OnOk};
ghost use Rattle.txn_types.specs.Writes.{HasOwnId, AllHaveOwnIds};
ghost use Rattle.txn_semantics.specs.Writes.{write_set};
ghost use Rattle.txn_model.specs.Commits.{prepared_in, prepared_at, parts_in, joined, records_of};
ghost use Rattle.txn_model.specs.Gathering.{with_prepared, gathered};

use journal_rec::Rec;
use std::alloc::{AllocError, Global};
use txn_semantics::Entry;
use txn_types::{Tag, Ts, Write, Writes};
use write_sets::merged;

/// What participants have prepared: what the first read at, and all their writes, one list after
/// the other.
#[derive(Drop)]
pub struct Share {
    read_at: Option<Ts>,
    writes: Writes,
}

/// Puts a copy of a write after others.
fn put(alloc: Global, writes: &mut Writes, write: &Write) -> Result<(), AllocError>
    requires { HasOwnId write.now }
    ensures { OnOk result (writes.new ≡ writes.old ++ write.now ∷ []) }
{
    writes.push(write.copy(alloc)?)?;
    Ok(())
}

/// Puts copies of writes after others.
fn put_all(alloc: Global, writes: &mut Writes, more: &[Write]) -> Result<(), AllocError>
    requires { AllHaveOwnIds more.now }
    ensures { OnOk result (writes.new ≡ writes.old ++ more.now) }
{
    for write in more {
        put(alloc, writes, write)?;
    }
    Ok(())
}

/// Takes in what one participant prepared.
fn take(
    alloc: Global,
    share: &mut Share,
    read_at: Ts,
    at: Ts,
    writes: &Writes,
) -> Result<(), AllocError>
    ensures { OnOk result (share.new
        ≡ with_prepared share.old (record { read_at = read_at; at = at; writes = writes.now })) }
{
    let _at = at;
    if share.read_at.is_none() {
        share.read_at = Some(read_at);
    }
    put_all(alloc, &mut share.writes, writes.as_slice())
}

/// Takes in what a record prepares of the transaction.
fn take_record(alloc: Global, share: &mut Share, tag: Tag, rec: &Rec) -> Result<(), AllocError>
    ensures { OnOk result (share.new ≡ gathered share.old (prepared_in tag (rec.now ∷ []))) }
{
    match rec {
        Rec::Prepared {
            tag: there,
            read_at,
            at,
            writes,
            ..
        } => {
            if tag == *there {
                take(alloc, share, *read_at, *at, writes)?;
            }
            Ok(())
        }
        _ => Ok(()),
    }
}

/// Takes in what a journal has prepared of the transaction.
fn take_journal(alloc: Global, share: &mut Share, tag: Tag, recs: &[Rec]) -> Result<(), AllocError>
    ensures { OnOk result (share.new ≡ gathered share.old (prepared_in tag recs.now)) }
{
    for rec in recs {
        take_record(alloc, share, tag, rec)?;
    }
    Ok(())
}

/// The participants that the last start of a transaction's commit names, or none.
pub fn parts_in<'a>(tag: Tag, recs: &'a [Rec]) -> &'a [(u16, u32)]
    ensures { result.now ≡ parts_in tag recs.now }
{
    let mut parts: &'a [(u16, u32)] = &[];
    for rec in recs {
        if let Rec::CoordStart {
            tag: there,
            parts: named,
            ..
        } = rec
        {
            if tag == *there {
                parts = named.as_slice();
            }
        }
    }
    parts
}

/// The records of a shard's journal; none where there is no such shard.
fn records_of<'a>(journals: &[&'a [Rec]], shard: u16) -> &'a [Rec]
    ensures { result.now ≡ records_of (map (λ j. j.now) journals.now) shard }
{
    match journals.get(usize::from(shard)) {
        Some(recs) => *recs,
        None => &[],
    }
}

/// What the participants have prepared of the transaction.
fn share_of(
    alloc: Global,
    journals: &[&[Rec]],
    tag: Tag,
    parts: &[(u16, u32)],
) -> Result<Share, AllocError>
    ensures { IfOk result (λ s. s ≡ gathered (record { read_at = None; writes = [] })
        (prepared_at (map (λ j. j.now) journals.now) tag parts.now)) }
{
    let mut share = Share {
        read_at: None,
        writes: Writes::new(alloc),
    };
    for part in parts {
        take_journal(alloc, &mut share, tag, records_of(journals, part.0))?;
    }
    Ok(share)
}

/// The last write to each document, rising by namespace and id.
fn write_set(alloc: Global, writes: &Writes) -> Result<Writes, AllocError>
    ensures { IfOk result (λ set. set ≡ write_set writes.now) }
{
    merged(alloc, &[], writes)
}

/// The commit of a transaction at a time: its participants' writes, joined.
pub fn joined(
    alloc: Global,
    journals: &[&[Rec]],
    tag: Tag,
    at: Ts,
    parts: &[(u16, u32)],
) -> Result<Entry, AllocError>
    ensures { IfOk result
        (λ e. e ≡ joined tag at (prepared_at (map (λ j. j.now) journals.now) tag parts.now)) }
{
    let share = share_of(alloc, journals, tag, parts)?;
    Ok(Entry {
        tag,
        read_at: share.read_at.unwrap_or(Ts(0)),
        at,
        writes: write_set(alloc, &share.writes)?,
    })
}
