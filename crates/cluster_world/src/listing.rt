//! The list of commits of nodes, as their journals are.
ghost use Rattle.std.specs.Prelude.{◌≡◌, ◌<◌, ◌≤◌, ◌+◌, [], map, take, length, slice_get, slice_set, unwrap_or, IfOk, OnOk};
ghost use Rattle.txn_model.specs.Commits.{commits};
ghost use Rattle.cluster_world.specs.World.{records_in, cut_in};

use crate::error::WorldErr;
use journal_rec::Rec;
use shard_core::Journalled;
use std::alloc::{AllocError, Global};
use txn_model::{Entry, add, commits};

/// The records of each shard's journal.
fn journals_of<S: Journalled>(alloc: Global, shards: &[S]) -> Result<Vec<&[Rec]>, AllocError>
    ensures { IfOk result (λ js. map (λ j. j.now) js.items ≡ records_in S.state shards.now) }
{
    let mut journals = Vec::new(alloc);
    for shard in shards {
        journals.push(shard.records())?;
    }
    Ok(journals)
}

/// The list of commits that the journals of these shards make. It goes through all records, and for
/// each commit of several shards through all records of its participants.
pub fn before_of<S: Journalled>(alloc: Global, shards: &[S]) -> Result<Vec<Entry>, WorldErr>
    ensures { IfOk result (λ list. list.items ≡ commits (records_in S.state shards.now)) }
{
    let journals = journals_of(alloc, shards)?;
    let list = commits(alloc, &journals)?;
    Ok(list)
}

/// Adds the record at a place of a shard's journal, where the list is that of the records before
/// it.
fn add_record<'a>(
    alloc: Global,
    journals: &mut [&'a [Rec]],
    shard: u16,
    records: &'a [Rec],
    place: usize,
    list: &mut Vec<Entry>,
) -> Result<(), AllocError>
    requires there { shard < length journals.old }
    requires within { place < length records.now }
    requires list { list.old.items
        ≡ commits (slice_set (map (λ j. j.now) journals.old) shard (take place records.now)) }
    ensures journals { map (λ j. j.now) journals.new
        ≡ slice_set (map (λ j. j.now) journals.old) shard (take (place + 1) records.now) }
    ensures list { OnOk result (list.new.items ≡ commits
        (slice_set (map (λ j. j.now) journals.old) shard (take (place + 1) records.now))) }
{
    journals[usize::from(shard)] = &records[..place + 1];
    add(
        alloc,
        journals,
        shard,
        &records[..place],
        &records[place],
        list,
    )
}

/// Adds the records of a shard's journal from a place on, where the list is that of the records
/// before it.
fn add_records<'a>(
    alloc: Global,
    journals: &mut [&'a [Rec]],
    shard: u16,
    records: &'a [Rec],
    from: usize,
    list: &mut Vec<Entry>,
) -> Result<(), AllocError>
    requires there { shard < length journals.old }
    requires within { from ≤ length records.now }
    requires list { list.old.items
        ≡ commits (slice_set (map (λ j. j.now) journals.old) shard (take from records.now)) }
    ensures { OnOk result
        (list.new.items ≡ commits (slice_set (map (λ j. j.now) journals.old) shard records.now)) }
{
    for place in from..records.len() {
        add_record(alloc, journals, shard, records, place, list)?;
    }
    Ok(())
}

/// Brings the list of commits up to the records of a shard's journal from this place on.
pub fn add_from<S: Journalled>(
    alloc: Global,
    shards: &[S],
    shard: u16,
    from: usize,
    list: &mut Vec<Entry>,
) -> Result<(), AllocError>
    requires there { shard < length shards.now }
    requires from { from ≤ length (unwrap_or (slice_get (records_in S.state shards.now) shard) []) }
    requires list { list.old.items ≡ commits (cut_in S.state shards.now shard from) }
    ensures { OnOk result (list.new.items ≡ commits (records_in S.state shards.now)) }
{
    let mut journals = journals_of(alloc, shards)?;
    let records = shards[usize::from(shard)].records();
    add_records(alloc, &mut journals, shard, records, from, list)
}
