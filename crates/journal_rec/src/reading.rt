//! Reading a record.
ghost use Rattle.std.specs.Prelude.{◌≡◌, length};
ghost use Rattle.journal_rec.specs.Errors.{Gives};
ghost use Rattle.journal_rec.specs.Reading.{boot_at, ceiling_at, committed_at, preparing_at, prepared_at, decided_at, coord_start_at, coord_decision_at, coord_end_at, floor_at, fields_at, record_of};

use crate::contents::read_writes;
use crate::error::RecErr;
use crate::fields::{read_decision, read_named, read_parts, read_tag};
use crate::numbers::{read_u8, read_u16, read_u32, read_u64, read_zeros, start_of};
use crate::record::{Decided, Rec};
use std::alloc::Global;
use txn_types::Ts;

#[tactic(auto, unfolding(crate::specs::Reading::boot_at))]
fn read_boot(bytes: &[u8]) -> Result<(Rec, &[u8]), RecErr>
    ensures { Gives (λ x. (x.0, x.1.now)) result (boot_at bytes.now) }
{
    let (boot, rest) = read_u32(bytes)?;
    Ok((Rec::Boot { boot }, rest))
}

#[tactic(auto, unfolding(crate::specs::Reading::ceiling_at))]
fn read_ceiling(bytes: &[u8]) -> Result<(Rec, &[u8]), RecErr>
    ensures { Gives (λ x. (x.0, x.1.now)) result (ceiling_at bytes.now) }
{
    let (bound, rest) = read_u64(bytes)?;
    Ok((Rec::Ceiling { bound: Ts(bound) }, rest))
}

#[tactic(auto, unfolding(crate::specs::Reading::committed_at))]
fn read_committed(alloc: Global, end: u64, bytes: &[u8]) -> Result<(Rec, &[u8]), RecErr>
    ensures { Gives (λ x. (x.0, x.1.now)) result (committed_at end bytes.now) }
{
    let ((tag, lsid, number), rest) = read_named(end, bytes)?;
    let (read_at, rest) = read_u64(rest)?;
    let (at, rest) = read_u64(rest)?;
    let (writes, rest) = read_writes(alloc, end, rest)?;
    let rec = Rec::Commit {
        tag,
        lsid,
        number,
        read_at: Ts(read_at),
        at: Ts(at),
        writes,
    };
    Ok((rec, rest))
}

/// Boot, read timestamp, prepare timestamp and coordinator of a prepared transaction.
#[tactic(auto, unfolding(crate::specs::Reading::preparing_at))]
fn read_preparing(bytes: &[u8]) -> Result<((u32, u64, u64, u16), &[u8]), RecErr>
    ensures { Gives (λ x. (x.0, x.1.now)) result (preparing_at bytes.now) }
{
    let (boot, rest) = read_u32(bytes)?;
    let (read_at, rest) = read_u64(rest)?;
    let (at, rest) = read_u64(rest)?;
    let (coordinator, rest) = read_u16(rest)?;
    Ok(((boot, read_at, at, coordinator), rest))
}

#[tactic(auto, unfolding(crate::specs::Reading::prepared_at))]
fn read_prepared(alloc: Global, end: u64, bytes: &[u8]) -> Result<(Rec, &[u8]), RecErr>
    ensures { Gives (λ x. (x.0, x.1.now)) result (prepared_at end bytes.now) }
{
    let ((tag, lsid, number), rest) = read_named(end, bytes)?;
    let ((boot, read_at, at, coordinator), rest) = read_preparing(rest)?;
    let (writes, rest) = read_writes(alloc, end, rest)?;
    let rec = Rec::Prepared {
        tag,
        lsid,
        number,
        boot,
        read_at: Ts(read_at),
        at: Ts(at),
        coordinator,
        writes,
    };
    Ok((rec, rest))
}

#[tactic(auto, unfolding(crate::specs::Reading::decided_at))]
fn read_decided(end: u64, bytes: &[u8]) -> Result<(Rec, &[u8]), RecErr>
    ensures { Gives (λ x. (x.0, x.1.now)) result (decided_at end bytes.now) }
{
    let ((tag, lsid, number), rest) = read_named(end, bytes)?;
    match read_decision(end, rest) {
        Ok((decision, rest)) => {
            let rest = read_zeros(end, 12, rest)?;
            let decided = Decided {
                tag,
                lsid,
                number,
                decision,
            };
            Ok((Rec::Decided(decided), rest))
        }
        Err(error) => Err(error),
    }
}

#[tactic(auto, unfolding(crate::specs::Reading::coord_start_at))]
fn read_coord_start(alloc: Global, end: u64, bytes: &[u8]) -> Result<(Rec, &[u8]), RecErr>
    ensures { Gives (λ x. (x.0, x.1.now)) result (coord_start_at end bytes.now) }
{
    let ((tag, lsid, number), rest) = read_named(end, bytes)?;
    let (count, rest) = read_u16(rest)?;
    let (parts, rest) = read_parts(alloc, count, rest)?;
    let rec = Rec::CoordStart {
        tag,
        lsid,
        number,
        parts,
    };
    Ok((rec, rest))
}

#[tactic(auto, unfolding(crate::specs::Reading::coord_decision_at))]
fn read_coord_decision(end: u64, bytes: &[u8]) -> Result<(Rec, &[u8]), RecErr>
    ensures { Gives (λ x. (x.0, x.1.now)) result (coord_decision_at end bytes.now) }
{
    let (tag, rest) = read_tag(bytes)?;
    match read_decision(end, rest) {
        Ok((decision, rest)) => Ok((Rec::CoordDecision { tag, decision }, rest)),
        Err(error) => Err(error),
    }
}

#[tactic(auto, unfolding(crate::specs::Reading::coord_end_at))]
fn read_coord_end(bytes: &[u8]) -> Result<(Rec, &[u8]), RecErr>
    ensures { Gives (λ x. (x.0, x.1.now)) result (coord_end_at bytes.now) }
{
    let (tag, rest) = read_tag(bytes)?;
    Ok((Rec::CoordEnd { tag }, rest))
}

#[tactic(auto, unfolding(crate::specs::Reading::floor_at))]
fn read_floor(bytes: &[u8]) -> Result<(Rec, &[u8]), RecErr>
    ensures { Gives (λ x. (x.0, x.1.now)) result (floor_at bytes.now) }
{
    let (floor, rest) = read_u64(bytes)?;
    Ok((Rec::Floor { floor: Ts(floor) }, rest))
}

/// A record of this kind, and the bytes after it.
#[tactic(auto, unfolding(crate::specs::Reading::fields_at))]
fn read_fields(alloc: Global, kind: u8, end: u64, bytes: &[u8]) -> Result<(Rec, &[u8]), RecErr>
    ensures { Gives (λ x. (x.0, x.1.now)) result (fields_at kind end bytes.now) }
{
    match kind {
        1 => read_boot(bytes),
        2 => read_ceiling(bytes),
        3 => read_committed(alloc, end, bytes),
        4 => read_prepared(alloc, end, bytes),
        5 => read_decided(end, bytes),
        6 => read_coord_start(alloc, end, bytes),
        7 => read_coord_decision(end, bytes),
        8 => read_coord_end(bytes),
        9 => read_floor(bytes),
        _ => Err(RecErr::Kind { byte: kind }),
    }
}

/// Reads one record, which is all of the bytes. Otherwise the first fault is answered that is met
/// front to back, field by field: `Kind`, `Short`, `Field`, `Bson` and `Order` where they are met,
/// `Extra` at the end.
#[tactic(auto, unfolding(crate::specs::Reading::record_of))]
pub fn decode(alloc: Global, bytes: &[u8]) -> Result<Rec, RecErr>
    ensures { Gives (λ r. r) result (record_of bytes.now) }
{
    let end = bytes.len() as u64;
    let (kind, rest) = read_u8(bytes)?;
    let (rec, rest) = read_fields(alloc, kind, end, rest)?;
    if !rest.is_empty() {
        return Err(RecErr::Extra {
            at: start_of(end, rest),
        });
    }
    Ok(rec)
}
