//! Records from payloads.
ghost use Rattle.std.specs.Prelude.{◌≡◌, ◌≤◌, Ok, false, IsTrue, IfOk, IfErr, OnOk, map};
ghost use Rattle.outcomes.specs.Causes.{FailsOnly};
ghost use Rattle.journal_core.specs.Looks.{Looks};
ghost use Rattle.journal_rec.specs.Reading.{record_of};
ghost use Rattle.record_store.specs.Found.{ReadFrom, records_of, RefusesFrames, RefusesPayload, RefusesPayloads};

use crate::error::NodeErr;
use journal_core::{Journal, JournalErr};
use journal_rec::{Rec, RecErr, decode};
use outside_core::Disk;
use std::alloc::Global;

/// The record that the payload of this number is.
fn read_record(alloc: Global, number: u64, payload: &[u8]) -> Result<Rec, NodeErr>
    ensures record { IfOk result (λ r. record_of payload.now ≡ Ok r) }
    ensures refused { IfErr result (RefusesPayload number payload.now) }
{
    match decode(alloc, payload) {
        Ok(rec) => Ok(rec),
        Err(RecErr::Memory) => Err(NodeErr::Memory),
        Err(_) => Err(NodeErr::BadJournal { index: number }),
    }
}

/// The records that payloads are.
pub fn read_records(alloc: Global, payloads: &[Vec<u8>]) -> Result<Vec<Rec>, NodeErr>
    ensures records { IfOk result (λ recs.
        records_of (map (λ p. p.items) payloads.now) ≡ Ok recs.items) }
    ensures refused { IfErr result (RefusesPayloads (map (λ p. p.items) payloads.now)) }
{
    let mut records = Vec::new(alloc);
    for (number, payload) in payloads.iter().enumerate() {
        let rec = read_record(alloc, number as u64, payload)?;
        match records.push(rec) {
            Ok(()) => {}
            Err(_) => return Err(NodeErr::Memory),
        }
    }
    Ok(records)
}

/// The records of a journal that has just started.
pub fn read_journal<D: Disk>(alloc: Global, journal: &mut Journal<D>) -> Result<Vec<Rec>, NodeErr>
    requires { journal.old.closed ≡ false }
    ensures read { IfOk result
        (λ recs. ReadFrom (IsTrue (D.tells journal.old.disk)) journal.old.frames recs.items) }
    ensures refused { IfErr result
        (RefusesFrames (IsTrue (D.tells journal.old.disk)) journal.old.frames) }
    ensures open { OnOk result (journal.new.closed ≡ false) }
    ensures tells { D.tells journal.new.disk ≡ D.tells journal.old.disk }
    ensures looks { IsTrue (D.tells journal.old.disk) → (journal.new.frames ≡ journal.old.frames)
        × Looks D.seen D.may_leave D.moment D.left_since journal.old.disk journal.new.disk }
    ensures faults { FailsOnly NodeErr.DiskFault
        (D.fault_count journal.old.disk) (D.fault_count journal.new.disk) result }
{
    match journal.payloads(alloc) {
        Ok(payloads) => read_records(alloc, &payloads),
        Err(JournalErr::DiskFault) => Err(NodeErr::DiskFault),
        Err(_) => Err(NodeErr::Memory),
    }
}
