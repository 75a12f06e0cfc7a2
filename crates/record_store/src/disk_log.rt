//! Records in the journal of a disk.
ghost use Rattle.std.specs.Prelude.{◌≡◌, ◌⊎◌, ◌≤◌, ◌<◌, ◌+◌, ◌++◌, [], ◌∷◌, false, None, Some, ℕ, List, drop, is_err, IsTrue, IfOk, IfErr, OnOk, OnErr};
ghost use Rattle.outcomes.specs.Causes.{FailsOnly, Rose};
ghost use Rattle.outside_core.specs.Crash.{LeavesOnly};
ghost use Rattle.journal_core.specs.Left.{Leaves, IsAtRest};
ghost use Rattle.journal_core.specs.Looks.{Looks};
ghost use Rattle.journal_rec.specs.Spelling.{body_bytes, record_bytes};
ghost use Rattle.record_store.specs.Logged.{listed, LeftOf};

use crate::error::NodeErr;
use crate::frames::refuse;
use crate::log::RecordLog;
use crate::payload::Payload;
use crate::reading::read_journal;
use journal_core::{Journal, JournalErr};
use journal_rec::Rec;
use outside_core::{Disk, DiskErr};
use std::alloc::{AllocError, Global};
use std::marker::Model;

/// Records whose bytes are the payloads of a journal.
#[derive(Drop)]
pub struct DiskLog<D: Disk> {
    journal: Journal<D>,
    records: Vec<Rec>,
    hand: Option<Rec>,
}

impl<D: Disk> Model for DiskLog<D> {
    ghost use Rattle.std.specs.Prelude.{◌-◌, vec_len, vec_capacity};
    ghost use Rattle.std.specs.Coded.{codes};
    ghost use Rattle.bson_core.specs.contracts.value.Value as value;
    ghost use Rattle.record_store.specs.Logged.{DiskRecords, IsLogged};

    ghost Value = { DiskRecords D };

    ghost coded = { Prim.hlevel (codes, D.code, value.the_row.coded) };

    ghost view = { λ l. record {
      journal = l.journal;
      records = l.records.items;
      hand = l.hand;
      room = vec_capacity l.records - vec_len l.records;
    } };

    ghost invariant = { λ l. IsLogged (D.tells l.journal.disk) (D.may_leave l.journal.disk)
        l.journal.frames l.journal.closed l.records.items l.hand };
}

impl<D: Disk> DiskLog<D> {
    ghost use Rattle.record_store.specs.Found.{FoundIn, ReadFrom, RefusesFile, RefusesFrames, disk_in};

    /// Reads the records of a disk's journal. A refusal gives the disk back.
    pub fn start(alloc: Global, disk: D) -> Result<DiskLog<D>, (NodeErr, D)>
        ensures tells { D.tells (disk_in result) ≡ D.tells disk }
        ensures open { IfOk result (λ l. (l.journal.closed ≡ false) × (l.hand ≡ None)) }
        ensures found { IfOk result (λ l. FoundIn (IsTrue (D.tells disk)) (D.seen disk) l.records) }
        ensures refused { IfErr result
            (λ e. RefusesFile (IsTrue (D.tells disk)) (D.seen disk) e.0) }
        ensures later { D.fault_count disk ≤ D.fault_count (disk_in result) }
        ensures fault { IfErr result (λ e.
            e.0 ≡ NodeErr.DiskFault → Rose (D.fault_count disk) (D.fault_count e.1)) }
        // On a disk that a journal left, a crash at any moment leaves what a crash of that journal
        // might have left.
        ensures any_moment { IsTrue (D.tells disk)
            → (frames : List (List ℕ)) (hand : List ℕ)
            → ((c : List ℕ) → D.may_leave disk c → Leaves frames hand c)
            → LeavesOnly D.moment D.left_since disk (disk_in result) (Leaves frames hand) }
    {
        match Journal::start(disk) {
            Ok(journal) => DiskLog::of(alloc, journal),
            Err((JournalErr::BadBytes { at }, mut disk)) => {
                let error = refuse(&mut disk, at);
                Err((error, disk))
            }
            Err((JournalErr::DiskFault, disk)) => Err((NodeErr::DiskFault, disk)),
            Err((JournalErr::Closed | JournalErr::Memory, _)) => unreachable!(),
        }
    }

    /// Reads the records of a journal that has just started.
    fn of(alloc: Global, journal: Journal<D>) -> Result<DiskLog<D>, (NodeErr, D)>
        requires open { journal.closed ≡ false }
        requires rests { IsTrue (D.tells journal.disk)
            → IsAtRest (D.seen journal.disk) (D.may_leave journal.disk) journal.frames journal.count
            journal.end }
        ensures tells { D.tells (disk_in result) ≡ D.tells journal.disk }
        ensures open { IfOk result (λ l. (l.journal.closed ≡ false) × (l.hand ≡ None)) }
        ensures found { IfOk result
            (λ l. ReadFrom (IsTrue (D.tells journal.disk)) journal.frames l.records) }
        ensures refused { IfErr result (λ e.
            RefusesFrames (IsTrue (D.tells journal.disk)) journal.frames e.0) }
        ensures later { D.fault_count journal.disk ≤ D.fault_count (disk_in result) }
        ensures fault { IfErr result (λ e.
            e.0 ≡ NodeErr.DiskFault → Rose (D.fault_count journal.disk) (D.fault_count e.1)) }
        ensures looks { IsTrue (D.tells journal.disk)
            → Looks D.seen D.may_leave D.moment D.left_since journal.disk (disk_in result) }
    {
        let mut journal = journal;
        match read_journal(alloc, &mut journal) {
            Ok(records) => Ok(DiskLog {
                journal,
                records,
                hand: None,
            }),
            Err(error) => Err((error, journal.into_disk())),
        }
    }

    /// Adds a record, whose bytes after its front are in the payload. It takes no memory.
    pub fn put(&mut self, rec: Rec, payload: &mut Payload) -> Result<(), DiskErr>
        requires open { self.old.journal.closed ≡ false }
        requires room { 0 < self.old.room }
        requires carries { (body_bytes rec ≡ []) ⊎ (body_bytes rec ≡ drop 64 payload.old) }
        ensures ok { OnOk result ((self.new.records ≡ self.old.records ++ rec ∷ [])
            × (self.new.hand ≡ self.old.hand) × (self.old.room ≡ self.new.room + 1)) }
        ensures err { OnErr result
            ((self.new.records ≡ self.old.records) × (self.new.hand ≡ Some rec)) }
        ensures closed { self.new.journal.closed ≡ is_err result }
        ensures faults { FailsOnly DiskErr.Failed
            (D.fault_count self.old.journal.disk) (D.fault_count self.new.journal.disk) result }
        ensures payload { drop 64 payload.new ≡ drop 64 payload.old }
        ensures tells { D.tells self.new.journal.disk ≡ D.tells self.old.journal.disk }
        // A crash at any moment leaves the payloads from before, or these and the record's.
        ensures any_moment { IsTrue (D.tells self.old.journal.disk)
            → LeavesOnly D.moment D.left_since self.old.journal.disk self.new.journal.disk
            (Leaves self.old.journal.frames (record_bytes rec)) }
    {
        let place = payload.put_front(&rec);
        match self.journal.append(payload.record_at(place, &rec)) {
            Ok(()) => {
                self.records.push_reserved(rec);
                Ok(())
            }
            Err(_) => {
                self.hand = Some(rec);
                Err(DiskErr::Failed)
            }
        }
    }

    /// The disk, to start again. A crash leaves its records, or these and the one in hand.
    pub fn into_disk(self) -> D
        ensures disk { result ≡ self.journal.disk }
        ensures left { IsTrue (D.tells result)
            → LeftOf (D.may_leave result) self.records self.hand }
    {
        let DiskLog { journal, .. } = self;
        journal.into_disk()
    }
}

impl<D: Disk> RecordLog for DiskLog<D> {
    ghost kept = { λ l. l.records };

    ghost lost = { λ l. listed l.hand };

    ghost is_closed = { λ l. l.journal.closed };

    ghost room = { λ l. l.room };

    ghost fault_count = { λ l. D.fault_count l.journal.disk };

    fn records(&self) -> &[Rec] {
        &self.records
    }

    fn faults(&self) -> u64 {
        self.journal.faults()
    }

    fn reserve(&mut self, additional: usize) -> Result<(), AllocError> {
        self.records.reserve(additional)
    }

    fn append(&mut self, rec: Rec, payload: &mut Payload) -> Result<(), DiskErr> {
        self.put(rec, payload)
    }
}
