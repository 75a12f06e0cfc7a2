//! Records in a list, without a disk.
ghost use Rattle.std.specs.Prelude.{◌≡◌, ◌-◌, [], false, vec_len, vec_capacity};

use crate::log::RecordLog;
use crate::payload::Payload;
use journal_rec::Rec;
use outside_core::DiskErr;
use std::alloc::{AllocError, Global};

/// A list of records. No append fails.
#[derive(Drop)]
pub struct ListLog {
    records: Vec<Rec>,
}

impl ListLog {
    /// A log with these records.
    pub fn of(records: Vec<Rec>) -> ListLog
        ensures { result.records.items ≡ records.items }
    {
        ListLog { records }
    }
}

impl RecordLog for ListLog {
    ghost kept = { λ l. l.records.items };

    ghost lost = { λ _. [] };

    ghost is_closed = { λ _. false };

    ghost room = { λ l. vec_capacity l.records - vec_len l.records };

    ghost fault_count = { λ _. 0 };

    fn records(&self) -> &[Rec] {
        &self.records
    }

    fn faults(&self) -> u64 {
        0
    }

    fn reserve(&mut self, additional: usize) -> Result<(), AllocError> {
        self.records.reserve(additional)
    }

    /// The payload isn't needed.
    fn append(&mut self, rec: Rec, _payload: &mut Payload) -> Result<(), DiskErr> {
        self.records.push_reserved(rec);
        Ok(())
    }
}
