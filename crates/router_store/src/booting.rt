//! The boots of a router's journal.
ghost use Rattle.std.specs.Prelude.{◌≡◌, ◌++◌, [], ◌∷◌, None, Some, true, false, IfOk, IfErr, IfSome, IfNone, OnOk, ◌<◌};
ghost use Rattle.outcomes.specs.Causes.{FailsOnly};
ghost use Rattle.journal_rec.specs.declared.record.Rec.TheVariants as rec;
ghost use Rattle.router_store.specs.Boots.{boot_after, first_refused, is_next, last_boot, next_boot, RefusesBoots};

use journal_rec::Rec;
use outside_core::DiskErr;
use record_store::{NodeErr, Payload, RecordLog};
use std::alloc::Global;

/// The last boot but one: after it no other can follow.
const LAST_BOOT: u32 = 4_294_967_294;

/// The boot that a record is, where it can follow the last.
fn next(last: Option<u32>, rec: &Rec) -> Option<u32>
    ensures some { IfSome result
        (λ boot. (is_next last rec.now ≡ true) × (boot_after last rec.now ≡ Some boot)) }
    ensures none { IfNone result (is_next last rec.now ≡ false) }
{
    let Rec::Boot { boot } = rec else {
        return None;
    };
    if *boot > LAST_BOOT {
        return None;
    }
    match last {
        Some(last) if *boot <= last => None,
        _ => Some(*boot),
    }
}

/// The last boot, 0 where there is none; or the number of the first record that isn't a next boot.
fn last_boot(records: &[Rec]) -> Result<u32, u64>
    ensures ok { IfOk result
        (λ last. (first_refused records.now ≡ None) × (last ≡ last_boot records.now)) }
    ensures refused { IfErr result (λ index. first_refused records.now ≡ Some index) }
{
    let mut last = None;
    for (index, rec) in records.iter().enumerate() {
        match next(last, rec) {
            Some(boot) => last = Some(boot),
            None => return Err(index as u64),
        }
    }
    Ok(last.unwrap_or(0))
}

/// Appends the record of a boot.
fn append_boot<L: RecordLog>(alloc: Global, log: &mut L, boot: u32) -> Result<(), NodeErr>
    requires { L.is_closed log.old ≡ false }
    ensures ok { OnOk result (L.kept log.new ≡ L.kept log.old ++ rec.Boot boot ∷ []) }
    ensures lost { OnOk result (L.lost log.new ≡ L.lost log.old) }
    ensures faults { FailsOnly NodeErr.DiskFault (L.fault_count log.old)
        (L.fault_count log.new) result }
    ensures refused { IfErr result (RefusesBoots (L.kept log.old)) }
{
    let Ok(mut payload) = Payload::new(alloc) else {
        return Err(NodeErr::Memory);
    };
    if log.reserve(1).is_err() {
        return Err(NodeErr::Memory);
    }
    match log.append(Rec::Boot { boot }, &mut payload) {
        Ok(()) => Ok(()),
        Err(DiskErr::Failed) => Err(NodeErr::DiskFault),
    }
}

/// The next boot, whose record is appended.
pub fn boot<L: RecordLog>(alloc: Global, log: &mut L) -> Result<u32, NodeErr>
    requires { L.is_closed log.old ≡ false }
    ensures follow { OnOk result (first_refused (L.kept log.old) ≡ None) }
    ensures boot { IfOk result (λ boot. (boot ≡ next_boot (L.kept log.old)) × (boot < 4294967295)) }
    ensures records { IfOk result (λ boot. L.kept log.new ≡ L.kept log.old ++ rec.Boot boot ∷ []) }
    ensures lost { OnOk result (L.lost log.new ≡ L.lost log.old) }
    ensures refused { IfErr result (RefusesBoots (L.kept log.old)) }
    ensures faults { FailsOnly NodeErr.DiskFault (L.fault_count log.old)
        (L.fault_count log.new) result }
{
    let records = log.records();
    let count = records.len() as u64;
    match last_boot(records) {
        Err(index) => Err(NodeErr::BadJournal { index }),
        Ok(last) => {
            if last >= LAST_BOOT {
                return Err(NodeErr::BadJournal { index: count });
            }
            append_boot(alloc, log, last + 1)?;
            Ok(last + 1)
        }
    }
}
