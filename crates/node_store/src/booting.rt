//! The start of a log: what its records leave, and the record of the next boot.
ghost use Rattle.std.specs.Prelude.{◌≡◌, ◌<◌, ◌+◌, ◌-◌, ◌^◌, ◌⊎◌, ◌++◌, [], ◌∷◌, None, false, IfOk, IfErr, OnOk};
ghost use Rattle.outcomes.specs.Causes.{FailsOnly};
ghost use Rattle.journal_rec.specs.Follows.{first_refused};
ghost use Rattle.journal_rec.specs.Spelling.{body_bytes};
ghost use Rattle.shard_image.specs.Image.{image_of, with_record};
ghost use Rattle.shard_image.specs.Sound.{AreWritten};
ghost use Rattle.shard_core.specs.NodeStep.{boot_behind};
ghost use Rattle.node_store.specs.Starts.{Boots, RefusesRecords};

use journal_rec::Rec;
use outside_core::DiskErr;
use record_store::{NodeErr, Payload, RecordLog};
use shard_image::{Image, ImageErr, apply, image_of};
use std::alloc::Global;

/// The last boot but one: after it no other can follow.
const LAST_BOOT: u32 = 4_294_967_294;

/// The state that the records of a log leave, and then the record of the next boot, which is
/// appended.
pub fn boot<L: RecordLog>(alloc: Global, log: &mut L) -> Result<Image, NodeErr>
    requires written { AreWritten (L.kept log.old) }
    requires open { L.is_closed log.old ≡ false }
    ensures boots { IfOk result (Boots (L.kept log.old) (L.kept log.new)) }
    ensures open { OnOk result ((L.is_closed log.new ≡ false) × (L.lost log.new ≡ L.lost log.old)) }
    ensures refused { IfErr result (RefusesRecords (L.kept log.old)) }
    ensures faults { FailsOnly NodeErr.DiskFault (L.fault_count log.old)
        (L.fault_count log.new) result }
{
    match image_of(alloc, log.records()) {
        Ok(image) => boot_behind(alloc, log, image),
        Err(ImageErr::BadOrder { index }) => Err(NodeErr::BadJournal { index }),
        Err(ImageErr::Memory) => Err(NodeErr::Memory),
    }
}

/// Appends the record of the boot after those that left this state.
fn boot_behind<L: RecordLog>(alloc: Global, log: &mut L, image: Image) -> Result<Image, NodeErr>
    requires image { image ≡ image_of (L.kept log.old) }
    requires follow { first_refused (L.kept log.old) ≡ None }
    requires open { L.is_closed log.old ≡ false }
    ensures boots { IfOk result (Boots (L.kept log.old) (L.kept log.new)) }
    ensures open { OnOk result ((L.is_closed log.new ≡ false) × (L.lost log.new ≡ L.lost log.old)) }
    ensures refused { IfErr result (RefusesRecords (L.kept log.old)) }
    ensures faults { FailsOnly NodeErr.DiskFault (L.fault_count log.old)
        (L.fault_count log.new) result }
{
    let index = log.records().len() as u64;
    if image.boot >= LAST_BOOT {
        return Err(NodeErr::BadJournal { index });
    }
    let boot = image.boot + 1;
    let image = with_boot(alloc, image, boot)?;
    append_boot(alloc, log, Rec::Boot { boot })?;
    Ok(image)
}

/// The state with the record of this boot, which is the next.
fn with_boot(alloc: Global, image: Image, boot: u32) -> Result<Image, NodeErr>
    requires next { boot ≡ image.boot + 1 }
    requires left { image.boot < 4294967294 }
    requires room { image.count < 2 ^ 64 - 1 }
    ensures ok { IfOk result (λ i. i ≡ with_record image (boot_behind image)) }
    ensures memory { IfErr result (λ e. e ≡ NodeErr.Memory) }
{
    let mut image = image;
    match apply(alloc, &mut image, &Rec::Boot { boot }) {
        Ok(()) => Ok(image),
        Err(ImageErr::Memory) => Err(NodeErr::Memory),
        Err(ImageErr::BadOrder { .. }) => unreachable!(),
    }
}

/// Appends a record that carries nothing.
fn append_boot<L: RecordLog>(alloc: Global, log: &mut L, rec: Rec) -> Result<(), NodeErr>
    requires open { L.is_closed log.old ≡ false }
    requires bare { body_bytes rec ≡ [] }
    ensures ok { OnOk result ((L.kept log.new ≡ L.kept log.old ++ rec ∷ [])
        × (L.is_closed log.new ≡ false) × (L.lost log.new ≡ L.lost log.old)) }
    ensures faults { FailsOnly NodeErr.DiskFault (L.fault_count log.old)
        (L.fault_count log.new) result }
    ensures errors { IfErr result (λ e. (e ≡ NodeErr.DiskFault) ⊎ (e ≡ NodeErr.Memory)) }
{
    let Ok(mut payload) = Payload::new(alloc) else {
        return Err(NodeErr::Memory);
    };
    if log.reserve(1).is_err() {
        return Err(NodeErr::Memory);
    }
    match log.append(rec, &mut payload) {
        Ok(()) => Ok(()),
        Err(DiskErr::Failed) => Err(NodeErr::DiskFault),
    }
}
