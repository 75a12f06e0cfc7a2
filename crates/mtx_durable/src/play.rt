//! A schedule from a source to a sink, over disks.
ghost use Rattle.std.specs.Prelude.{◌≡◌, IfOk, IsTrue, OnErr, vec_len};
ghost use Rattle.outcomes.specs.Causes.{Rose};
ghost use Rattle.outcomes.specs.Told.{WhereKnown};
ghost use Rattle.mtx_durable.specs.Play.{IsPlayed};

use cluster_play::{Status, play_input};
use outside_core::{Disk, MemSource, Sink, Source, SourceErr};
use play_script::read_input;
use std::alloc::{AllocError, Global};
use std::io::{ErrorKind, Read};

/// Reads the whole schedule, and then plays it over the disks.
pub fn play<S: Source, K: Sink, D: Disk>(
    alloc: Global,
    src: &mut S,
    out: &mut K,
    disks: &mut Vec<D>,
) -> Status
    // Place `n` is shard `n`'s, place `16 + n` router `n`'s; all are at their places again after
    // the call.
    requires disks { vec_len disks.old ≡ 24 }
    ensures played { WhereKnown (S.left src.old) (λ input. IsPlayed ((d : D) → IsTrue (D.tells d))
        input (K.held out.old) (K.held out.new) result) }
    ensures disks { vec_len disks.new ≡ 24 }
    // A fault is answered only where that object's count rose in this call.
    ensures read_fault { result ≡ Status.ReadFault
        → Rose (S.fault_count src.old) (S.fault_count src.new) }
    ensures write_fault { result ≡ Status.WriteFault
        → Rose (K.fault_count out.old) (K.fault_count out.new) }
{
    match read_input(alloc, src) {
        Ok(input) => play_input(alloc, input, out, disks),
        Err(SourceErr::Failed) => Status::ReadFault,
        Err(SourceErr::Memory) => Status::Memory,
    }
}

/// Reads all that a reader gives, and plays it over the disks.
pub fn play_from<I: Read, K: Sink, D: Disk>(
    alloc: Global,
    from: &mut I,
    out: &mut K,
    disks: &mut Vec<D>,
) -> Result<Status, AllocError>
    requires disks { vec_len disks.old ≡ 24 }
    ensures played { IfOk result (λ status. WhereKnown (I.remaining from.old) (λ input. IsPlayed
        ((d : D) → IsTrue (D.tells d)) input (K.held out.old) (K.held out.new) status)) }
    ensures refused { OnErr result (K.held out.new ≡ K.held out.old) }
    ensures disks { vec_len disks.new ≡ 24 }
{
    let mut bytes = Vec::new(alloc);
    if let Err(error) = from.read_to_end(&mut bytes) {
        return match error.kind() {
            ErrorKind::OutOfMemory => Err(AllocError),
            _ => Ok(Status::ReadFault),
        };
    }
    let mut source = MemSource::of(bytes, Vec::new(alloc));
    Ok(play(alloc, &mut source, out, disks))
}
