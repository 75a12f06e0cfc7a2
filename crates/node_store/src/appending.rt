//! What a step makes durable.
ghost use Rattle.std.specs.Prelude.{◌≡◌, ◌≤◌, ◌++◌, false, drop, IfOk, IfSome, OnOk, OnErr};
ghost use Rattle.outcomes.specs.Causes.{FailsOnly};
ghost use Rattle.shard_core.specs.Carrying.{Carries, IsBounded, carried};
ghost use Rattle.shard_core.specs.NodeStep.{joined};
ghost use Rattle.node_store.specs.Appends.{IsCut, appends};

use journal_rec::Rec;
use outside_core::DiskErr;
use record_store::{Payload, RecordLog};
use shard_core::Shard;
use std::alloc::{AllocError, Global};
use txn_types::{Happening, Msg, Ts};

/// What a record of the step that an event makes may carry. It is known before the step.
pub fn payload_of(alloc: Global, core: &Shard, what: &Happening) -> Result<Payload, AllocError>
    requires { IsBounded core.now.part }
    ensures { IfOk result (λ p. drop 64 p ≡ carried core.now.part what.now) }
{
    let Happening::Deliver(envelope) = what else {
        return Payload::new(alloc);
    };
    match &envelope.msg {
        Msg::Commit(m) => Payload::of_writes(alloc, core.writes_of(&m.lsid)),
        Msg::Prepare(m) => Payload::of_writes(alloc, core.writes_of(&m.lsid)),
        Msg::CommitTwo(m) => Payload::of_parts(alloc, &m.parts),
        _ => Payload::new(alloc),
    }
}

/// Appends the ceiling and then the record. It takes no memory.
pub fn append_all<L: RecordLog>(
    log: &mut L,
    payload: &mut Payload,
    ceiling: Option<Ts>,
    then: Option<Rec>,
) -> Result<(), DiskErr>
    requires room { 2 ≤ L.room log.old }
    requires ceiling { IfSome ceiling (λ _. L.is_closed log.old ≡ false) }
    requires then { IfSome then (λ _. L.is_closed log.old ≡ false) }
    requires carries { Carries (drop 64 payload.old) then }
    ensures ok { OnOk result ((L.kept log.new ≡ L.kept log.old ++ joined (appends ceiling then))
        × (L.lost log.new ≡ L.lost log.old) × (L.is_closed log.new ≡ L.is_closed log.old)) }
    ensures err { OnErr result
        (IsCut (appends ceiling then) (L.kept log.old) (L.kept log.new) (L.lost log.new)) }
    ensures faults { FailsOnly DiskErr.Failed (L.fault_count log.old)
        (L.fault_count log.new) result }
{
    if let Some(bound) = ceiling {
        log.append(Rec::Ceiling { bound }, payload)?;
    }
    if let Some(rec) = then {
        log.append(rec, payload)?;
    }
    Ok(())
}
