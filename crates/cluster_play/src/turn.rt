//! Turns of a playing: what comes next of the schedule, and what is done of it.
ghost use Rattle.std.specs.Prelude.{◌≡◌, ◌≤◌, ◌++◌, false, None, ℕ, List, Option, IsTrue, IfOk, IfErr, OnOk};
ghost use Rattle.outcomes.specs.Causes.{FailsOnly};
ghost use Rattle.outside_core.specs.Bytes.{Went, WentInPart};
ghost use Rattle.txn_model.specs.declared.ran.Ran.{Ran};
ghost use Rattle.cluster_play.specs.Plays.{next_at, Does};
ghost use Rattle.cluster_play.specs.Steps.{Comes, status_at, StopsFor, Leaves, RoseAt, Acts, ActStops, TurnedTo, TurnStops};

use crate::listing::Listing;
use crate::renew::renew;
use crate::status::Status;
use crate::step::{DiskWorld, step};
use crate::stop::{Cut, Stop};
use chunk_map::ChunkMap;
use cluster_world::WorldEvent;
use outside_core::{Disk, Sink, SinkErr, write_all};
use play_steps::{Given, Player, Want};
use std::alloc::{AllocError, Global};
use txn_types::NodeEvent;

/// Writes bytes.
fn write<K: Sink>(out: &mut K, bytes: &[u8]) -> Result<(), Cut>
    ensures whole { OnOk result (Went (K.held out.old) (K.held out.new) bytes.now) }
    ensures part { WentInPart (K.held out.old) (K.held out.new) bytes.now }
    ensures faults { FailsOnly Cut.WriteFault (K.fault_count out.old)
        (K.fault_count out.new) result }
{
    match write_all(out, bytes) {
        Ok(()) => Ok(()),
        Err(SinkErr::Failed) => Err(Cut::WriteFault),
        Err(SinkErr::Memory) => Err(Cut::Memory),
    }
}

/// What comes next; what stands in front of it is written.
fn next<K: Sink, D: Disk>(
    alloc: Global,
    player: &mut Player,
    world: &DiskWorld<D>,
    map: &ChunkMap,
    out: &mut K,
) -> Result<Want, Cut>
    requires { world.now.spent ≡ false }
    ensures next { IfOk result (λ w. ((next_at map.now world.now.nodes player.old).1 ≡ w)
        × ((next_at map.now world.now.nodes player.old).2 ≡ player.new)) }
    ensures whole { OnOk result
        (Went (K.held out.old) (K.held out.new) (next_at map.now world.now.nodes player.old).0) }
    ensures part { WentInPart (K.held out.old) (K.held out.new)
        (next_at map.now world.now.nodes player.old).0 }
    ensures faults { FailsOnly Cut.WriteFault (K.fault_count out.old)
        (K.fault_count out.new) result }
{
    let commits = world.commits();
    let mut text = Vec::new(alloc);
    match player.next(&Listing { map, commits }, &mut text) {
        Ok(want) => {
            write(out, &text)?;
            Ok(want)
        }
        Err(AllocError) => Err(Cut::Memory),
    }
}

/// The status that ends the playing where this comes next.
fn status_at(want: &Want) -> Option<Status>
    ensures { result ≡ status_at want.now }
{
    match want {
        Want::End => Some(Status::Ok),
        Want::Bad { line } => Some(Status::BadLine { line: *line }),
        Want::Spent => Some(Status::Budget),
        Want::Event { .. } | Want::Deliver { .. } | Want::Renew { .. } => None,
    }
}

/// The event that is wanted.
fn act_at<D: Disk>(
    player: &mut Player,
    world: &mut DiskWorld<D>,
    given: Given,
    event: WorldEvent,
    text: &mut Vec<u8>,
) -> Result<(), Stop<D>>
    requires { world.old.spent ≡ false }
    ensures comes { OnOk result
        ((item : Option Ran) × (more : List ℕ) × (text.new.items ≡ text.old.items ++ more)
        × Comes player.old given event world.old.nodes item more player.new world.new.nodes) }
    ensures live { OnOk result (world.new.spent ≡ false) }
    ensures stop { IfErr result (λ s. s ≡ Stop.Cut Cut.Memory) }
    ensures nodes { Leaves result world.old.nodes world.new.nodes }
{
    match step(player, world, given, event, text) {
        Ok(()) => Ok(()),
        Err(AllocError) => Err(Stop::Cut(Cut::Memory)),
    }
}

/// Does what is wanted; what is written of it is put after `text`.
fn act<D: Disk>(
    alloc: Global,
    player: &mut Player,
    world: &mut DiskWorld<D>,
    map: &ChunkMap,
    want: Want,
    text: &mut Vec<u8>,
) -> Result<(), Stop<D>>
    requires live { world.old.spent ≡ false }
    requires goes_on { status_at want ≡ None }
    ensures done { OnOk result
        ((item : Option Ran) × (more : List ℕ) × (text.new.items ≡ text.old.items ++ more)
        × Does ((d : D) → IsTrue (D.tells d)) map.now player.old want world.old.nodes item more
        player.new world.new.nodes) }
    ensures live { OnOk result (world.new.spent ≡ false) }
    ensures stop { IfErr result (StopsFor want) }
    ensures nodes { Leaves result world.old.nodes world.new.nodes }
{
    let given = Given::of(&want);
    let wall = player.wall();
    match want {
        Want::Event { node, happening } => {
            let event = NodeEvent {
                wall,
                what: happening,
            };
            act_at(player, world, given, WorldEvent::At { node, event }, text)
        }
        Want::Deliver { number } => {
            let event = WorldEvent::Deliver { number, wall };
            act_at(player, world, given, event, text)
        }
        Want::Renew { node } => renew(alloc, player, world, map, node, text),
        Want::End | Want::Bad { .. } | Want::Spent => unreachable!(),
    }
}

/// Does what is wanted, and writes what is written of it.
fn act_and_write<K: Sink, D: Disk>(
    alloc: Global,
    player: &mut Player,
    world: &mut DiskWorld<D>,
    map: &ChunkMap,
    want: Want,
    out: &mut K,
) -> Result<(), Stop<D>>
    requires live { world.old.spent ≡ false }
    requires goes_on { status_at want ≡ None }
    ensures acts { OnOk result (Acts ((d : D) → IsTrue (D.tells d)) map.now player.old want
        world.old.nodes (K.held out.old) (K.held out.new) player.new world.new.nodes) }
    ensures live { OnOk result (world.new.spent ≡ false) }
    ensures stop { IfErr result (ActStops ((d : D) → IsTrue (D.tells d)) map.now player.old want
        world.old.nodes (K.held out.old) (K.held out.new)) }
    ensures nodes { Leaves result world.old.nodes world.new.nodes }
    ensures later { K.fault_count out.old ≤ K.fault_count out.new }
    ensures fault { IfErr result (RoseAt (K.fault_count out.old) (K.fault_count out.new)) }
{
    let mut text = Vec::new(alloc);
    act(alloc, player, world, map, want, &mut text)?;
    match write(out, &text) {
        Ok(()) => Ok(()),
        Err(cut) => Err(Stop::Cut(cut)),
    }
}

/// Does what comes next of a schedule, and writes its text; or tells the status that ends the
/// playing there.
pub fn turn<K: Sink, D: Disk>(
    alloc: Global,
    player: &mut Player,
    world: &mut DiskWorld<D>,
    map: &ChunkMap,
    out: &mut K,
) -> Result<Option<Status>, Stop<D>>
    requires { world.old.spent ≡ false }
    ensures turned { IfOk result (TurnedTo ((d : D) → IsTrue (D.tells d)) map.now player.old
        world.old.nodes (K.held out.old) (K.held out.new) player.new world.new.nodes) }
    ensures live { OnOk result (world.new.spent ≡ false) }
    ensures stop { IfErr result (TurnStops ((d : D) → IsTrue (D.tells d)) map.now player.old
        world.old.nodes (K.held out.old) (K.held out.new)) }
    ensures nodes { Leaves result world.old.nodes world.new.nodes }
    ensures later { K.fault_count out.old ≤ K.fault_count out.new }
    ensures fault { IfErr result (RoseAt (K.fault_count out.old) (K.fault_count out.new)) }
{
    let want = match next(alloc, player, world, map, out) {
        Ok(want) => want,
        Err(cut) => return Err(Stop::Cut(cut)),
    };
    match status_at(&want) {
        Some(status) => Ok(Some(status)),
        None => match act_and_write(alloc, player, world, map, want, out) {
            Ok(()) => Ok(None),
            Err(stop) => Err(stop),
        },
    }
}
