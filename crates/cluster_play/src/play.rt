//! A schedule from its bytes to what is written.
ghost use Rattle.std.specs.Prelude.{◌≡◌, ◌≤◌, ◌+◌, false, ℕ, List, Ok, Err, IsTrue, IfOk, IfErr, IfSome, OnOk, vec_len, vec_capacity};
ghost use Rattle.outcomes.specs.Causes.{Rose};
ghost use Rattle.play_script.specs.Input.{AreWhole};
ghost use Rattle.play_script.specs.Lines.{lines_of};
ghost use Rattle.cluster_play.specs.Schedule.{bytes_played, schedule_of, player_of};
ghost use Rattle.cluster_play.specs.Ended.{AreStarted, Ended};
ghost use Rattle.cluster_play.specs.Starting.{IsLone};
ghost use Rattle.cluster_play.specs.Refusing.{DisksSay};
ghost use Rattle.cluster_play.specs.Steps.{nodes_of, Leaves, RoseAt, HasAll, PlaysUpTo, PlayStops, status_cut, status_behind, EndedOver};

use crate::front::{Front, front_of};
use crate::nodes::{Nodes, place_of, status_of};
use crate::status::Status;
use crate::step::DiskWorld;
use crate::stop::{Cut, Stop};
use crate::turn::turn;
use chunk_map::ChunkMap;
use cluster_conf::Conf;
use cluster_world::{World, before_of};
use outside_core::{Disk, Sink};
use play_script::{End, Input};
use play_steps::Player;
use std::alloc::Global;

/// Plays the schedule up to where no more is played, and writes its text.
fn play_all<K: Sink, D: Disk>(
    alloc: Global,
    player: &mut Player,
    world: &mut DiskWorld<D>,
    map: &ChunkMap,
    out: &mut K,
) -> Result<Status, Stop<D>>
    requires { world.old.spent ≡ false }
    ensures played { IfOk result (PlaysUpTo ((d : D) → IsTrue (D.tells d)) map.now player.old
        world.old.nodes (K.held out.old) (K.held out.new)) }
    ensures stop { IfErr result (PlayStops ((d : D) → IsTrue (D.tells d)) map.now player.old
        world.old.nodes (K.held out.old) (K.held out.new)) }
    ensures nodes { Leaves result world.old.nodes world.new.nodes }
    ensures fault { IfErr result (RoseAt (K.fault_count out.old) (K.fault_count out.new)) }
{
    for _ in 0..u64::MAX {
        match turn(alloc, player, world, map, out) {
            Ok(None) => {}
            Ok(Some(status)) => return Ok(status),
            Err(stop) => return Err(stop),
        }
    }
    Err(Stop::Cut(Cut::Memory))
}

/// The status of a text that was cut short.
fn status_cut(cut: Cut) -> Status
    ensures { result ≡ status_cut cut }
{
    match cut {
        Cut::WriteFault => Status::WriteFault,
        Cut::Memory => Status::Memory,
    }
}

/// Puts all disks at their places again after a playing, and tells how that ended.
fn end<D: Disk>(played: Result<Status, Stop<D>>, nodes: Nodes<D>, disks: &mut Vec<D>) -> Status
    requires all { HasAll played (vec_len disks.old) (vec_len nodes.shards)
        (vec_len nodes.routers) }
    requires room { 24 ≤ vec_capacity disks.old }
    ensures status { result ≡ status_behind played }
    ensures all { vec_len disks.new ≡ 24 }
{
    match played {
        Ok(status) => {
            nodes.give_back(disks);
            status
        }
        Err(Stop::Cut(cut)) => {
            nodes.give_back(disks);
            status_cut(cut)
        }
        Err(Stop::Lone { node, error, disk }) => {
            nodes.give_back_with(node, disk, disks);
            status_of(error, place_of(node))
        }
    }
}

/// Plays a schedule over nodes that have started; all disks are at their places again after it.
fn play_over<K: Sink, D: Disk>(
    alloc: Global,
    map: &ChunkMap,
    player: &mut Player,
    nodes: Nodes<D>,
    out: &mut K,
    disks: &mut Vec<D>,
) -> Status
    requires all { vec_len disks.old + vec_len nodes.shards + vec_len nodes.routers ≡ 24 }
    requires shards { vec_len nodes.shards ≤ 16 }
    requires routers { vec_len nodes.routers ≤ 8 }
    requires room { 24 ≤ vec_capacity disks.old }
    ensures ended { EndedOver ((d : D) → IsTrue (D.tells d)) map.now player.old
        (nodes_of nodes.shards.items nodes.routers.items) (K.held out.old) (K.held out.new) result }
    ensures fault { result ≡ Status.WriteFault
        → Rose (K.fault_count out.old) (K.fault_count out.new) }
    ensures all { vec_len disks.new ≡ 24 }
{
    let Ok(before) = before_of(alloc, &nodes.shards) else {
        nodes.give_back(disks);
        return Status::Memory;
    };
    let Nodes { shards, routers } = nodes;
    let mut world = World::new(alloc, shards, routers, before);
    let played = play_all(alloc, player, &mut world, map, out);
    let (shards, routers) = world.into_nodes();
    end(played, Nodes { shards, routers }, disks)
}

/// Plays a schedule over the nodes that start from the disks.
fn play_front<K: Sink, D: Disk>(
    alloc: Global,
    front: &Front,
    out: &mut K,
    disks: &mut Vec<D>,
) -> Status
    requires { vec_len disks.old ≡ 24 }
    ensures ended { (lines : List (List ℕ)) → schedule_of lines ≡ Ok front.now
        → Ended ((d : D) → IsTrue (D.tells d)) lines (K.held out.old) (K.held out.new) result }
    ensures fault { result ≡ Status.WriteFault
        → Rose (K.fault_count out.old) (K.fault_count out.new) }
    ensures disks { (lines : List (List ℕ)) → schedule_of lines ≡ Ok front.now
        → DisksSay ((d : D) → IsTrue (D.tells d)) D.seen D.fault_count lines disks.old.items
        disks.new.items (K.held out.old) (K.held out.new) result }
    ensures all { vec_len disks.new ≡ 24 }
{
    let conf = &front.conf;
    match Nodes::start(alloc, conf, disks) {
        Ok(nodes) => {
            let mut player = Player::new(
                alloc,
                conf.shards(),
                conf.routers(),
                front.taken,
                front.lines,
            );
            play_over(alloc, conf.map(), &mut player, nodes, out, disks)
        }
        Err(status) => status,
    }
}

/// Plays lines.
fn play_lines<K: Sink, D: Disk>(
    alloc: Global,
    lines: &[u8],
    out: &mut K,
    disks: &mut Vec<D>,
) -> Status
    requires { vec_len disks.old ≡ 24 }
    ensures ended { Ended ((d : D) → IsTrue (D.tells d)) (lines_of lines.now) (K.held out.old)
        (K.held out.new) result }
    ensures fault { result ≡ Status.WriteFault
        → Rose (K.fault_count out.old) (K.fault_count out.new) }
    ensures disks { DisksSay ((d : D) → IsTrue (D.tells d)) D.seen D.fault_count
        (lines_of lines.now) disks.old.items disks.new.items (K.held out.old) (K.held out.new)
        result }
    ensures all { vec_len disks.new ≡ 24 }
{
    match front_of(alloc, lines) {
        Ok(front) => play_front(alloc, &front, out, disks),
        Err(status) => status,
    }
}

/// The bytes whose lines are played.
fn bytes_played(input: Input) -> Option<Vec<u8>>
    ensures { IfSome result (λ bytes. bytes.items ≡ bytes_played input.bytes.items input.end) }
{
    let Input { bytes, end } = input;
    let mut bytes = bytes;
    match end {
        End::Whole => Some(bytes),
        End::LongLine | End::ManyLines => match bytes.push(b'\n') {
            Ok(()) => Some(bytes),
            Err(_) => None,
        },
    }
}

/// Plays a schedule that was read, over the nodes that start from the disks, and writes what comes
/// of it. Place `n` of the disks is shard `n`'s, place `16 + n` is router `n`'s; all are at their
/// places again after it.
pub fn play_input<K: Sink, D: Disk>(
    alloc: Global,
    input: Input,
    out: &mut K,
    disks: &mut Vec<D>,
) -> Status
    requires { vec_len disks.old ≡ 24 }
    // The status and what was written are those of the lines that were read. Of a restart more is
    // said where disks tell what they hold.
    ensures ended { Ended ((d : D) → IsTrue (D.tells d)) (lines_of
        (bytes_played input.bytes.items input.end)) (K.held out.old) (K.held out.new) result }
    // What was read in part isn't played to a good end.
    ensures whole { AreWhole input.bytes.items → result ≡ Status.Ok → input.end ≡ End.Whole }
    // A fault is answered only where the sink's count rose in this call.
    ensures fault { result ≡ Status.WriteFault
        → Rose (K.fault_count out.old) (K.fault_count out.new) }
    // A disk is told of only where a node starts. At a first start it failed in this call, or has
    // more than 17 bytes; where the nodes started, none of them has more.
    ensures disks { DisksSay ((d : D) → IsTrue (D.tells d)) D.seen D.fault_count (lines_of
        (bytes_played input.bytes.items input.end)) disks.old.items disks.new.items
        (K.held out.old) (K.held out.new) result }
    ensures all { vec_len disks.new ≡ 24 }
{
    match bytes_played(input) {
        Some(bytes) => play_lines(alloc, &bytes, out, disks),
        None => Status::Memory,
    }
}
