ghost use Rattle.std.specs.Prelude.{◌≡◌};

use crate::flag::Flag;
use crate::gate::{GateLink, Porter};
use node_lock::{NodeLock, Pass};
use node_server::{Ended, Log, WaitRoom, serve_connection};
use std::alloc::Global;
use std::sync::Wait;
use std::sync::atomic::AtomicU64;
use std::thread::{Threads, join};

/// What came of a connection.
#[derive(Drop)]
pub struct Outcome {
    pub ended: Ended,
    /// Whether the one reply was written, and nothing else.
    pub replied: bool,
    /// How many calls it made.
    pub calls: usize,
}

fn serve<R: Wait>(
    rt: &R,
    alloc: Global,
    lock: &NodeLock<Flag>,
    mut pass: Pass<Flag>,
    room: &WaitRoom,
    mut link: GateLink<'_>,
    gate: &AtomicU64,
) -> Outcome
    requires { pass.table ≡ lock.now.table }
{
    let mut talk = Porter { alloc, gate };
    let mut log = Log::<Flag>::new(alloc);
    let ended = serve_connection(
        rt, alloc, lock, &mut pass, room, &mut link, &mut talk, &mut log,
    );
    Outcome {
        ended,
        replied: link.sent() == [7u8].as_slice(),
        calls: log.calls().len(),
    }
}

/// Serves two connections to one machine, beside each other. The first that is held opens the gate.
pub fn serve_both<R: Threads + Wait + Sync>(
    rt: &R,
    alloc: Global,
    lock: &NodeLock<Flag>,
    mut pass: Pass<Flag>,
    first: GateLink<'_>,
    second: GateLink<'_>,
    gate: &AtomicU64,
) -> (Outcome, Outcome)
    requires table { pass.table ≡ lock.now.table }
    requires shares { pass.knows.shares ≡ 2 }
{
    let room = &WaitRoom::new();
    let other = lock.split(&mut pass);
    join(
        rt,
        move ||
            requires { pass.table ≡ lock.now.table }
        { serve(rt, alloc, lock, pass, room, first, gate) },
        move ||
            requires { other.table ≡ lock.now.table }
        { serve(rt, alloc, lock, other, room, second, gate) },
    )
}
