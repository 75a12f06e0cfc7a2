ghost use Rattle.std.specs.Prelude.{◌≡◌, ◌≤◌, ◌++◌, ◌∷◌, ℕ, List, [], Ok, IfOk, OnErr};
ghost use Rattle.outcomes.specs.Causes.{FailsOnly};
ghost use Rattle.node_lock.specs.Known.{Called};
ghost use Rattle.node_server.specs.Acts.{calling};
ghost use Rattle.node_server.specs.Ends.{Answered, Turns, heeded, replied};

use crate::ended::Ended;
use crate::log::Log;
use crate::talk::{Next, NextOf, Talk, TalkErr};
use crate::wait_room::WaitRoom;
use bson_core::Bytes;
use machine::Machine;
use node_lock::{NodeLock, Pass};
use std::alloc::{AllocError, Global};
use std::sync::Wait;

/// What a connection turns to after a call.
#[derive(Drop)]
pub enum Turn<E> {
    /// To a call of this event.
    Call(E),
    /// To the next message, once these bytes are written.
    Write(Bytes),
    /// To its end, once these bytes are written.
    Close(Bytes),
}

/// What a message is answered.
#[derive(Drop)]
pub enum Reply {
    /// These bytes.
    Write(Bytes),
    /// These bytes and the end.
    Close(Bytes),
}

// A call of the event, which is logged, and what the Talk makes of its answer; and the event once
// more. All memory is there before the call.
fn call_once<R: Wait, M: Machine, T: Talk<M>>(
    rt: &R,
    alloc: Global,
    lock: &NodeLock<M>,
    pass: &mut Pass<M>,
    talk: &mut T,
    log: &mut Log<M>,
    event: M::Event,
) -> Result<(Result<Next<M>, TalkErr>, M::Event), AllocError>
where
    M::Event: Drop,
    requires { pass.old.table ≡ lock.now.table }
    ensures table { pass.new.table ≡ pass.old.table }
    ensures called { IfOk result (λ made. (place : ℕ) × (answer : M.Answer)
        × Called M.takes event place answer pass.old.knows pass.new.knows
        × T.carries talk.old answer made.0 talk.new
        × (log.new ≡ log.old ++ (place, event, answer) ∷ [])) }
    ensures again { IfOk result (λ made. made.1 ≡ event) }
    ensures faults { IfOk result (λ made. FailsOnly TalkErr.Failed (T.fault_count talk.old)
        (T.fault_count talk.new) made.0) }
    ensures refused { OnErr result
        ((pass.new ≡ pass.old) × (talk.new ≡ talk.old) × (log.new ≡ log.old)) }
{
    log.calls.reserve(1)?;
    let again = M::copy_event(alloc, &event)?;
    let (place, answer) = lock.call(rt, pass, &event);
    let next = talk.after(rt, &answer);
    log.calls.push_reserved((place, event, answer));
    Ok((next, again))
}

fn heed<E: Drop>(next: Result<NextOf<E>, TalkErr>, again: E) -> Result<Turn<E>, Ended>
    ensures { result ≡ heeded again next }
{
    match next {
        Ok(NextOf::Call(event)) => Ok(Turn::Call(event)),
        Ok(NextOf::Hold) => Ok(Turn::Call(again)),
        Ok(NextOf::Write(bytes)) => Ok(Turn::Write(bytes)),
        Ok(NextOf::Close(bytes)) => Ok(Turn::Close(bytes)),
        Err(TalkErr::Failed) => Err(Ended::TalkFault),
        Err(TalkErr::Memory) => Err(Ended::Memory),
    }
}

// A call, and then a ring of the room; or, where the machine held the event, a wait in it for a
// call of another. The count is read before the call, so that no ring after it is missed.
fn take_turn<R: Wait, M: Machine, T: Talk<M>>(
    rt: &R,
    alloc: Global,
    lock: &NodeLock<M>,
    pass: &mut Pass<M>,
    room: &WaitRoom,
    talk: &mut T,
    log: &mut Log<M>,
    event: M::Event,
) -> Result<Turn<M::Event>, Ended>
where
    M::Event: Drop,
    requires { pass.old.table ≡ lock.now.table }
    ensures table { pass.new.table ≡ pass.old.table }
    ensures later { T.fault_count talk.old ≤ T.fault_count talk.new }
    ensures answered { (frame : List ℕ) → Answered T.makes T.carries M.takes talk.old talk.new
        pass.old.knows pass.new.knows log.old log.new
        (calling frame event) []
        (Turns frame (T.fault_count talk.old) (T.fault_count talk.new) result) }
{
    let seen = room.count();
    let Ok(made) = call_once(rt, alloc, lock, pass, talk, log, event) else {
        return Err(Ended::Memory);
    };
    if matches!(made.0, Ok(NextOf::Hold)) {
        room.wait(rt, seen);
    } else {
        room.ring();
    }
    heed(made.0, made.1)
}

/// The calls for one message, until there is something to write.
pub(crate) fn answer<R: Wait, M: Machine, T: Talk<M>>(
    rt: &R,
    alloc: Global,
    lock: &NodeLock<M>,
    pass: &mut Pass<M>,
    room: &WaitRoom,
    talk: &mut T,
    log: &mut Log<M>,
    event: M::Event,
) -> Result<Reply, Ended>
where
    M::Event: Drop,
    requires { pass.old.table ≡ lock.now.table }
    ensures table { pass.new.table ≡ pass.old.table }
    ensures later { T.fault_count talk.old ≤ T.fault_count talk.new }
    ensures answered { (frame : List ℕ) → Answered T.makes T.carries M.takes talk.old talk.new
        pass.old.knows pass.new.knows log.old log.new
        (calling frame event) []
        (Turns frame (T.fault_count talk.old) (T.fault_count talk.new) (replied result)) }
{
    let mut event = event;
    for _ in rt.forever() {
        let turn = match take_turn(rt, alloc, lock, pass, room, talk, log, event) {
            Ok(turn) => turn,
            Err(ended) => return Err(ended),
        };
        match turn {
            Turn::Call(next) => event = next,
            Turn::Write(bytes) => return Ok(Reply::Write(bytes)),
            Turn::Close(bytes) => return Ok(Reply::Close(bytes)),
        }
    }
    unreachable!()
}
