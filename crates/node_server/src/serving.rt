ghost use Rattle.std.specs.Prelude.{◌≡◌, ◌≤◌, ◌<◌, ◌^◌, ◌∷◌, [], OnOk, IfErr};
ghost use Rattle.outside_core.specs.Bytes.{Went, WentInPart};
ghost use Rattle.node_server.specs.Acts.{message};
ghost use Rattle.node_server.specs.Ends.{tally, Later, Judges, SendFails, Replies, Frames, Serves, EndsSo, Answered, Served};

use crate::calling::{Reply, answer};
use crate::ended::Ended;
use crate::incoming::Incoming;
use crate::log::Log;
use crate::talk::{Talk, TalkErr};
use crate::wait_room::WaitRoom;
use bson_core::Bytes;
use machine::Machine;
use node_lock::{NodeLock, Pass};
use op_msg::{FrameErr, read_frame};
use outside_core::{Link, LinkErr, send_all};
use std::alloc::Global;
use std::sync::Wait;

// How a connection ends that its Talk closes on this message.
fn judge(alloc: Global, frame: &[u8]) -> Ended
    ensures { Judges frame.now result }
{
    match read_frame(alloc, frame) {
        Ok(_) => Ended::Closed,
        Err(FrameErr::Memory) => Ended::Memory,
        Err(err) => Ended::BadFrame { err },
    }
}

fn send<L: Link>(link: &mut L, bytes: &[u8]) -> Result<(), Ended>
    ensures whole { OnOk result (Went (L.held link.old) (L.held link.new) bytes.now) }
    ensures part { WentInPart (L.held link.old) (L.held link.new) bytes.now }
    ensures left { L.left link.new ≡ L.left link.old }
    ensures later { (L.fault_count link.old ≤ L.fault_count link.new)
        × (L.end_count link.old ≤ L.end_count link.new) }
    ensures cause { IfErr result (SendFails (L.fault_count link.old) (L.fault_count link.new)) }
{
    match send_all(link, bytes) {
        Ok(()) => Ok(()),
        Err(LinkErr::Failed) => Err(Ended::LinkFault),
        Err(LinkErr::Memory) => Err(Ended::Memory),
    }
}

// Writes what a message is answered; it ends where that closes the connection.
fn write_reply<L: Link>(
    alloc: Global,
    link: &mut L,
    frame: &[u8],
    reply: Reply,
) -> Result<(), Ended>
    ensures left { L.left link.new ≡ L.left link.old }
    ensures later { (L.fault_count link.old ≤ L.fault_count link.new)
        × (L.end_count link.old ≤ L.end_count link.new) }
    ensures replies { Replies frame.now (L.held link.old) (L.held link.new) (L.fault_count link.old)
        (L.fault_count link.new) reply result }
{
    match reply {
        Reply::Write(bytes) => send(link, bytes.as_slice()),
        Reply::Close(bytes) => {
            let ended = judge(alloc, frame);
            if let Err(failed) = send(link, bytes.as_slice()) {
                return Err(failed);
            }
            Err(ended)
        }
    }
}

// Answers one message.
fn serve_frame<R: Wait, M: Machine, L: Link, T: Talk<M>>(
    rt: &R,
    alloc: Global,
    lock: &NodeLock<M>,
    pass: &mut Pass<M>,
    room: &WaitRoom,
    link: &mut L,
    talk: &mut T,
    log: &mut Log<M>,
    frame: Bytes,
    kept: &Bytes,
) -> Result<(), Ended>
where
    M::Event: Drop,
    requires table { pass.old.table ≡ lock.now.table }
    requires kept { kept.now ≡ frame }
    ensures table { pass.new.table ≡ pass.old.table }
    ensures left { L.left link.new ≡ L.left link.old }
    ensures later { (L.fault_count link.old ≤ L.fault_count link.new) × (L.end_count link.old
        ≤ L.end_count link.new) × (T.fault_count talk.old ≤ T.fault_count talk.new) }
    ensures answered { Answered T.makes T.carries M.takes talk.old talk.new pass.old.knows
        pass.new.knows log.old log.new message (frame ∷ [])
        (Frames (L.held link.old) (L.held link.new) (L.fault_count link.old)
        (L.fault_count link.new) (T.fault_count talk.old) (T.fault_count talk.new) result) }
{
    let event = match talk.event(frame) {
        Ok(event) => event,
        Err(TalkErr::Failed) => return Err(Ended::TalkFault),
        Err(TalkErr::Memory) => return Err(Ended::Memory),
    };
    let reply = match answer(rt, alloc, lock, pass, room, talk, log, event) {
        Ok(reply) => reply,
        Err(ended) => return Err(ended),
    };
    write_reply(alloc, link, kept.as_slice(), reply)
}

// Reads the next message, which waits for the peer, and answers it.
fn serve_next<R: Wait, M: Machine, L: Link, T: Talk<M>>(
    rt: &R,
    alloc: Global,
    lock: &NodeLock<M>,
    pass: &mut Pass<M>,
    room: &WaitRoom,
    link: &mut L,
    talk: &mut T,
    log: &mut Log<M>,
    incoming: &mut Incoming,
) -> Result<(), Ended>
where
    M::Event: Drop,
    requires table { pass.old.table ≡ lock.now.table }
    requires limit { incoming.old.feeder.limit < 2 ^ 32 }
    ensures table { pass.new.table ≡ pass.old.table }
    ensures limit { incoming.new.feeder.limit ≡ incoming.old.feeder.limit }
    ensures later { Later (tally (L.fault_count link.old)
        (L.end_count link.old) (T.fault_count talk.old))
        (tally (L.fault_count link.new) (L.end_count link.new) (T.fault_count talk.new)) }
    ensures served { Served T.makes T.carries M.takes talk.old talk.new pass.old.knows
        pass.new.knows log.old log.new incoming.old.feeder.limit incoming.old.feeder.held
        (L.left link.old) (L.left link.new)
        (Serves incoming.old.feeder.limit incoming.new.feeder.held (L.left link.new)
        (L.held link.old) (L.held link.new)
        (tally (L.fault_count link.old) (L.end_count link.old) (T.fault_count talk.old)) (tally
        (L.fault_count link.new) (L.end_count link.new) (T.fault_count talk.new)) result) }
{
    let frame = match incoming.next(rt, link) {
        Ok(frame) => frame,
        Err(ended) => return Err(ended),
    };
    let Ok(kept) = frame.copy(alloc) else {
        return Err(Ended::Memory);
    };
    serve_frame(rt, alloc, lock, pass, room, link, talk, log, frame, &kept)
}

/// Serves one connection until it ends: it reads a message, makes calls, and writes before it reads
/// the next. Where the Talk says `Hold` it waits in the room, with the lock left, until another
/// connection has made a call; it rings the room after each other call of its own. It may wait for
/// other threads, so what it ensures holds if it returns.
///
/// What it did is told as a list of acts: the messages that it read, each given to the Talk once,
/// and the calls that it made, each logged. After `Memory` what it read, sent, wrote and called
/// before stands.
pub fn serve_connection<R: Wait, M: Machine, L: Link, T: Talk<M>>(
    rt: &R,
    alloc: Global,
    lock: &NodeLock<M>,
    pass: &mut Pass<M>,
    room: &WaitRoom,
    link: &mut L,
    talk: &mut T,
    log: &mut Log<M>,
) -> Ended
where
    M::Event: Drop,
    requires { pass.old.table ≡ lock.now.table }
    ensures table { pass.new.table ≡ pass.old.table }
    ensures served { Served T.makes T.carries M.takes talk.old talk.new pass.old.knows
        pass.new.knows log.old log.new (T.frame_limit talk.old) [] (L.left link.old)
        (L.left link.new)
        (EndsSo (T.frame_limit talk.old) (L.left link.new) (L.held link.old) (L.held link.new)
        (tally (L.fault_count link.old) (L.end_count link.old) (T.fault_count talk.old)) (tally
        (L.fault_count link.new) (L.end_count link.new) (T.fault_count talk.new)) result) }
{
    let mut incoming = Incoming::new(alloc, talk.limit());
    for _ in rt.forever() {
        if let Err(ended) = serve_next(
            rt,
            alloc,
            lock,
            pass,
            room,
            link,
            talk,
            log,
            &mut incoming,
        ) {
            return ended;
        }
    }
    unreachable!()
}
