//! How time, expiry and a message's times change a shard.
ghost use Rattle.std.specs.Prelude.{◌≡◌, ◌≤◌, ◌⊎◌, max};
ghost use Rattle.txn_types.specs.Clock.{reach, raised, ceiling_for, next_time, last_time};
ghost use Rattle.shard_core.specs.State.{read_at_of, ceiling_of, met, walled, expired};
ghost use Rattle.shard_core.specs.Arrived.{arrived};

use crate::shard::Shard;
use txn_types::{Envelope, HybridClock, Msg, Ts};

/// How far above the time that it asks for a ceiling is: ten seconds.
const LEAD: u64 = 10 << 32;

/// The read timestamp that a message names, 0 where it names none.
pub fn read_at_of(msg: &Msg) -> Ts
    ensures { result ≡ read_at_of msg.now }
{
    match msg {
        Msg::Statement(m) => m.read_at,
        Msg::Answer(m) => m.read_at,
        Msg::Commit(_) | Msg::Outcome(_) | Msg::Abort(_) => Ts(0),
        Msg::CommitTwo(_) | Msg::Prepare(_) | Msg::Vote(_) => Ts(0),
        Msg::Decide(_) | Msg::Acked(_) | Msg::Recover(_) => Ts(0),
        Msg::Nudge => Ts(0),
    }
}

/// Up to which time a message may take a clock.
pub fn reach(last: Ts, wall: u32, time: Ts, read_at: Ts) -> Ts
    ensures { result ≡ reach last wall time read_at }
{
    let ticked = last.0.saturating_add(1).max((u64::from(wall) << 32) + 1);
    let named = time.0.saturating_add(1).max(read_at.0.saturating_add(1));
    Ts(ticked.max(named))
}

/// The ceiling that a message asks of this clock at this wall.
fn asked_of(clock: &HybridClock, wall: u32, envelope: &Envelope) -> Option<Ts>
    ensures { result ≡ ceiling_for (record { last = clock.now.last; ceiling = clock.now.ceiling })
        (reach clock.now.last wall envelope.now.time (read_at_of envelope.now.msg)) }
{
    let reached = reach(clock.last, wall, envelope.time, read_at_of(&envelope.msg));
    if clock.ceiling.0 < reached.0 {
        Some(Ts(reached.0.saturating_add(LEAD)))
    } else {
        None
    }
}

/// The latest of three times.
fn latest(last: Ts, time: Ts, read_at: Ts) -> Ts
    ensures { result ≡ max (max last time) read_at }
{
    Ts(last.0.max(time.0).max(read_at.0))
}

/// Lets the clock go on up to this ceiling, where there is one.
fn raise_if(clock: &mut HybridClock, bound: Option<Ts>)
    ensures ceiling { clock.new.ceiling
        ≡ (raised (record { last = clock.old.last; ceiling = clock.old.ceiling }) bound).ceiling }
    ensures last { clock.new.last ≡ clock.old.last }
{
    if let Some(bound) = bound {
        clock.raise(bound);
    }
}

/// Moves the clock on to a time within its ceiling.
fn advance(clock: &mut HybridClock, to: Ts)
    requires { to ≤ clock.old.ceiling }
    ensures last { clock.new.last ≡ max clock.old.last to }
    ensures ceiling { clock.new.ceiling ≡ clock.old.ceiling }
{
    if clock.last.0 < to.0 {
        clock.last = to;
    }
}

/// A clock with this ceiling of its own, after the one that a message which names these times asks
/// for.
fn meet_times(
    clock: &mut HybridClock,
    wall: u32,
    time: Ts,
    read_at: Ts,
    ceiling: Ts,
    bound: Option<Ts>,
)
    requires own { ceiling ≡ clock.old.ceiling }
    requires bound { bound
        ≡ ceiling_for (record { last = clock.old.last; ceiling = clock.old.ceiling })
        (reach clock.old.last wall time read_at) }
    ensures last { clock.new.last ≡ max (max clock.old.last time) read_at }
    ensures ceiling { clock.new.ceiling
        ≡ (raised (record { last = clock.old.last; ceiling = clock.old.ceiling }) bound).ceiling }
    ensures ticks { (clock.new.last ≡ last_time)
        ⊎ (next_time clock.new.last wall ≤ clock.new.ceiling) }
{
    raise_if(clock, bound);
    advance(clock, time);
    advance(clock, read_at);
}

impl Shard {
    /// At this wall, which never falls, and without what has expired.
    pub(crate) fn enter(&mut self, wall: u32)
        ensures { self.new ≡ expired (walled self.old wall) }
    {
        self.wall = self.wall.max(wall);
        self.part.expire(self.wall);
    }

    /// The ceiling that is to be made durable for a message that is delivered at this wall.
    pub(crate) fn ceiling_at(&self, wall: u32, envelope: &Envelope) -> Option<Ts>
        ensures { result ≡ ceiling_of (expired (walled self.now wall)) envelope.now }
    {
        asked_of(&self.clock, self.wall.max(wall), envelope)
    }

    /// With the ceiling that a delivered message asks for, and the clock at or above the message's
    /// times.
    fn meet(&mut self, envelope: &Envelope)
        ensures met { self.new ≡ met self.old envelope.now }
        ensures clock { (self.new.clock.last ≡ last_time)
            ⊎ (next_time self.new.clock.last self.new.wall ≤ self.new.clock.ceiling) }
        ensures time { read_at_of envelope.now.msg ≤ self.new.clock.last }
    {
        let bound = asked_of(&self.clock, self.wall, envelope);
        let (wall, time, read_at) = (self.wall, envelope.time, read_at_of(&envelope.msg));
        let ceiling = self.clock.ceiling;
        meet_times(&mut self.clock, wall, time, read_at, ceiling, bound);
    }

    /// A delivered message has come: first the wall, then what has expired, then the message's
    /// times.
    #[tactic(auto, unfolding(crate::specs::Arrived::arrived))]
    pub(crate) fn arrive(&mut self, wall: u32, envelope: &Envelope)
        ensures arrived { self.new ≡ arrived self.old wall envelope.now }
        ensures clock { (self.new.clock.last ≡ last_time)
            ⊎ (next_time self.new.clock.last self.new.wall ≤ self.new.clock.ceiling) }
        ensures time { read_at_of envelope.now.msg ≤ self.new.clock.last }
    {
        self.enter(wall);
        self.meet(envelope);
    }

    /// The clock after the message's times.
    pub(crate) fn time_at(&self, wall: u32, envelope: &Envelope) -> Ts
        ensures { result ≡ (arrived self.now wall envelope.now).clock.last }
    {
        let _wall = wall;
        latest(self.clock.last, envelope.time, read_at_of(&envelope.msg))
    }
}
