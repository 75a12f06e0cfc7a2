//! A shard's step.
ghost use Rattle.std.specs.Prelude.{◌≡◌, ◌≢◌, ◌↔◌, [], None, Some, Err, IfOk, OnErr};
ghost use Rattle.txn_types.specs.declared.event.Happening.TheVariants as what;
ghost use Rattle.txn_types.specs.declared.event.NodeAnswer.TheVariants as reply;
ghost use Rattle.shard_core.specs.Core.{Ample, core_step};
ghost use Rattle.shard_core.specs.Told.{Gives, given_by};
ghost use Rattle.shard_core.specs.Coordinating.{on_resend};
ghost use Rattle.shard_core.specs.Ruled.{quiet};
ghost use Rattle.shard_core.specs.State.{expired, walled};
ghost use Rattle.shard_core.specs.Steps.{Steps, said, given_to, step_of};

use crate::given::{Given, Slip};
use crate::shard::Shard;
use journal_rec::Rec;
use participant::PartErr;
use sqlite_items::Items;
use std::alloc::Global;
use txn_types::{Cause, Envelope, Envelopes, Happening, Msg, NodeEvent, Replies, Ts};
use version_store::Held;

/// What a node gives out at an event: messages, replies to connections, and the number of the
/// refusal that closes a connection.
#[derive(Drop)]
pub struct Outbox {
    pub envelopes: Envelopes,
    pub replies: Replies,
    pub closed: Option<u8>,
}

impl Outbox {
    /// Nothing is given out.
    pub fn new(alloc: Global) -> Outbox
        ensures { result ≡ record { envelopes = []; replies = []; closed = None } }
    {
        Outbox {
            envelopes: Items::new(alloc),
            replies: Items::new(alloc),
            closed: None,
        }
    }
}

/// What is to be made durable before a step's messages are given out, the ceiling and then the
/// record; and the document that is held, where the event may be given again.
#[derive(Drop)]
pub struct Step {
    pub ceiling: Option<Ts>,
    pub then: Option<Rec>,
    pub held: Option<Held>,
}

/// Why a shard makes no step.
#[derive(Clone, Copy)]
pub enum StepErr {
    /// There was no memory.
    Memory,
    /// The shard's disk has failed, and the event isn't the delivery of a statement.
    Stopped,
}

/// Gives out what a rule gave, in place of what stood there, and leaves what is to be made durable
/// before.
fn hand_out(alloc: Global, out: &mut Outbox, ceiling: Option<Ts>, given: Given) -> Step
    ensures step { result ≡ step_of ceiling given }
    ensures out { out.new ≡ given_to given }
{
    let Given {
        rec,
        out: envelopes,
        held,
    } = given;
    *out = Outbox {
        envelopes,
        replies: Items::new(alloc),
        closed: None,
    };
    Step {
        ceiling,
        then: rec,
        held,
    }
}

impl Shard {
    /// A step: what an event changes. What is to be made durable, in the order of the answer, comes
    /// before what is given out to `out`, in place of what stood there. At a refusal nothing has
    /// changed. Copies of the shard's part are made only where something expires at a message of a
    /// transaction that is coordinated here.
    pub fn step(&mut self, event: &NodeEvent, out: &mut Outbox) -> Result<Step, StepErr>
        ensures step { Steps self.old event.now (said self.new out.new result) }
        ensures err { OnErr result ((self.new ≡ self.old) × (out.new ≡ out.old)) }
        ensures stopped { (result ≡ Err StepErr.Stopped)
            ↔ ((core_step Ample self.old event.now).answer ≡ reply.Stopped) }
    {
        match self.stopped {
            Some(faults) => self.refuse(faults, event, out),
            None => self.run(event, out),
        }
    }

    /// A stopped shard refuses a statement, and says nothing to what else comes.
    fn refuse(&self, faults: u64, event: &NodeEvent, out: &mut Outbox) -> Result<Step, StepErr>
        requires { self.now.stopped ≡ Some faults }
        ensures step { Steps self.now event.now (said self.now out.new result) }
        ensures err { OnErr result (out.new ≡ out.old) }
        ensures stopped { (result ≡ Err StepErr.Stopped)
            ↔ ((core_step Ample self.now event.now).answer ≡ reply.Stopped) }
    {
        let Happening::Deliver(envelope) = &event.what else {
            return Err(StepErr::Stopped);
        };
        let Msg::Statement(m) = &envelope.msg else {
            return Err(StepErr::Stopped);
        };
        let Ok(slip) = Slip::new(self.alloc) else {
            return Err(StepErr::Memory);
        };
        let cause = Cause::Faulted { faults };
        let given = self.answer(slip, envelope.from, m, Ts(0), Err(cause));
        Ok(hand_out(self.alloc, out, None, given))
    }

    /// The step of a shard that isn't stopped.
    fn run(&mut self, event: &NodeEvent, out: &mut Outbox) -> Result<Step, StepErr>
        requires { self.old.stopped ≡ None }
        ensures step { Steps self.old event.now (said self.new out.new result) }
        ensures err { OnErr result ((self.new ≡ self.old) × (out.new ≡ out.old)) }
        ensures running { result ≢ Err StepErr.Stopped }
    {
        match &event.what {
            Happening::Deliver(envelope) => self.run_delivery(event.wall, envelope, out),
            Happening::Resend => self.run_resend(event.wall, out),
            Happening::Client { .. } => Ok(self.pass(event.wall, out)),
            Happening::Gone { .. } => Ok(self.pass(event.wall, out)),
            Happening::Moment => Ok(self.pass(event.wall, out)),
        }
    }

    /// Time goes on, and nothing is given out.
    fn pass(&mut self, wall: u32, out: &mut Outbox) -> Step
        ensures core { self.new ≡ expired (walled self.old wall) }
        ensures step { result ≡ step_of None (given_by (quiet self.old)) }
        ensures out { out.new ≡ given_to (given_by (quiet self.old)) }
    {
        self.enter(wall);
        hand_out(self.alloc, out, None, Given::quiet(self.alloc))
    }

    /// A message is delivered.
    fn run_delivery(
        &mut self,
        wall: u32,
        envelope: &Envelope,
        out: &mut Outbox,
    ) -> Result<Step, StepErr>
        requires { self.old.stopped ≡ None }
        ensures step { Steps self.old (record { wall = wall; what = what.Deliver envelope.now })
            (said self.new out.new result) }
        ensures err { OnErr result ((self.new ≡ self.old) × (out.new ≡ out.old)) }
        ensures running { result ≢ Err StepErr.Stopped }
    {
        let ceiling = self.ceiling_at(wall, envelope);
        match self.deliver(wall, envelope) {
            Ok(given) => Ok(hand_out(self.alloc, out, ceiling, given)),
            Err(PartErr::Memory) => Err(StepErr::Memory),
        }
    }

    /// What is waited for is asked again, with messages that are made before anything expires.
    fn resend(&mut self, wall: u32) -> Result<Given, PartErr>
        ensures ok { IfOk result
            (λ g. Gives (on_resend (expired (walled self.old wall))) self.new g) }
        ensures err { OnErr result (self.new ≡ self.old) }
    {
        match self.resends(self.clock.last) {
            Ok(out) => {
                self.enter(wall);
                Ok(Given::sends(out))
            }
            Err(PartErr::Memory) => Err(PartErr::Memory),
        }
    }

    /// The event that asks again.
    fn run_resend(&mut self, wall: u32, out: &mut Outbox) -> Result<Step, StepErr>
        requires { self.old.stopped ≡ None }
        ensures step { Steps self.old (record { wall = wall; what = what.Resend })
            (said self.new out.new result) }
        ensures err { OnErr result ((self.new ≡ self.old) × (out.new ≡ out.old)) }
        ensures running { result ≢ Err StepErr.Stopped }
    {
        match self.resend(wall) {
            Ok(given) => Ok(hand_out(self.alloc, out, None, given)),
            Err(PartErr::Memory) => Err(StepErr::Memory),
        }
    }
}
