//! What comes of a delivered message. What may want memory and has no answer that tells so takes it
//! before anything changes.
ghost use Rattle.std.specs.Prelude.{◌≡◌, false, Some, option_map, IfOk, OnErr};
ghost use Rattle.coordinator.specs.TwoPhase.{coordinated_of};
ghost use Rattle.shard_core.specs.Arrived.{arrived};
ghost use Rattle.shard_core.specs.Ruled.{quiet, coordinates};
ghost use Rattle.shard_core.specs.Rules.{ruled};
ghost use Rattle.shard_core.specs.Told.{Comes};

use crate::coordinating::router_of;
use crate::deciding::room_for;
use crate::given::{Given, Slip};
use crate::shard::Shard;
use coordinator::Plan;
use participant::PartErr;
use std::alloc::AllocError;
use txn_types::{
    Abort, Acked, Commit, CommitTwo, Decide, Envelope, Msg, Prepare, Recover, Statement, Vote,
};

impl Shard {
    /// A statement of a transaction that is coordinated here. Out of memory, the shard is as it
    /// was.
    fn deliver_own_statement(
        &mut self,
        wall: u32,
        envelope: &Envelope,
        m: &Statement,
    ) -> Result<Given, PartErr>
        requires { envelope.now.msg ≡ Msg.Statement m.now }
        ensures ok { IfOk result (λ g. Comes self.old wall envelope.now self.new g) }
        ensures err { OnErr result (self.new ≡ self.old) }
    {
        let slip = Slip::new(self.alloc)?;
        let kept = self.saved(wall)?;
        self.arrive(wall, envelope);
        match self.on_statement(slip, envelope.from, m) {
            Ok(given) => Ok(given),
            Err(PartErr::Memory) => {
                self.restore(kept);
                Err(PartErr::Memory)
            }
        }
    }

    /// A statement of a transaction that isn't coordinated here. Want of memory is told.
    fn deliver_statement_to(
        &mut self,
        wall: u32,
        envelope: &Envelope,
        m: &Statement,
    ) -> Result<Given, PartErr>
        requires msg { envelope.now.msg ≡ Msg.Statement m.now }
        requires other { coordinates self.old m.now.tag ≡ false }
        ensures ok { IfOk result (λ g. Comes self.old wall envelope.now self.new g) }
        ensures err { OnErr result (self.new ≡ self.old) }
    {
        let slip = Slip::new(self.alloc)?;
        let spare = Slip::new(self.alloc)?;
        self.arrive(wall, envelope);
        match self.on_statement(slip, envelope.from, m) {
            Ok(given) => Ok(given),
            Err(PartErr::Memory) => Ok(self.tell_answer(spare, envelope.from, m)),
        }
    }

    fn deliver_statement(
        &mut self,
        wall: u32,
        envelope: &Envelope,
        m: &Statement,
    ) -> Result<Given, PartErr>
        requires { envelope.now.msg ≡ Msg.Statement m.now }
        ensures ok { IfOk result (λ g. Comes self.old wall envelope.now self.new g) }
        ensures err { OnErr result (self.new ≡ self.old) }
    {
        if self.coordinates(m.tag) {
            self.deliver_own_statement(wall, envelope, m)
        } else {
            self.deliver_statement_to(wall, envelope, m)
        }
    }

    /// A commit of a transaction that is coordinated here. Out of memory, the shard is as it
    /// was.
    fn deliver_own_commit(
        &mut self,
        wall: u32,
        envelope: &Envelope,
        m: &Commit,
    ) -> Result<Given, PartErr>
        requires { envelope.now.msg ≡ Msg.Commit m.now }
        ensures ok { IfOk result (λ g. Comes self.old wall envelope.now self.new g) }
        ensures err { OnErr result (self.new ≡ self.old) }
    {
        let slip = Slip::new(self.alloc)?;
        let kept = self.saved(wall)?;
        self.arrive(wall, envelope);
        match self.on_commit(slip, envelope.from, m) {
            Ok(given) => Ok(given),
            Err(PartErr::Memory) => {
                self.restore(kept);
                Err(PartErr::Memory)
            }
        }
    }

    /// A commit of a transaction that isn't coordinated here. Want of memory is told.
    fn deliver_commit_to(
        &mut self,
        wall: u32,
        envelope: &Envelope,
        m: &Commit,
    ) -> Result<Given, PartErr>
        requires msg { envelope.now.msg ≡ Msg.Commit m.now }
        requires other { coordinates self.old m.now.tag ≡ false }
        ensures ok { IfOk result (λ g. Comes self.old wall envelope.now self.new g) }
        ensures err { OnErr result (self.new ≡ self.old) }
    {
        let slip = Slip::new(self.alloc)?;
        let spare = Slip::new(self.alloc)?;
        self.arrive(wall, envelope);
        match self.on_commit(slip, envelope.from, m) {
            Ok(given) => Ok(given),
            Err(PartErr::Memory) => Ok(self.tell_end(spare, envelope.from, &m.lsid, &m.tag)),
        }
    }

    fn deliver_commit(
        &mut self,
        wall: u32,
        envelope: &Envelope,
        m: &Commit,
    ) -> Result<Given, PartErr>
        requires { envelope.now.msg ≡ Msg.Commit m.now }
        ensures ok { IfOk result (λ g. Comes self.old wall envelope.now self.new g) }
        ensures err { OnErr result (self.new ≡ self.old) }
    {
        if self.coordinates(m.tag) {
            self.deliver_own_commit(wall, envelope, m)
        } else {
            self.deliver_commit_to(wall, envelope, m)
        }
    }

    /// A prepare of a transaction that is coordinated here. Out of memory, the shard is as it
    /// was.
    fn deliver_own_prepare(
        &mut self,
        wall: u32,
        envelope: &Envelope,
        m: &Prepare,
    ) -> Result<Given, PartErr>
        requires { envelope.now.msg ≡ Msg.Prepare m.now }
        ensures ok { IfOk result (λ g. Comes self.old wall envelope.now self.new g) }
        ensures err { OnErr result (self.new ≡ self.old) }
    {
        let slip = Slip::new(self.alloc)?;
        let kept = self.saved(wall)?;
        self.arrive(wall, envelope);
        match self.on_prepare(slip, m) {
            Ok(given) => Ok(given),
            Err(PartErr::Memory) => {
                self.restore(kept);
                Err(PartErr::Memory)
            }
        }
    }

    /// A prepare of a transaction that isn't coordinated here. Want of memory is told.
    fn deliver_prepare_to(
        &mut self,
        wall: u32,
        envelope: &Envelope,
        m: &Prepare,
    ) -> Result<Given, PartErr>
        requires msg { envelope.now.msg ≡ Msg.Prepare m.now }
        requires other { coordinates self.old m.now.tag ≡ false }
        ensures ok { IfOk result (λ g. Comes self.old wall envelope.now self.new g) }
        ensures err { OnErr result (self.new ≡ self.old) }
    {
        let slip = Slip::new(self.alloc)?;
        let spare = Slip::new(self.alloc)?;
        self.arrive(wall, envelope);
        match self.on_prepare(slip, m) {
            Ok(given) => Ok(given),
            Err(PartErr::Memory) => Ok(self.tell_vote(spare, m)),
        }
    }

    fn deliver_prepare(
        &mut self,
        wall: u32,
        envelope: &Envelope,
        m: &Prepare,
    ) -> Result<Given, PartErr>
        requires { envelope.now.msg ≡ Msg.Prepare m.now }
        ensures ok { IfOk result (λ g. Comes self.old wall envelope.now self.new g) }
        ensures err { OnErr result (self.new ≡ self.old) }
    {
        if self.coordinates(m.tag) {
            self.deliver_own_prepare(wall, envelope, m)
        } else {
            self.deliver_prepare_to(wall, envelope, m)
        }
    }

    /// A router asks this shard to coordinate a commit. Want of memory is told: it comes of no
    /// transaction that is coordinated here.
    fn deliver_commit_two(
        &mut self,
        wall: u32,
        envelope: &Envelope,
        m: &CommitTwo,
    ) -> Result<Given, PartErr>
        requires { envelope.now.msg ≡ Msg.CommitTwo m.now }
        ensures ok { IfOk result (λ g. Comes self.old wall envelope.now self.new g) }
        ensures err { OnErr result (self.new ≡ self.old) }
    {
        let slip = Slip::new(self.alloc)?;
        let spare = Slip::new(self.alloc)?;
        self.arrive(wall, envelope);
        let Some(router) = router_of(&envelope.from) else {
            return Ok(Given::quiet(self.alloc));
        };
        match self.on_commit_two(slip, router, m) {
            Ok(given) => Ok(given),
            Err(PartErr::Memory) => Ok(self.tell_end(spare, envelope.from, &m.lsid, &m.tag)),
        }
    }

    /// A router asks how a transaction ended. Want of memory is told: it comes of no transaction
    /// that is coordinated here.
    fn deliver_recover(
        &mut self,
        wall: u32,
        envelope: &Envelope,
        m: &Recover,
    ) -> Result<Given, PartErr>
        requires { envelope.now.msg ≡ Msg.Recover m.now }
        ensures ok { IfOk result (λ g. Comes self.old wall envelope.now self.new g) }
        ensures err { OnErr result (self.new ≡ self.old) }
    {
        let slip = Slip::new(self.alloc)?;
        let spare = Slip::new(self.alloc)?;
        self.arrive(wall, envelope);
        let Some(router) = router_of(&envelope.from) else {
            return Ok(Given::quiet(self.alloc));
        };
        match self.on_recover(slip, router, m) {
            Ok(given) => Ok(given),
            Err(PartErr::Memory) => Ok(self.tell_end(spare, envelope.from, &m.lsid, &m.tag)),
        }
    }

    /// A participant of a transaction that is coordinated here votes. Room for what tells a
    /// decision is taken before the vote is heard.
    fn deliver_vote_on(
        &mut self,
        wall: u32,
        envelope: &Envelope,
        m: &Vote,
        plan: &Plan,
    ) -> Result<Given, PartErr>
        requires msg { envelope.now.msg ≡ Msg.Vote m.now }
        requires plan { Some plan.now
            ≡ option_map (λ c. c.plan) (coordinated_of self.old.coord m.now.tag) }
        ensures ok { IfOk result (λ g. Comes self.old wall envelope.now self.new g) }
        ensures err { OnErr result (self.new ≡ self.old) }
    {
        let askers = self.askers(m.tag)?;
        let out = room_for(self.alloc, askers.len(), plan.parts.as_slice().len())?;
        self.arrive(wall, envelope);
        Ok(self.hear(m, plan, askers.as_slice(), out))
    }

    /// A participant votes. A vote on what isn't coordinated here is no matter of the shard.
    fn deliver_vote(&mut self, wall: u32, envelope: &Envelope, m: &Vote) -> Result<Given, PartErr>
        requires { envelope.now.msg ≡ Msg.Vote m.now }
        ensures ok { IfOk result (λ g. Comes self.old wall envelope.now self.new g) }
        ensures err { OnErr result (self.new ≡ self.old) }
    {
        match self.copy_plan(m.tag) {
            Ok(Some(plan)) => self.deliver_vote_on(wall, envelope, m, &plan),
            Ok(None) => {
                self.arrive(wall, envelope);
                Ok(Given::quiet(self.alloc))
            }
            Err(AllocError) => Err(PartErr::Memory),
        }
    }

    fn deliver_decide(
        &mut self,
        wall: u32,
        envelope: &Envelope,
        m: &Decide,
    ) -> Result<Given, PartErr>
        requires { envelope.now.msg ≡ Msg.Decide m.now }
        ensures ok { IfOk result (λ g. Comes self.old wall envelope.now self.new g) }
        ensures err { OnErr result (self.new ≡ self.old) }
    {
        let slip = Slip::new(self.alloc)?;
        self.arrive(wall, envelope);
        Ok(self.on_decide(slip, envelope.from, m))
    }

    fn deliver_abort(&mut self, wall: u32, envelope: &Envelope, m: &Abort) -> Given
        requires { envelope.now.msg ≡ Msg.Abort m.now }
        ensures { Comes self.old wall envelope.now self.new result }
    {
        self.arrive(wall, envelope);
        self.on_abort(m)
    }

    fn deliver_acked(&mut self, wall: u32, envelope: &Envelope, m: &Acked) -> Given
        requires { envelope.now.msg ≡ Msg.Acked m.now }
        ensures { Comes self.old wall envelope.now self.new result }
    {
        self.arrive(wall, envelope);
        self.on_acked(m)
    }

    /// What is waited for is asked again. The messages are made before the shard's time goes on,
    /// since they depend on what is coordinated and on the clock alone.
    fn deliver_nudge(&mut self, wall: u32, envelope: &Envelope) -> Result<Given, PartErr>
        requires { envelope.now.msg ≡ Msg.Nudge }
        ensures ok { IfOk result (λ g. Comes self.old wall envelope.now self.new g) }
        ensures err { OnErr result (self.new ≡ self.old) }
    {
        match self.resends(self.time_at(wall, envelope)) {
            Ok(out) => {
                self.arrive(wall, envelope);
                Ok(Given::sends(out))
            }
            Err(PartErr::Memory) => Err(PartErr::Memory),
        }
    }

    /// A message that is no matter of a shard.
    fn deliver_other(&mut self, wall: u32, envelope: &Envelope) -> Given
        requires { ruled (arrived self.old wall envelope.now) envelope.now.from envelope.now.msg
            ≡ quiet (arrived self.old wall envelope.now) }
        ensures { Comes self.old wall envelope.now self.new result }
    {
        self.arrive(wall, envelope);
        Given::quiet(self.alloc)
    }

    /// What comes of a message that is delivered at this wall. Out of memory, that isn't told
    /// the shard is as it was.
    pub(crate) fn deliver(&mut self, wall: u32, envelope: &Envelope) -> Result<Given, PartErr>
        ensures ok { IfOk result (λ g. Comes self.old wall envelope.now self.new g) }
        ensures err { OnErr result (self.new ≡ self.old) }
    {
        match &envelope.msg {
            Msg::Statement(m) => self.deliver_statement(wall, envelope, m),
            Msg::Answer(_) => Ok(self.deliver_other(wall, envelope)),
            Msg::Commit(m) => self.deliver_commit(wall, envelope, m),
            Msg::Outcome(_) => Ok(self.deliver_other(wall, envelope)),
            Msg::Abort(m) => Ok(self.deliver_abort(wall, envelope, m)),
            Msg::CommitTwo(m) => self.deliver_commit_two(wall, envelope, m),
            Msg::Prepare(m) => self.deliver_prepare(wall, envelope, m),
            Msg::Vote(m) => self.deliver_vote(wall, envelope, m),
            Msg::Decide(m) => self.deliver_decide(wall, envelope, m),
            Msg::Acked(m) => Ok(self.deliver_acked(wall, envelope, m)),
            Msg::Recover(m) => self.deliver_recover(wall, envelope, m),
            Msg::Nudge => self.deliver_nudge(wall, envelope),
        }
    }
}
