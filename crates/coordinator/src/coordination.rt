//! One transaction that is coordinated.
ghost use Rattle.std.specs.Prelude.{◌≡◌, ◌<◌, ◌≤◌, ℕ, true, None, Some, Ok, IfOk, length, filter, not, is_none, if◌then◌else◌};
ghost use Rattle.coordinator.specs.Askers.{routers};
ghost use Rattle.coordinator.specs.TwoPhase.{Coordinated, undecided, with_asker, is_asker, takes_part, has_voted, counts, all_voted, greatest, commit_by, with_vote, with_decision, behind_vote, decided_by, has_acked, ack_counts, with_ack, all_acked, is_last_ack, resends_by};
ghost use Rattle.txn_types.specs.Letters.{all_sent_by};

use crate::askers::Askers;
use crate::plan::Plan;
use crate::sending::{decides, prepares};
use std::alloc::{AllocError, Global};
use std::marker::Model;
use txn_types::{Cause, Decision, Envelope, Lsid, NodeId, Parts, Tag, Ts};

/// A transaction that is coordinated. There is room for a vote and an acknowledgement of each
/// participant from the start on, so that they take no memory.
#[derive(Drop)]
pub struct Coordination {
    plan: Plan,
    votes: Vec<(u16, Ts)>,
    decision: Option<Decision>,
    acks: Vec<u16>,
    askers: Askers,
}

impl Model for Coordination {
    ghost use Rattle.std.specs.Coded.{codes};
    ghost use Rattle.coordinator.specs.TwoPhase.{Coordinated};

    ghost Value = { Coordinated };

    ghost coded = { Prim.hlevel (codes) };

    ghost use Rattle.std.specs.Prelude.{vec_capacity};
    ghost use Rattle.coordinator.specs.Room.{HasRoom};

    ghost view = { λ c. record { plan = c.plan; votes = c.votes.items; decision = c.decision; acks = c.acks.items; askers = c.askers } };

    ghost invariant = { λ c. HasRoom c.plan.parts c.votes.items (vec_capacity c.votes) c.acks.items (vec_capacity c.acks) };
}

/// The participants as a list that a plan keeps.
fn keep_parts(alloc: Global, parts: &[(u16, u32)]) -> Result<Parts, AllocError>
    requires { length parts.now ≤ 65535 }
    ensures { IfOk result (λ p. p ≡ parts.now) }
{
    let mut kept = Parts::new(alloc);
    for (shard, boot) in parts {
        kept.push(*shard, *boot)?;
    }
    Ok(kept)
}

impl Coordination {
    /// A coordination in which no one has voted.
    pub fn new(
        alloc: Global,
        lsid: Lsid,
        number: i64,
        parts: &[(u16, u32)],
    ) -> Result<Coordination, AllocError>
        requires { length parts.now ≤ 65535 }
        ensures { IfOk result
            (λ c. c ≡ undecided (record { lsid = lsid; number = number; parts = parts.now })) }
    {
        Ok(Coordination {
            plan: Plan {
                lsid,
                number,
                parts: keep_parts(alloc, parts)?,
            },
            votes: Vec::with_capacity(alloc, parts.len())?,
            decision: None,
            acks: Vec::with_capacity(alloc, parts.len())?,
            askers: Askers::new(),
        })
    }

    pub fn plan(&self) -> &Plan
        ensures { result.now ≡ self.now.plan }
    {
        &self.plan
    }

    pub fn decision(&self) -> Option<Decision>
        ensures { result ≡ self.now.decision }
    {
        self.decision
    }

    /// The decision, where one stands; else the router waits for it.
    pub fn ask(&mut self, router: u16) -> Option<Decision>
        requires { router < 8 }
        ensures decision { result ≡ self.old.decision }
        ensures after { self.new
            ≡ (if is_none self.old.decision then with_asker router self.old else self.old) }
    {
        if self.decision.is_none() {
            self.askers.add(router);
        }
        self.decision
    }

    pub fn is_asker(&self, router: u16) -> bool
        ensures asker { result ≡ is_asker router self.now }
        ensures all { self.now.askers ≡ filter (λ r. is_asker r self.now) routers }
    {
        self.askers.contains(router)
    }

    fn takes_part(&self, shard: u16) -> bool
        ensures { result ≡ takes_part shard self.now.plan }
    {
        self.plan
            .parts
            .as_slice()
            .iter()
            .any(|part| part.0 == shard)
    }

    pub fn has_voted(&self, shard: u16) -> bool
        ensures { result ≡ has_voted shard self.now }
    {
        self.votes.iter().any(|vote| vote.0 == shard)
    }

    /// Whether a vote of the shard counts: nothing is decided, and it is the participant's first.
    fn counts(&self, shard: u16) -> bool
        ensures { result ≡ counts shard self.now }
    {
        self.decision.is_none() && self.takes_part(shard) && !self.has_voted(shard)
    }

    fn all_voted(&self) -> bool
        ensures { result ≡ all_voted self.now }
    {
        for (shard, _) in self.plan.parts.as_slice() {
            if !self.has_voted(*shard) {
                return false;
            }
        }
        true
    }

    /// The greatest timestamp of the votes.
    fn greatest(&self) -> Ts
        ensures { result ≡ greatest self.now.votes }
    {
        let mut most = Ts(0);
        for (_, at) in &self.votes {
            most = most.max(*at);
        }
        most
    }

    /// What is decided once these votes are in.
    fn commit(&self) -> Option<Decision>
        ensures { result ≡ commit_by self.now }
    {
        if self.all_voted() {
            Some(Decision::Commit(self.greatest()))
        } else {
            None
        }
    }

    /// Keeps a vote that counts. It takes no memory.
    fn keep_vote(&mut self, shard: u16, at: Ts)
        requires { counts shard self.old ≡ true }
        ensures { self.new ≡ with_vote shard at self.old }
    {
        let _kept = self.votes.push((shard, at));
    }

    /// Sets the decision.
    pub fn decide(&mut self, decision: Decision)
        ensures { self.new ≡ with_decision (Some decision) self.old }
    {
        self.decision = Some(decision);
    }

    /// Hears a timestamp that counts.
    fn hear_time(&mut self, shard: u16, at: Ts)
        requires { counts shard self.old ≡ true }
        ensures { self.new ≡ behind_vote shard (Ok at) self.old }
    {
        self.keep_vote(shard, at);
        self.decision = self.commit();
    }

    /// Hears a vote.
    fn hear(&mut self, shard: u16, vote: &Result<Ts, Cause>)
        requires { counts shard self.old ≡ true }
        ensures { self.new ≡ behind_vote shard vote.now self.old }
    {
        match vote {
            Ok(at) => self.hear_time(shard, *at),
            Err(cause) => self.decide(Decision::Abort {
                shard,
                code: cause.number(),
            }),
        }
    }

    /// Hears a vote, where it counts, and tells what it decides.
    pub fn vote(&mut self, shard: u16, vote: &Result<Ts, Cause>) -> Option<Decision>
        ensures decided { result ≡ decided_by shard vote.now self.old }
        ensures after { self.new
            ≡ (if counts shard self.old then behind_vote shard vote.now self.old else self.old) }
    {
        if !self.counts(shard) {
            return None;
        }
        self.hear(shard, vote);
        self.decision
    }

    pub fn has_acked(&self, shard: u16) -> bool
        ensures { result ≡ has_acked shard self.now }
    {
        self.acks.iter().any(|acked| *acked == shard)
    }

    /// Whether an acknowledgement of the shard counts: there is a decision, and it is the
    /// participant's first.
    fn ack_counts(&self, shard: u16) -> bool
        ensures { result ≡ ack_counts shard self.now }
    {
        self.decision.is_some() && self.takes_part(shard) && !self.has_acked(shard)
    }

    /// Whether an acknowledgement of the shard is the last that is wanted.
    pub fn is_last_ack(&self, shard: u16) -> bool
        ensures { result ≡ is_last_ack shard self.now }
    {
        self.ack_counts(shard) && self.all_acked_behind(shard)
    }

    /// Whether a participant has acknowledged once this one does.
    fn has_acked_behind(&self, shard: u16, other: u16) -> bool
        ensures { result ≡ has_acked other (with_ack shard self.now) }
    {
        self.has_acked(other) || other == shard
    }

    /// Whether each participant has acknowledged once this one does.
    fn all_acked_behind(&self, shard: u16) -> bool
        ensures { result ≡ all_acked (with_ack shard self.now) }
    {
        for (other, _) in self.plan.parts.as_slice() {
            if !self.has_acked_behind(shard, *other) {
                return false;
            }
        }
        true
    }

    /// Keeps an acknowledgement, where it counts. It takes no memory.
    pub fn ack(&mut self, shard: u16)
        ensures { self.new
            ≡ (if ack_counts shard self.old then with_ack shard self.old else self.old) }
    {
        if self.ack_counts(shard) {
            self.keep_ack(shard);
        }
    }

    fn keep_ack(&mut self, shard: u16)
        requires { ack_counts shard self.old ≡ true }
        ensures { self.new ≡ with_ack shard self.old }
    {
        let _kept = self.acks.push(shard);
    }

    /// The participants whose vote is wanted.
    fn unheard(&self, alloc: Global) -> Result<Vec<(u16, u32)>, AllocError>
        ensures { IfOk result
            (λ v. v.items ≡ filter (λ part. not (has_voted part.0 self.now)) self.now.plan.parts) }
    {
        let mut wanted = Vec::new(alloc);
        for part in self.plan.parts.as_slice() {
            if !self.has_voted(part.0) {
                wanted.push(*part)?;
            }
        }
        Ok(wanted)
    }

    /// The participants that don't have the decision.
    fn unacked(&self, alloc: Global) -> Result<Vec<(u16, u32)>, AllocError>
        ensures { IfOk result
            (λ v. v.items ≡ filter (λ part. not (has_acked part.0 self.now)) self.now.plan.parts) }
    {
        let mut wanted = Vec::new(alloc);
        for part in self.plan.parts.as_slice() {
            if !self.has_acked(part.0) {
                wanted.push(*part)?;
            }
        }
        Ok(wanted)
    }

    /// What is sent once more: to those whose vote is wanted, or else to those that don't have the
    /// decision.
    pub fn resends(
        &self,
        alloc: Global,
        from: u16,
        time: Ts,
        tag: Tag,
    ) -> Result<Vec<Envelope>, AllocError>
        ensures { IfOk result (λ v. v.items ≡ all_sent_by (NodeId.Shard from) time
            (resends_by from tag self.now self.now.decision)) }
    {
        match &self.decision {
            Some(decision) => {
                let wanted = self.unacked(alloc)?;
                decides(
                    alloc,
                    from,
                    time,
                    tag,
                    &self.plan,
                    decision,
                    wanted.as_slice(),
                )
            }
            None => {
                let wanted = self.unheard(alloc)?;
                prepares(alloc, from, time, tag, &self.plan, wanted.as_slice())
            }
        }
    }
}
