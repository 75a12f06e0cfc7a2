//! The transactions that a shard coordinates.
ghost use Rattle.std.specs.Prelude.{◌≡◌, ◌≢◌, ◌<◌, ◌≤◌, [], ◌++◌, Ok, Err, IfOk, Some, None, ℕ, length, option_map, filter, false, OnOk, OnErr, IfSome, IfNone, IsSomeAnd, MatchOption};
ghost use Rattle.std.specs.Option.{option_copied};
ghost use Rattle.txn_types.specs.Order.{tag_cmp};
ghost use Rattle.txn_semantics.specs.Keyed.{taken_out, Rises};
ghost use Rattle.coordinator.specs.Askers.{routers};
ghost use Rattle.coordinator.specs.TwoPhase.{coordinated_of, with_coordinated, started, asked, is_asker, voted, decided_by, acked, is_last_ack, with_decision, resends};
ghost use Rattle.txn_types.specs.Letters.{all_sent_by};

use crate::coordination::Coordination;
use crate::plan::{CoordErr, Plan};
use crate::tree::Key;
use std::alloc::{AllocError, Global};
use std::collections::BTreeMap;
use std::marker::Model;
use txn_types::{Cause, Decision, Envelope, Lsid, NodeId, Tag, Ts};

/// The transactions that a shard coordinates, in a tree by tag.
#[derive(Drop)]
pub struct Coord {
    alloc: Global,
    coordinations: BTreeMap<Key, Coordination>,
}

impl Model for Coord {
    ghost use Rattle.std.specs.Coded.{codes};
    ghost use Rattle.coordinator.specs.TwoPhase.{Coordinations};

    ghost Value = { Coordinations };

    ghost coded = { Prim.hlevel (codes) };

    ghost view = { λ c. c.coordinations.entries };
}

impl Coord {
    /// Nothing is coordinated. It takes no memory.
    pub fn new(alloc: Global) -> Coord
        ensures { result ≡ [] }
    {
        Coord {
            alloc,
            coordinations: BTreeMap::new(alloc),
        }
    }

    /// The coordination of the tag.
    fn find(&self, tag: Tag) -> Option<&Coordination>
        ensures { option_copied result ≡ coordinated_of self.now tag }
    {
        self.coordinations.get(&Key::new(tag))
    }

    /// The commit of a transaction begins, which these participants take part in. It alone takes
    /// memory, also for all that is kept of it later.
    pub fn start(
        &mut self,
        tag: Tag,
        lsid: Lsid,
        number: i64,
        parts: &[(u16, u32)],
    ) -> Result<(), CoordErr>
        requires new { coordinated_of self.old tag ≡ None }
        requires most { length parts.now ≤ 65535 }
        ensures ok { OnOk result (self.new
            ≡ started tag (record { lsid = lsid; number = number; parts = parts.now }) self.old) }
        ensures err { OnErr result (self.new ≡ self.old) }
        ensures memory { result ≢ Err CoordErr.Unknown }
    {
        let coordination = Coordination::new(self.alloc, lsid, number, parts)?;
        self.coordinations.insert(Key::new(tag), coordination)?;
        Ok(())
    }

    /// The decision, where one stands; else the router waits for it. It takes no memory.
    pub fn ask(&mut self, tag: Tag, router: u16) -> Result<Option<Decision>, CoordErr>
        requires { router < 8 }
        ensures decision { MatchOption (coordinated_of self.old tag) (result ≡ Err CoordErr.Unknown)
            (λ c. result ≡ Ok c.decision) }
        ensures after { MatchOption (coordinated_of self.old tag) (self.new ≡ self.old)
            (λ c. self.new ≡ asked tag router c self.old) }
    {
        match self.coordinations.get_mut(&Key::new(tag)) {
            Some(coordination) => Ok(coordination.ask(router)),
            None => Err(CoordErr::Unknown),
        }
    }

    /// Hears the vote of a participant, and tells what it decides. It takes no memory.
    pub fn vote(
        &mut self,
        tag: Tag,
        shard: u16,
        vote: &Result<Ts, Cause>,
    ) -> Result<Option<Decision>, CoordErr>
        ensures decided { MatchOption (coordinated_of self.old tag) (result ≡ Err CoordErr.Unknown)
            (λ c. result ≡ Ok (decided_by shard vote.now c)) }
        ensures after { MatchOption (coordinated_of self.old tag) (self.new ≡ self.old)
            (λ c. self.new ≡ voted tag shard vote.now c self.old) }
    {
        match self.coordinations.get_mut(&Key::new(tag)) {
            Some(coordination) => Ok(coordination.vote(shard, vote)),
            None => Err(CoordErr::Unknown),
        }
    }

    /// The decision, where one stands. It takes no memory.
    pub fn decision(&self, tag: Tag) -> Result<Option<Decision>, CoordErr>
        ensures { MatchOption (coordinated_of self.now tag) (result ≡ Err CoordErr.Unknown)
            (λ c. result ≡ Ok c.decision) }
    {
        match self.find(tag) {
            Some(coordination) => Ok(coordination.decision()),
            None => Err(CoordErr::Unknown),
        }
    }

    /// A participant has the decision. True at the last one: then the transaction is forgotten. It
    /// takes no memory.
    pub fn acked(&mut self, tag: Tag, shard: u16) -> Result<bool, CoordErr>
        ensures last { MatchOption (coordinated_of self.old tag) (result ≡ Err CoordErr.Unknown)
            (λ c. result ≡ Ok (is_last_ack shard c)) }
        ensures after { MatchOption (coordinated_of self.old tag) (self.new ≡ self.old)
            (λ c. self.new ≡ acked tag shard c self.old) }
    {
        let is_last = match self.find(tag) {
            Some(coordination) => coordination.is_last_ack(shard),
            None => return Err(CoordErr::Unknown),
        };
        if is_last {
            self.forget(tag);
        } else {
            self.keep_ack(tag, shard);
        }
        Ok(is_last)
    }

    /// The transaction is coordinated no longer, if it was. It takes no memory.
    pub fn forget(&mut self, tag: Tag)
        ensures { self.new ≡ taken_out tag_cmp tag self.old }
    {
        let _count = self.coordinations.len();
        self.coordinations.remove(&Key::new(tag));
    }

    /// Keeps an acknowledgement that isn't the last.
    fn keep_ack(&mut self, tag: Tag, shard: u16)
        ensures kept { IfSome (coordinated_of self.old tag)
            (λ c. is_last_ack shard c ≡ false → self.new ≡ acked tag shard c self.old) }
        ensures none { IfNone (coordinated_of self.old tag) (self.new ≡ self.old) }
    {
        if let Some(coordination) = self.coordinations.get_mut(&Key::new(tag)) {
            coordination.ack(shard);
        }
    }

    /// What is coordinated. It takes no memory.
    pub fn plan(&self, tag: Tag) -> Option<&Plan>
        ensures { option_copied result ≡ option_map (λ c. c.plan) (coordinated_of self.now tag) }
    {
        match self.find(tag) {
            Some(coordination) => Some(coordination.plan()),
            None => None,
        }
    }

    /// Whether the router waits for the decision. It takes no memory.
    pub fn asked(&self, tag: Tag, router: u16) -> bool
        ensures asker { MatchOption (coordinated_of self.now tag) (result ≡ false)
            (λ c. result ≡ is_asker router c) }
        ensures all { IfSome (coordinated_of self.now tag)
            (λ c. c.askers ≡ filter (λ r. is_asker r c) routers) }
    {
        match self.find(tag) {
            Some(coordination) => coordination.is_asker(router),
            None => false,
        }
    }

    /// Sets a decision that was journalled. It takes no memory.
    pub fn restore(&mut self, tag: Tag, decision: Decision)
        requires { IsSomeAnd (coordinated_of self.old tag) (λ c. c.decision ≡ None) }
        ensures { IfSome (coordinated_of self.old tag)
            (λ c. self.new ≡ with_coordinated tag (with_decision (Some decision) c) self.old) }
    {
        if let Some(coordination) = self.coordinations.get_mut(&Key::new(tag)) {
            coordination.decide(decision);
        }
    }

    /// What is sent once more, in the order of tags and then of the plan.
    fn letters(&self, shard: u16, time: Ts) -> Result<Vec<Envelope>, AllocError>
        ensures { IfOk result
            (λ v. v.items ≡ all_sent_by (NodeId.Shard shard) time (resends shard self.now)) }
    {
        let mut letters = Vec::new(self.alloc);
        for (key, coordination) in &self.coordinations {
            letters.append(&mut coordination.resends(self.alloc, shard, time, key.tag())?)?;
        }
        Ok(letters)
    }

    /// Appends what this shard sends once more: to those whose vote is wanted, or else to those
    /// that don't have the decision.
    pub fn resend(&self, shard: u16, time: Ts, out: &mut Vec<Envelope>) -> Result<(), CoordErr>
        ensures ok { OnOk result (out.new.items
            ≡ out.old.items ++ all_sent_by (NodeId.Shard shard) time (resends shard self.now)) }
        ensures err { OnErr result (out.new.items ≡ out.old.items) }
        ensures memory { result ≢ Err CoordErr.Unknown }
    {
        let mut letters = self.letters(shard, time)?;
        out.append(&mut letters)?;
        Ok(())
    }
}
