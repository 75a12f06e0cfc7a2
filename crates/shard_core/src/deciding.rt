//! The coordinator's decision, and those that are told it.
ghost use Rattle.std.specs.Prelude.{◌≡◌, ◌+◌, ◌≤◌, ◌<◌, ◌^◌, ◌++◌, [], ◌∷◌, map, filter, length, option_map, IfOk, IfSome, IsSomeAnd, OnOk, vec_len, vec_capacity};
ghost use Rattle.txn_types.specs.Letters.{all_sent_by};
ghost use Rattle.txn_types.specs.declared.node.NodeId.TheVariants as node;
ghost use Rattle.coordinator.specs.TwoPhase.{coordinated_of, decides};
ghost use Rattle.shard_core.specs.Coordinating.{on_vote};
ghost use Rattle.shard_core.specs.Senders.{waits, outcome_to};
ghost use Rattle.shard_core.specs.Told.{Gives};

use crate::coordinating::told_of;
use crate::given::{Given, outcome, put};
use crate::shard::Shard;
use coordinator::Plan;
use journal_rec::Rec;
use sqlite_items::Items;
use std::alloc::{AllocError, Global};
use txn_types::{Decide, Decision, Envelope, Envelopes, Msg, NodeId, Tag, Ts, Vote};

/// The routers that a cluster may have.
const ROUTERS: [u16; 8] = [0, 1, 2, 3, 4, 5, 6, 7];

/// Who sends a decision: the shard, its boot, and its clock.
#[derive(Clone, Copy)]
struct Sender {
    shard: u16,
    boot: u32,
    time: Ts,
}

/// Puts what each of these routers is told of a decision.
fn put_outcomes(
    out: &mut Vec<Envelope>,
    sender: &Sender,
    tag: Tag,
    decision: &Decision,
    routers: &[u16],
)
    requires { vec_len out.old + length routers.now ≤ vec_capacity out.old }
    ensures items { out.new.items
        ≡ out.old.items ++ all_sent_by (node.Shard sender.now.shard) sender.now.time
        (map (outcome_to sender.now.shard sender.now.boot tag decision.now) routers.now) }
    ensures len { vec_len out.new ≡ vec_len out.old + length routers.now }
    ensures capacity { vec_capacity out.old ≤ vec_capacity out.new }
{
    for router in routers {
        put(
            out,
            Envelope {
                from: NodeId::Shard(sender.shard),
                to: NodeId::Router(*router),
                time: sender.time,
                msg: outcome(tag, sender.shard, sender.boot, told_of(decision)),
            },
        );
    }
}

/// Puts what each participant is told of a decision.
fn put_decides(out: &mut Vec<Envelope>, sender: &Sender, tag: Tag, decision: &Decision, plan: &Plan)
    requires { vec_len out.old + length plan.now.parts ≤ vec_capacity out.old }
    ensures { out.new.items ≡ out.old.items ++ all_sent_by (node.Shard sender.now.shard)
        sender.now.time (decides tag plan.now decision.now) }
{
    for (shard, _boot) in plan.parts.as_slice() {
        let msg = Msg::Decide(Decide {
            tag,
            lsid: plan.lsid,
            number: plan.number,
            decision: *decision,
        });
        put(
            out,
            Envelope {
                from: NodeId::Shard(sender.shard),
                to: NodeId::Shard(*shard),
                time: sender.time,
                msg,
            },
        );
    }
}

/// What routers and participants are told of a decision.
fn letters(
    mut out: Vec<Envelope>,
    sender: &Sender,
    tag: Tag,
    decision: &Decision,
    plan: &Plan,
    routers: &[u16],
) -> Envelopes
    requires empty { out.items ≡ [] }
    requires room { vec_len out + length routers.now + length plan.now.parts ≤ vec_capacity out }
    ensures { result ≡ all_sent_by (node.Shard sender.now.shard) sender.now.time
        (map (outcome_to sender.now.shard sender.now.boot tag decision.now) routers.now
        ++ decides tag plan.now decision.now) }
{
    put_outcomes(&mut out, sender, tag, decision, routers);
    put_decides(&mut out, sender, tag, decision, plan);
    Items::from_vec(out)
}

/// Room for so many envelopes.
pub fn room_for(alloc: Global, routers: usize, parts: usize) -> Result<Vec<Envelope>, AllocError>
    requires { routers + parts < 2 ^ 64 }
    ensures { IfOk result
        (λ out. (out.items ≡ []) × (vec_len out + routers + parts ≤ vec_capacity out)) }
{
    Vec::with_capacity(alloc, routers + parts)
}

impl Shard {
    /// Whether the router waits for the decision.
    fn waits(&self, tag: Tag, router: u16) -> bool
        ensures { result ≡ waits self.now.coord tag router }
    {
        self.coord.asked(tag, router)
    }

    /// Keeps a router that waits for the decision.
    fn keep_asker(&self, askers: &mut Vec<u16>, tag: Tag, router: u16) -> Result<(), AllocError>
        ensures { OnOk result (askers.new.items
            ≡ askers.old.items ++ filter (waits self.now.coord tag) (router ∷ [])) }
    {
        if self.waits(tag, router) {
            askers.push(router)?;
        }
        Ok(())
    }

    /// Those of these routers that wait for the decision.
    fn askers_of(&self, tag: Tag, routers: &[u16]) -> Result<Vec<u16>, AllocError>
        ensures { IfOk result (λ v. v.items ≡ filter (waits self.now.coord tag) routers.now) }
    {
        let mut askers = Vec::new(self.alloc);
        for router in routers {
            self.keep_asker(&mut askers, tag, *router)?;
        }
        Ok(askers)
    }

    /// The routers that wait for the decision.
    pub(crate) fn askers(&self, tag: Tag) -> Result<Vec<u16>, AllocError>
        ensures { IfOk result
            (λ v. IfSome (coordinated_of self.now.coord tag) (λ c. v.items ≡ c.askers)) }
    {
        let _first = self.coord.asked(tag, 0);
        match self.askers_of(tag, &ROUTERS) {
            Ok(askers) => Ok(askers),
            Err(AllocError) => Err(AllocError),
        }
    }

    /// What is coordinated, as a copy.
    pub(crate) fn copy_plan(&self, tag: Tag) -> Result<Option<Plan>, AllocError>
        ensures { IfOk result
            (λ plan. plan ≡ option_map (λ c. c.plan) (coordinated_of self.now.coord tag)) }
    {
        match self.coord.plan(tag) {
            Some(plan) => match plan.parts.copy(self.alloc) {
                Ok(parts) => Ok(Some(Plan {
                    lsid: plan.lsid,
                    number: plan.number,
                    parts,
                })),
                Err(AllocError) => Err(AllocError),
            },
            None => Ok(None),
        }
    }

    /// Hears a vote, with room for the messages that tell what it decides: to the routers that
    /// wait, by rising number, and to each participant. It takes no memory.
    pub(crate) fn hear(
        &mut self,
        m: &Vote,
        plan: &Plan,
        askers: &[u16],
        out: Vec<Envelope>,
    ) -> Given
        requires coordinated { IsSomeAnd (coordinated_of self.old.coord m.now.tag)
            (λ c. (c.plan ≡ plan.now) × (c.askers ≡ askers.now)) }
        requires empty { out.items ≡ [] }
        requires room { vec_len out + length askers.now + length plan.now.parts ≤ vec_capacity out }
        ensures { Gives (on_vote self.old m.now) self.new result }
    {
        let sender = Sender {
            shard: self.part.shard(),
            boot: self.part.boot(),
            time: self.clock.last,
        };
        match self.coord.vote(m.tag, m.shard, &m.vote) {
            Ok(Some(decision)) => Given {
                rec: Some(Rec::CoordDecision {
                    tag: m.tag,
                    decision,
                }),
                out: letters(out, &sender, m.tag, &decision, plan, askers),
                held: None,
            },
            Ok(None) => Given::quiet(self.alloc),
            Err(_) => Given::quiet(self.alloc),
        }
    }
}
