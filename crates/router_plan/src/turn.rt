//! What a step gives out.
ghost use Rattle.std.specs.Prelude.{◌≡◌, ◌++◌, map, IfOk};
ghost use Rattle.txn_types.specs.Letters.{all_sent_by};
ghost use Rattle.txn_types.specs.declared.node.NodeId.TheVariants.{Router};
ghost use Rattle.router_rules.specs.Safe.{AllFit};
ghost use Rattle.router_plan.specs.Spelling.{letter_of, spelled};

use crate::plan::Base;
use crate::spelling::{all_spelled, envelopes};
use router_state::{Given, Sent};
use sqlite_items::Items;
use std::alloc::{AllocError, Global};
use txn_types::{Envelopes, Replies};

/// What a step gives out: messages to shards, and replies to requests, as values (`told`) and as
/// the bytes that spell these.
/// `closed` is the number of the refusal that closes the event's connection: 1 Length, 2 OpCode, 8
/// TooLarge.
#[derive(Drop)]
pub struct Turn {
    pub out: Envelopes,
    pub told: Items<Sent>,
    pub replies: Replies,
    pub closed: Option<u8>,
}

/// The turn that gives these out, at the router's time after the step.
pub fn turn_of(
    alloc: Global,
    base: &Base,
    given: Given,
    closed: Option<u8>,
) -> Result<Turn, AllocError>
    requires { AllFit given.replies }
    ensures out { IfOk result (λ t. t.out ≡ all_sent_by (Router base.now.number) base.now.time
        (map letter_of (given.aborts ++ given.sends))) }
    ensures told { IfOk result (λ t. t.told ≡ given.replies) }
    ensures replies { IfOk result (λ t. t.replies ≡ map (spelled base.now.time) given.replies) }
    ensures closed { IfOk result (λ t. t.closed ≡ closed) }
{
    let out = envelopes(
        alloc,
        base.number,
        base.time,
        given.aborts.as_slice(),
        given.sends.as_slice(),
    )?;
    let replies = all_spelled(alloc, base.time, given.replies.as_slice())?;
    Ok(Turn {
        out,
        told: given.replies,
        replies,
        closed,
    })
}
