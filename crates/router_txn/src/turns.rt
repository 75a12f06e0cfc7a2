//! A session whose transaction is in another phase.
ghost use Rattle.std.specs.Prelude.{◌≡◌, IfOk};
ghost use Rattle.router_state.specs.Deeds.{nothing, telling, told_if, in_session};
ghost use Rattle.router_rules.specs.Ends.{ended};

use client_reply::Reply;
use router_state::{
    Asker, Deed, Given, Phase, Posts, Transaction, copy_participants, copy_posts, copy_told,
    in_session, told_if,
};
use sqlite_items::Items;
use std::alloc::{AllocError, Global};

/// The transaction in this phase, which waits for answers to these messages.
pub fn turned(
    alloc: Global,
    phase: Phase,
    waiting: Posts,
    t: &Transaction,
) -> Result<Transaction, AllocError>
    ensures { IfOk result (λ u. u ≡ record t.now { phase = phase; waiting = waiting }) }
{
    Ok(Transaction {
        tag: t.tag,
        read_at: t.read_at,
        k: t.k,
        parts: copy_participants(alloc, &t.parts)?,
        wrote: Items::from_slice(alloc, t.wrote.as_slice())?,
        phase,
        reply: copy_told(alloc, &t.reply)?,
        waiting,
    })
}

/// The transaction as it is, and this is given out.
pub fn gives(alloc: Global, number: i64, t: &Transaction, given: Given) -> Result<Deed, AllocError>
    ensures { IfOk result (λ d. d ≡ in_session number t.now given) }
{
    Ok(in_session(number, t.copy(alloc)?, given))
}

/// Nothing more is asked of the transaction, and this is given out.
pub fn ends_in(
    alloc: Global,
    number: i64,
    phase: Phase,
    t: &Transaction,
    given: Given,
) -> Result<Deed, AllocError>
    ensures { IfOk result (λ d. d ≡ in_session number (ended phase t.now) given) }
{
    let t = turned(alloc, phase, Items::new(alloc), t)?;
    Ok(in_session(number, t, given))
}

/// The transaction with this phase and without another change.
pub fn keeps(alloc: Global, number: i64, phase: Phase, t: &Transaction) -> Result<Deed, AllocError>
    ensures { IfOk result (λ d. d ≡ in_session number (record t.now { phase = phase }) nothing) }
{
    let waiting = copy_posts(alloc, &t.waiting)?;
    let t = turned(alloc, phase, waiting, t)?;
    Ok(in_session(number, t, Given::nothing(alloc)))
}

/// Nothing more is asked of the transaction, and whoever waited is told.
pub fn tells(
    alloc: Global,
    number: i64,
    asker: Option<Asker>,
    reply: Reply,
    phase: Phase,
    t: &Transaction,
) -> Result<Deed, AllocError>
    ensures { IfOk result
        (λ d. d ≡ in_session number (ended phase t.now) (telling (told_if asker reply))) }
{
    let given = Given::telling(alloc, told_if(alloc, asker, reply)?);
    ends_in(alloc, number, phase, t, given)
}
