// The rule of the lock's table.
use crate::kept::Kept;
use atomic_table::TableRule;
use machine::Machine;
use std::collections::LinkedList;
use std::marker::PhantomData;
use std::snapshot::Snapshot;

/// Where a pass stands. No value of it is made.
pub enum Stage<M> {
    /// It makes no call.
    Idle,
    /// It has drawn a ticket.
    Waiting(u64),
    /// Its ticket is served, and it has the machine.
    Holding(u64, M),
}

/// What a pass knows. No value of it is made: it is for contracts and proofs alone.
pub struct View<M, E, A> {
    /// It is idle between calls.
    pub stage: Stage<M>,
    /// The machine at the start of the history, which each pass of the lock has the same.
    pub opening: Option<M>,
    /// The history as it was last seen.
    pub seen: LinkedList<(E, A)>,
    /// What a pass that was just taken in had seen; nothing between calls.
    pub heard: LinkedList<(E, A)>,
    /// The calls that were made with the pass, each with its place in the history.
    pub mine: LinkedList<(u64, (E, A))>,
    /// How many of the lock's shares it holds.
    pub shares: u64,
    /// How many shares the lock has, which each pass of the lock has the same.
    pub all: u64,
}

/// What the table is told once: the machine at the start, and the number of shares.
pub struct About<M> {
    pub opening: Snapshot<M>,
    pub shares: u64,
}

impl<M> Drop for About<M> {
    fn drop(self) {
        let About {
            opening: _,
            shares: _,
        } = self;
    }
}

/// The rule.
pub struct Law<M> {
    machine: PhantomData<M>,
}

impl<M: Machine> TableRule<Kept<M, M::Event, M::Answer>, View<M, M::Event, M::Answer>, About<M>>
    for Law<M> {
    ghost use Rattle.node_lock.specs.Rule.{Lawful};
    ghost use Rattle.node_lock.specs.Known.{newcomer};

    ghost holds = { λ about s. Lawful M.takes about.opening.value about.shares s };

    ghost first = { λ about. newcomer about.opening.value about.shares };
}
