ghost use Rattle.std.specs.Prelude.{◌≡◌, ◌<◌, ◌∷◌, ℕ, List, [], IfOk, IfErr, MatchBool, Some};
ghost use Rattle.atomic_table.specs.Table.{rest};
ghost use Rattle.node_lock.specs.declared.law.Stage.TheVariants.{Idle, Waiting, Holding};
ghost use Rattle.node_lock.specs.Known.{wrap, newcomer, Called, Met, Whole, cut_off, left_over};
ghost use Rattle.node_lock.specs.Plays.{staged, Served, HasMachine, HasNote, Ran, Records, Glances};

use crate::kept::{Kept, machine_of};
use crate::law::{About, Law, View};
use crate::pass::{Pass, PassOf, SeatOf};
use crate::plays::{Cut, Draw, Glance, Look, Record, Release, TakeIn};
use atomic_table::{Refused, Table, TableRule};
use machine::Machine;
use std::alloc::{AllocFailed, Global};
use std::marker::Model;
use std::snapshot::Snapshot;
use std::sync::Wait;
use std::thread;

/// Why no lock was made.
#[derive(Clone, Copy)]
pub enum LockErr {
    /// There was no memory for it.
    Memory,
}

/// A table of three words, the next ticket, the ticket that is served and the number of calls, and
/// of one slot, which has the machine.
#[derive(Drop)]
pub struct LockOf<S, V, K, P: TableRule<S, V, K>> {
    table: Table<S, V, K, P, Global>,
}

impl<S, V, K, P: TableRule<S, V, K>> Model for LockOf<S, V, K, P> {
    ghost use Rattle.std.specs.Prelude.{◌≡◌};
    ghost use Rattle.node_lock.specs.Known.{Locked};

    ghost Value = { Locked K };

    ghost view = { λ l. record { table = l.table.shared.table_id; about = l.table.shared.key } };

    ghost invariant = { λ l. (l.table.shared.table_id.words ≡ 3) × (l.table.shared.table_id.slots ≡ 1) };
}

/// The lock round a machine.
pub type NodeLock<M> = LockOf<
    Kept<M, <M as Machine>::Event, <M as Machine>::Answer>,
    View<M, <M as Machine>::Event, <M as Machine>::Answer>,
    About<M>,
    Law<M>,
>;

impl<M: Machine> NodeLock<M> {
    /// A lock round the machine, and the first pass of it, which holds all shares. Cut passes off
    /// it by `split`, at most as many as there are shares. The machine comes back for want of
    /// memory.
    pub fn new(
        alloc: Global,
        machine: M,
        shares: u64,
    ) -> Result<(NodeLock<M>, Pass<M>), (LockErr, M)>
        requires { 0 < shares }
        ensures pass { IfOk result
            (λ made. (made.1.table ≡ made.0.table) × (made.1.knows ≡ newcomer machine shares)) }
        ensures about { IfOk result
            (λ made. (made.0.about.opening.value ≡ machine) × (made.0.about.shares ≡ shares)) }
        ensures refused { IfErr result (λ back. back.1 ≡ machine) }
    {
        let about = About {
            opening: Snapshot::of(&machine),
            shares,
        };
        let kept = Kept {
            machine: Some(machine),
            event: None,
            answer: None,
        };
        let mut slots = Vec::new(alloc);
        if let Err(AllocFailed { value }) = slots.push(kept) {
            slots.destroy_empty();
            return Err((LockErr::Memory, machine_of(value).unwrap()));
        }
        match Table::new(alloc, &[0, 0, 0], slots, &about) {
            Ok((table, seat)) => Ok((LockOf { table }, PassOf { seat })),
            Err(Refused { mut slots }) => {
                let kept = slots.pop().unwrap();
                slots.destroy_empty();
                Err((LockErr::Memory, machine_of(kept).unwrap()))
            }
        }
    }

    fn draw(&self, seat: &mut SeatOf<M>) -> u64
        requires table { seat.old.table_id ≡ self.now.table }
        requires idle { (seat.old.me.0.stage ≡ Idle) × (0 < seat.old.me.0.shares) }
        ensures table { (seat.new.table_id ≡ seat.old.table_id) × (seat.new.id ≡ seat.old.id) }
        ensures ticket { (t : ℕ) × (seat.new.me ≡ (staged seat.old.me.0 (Waiting t), seat.old.me.1))
            × (result ≡ wrap t) }
    {
        self.table.shared.fetch_add::<Draw>(seat, 0, 1)
    }

    // Whether the ticket is served. Where it is, the seat takes the slot.
    fn look(&self, seat: &mut SeatOf<M>, ticket: u64) -> bool
        requires table { seat.old.table_id ≡ self.now.table }
        requires waits { (t : ℕ) × (seat.old.me.0.stage ≡ Waiting t) × (ticket ≡ wrap t) }
        ensures table { (seat.new.table_id ≡ seat.old.table_id) × (seat.new.id ≡ seat.old.id) }
        ensures served { MatchBool result ((t : ℕ) × Served t seat.old.me seat.new.me)
            (seat.new.me ≡ seat.old.me) }
    {
        self.table.shared.load::<Look>(seat, 1) == ticket
    }

    fn wait_turn<R: Wait>(&self, rt: &R, seat: &mut SeatOf<M>, ticket: u64)
        requires table { seat.old.table_id ≡ self.now.table }
        requires waits { (t : ℕ) × (seat.old.me.0.stage ≡ Waiting t) × (ticket ≡ wrap t) }
        ensures table { (seat.new.table_id ≡ seat.old.table_id) × (seat.new.id ≡ seat.old.id) }
        ensures served { (t : ℕ) × Served t seat.old.me seat.new.me }
    {
        for _ in rt.forever() {
            if self.look(seat, ticket) {
                return;
            }
            thread::yield_now();
        }
        unreachable!()
    }

    // Takes the machine out, lets it take the event, and puts it back with a note of the call.
    fn run(&self, seat: &mut SeatOf<M>, event: &M::Event) -> M::Answer
        requires table { seat.old.table_id ≡ self.now.table }
        requires holds { HasMachine seat.old.me }
        ensures table { (seat.new.table_id ≡ seat.old.table_id) × (seat.new.id ≡ seat.old.id) }
        ensures ran { Ran M.takes event.now result seat.old.me seat.new.me }
    {
        let blank = Kept {
            machine: None,
            event: None,
            answer: None,
        };
        let kept = self.table.shared.exchange(seat, 0, blank);
        let mut machine = machine_of(kept).unwrap();
        let answer = machine.take(event);
        let noted = Kept {
            machine: Some(machine),
            event: Some(Snapshot::of(event)),
            answer: Some(Snapshot::of(&answer)),
        };
        let blank = self.table.shared.exchange(seat, 0, noted);
        match machine_of(blank) {
            None => {}
            Some(_) => unreachable!(),
        }
        answer
    }

    fn record(&self, seat: &mut SeatOf<M>) -> u64
        requires table { seat.old.table_id ≡ self.now.table }
        requires noted { HasNote M.takes seat.old.me }
        ensures table { (seat.new.table_id ≡ seat.old.table_id) × (seat.new.id ≡ seat.old.id) }
        ensures recorded { Records M.takes seat.old.me result seat.new.me }
    {
        self.table.shared.fetch_add::<Record>(seat, 2, 1)
    }

    fn release(&self, seat: &mut SeatOf<M>)
        requires table { seat.old.table_id ≡ self.now.table }
        requires holds { HasMachine seat.old.me }
        ensures table { (seat.new.table_id ≡ seat.old.table_id) × (seat.new.id ≡ seat.old.id) }
        ensures released { seat.new.me ≡ (staged seat.old.me.0 Idle, rest seat.old.me.1) }
    {
        self.table.shared.fetch_add::<Release>(seat, 1, 1);
    }

    // The whole history is seen.
    fn glance(&self, seat: &mut SeatOf<M>) -> u64
        requires table { seat.old.table_id ≡ self.now.table }
        requires idle { (seat.old.me.0.stage ≡ Idle) × (0 < seat.old.me.0.shares) }
        ensures table { (seat.new.table_id ≡ seat.old.table_id) × (seat.new.id ≡ seat.old.id) }
        ensures seen { Glances M.takes seat.old.me result seat.new.me }
    {
        self.table.shared.load::<Glance>(seat, 2)
    }

    fn call_from<R: Wait>(&self, rt: &R, seat: &mut SeatOf<M>, event: &M::Event) -> (u64, M::Answer)
        requires table { seat.old.table_id ≡ self.now.table }
        requires idle { (seat.old.me.0.stage ≡ Idle) × (0 < seat.old.me.0.shares) }
        ensures table { seat.new.table_id ≡ seat.old.table_id }
        ensures called { Called M.takes event.now result.0 result.1 seat.old.me.0 seat.new.me.0 }
        ensures slots { seat.new.me.1 ≡ seat.old.me.1 }
    {
        let ticket = self.draw(seat);
        self.wait_turn(rt, seat, ticket);
        let answer = self.run(seat, event);
        let place = self.record(seat);
        self.release(seat);
        (place, answer)
    }

    /// Gives the machine the event, and answers the call's place in the history, modulo 2^64, and
    /// the machine's answer. It waits for other callers, so what it ensures holds if it returns.
    pub fn call<R: Wait>(&self, rt: &R, pass: &mut Pass<M>, event: &M::Event) -> (u64, M::Answer)
        requires { pass.old.table ≡ self.now.table }
        ensures table { pass.new.table ≡ pass.old.table }
        ensures called { Called M.takes event.now result.0 result.1 pass.old.knows pass.new.knows }
    {
        self.call_from(rt, &mut pass.seat, event)
    }

    /// A pass that has seen the same, has made no call, and takes one share.
    pub fn split(&self, pass: &mut Pass<M>) -> Pass<M>
        requires table { pass.old.table ≡ self.now.table }
        requires shares { 1 < pass.old.knows.shares }
        ensures kept { pass.new ≡ record pass.old { knows = left_over pass.old.knows } }
        ensures cut { result ≡ record pass.old { knows = cut_off pass.old.knows } }
    {
        let seat = self.table.shared.split_seat::<Cut>(&mut pass.seat);
        PassOf { seat }
    }

    /// Takes another pass in. Afterwards `pass` has seen what both had, and has the calls and the
    /// shares of both.
    pub fn meet(&self, pass: &mut Pass<M>, note: Pass<M>)
        requires { (pass.old.table ≡ self.now.table) × (note.table ≡ self.now.table) }
        ensures table { pass.new.table ≡ pass.old.table }
        ensures met { Met M.takes pass.old.knows note.knows pass.new.knows }
    {
        let PassOf { seat: other } = note;
        let seat = &mut pass.seat;
        self.table.shared.join_seat::<TakeIn>(seat, other);
        self.glance(seat);
    }

    /// The length of the whole history, modulo 2^64. The pass holds all shares of the lock, so no
    /// other is left: each call of the history was made with it, or with one that it met.
    pub fn whole(&self, pass: &mut Pass<M>) -> u64
        requires table { pass.old.table ≡ self.now.table }
        requires shares { pass.old.knows.shares ≡ pass.old.knows.all }
        ensures table { pass.new.table ≡ pass.old.table }
        ensures whole { Whole M.takes result pass.old.knows pass.new.knows }
    {
        self.glance(&mut pass.seat)
    }
}

fn is_send<T: Send>(_: &T) {}

fn is_sync<T: Sync>(_: &T) {}

/// Threads may share a lock, and a lock and its passes may go to other threads, where the machine
/// may. The function is proved, which shows that; it does nothing.
pub fn threads_may_share<M: Machine + Send>(lock: &NodeLock<M>, pass: &Pass<M>) {
    is_sync(lock);
    is_send(lock);
    is_send(pass);
}
