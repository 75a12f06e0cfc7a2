use crate::kept::Kept;
use crate::law::View;
use atomic_table::Seat;
use machine::Machine;
use std::marker::Model;

/// What is so of what a pass knows while no call is made with it.
pub trait Rests {
    ghost rests: { Self → Type 0 };
}

impl<M, E, A> Rests for View<M, E, A> {
    ghost use Rattle.std.specs.Prelude.{◌≡◌, ◌<◌, []};
    ghost use Rattle.node_lock.specs.declared.law.Stage.TheVariants.{Idle};

    ghost rests = { λ v. (v.stage ≡ Idle) × (v.heard ≡ []) × (0 < v.shares) };
}

/// What one caller knows of a lock. It has no bytes.
#[derive(Drop)]
pub struct PassOf<S, V: Rests> {
    pub(crate) seat: Seat<S, V>,
}

impl<S, V: Rests> Model for PassOf<S, V> {
    ghost use Rattle.std.specs.Prelude.{◌≡◌, []};
    ghost use Rattle.node_lock.specs.Known.{Passed};

    ghost Value = { Passed V };

    ghost view = { λ p. record { table = p.seat.table_id; knows = p.seat.me.0 } };

    ghost invariant = { λ p. V.rests p.seat.me.0 × (p.seat.me.1 ≡ []) };
}

pub(crate) type SeatOf<M> = Seat<
    Kept<M, <M as Machine>::Event, <M as Machine>::Answer>,
    View<M, <M as Machine>::Event, <M as Machine>::Answer>,
>;

/// A pass of a machine's lock.
pub type Pass<M> = PassOf<
    Kept<M, <M as Machine>::Event, <M as Machine>::Answer>,
    View<M, <M as Machine>::Event, <M as Machine>::Answer>,
>;
