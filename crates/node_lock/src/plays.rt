// What each step tells.
use crate::kept::Kept;
use crate::law::View;
use atomic_table::{Join, Play, Split};
use machine::Machine;

/// Draws a ticket.
pub struct Draw;

impl<M: Machine> Play<Kept<M, M::Event, M::Answer>, View<M, M::Event, M::Answer>> for Draw {
    ghost use Rattle.node_lock.specs.Plays.{Draws};

    ghost then = { λ step. Draws };
}

/// Looks who is served.
pub struct Look;

impl<M: Machine> Play<Kept<M, M::Event, M::Answer>, View<M, M::Event, M::Answer>> for Look {
    ghost use Rattle.node_lock.specs.Plays.{Looks};

    ghost then = { λ step. Looks };
}

/// Records the call that the seat's slot notes.
pub struct Record;

impl<M: Machine> Play<Kept<M, M::Event, M::Answer>, View<M, M::Event, M::Answer>> for Record {
    ghost use Rattle.node_lock.specs.Plays.{Records};

    ghost then = { λ step. Records M.takes };
}

/// Gives the machine back, and lets the next one in.
pub struct Release;

impl<M: Machine> Play<Kept<M, M::Event, M::Answer>, View<M, M::Event, M::Answer>> for Release {
    ghost use Rattle.node_lock.specs.Plays.{Releases};

    ghost then = { λ step. Releases };
}

/// Looks at the whole history.
pub struct Glance;

impl<M: Machine> Play<Kept<M, M::Event, M::Answer>, View<M, M::Event, M::Answer>> for Glance {
    ghost use Rattle.node_lock.specs.Plays.{Glances};

    ghost then = { λ step. Glances M.takes };
}

/// Cuts off a pass with one share, which has seen the same and made no call.
pub struct Cut;

impl<M, E, A> Split<View<M, E, A>> for Cut {
    ghost use Rattle.node_lock.specs.Known.{left_over, cut_off};

    ghost left = { left_over };

    ghost right = { cut_off };
}

/// Takes another pass in, with its calls and its shares.
pub struct TakeIn;

impl<M, E, A> Join<View<M, E, A>> for TakeIn {
    ghost use Rattle.node_lock.specs.Plays.{joined, spent};

    ghost both = { joined };

    ghost spent = { spent };
}
