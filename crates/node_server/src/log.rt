ghost use Rattle.std.specs.Prelude.{◌≡◌, []};

use machine::Machine;
use std::alloc::Global;
use std::marker::Model;

/// The calls of a connection: the place of each in the node's history, modulo 2^64, its event, and
/// its answer.
#[derive(Drop)]
pub struct LogOf<E, A> {
    pub(crate) calls: Vec<(u64, E, A)>,
}

impl<E, A> Model for LogOf<E, A> {
    ghost use Rattle.std.specs.Prelude.{ℕ, List};

    ghost Value = { List (ℕ × E × A) };

    ghost view = { λ l. l.calls.items };
}

/// The calls of a connection to this machine.
pub type Log<M> = LogOf<<M as Machine>::Event, <M as Machine>::Answer>;

impl<E, A> LogOf<E, A> {
    /// A log of no calls.
    pub fn new(alloc: Global) -> LogOf<E, A>
        ensures { result ≡ [] }
    {
        LogOf {
            calls: Vec::new(alloc),
        }
    }

    /// The calls, in the order in which they were made.
    pub fn calls(&self) -> &[(u64, E, A)]
        ensures { result.now ≡ self.now }
    {
        self.calls.as_slice()
    }

    pub fn into_calls(self) -> Vec<(u64, E, A)>
        ensures { result.items ≡ self }
    {
        let LogOf { calls } = self;
        calls
    }
}
