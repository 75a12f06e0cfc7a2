//! A machine: a state that takes events one at a time, each with an answer. What a lock, a server
//! or a log needs to know of a node. Its meaning is a relation, since an event may have more than
//! one right answer: out of memory, or a disk that fails.
#![tactic(auto)]

ghost use Rattle.std.specs.Prelude.{◌≡◌, IfOk};

use std::alloc::{AllocError, Global};

/// A state that takes events.
pub trait Machine: Sized {
    /// What comes to it.
    type Event;

    /// What it answers.
    type Answer;

    /// The state before, the event, the answer, and the state after it.
    ghost takes: { Self → Self.Event → Self.Answer → Self → Type 0 };

    /// Takes an event.
    fn take(&mut self, event: &Self::Event) -> Self::Answer
        ensures { takes self.old event.now result self.new };

    /// An event that is equal. It is refused only out of memory.
    fn copy_event(alloc: Global, event: &Self::Event) -> Result<Self::Event, AllocError>
        ensures { IfOk result (λ copy. copy ≡ event.now) };
}
