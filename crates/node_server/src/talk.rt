ghost use Rattle.std.specs.Prelude.{◌≡◌, ℕ, List, Result};
ghost use Rattle.outcomes.specs.Causes.{FailsOnly};
ghost use Rattle.node_server.specs.declared.talk.NextOf.{NextOf as Following};
ghost use Rattle.node_server.specs.declared.talk.TalkErr.{TalkErr as Refusal};

use bson_core::Bytes;
use machine::Machine;
use std::sync::Wait;

/// Why a Talk did nothing, or not all.
#[derive(Clone, Copy, Debug, PartialEq, Eq)]
pub enum TalkErr {
    /// What it carries messages to failed; its count of faults has risen.
    Failed,
    /// There was no memory.
    Memory,
}

/// What a connection does after a call.
#[derive(Drop)]
pub enum NextOf<E> {
    /// Gives the machine this event.
    Call(E),
    /// Waits until another connection has made a call, and gives the same event again.
    Hold,
    /// Writes these bytes, and reads the next message.
    Write(Bytes),
    /// Writes these bytes and ends.
    Close(Bytes),
}

/// What a connection does after a call of this machine.
pub type Next<M> = NextOf<<M as Machine>::Event>;

/// What a kind of connection makes of messages and of a machine's answers.
pub trait Talk<M: Machine> {
    /// The state before, the message, what is made of it, and the state after it.
    ghost makes: { Self → List ℕ → Result M.Event Refusal → Self → Type 0 };

    /// The state before, the machine's answer, what is to be done, and the state after it.
    ghost carries: { Self → M.Answer → Result (Following M.Event) Refusal → Self → Type 0 };

    /// How often a call has failed.
    ghost fault_count: { Self → ℕ };

    /// The length of the longest message that is read.
    ghost frame_limit: { Self → ℕ };

    /// The event that a whole message is, whether it can be read or not.
    fn event(&mut self, frame: Bytes) -> Result<M::Event, TalkErr>
        ensures makes { makes self.old frame result self.new }
        ensures faults { FailsOnly TalkErr.Failed (fault_count self.old) (fault_count self.new) result };

    /// Carries an answer's messages on, which may wait for other threads, and says what is done
    /// next.
    fn after<R: Wait>(&mut self, rt: &R, answer: &M::Answer) -> Result<Next<M>, TalkErr>
        ensures carries { carries self.old answer.now result self.new }
        ensures faults { FailsOnly TalkErr.Failed (fault_count self.old) (fault_count self.new) result };

    /// The length of the longest message that is read; a longer one ends the connection.
    fn limit(&self) -> u32
        ensures { result ≡ frame_limit self.now };

    /// How often a call has failed; it stands still at 2^64 - 1.
    fn faults(&self) -> u64
        ensures { result ≡ fault_count self.now };
}
