//! A connection of a client: its bytes are cut into messages, and one message at a time is served.
ghost use Rattle.std.specs.Prelude.{◌≡◌};
ghost use Rattle.op_msg.specs.Limits.{most_message};
ghost use Rattle.client_streams.specs.Streams.{fault_number};

use bson_core::Bytes;
use op_msg::{Feeder, FrameErr};
use std::alloc::{AllocError, Global};
use std::collections::VecDeque;
use std::marker::Model;

/// A client's message has no more bytes.
const MOST_MESSAGE: u32 = 48_000_000;

/// The number of a message's fault, by which a connection closes.
fn fault_number(error: FrameErr) -> u8
    ensures { result ≡ fault_number error }
{
    match error {
        FrameErr::Length => 1,
        FrameErr::OpCode => 2,
        FrameErr::Flags { .. } => 3,
        FrameErr::Section => 4,
        FrameErr::NoBody => 5,
        FrameErr::TwoBodies => 6,
        FrameErr::Bson(_) => 7,
        FrameErr::TooLarge => 8,
        FrameErr::Memory => 9,
    }
}

/// A connection: the bytes that are no whole message yet, the messages that wait, whether an
/// earlier one is unanswered, and the number of the fault by which its bytes can't go on.
#[derive(Drop)]
pub(crate) struct Connection {
    conn: u32,
    feeder: Feeder,
    waiting: VecDeque<Bytes>,
    busy: bool,
    fault: Option<u8>,
}

impl Model for Connection {
    ghost use Rattle.std.specs.Prelude.{◌≡◌};
    ghost use Rattle.op_msg.specs.Limits.{most_message};
    ghost use Rattle.client_streams.specs.Streams.{Connection};

    ghost Value = { Connection };

    ghost view = { λ c. record { conn = c.conn; bytes = c.feeder.held; waiting = c.waiting.items; busy = c.busy; fault = c.fault } };

    ghost invariant = { λ c. c.feeder.limit ≡ most_message };
}

impl Connection {
    ghost use Rattle.std.specs.Prelude.{◌≡◌, ℕ, List, true, false, drop, length, nat_eq, option_to_list, IfOk, OnOk, IsTrue, Ok, Some, [], ◌∷◌, ◌++◌};
    ghost use Rattle.client_streams.specs.Turns.{turn_of};
    ghost use Rattle.op_msg.specs.Stream.{next_of};
    ghost use Rattle.client_streams.specs.Streams.{Connection, fresh, cut_by, cut_times, fed};

    /// Nothing came on it.
    pub(crate) fn new(alloc: Global, conn: u32) -> Connection
        ensures { result ≡ fresh conn }
    {
        Connection {
            conn,
            feeder: Feeder::new(alloc, MOST_MESSAGE),
            waiting: VecDeque::new(alloc),
            busy: false,
            fault: None,
        }
    }

    /// The bytes can't go on, for the reason of that number: they are dropped.
    fn fail(&mut self, alloc: Global, number: u8)
        ensures { self.new ≡ record self.old { bytes = []; fault = Some number } }
    {
        self.feeder = Feeder::new(alloc, MOST_MESSAGE);
        self.fault = Some(number);
    }

    /// Cuts the next message off the bytes, where they hold all of it; a fault drops them. It tells
    /// whether one was cut off.
    fn cut_next(&mut self, alloc: Global) -> Result<bool, AllocError>
        ensures cut { IfOk result (λ more. IsTrue more → (m : List ℕ × List ℕ)
            × (next_of most_message self.old.bytes ≡ Ok (Some m)) × (self.new
            ≡ record self.old { bytes = m.1; waiting = self.old.waiting ++ m.0 ∷ [] })) }
        ensures last { IfOk result (λ more. (again : Connection → Connection) → more ≡ false
            → self.new ≡ cut_by again self.old (next_of most_message self.old.bytes)) }
    {
        match self.feeder.next() {
            Ok(Some(message)) => {
                self.waiting.push_back(message)?;
                Ok(true)
            }
            Ok(None) => Ok(false),
            Err(FrameErr::Memory) => Err(AllocError),
            Err(error) => {
                self.fail(alloc, fault_number(error));
                Ok(false)
            }
        }
    }

    /// Cuts the whole messages off the bytes, up to a fault.
    fn cut(&mut self, alloc: Global) -> Result<(), AllocError>
        ensures { OnOk result (self.new ≡ cut_times (length self.old.bytes) self.old) }
    {
        while self.cut_next(alloc)? {}
        Ok(())
    }

    /// Bytes come on it; after a fault they are dropped.
    #[tactic(auto, unfolding(crate::specs::Streams::fed))]
    pub(crate) fn feed(&mut self, alloc: Global, bytes: &[u8]) -> Result<(), AllocError>
        ensures { OnOk result (self.new ≡ fed self.old bytes.now) }
    {
        if self.fault.is_some() {
            return Ok(());
        }
        match self.feeder.feed(bytes) {
            Ok(()) => self.cut(alloc),
            Err(_) => Err(AllocError),
        }
    }

    /// Takes the message that has waited longest; it is unanswered until its reply comes.
    pub(crate) fn give(&mut self) -> Option<Bytes>
        ensures message { self.old.waiting ≡ option_to_list result ++ self.new.waiting }
        ensures rest { self.new
            ≡ record self.old { waiting = drop 1 self.old.waiting; busy = true } }
    {
        self.busy = true;
        self.waiting.pop_front()
    }

    /// The message that was unanswered is answered.
    pub(crate) fn answer(&mut self)
        ensures { self.new ≡ record self.old { busy = false } }
    {
        self.busy = false;
    }

    /// What is served next on it.
    pub(crate) fn turn(&self) -> Turn
        ensures { result ≡ turn_of self.now }
    {
        if self.busy {
            Turn::Nothing
        } else if !self.waiting.is_empty() {
            Turn::Message
        } else {
            match self.fault {
                Some(number) => Turn::Fault(number),
                None => Turn::Nothing,
            }
        }
    }

    /// Whether it is that connection.
    pub(crate) fn is(&self, conn: u32) -> bool
        ensures { result ≡ nat_eq self.now.conn conn }
    {
        self.conn == conn
    }

    /// The connection's number.
    pub(crate) fn number(&self) -> u32
        ensures { result ≡ self.now.conn }
    {
        self.conn
    }
}

/// What is served next on a connection.
#[derive(Clone, Copy)]
pub enum Turn {
    /// The message that has waited longest.
    Message,
    /// The connection closes, for the reason of that number.
    Fault(u8),
    /// Nothing waits, or an earlier message is unanswered.
    Nothing,
}
