//! Messages are cut out of a stream, in whatever pieces it comes. Of a message of 38 bytes and one
//! of 52 that come as 10, 70 and 10 bytes:
//!
//! ```text
//! feed(10)  next: none         10 bytes are held
//! feed(70)  next: 38 bytes     then none; 42 bytes are held
//! feed(10)  next: 52 bytes     nothing is held
//! ```
ghost use Rattle.std.specs.Prelude.{◌≡◌, ◌≢◌, ◌≤◌, ◌<◌, ◌⊎◌, ◌∷◌, ◌++◌, ℕ, List, [], Ok, Err, Some, None, length, OnOk, OnErr, IfOk, IfErr, IfSome, IfNone, IsErrOf, option_map};
ghost use Rattle.std.specs.List.{All, concat};
ghost use Rattle.op_msg.specs.Errors.{Gives};
ghost use Rattle.op_msg.specs.declared.frame.Frame.{Frame as AnyFrame};
ghost use Rattle.op_msg.specs.declared.frame.FrameErr.{FrameErr as AnyError};
ghost use Rattle.op_msg.specs.Message.{IsMessage};
ghost use Rattle.op_msg.specs.Stream.{length_of, next_of, GivesMessage, Step, Feed, Take, run, fed, IsMessageWithin};

use crate::frame::FrameErr;
use bson_core::{Bytes, front_u32};
use std::alloc::Global;
use std::marker::Model;

/// The bytes of a message's header.
const HEADER: u32 = 16;

/// A length is an int32 that isn't negative.
const LENGTH_MOST: u32 = 0x7fff_ffff;

/// The length of the message that the bytes begin with, if they hold all of it.
#[tactic(auto, unfolding(crate::specs::Stream::length_of))]
fn whole_length(limit: u32, held: &[u8]) -> Result<Option<usize>, FrameErr>
    ensures length { result ≡ length_of limit held.now }
    ensures whole { IfOk result (λ len. IfSome len (λ n. n ≤ length held.now)) }
    ensures causes { IfErr result (λ e. (e ≡ FrameErr.Length) ⊎ (e ≡ FrameErr.TooLarge)) }
{
    let Some((len, _)) = front_u32(held) else {
        return Ok(None);
    };
    if len < HEADER || len > LENGTH_MOST {
        return Err(FrameErr::Length);
    }
    if len > limit {
        return Err(FrameErr::TooLarge);
    }
    let len = len as usize;
    if held.len() < len {
        return Ok(None);
    }
    Ok(Some(len))
}

/// Cuts bytes that come in pieces into messages, by the length in front of each.
///
/// It holds the bytes in one block. A call of `next` that gives nothing looks at four of them. What
/// is held is moved only once more bytes than these were given, so the work is linear in the bytes
/// that come.
#[derive(Debug, Drop)]
pub struct Feeder {
    alloc: Global,
    limit: u32,
    bytes: Vec<u8>,
    /// How many of the bytes were given already, from the front.
    start: usize,
}

impl Model for Feeder {
    ghost use Rattle.std.specs.Prelude.{◌≤◌, drop, vec_len};
    ghost use Rattle.op_msg.specs.Stream.{Stream};

    ghost Value = { Stream };

    ghost view = { λ f. record { held = drop f.start f.bytes.items; limit = f.limit } };

    ghost invariant = { λ f. f.start ≤ vec_len f.bytes };
}

impl Feeder {
    /// A feeder that holds nothing. No message is given that has more bytes than `limit`.
    pub fn new(alloc: Global, limit: u32) -> Feeder
        ensures { result ≡ record { held = []; limit = limit } }
    {
        Feeder {
            alloc,
            limit,
            bytes: Vec::new(alloc),
            start: 0,
        }
    }

    /// Makes room at the bytes that were given, once they are more than the others.
    fn settle(&mut self)
        ensures { self.new ≡ self.old }
    {
        let held = self.bytes.len() - self.start;
        if self.start > held {
            self.bytes.copy_within(self.start.., 0);
            self.bytes.truncate(held);
            self.start = 0;
        }
    }

    /// Holds the piece too, after what is held.
    pub fn feed(&mut self, piece: &[u8]) -> Result<(), FrameErr>
        ensures fed { OnOk result
            (self.new ≡ record self.old { held = self.old.held ++ piece.now }) }
        ensures refused { OnErr result (self.new ≡ self.old) }
        ensures causes { IfErr result (λ e. e ≡ FrameErr.Memory) }
    {
        self.settle();
        self.bytes.extend_from_slice(piece)?;
        Ok(())
    }

    /// Gives the next message's bytes, once all of them are held. Of these it looks at the length
    /// alone: it is `Length` where this is below the 16 bytes of a header, as a negative one is,
    /// and `TooLarge` where it is above the limit. Both come again at every call. After `Memory`
    /// the call may be made again.
    pub fn next(&mut self) -> Result<Option<Bytes>, FrameErr>
        // The message, and what is held after it; none; or a refusal.
        ensures next { Gives (λ message. option_map (λ bytes. (bytes, self.new.held)) message)
            result (next_of self.old.limit self.old.held) }
        // Memory is wanted for a message alone.
        ensures memory { IsErrOf result FrameErr.Memory
            → GivesMessage (next_of self.old.limit self.old.held) }
        ensures limit { self.new.limit ≡ self.old.limit }
        ensures none { IfOk result (λ message. IfNone message (self.new ≡ self.old)) }
        ensures refused { OnErr result (self.new ≡ self.old) }
    {
        let held = &self.bytes[self.start..];
        let Some(len) = whole_length(self.limit, held)? else {
            return Ok(None);
        };
        let message = Vec::from_slice(self.alloc, &held[..len])?;
        self.start += len;
        Ok(Some(Bytes::new(message)))
    }
}

// Laws of the definitions: a law is the contract of a function that changes nothing and gives
// nothing.

/// The messages that a feeder gave and the bytes that it still holds, joined, are the bytes that it
/// was fed.
pub fn no_byte_is_lost()
    ensures { (limit : ℕ) (held : List ℕ) (steps : List Step)
        → concat (run limit held steps).0 ++ (run limit held steps).1 ≡ held ++ fed steps }
{}

/// How the bytes are cut into pieces doesn't matter, nor when messages are taken.
pub fn cuts_dont_matter()
    // Two pieces are as their join is.
    ensures joined { (limit : ℕ) (held first second : List ℕ) (steps : List Step) → run limit held
        (Feed first ∷ Feed second ∷ steps) ≡ run limit held (Feed (first ++ second) ∷ steps) }
    // Runs that were fed the same bytes, and after which no message is left to take, gave the same
    // messages and hold the same bytes.
    ensures same { (limit : ℕ) (first second : List Step) → fed first ≡ fed second
        → ¬ GivesMessage (next_of limit (run limit [] first).1)
        → ¬ GivesMessage (next_of limit (run limit [] second).1)
        → run limit [] first ≡ run limit [] second }
    // A message stays the next one, and a refusal stays, whatever is fed.
    ensures message { (limit : ℕ) (held bytes rest more : List ℕ) → next_of limit held
        ≡ Ok (Some (bytes, rest)) → next_of limit (held ++ more) ≡ Ok (Some (bytes, rest ++ more)) }
    ensures refused { (limit : ℕ) (held more : List ℕ) (e : AnyError) → next_of limit held ≡ Err e
        → next_of limit (held ++ more) ≡ Err e }
{}

/// What comes out of a stream of messages are these messages.
pub fn messages_come_out()
    // A message within the limit is given, whatever stands after it; a longer one is refused.
    ensures next { (limit : ℕ) (bytes more : List ℕ) → IsMessageWithin limit bytes
        → next_of limit (bytes ++ more) ≡ Ok (Some (bytes, more)) }
    ensures longer { (limit : ℕ) (bytes more : List ℕ) (f : AnyFrame) → IsMessage bytes f
        → limit < length bytes → next_of limit (bytes ++ more) ≡ Err FrameErr.TooLarge }
    // Where nothing comes, no message is held whole.
    ensures none { (limit : ℕ) (bytes more : List ℕ) (f : AnyFrame) → IsMessage bytes f
        → next_of limit (bytes ++ more) ≢ Ok None }
    // Messages after one another are given in their order, however they were cut, and nothing is
    // left.
    ensures all { (limit : ℕ) (messages : List (List ℕ)) (steps : List Step)
        → All (IsMessageWithin limit) messages → fed steps ≡ concat messages
        → ¬ GivesMessage (next_of limit (run limit [] steps).1)
        → run limit [] steps ≡ (messages, []) }
{}
