//! What the bytes of a client's message ask.
ghost use Rattle.std.specs.Prelude.{◌≡◌};
ghost use Rattle.router_plan.specs.Messages.{Gives, from_message, from_command, asked_in};

use bson_core::BsonErr;
use client_cmd::{CmdErr, Request, read_command};
use client_reply::Refusal;
use crud_parse::CrudErr;
use op_msg::{FrameErr, read_frame};
use std::alloc::Global;

/// Why a message isn't served.
#[derive(Drop)]
pub enum Unserved {
    /// Its sender is told so.
    Told(Refusal),
    /// Its connection is closed, for the reason of that number: 1 Length, 2 OpCode, 8 TooLarge.
    Closed { number: u8 },
    /// There was no memory.
    Memory,
}

impl From<FrameErr> for Unserved {
    ghost from_gives = { λ error e. e ≡ from_message error };

    fn from(error: FrameErr) -> Unserved {
        match error {
            FrameErr::Length => Unserved::Closed { number: 1 },
            FrameErr::OpCode => Unserved::Closed { number: 2 },
            FrameErr::TooLarge => Unserved::Closed { number: 8 },
            FrameErr::Bson(BsonErr::Kind { at, byte }) => {
                Unserved::Told(Refusal::BadKind { byte, at })
            }
            FrameErr::Flags { .. } => Unserved::Told(Refusal::BadMessage { number: 3 }),
            FrameErr::Section => Unserved::Told(Refusal::BadMessage { number: 4 }),
            FrameErr::NoBody => Unserved::Told(Refusal::BadMessage { number: 5 }),
            FrameErr::TwoBodies => Unserved::Told(Refusal::BadMessage { number: 6 }),
            FrameErr::Bson(_) => Unserved::Told(Refusal::BadMessage { number: 7 }),
            FrameErr::Memory => Unserved::Memory,
        }
    }
}

impl From<CmdErr> for Unserved {
    ghost from_gives = { λ error e. e ≡ from_command error };

    fn from(error: CmdErr) -> Unserved {
        match error {
            CmdErr::Unknown { name } => Unserved::Told(Refusal::Unknown { name }),
            CmdErr::Unacknowledged => Unserved::Told(Refusal::Unacknowledged),
            CmdErr::RetryWrite => Unserved::Told(Refusal::RetryWrite),
            CmdErr::ClusterTimeAhead { secs, wall } => {
                Unserved::Told(Refusal::ClusterTimeAhead { secs, wall })
            }
            CmdErr::Parse(CrudErr::UnknownOperator { name }) => {
                Unserved::Told(Refusal::UnknownOperator { name })
            }
            CmdErr::Parse(CrudErr::DottedName { name }) => {
                Unserved::Told(Refusal::DottedName { name })
            }
            CmdErr::Parse(CrudErr::WrongKind { name }) => {
                Unserved::Told(Refusal::WrongKind { name })
            }
            CmdErr::Parse(CrudErr::Missing { name }) => Unserved::Told(Refusal::Missing { name }),
            CmdErr::Parse(CrudErr::UnknownField { name }) => {
                Unserved::Told(Refusal::UnknownField { name })
            }
            CmdErr::Parse(CrudErr::Memory) | CmdErr::Memory => Unserved::Memory,
        }
    }
}

/// Reads what a message asks, at this wall.
#[tactic(auto, unfolding(crate::specs::Messages::asked_in))]
pub fn asked(alloc: Global, wall: u32, message: &[u8]) -> Result<Request, Unserved>
    ensures { Gives (λ r. r) result (asked_in wall message.now) }
{
    let frame = read_frame(alloc, message)?;
    Ok(read_command(alloc, &frame, wall)?)
}
