ghost use Rattle.std.specs.Prelude.{◌≡◌, option_map, drop};
ghost use Rattle.std.specs.Int.{w32};
ghost use Rattle.bson_core.specs.Reading.{number_at};
ghost use Rattle.op_msg.specs.Asking.{request_id, is_legacy, wants_reply, fault_number};

use crate::frame::FrameErr;
use bson_core::front_u32;

/// Where a message's own number stands, its operation's, and its flags.
const REQUEST_ID: usize = 4;

const OP_CODE: usize = 12;

const FLAGS: usize = 16;

const OP_QUERY: u32 = 2004;

/// The number that stands at that place, if the message reaches so far.
#[tactic(auto, unfolding(bson_core::specs::Reading::number_at))]
fn number_from(message: &[u8], at: usize) -> Option<u32>
    ensures { result ≡ option_map (λ x. x.0) (number_at w32 (drop at message.now)) }
{
    if message.len() < at {
        return None;
    }
    match front_u32(&message[at..]) {
        Some((number, _)) => Some(number),
        None => None,
    }
}

/// The message's own number, which its reply names; 0 where the message is too short to have one.
#[tactic(auto, unfolding(crate::specs::Asking::request_id))]
pub fn request_id(message: &[u8]) -> i32
    ensures { result ≡ request_id message.now }
{
    match number_from(message, REQUEST_ID) {
        Some(number) => number.cast_signed(),
        None => 0,
    }
}

/// Whether the message has the older form, OP_QUERY, and is answered by an OP_REPLY.
#[tactic(auto, unfolding(crate::specs::Asking::is_legacy))]
pub fn is_legacy(message: &[u8]) -> bool
    ensures { result ≡ is_legacy message.now }
{
    match number_from(message, OP_CODE) {
        Some(code) => code == OP_QUERY,
        None => false,
    }
}

/// Whether its sender wants a reply: the flag moreToCome, bit 1, is clear. The older form has no
/// such flag.
#[tactic(auto, unfolding(crate::specs::Asking::wants_reply))]
pub fn wants_reply(message: &[u8]) -> bool
    ensures { result ≡ wants_reply message.now }
{
    if is_legacy(message) {
        return true;
    }
    match number_from(message, FLAGS) {
        Some(flags) => (flags >> 1) % 2 != 1,
        None => true,
    }
}

impl FrameErr {
    /// The number by which the fault is told.
    pub fn number(&self) -> u8
        ensures { result ≡ fault_number self.now }
    {
        match self {
            FrameErr::Length => 1,
            FrameErr::OpCode => 2,
            FrameErr::Flags { .. } => 3,
            FrameErr::Section => 4,
            FrameErr::NoBody => 5,
            FrameErr::TwoBodies => 6,
            FrameErr::Bson(_) => 7,
            FrameErr::TooLarge => 8,
            FrameErr::Memory => 9,
        }
    }
}
