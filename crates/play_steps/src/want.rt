//! What comes next of a schedule, and what was given to a node.
ghost use Rattle.std.specs.Prelude.{◌≡◌};
ghost use Rattle.play_steps.specs.Steps.{given_by, given_of};

use op_msg::wants_reply;
use txn_types::{Happening, NodeId};

/// What comes next of a schedule.
#[derive(Drop)]
pub enum Want {
    /// An event at a node.
    Event { node: NodeId, happening: Happening },
    /// The delivery of a message, by its number.
    Deliver { number: u64 },
    /// A node that starts anew.
    Renew { node: NodeId },
    /// Nothing more: the schedule is played.
    End,
    /// That line, counted from 1, is no line.
    Bad { line: u64 },
    /// More was asked than is served: deliveries in one settling, or lines.
    Spent,
}

/// What was given to a node, as far as it matters after the step: the connection, where it was a
/// client's message, and whether its sender wants a reply; or the number of a message.
#[derive(Clone, Copy)]
pub enum Given {
    Client { conn: u32, wants_reply: bool },
    Message { number: u64 },
    Other,
}

/// What happens to a node, as far as it matters after the step.
fn given_by(happening: &Happening) -> Given
    ensures { result ≡ given_by happening.now }
{
    match happening {
        Happening::Client { conn, frame } => Given::Client {
            conn: *conn,
            wants_reply: wants_reply(frame.as_slice()),
        },
        _ => Given::Other,
    }
}

impl Given {
    ghost use Rattle.std.specs.Prelude.{◌≡◌};
    ghost use Rattle.play_steps.specs.Steps.{given_of};

    /// What a want gives to a node.
    pub fn of(want: &Want) -> Given
        ensures { result ≡ given_of want.now }
    {
        match want {
            Want::Event { happening, .. } => given_by(happening),
            Want::Deliver { number } => Given::Message { number: *number },
            _ => Given::Other,
        }
    }
}
