ghost use Rattle.std.specs.Prelude.{◌≡◌, IfOk};

use crate::id::Id;
use crate::message::{Envelope, Envelopes, copy_envelopes};
use crate::names::Tag;
use crate::time::Ts;
use bson_core::Bytes;
use sqlite_items::Items;
use std::alloc::{AllocError, Global};

/// What happens to a node.
#[derive(Drop)]
pub enum Happening {
    /// A connection has this message.
    Client { conn: u32, frame: Bytes },
    /// A connection has ended.
    Gone { conn: u32 },
    /// A message of a node arrives.
    Deliver(Envelope),
    /// Send again what is waited for.
    Resend,
    /// Time goes on.
    Moment,
}

impl Happening {
    pub fn copy(&self, alloc: Global) -> Result<Happening, AllocError>
        ensures { IfOk result (λ h. h ≡ self.now) }
    {
        match self {
            Happening::Client { conn, frame } => Ok(Happening::Client {
                conn: *conn,
                frame: frame.copy(alloc)?,
            }),
            Happening::Gone { conn } => Ok(Happening::Gone { conn: *conn }),
            Happening::Deliver(envelope) => Ok(Happening::Deliver(envelope.copy(alloc)?)),
            Happening::Resend => Ok(Happening::Resend),
            Happening::Moment => Ok(Happening::Moment),
        }
    }
}

/// What happens to a node, and the moment, in seconds since 1970.
#[derive(Drop)]
pub struct NodeEvent {
    pub wall: u32,
    pub what: Happening,
}

impl NodeEvent {
    pub fn copy(&self, alloc: Global) -> Result<NodeEvent, AllocError>
        ensures { IfOk result (λ e. e ≡ self.now) }
    {
        Ok(NodeEvent {
            wall: self.wall,
            what: self.what.copy(alloc)?,
        })
    }
}

/// Replies, in their order: each to a connection, with its bytes.
pub type Replies = Items<(u32, Bytes)>;

/// Equal replies.
pub fn copy_replies(alloc: Global, replies: &Replies) -> Result<Replies, AllocError>
    ensures { IfOk result (λ r. r ≡ replies.now) }
{
    let mut copy = Vec::new(alloc);
    for (conn, bytes) in replies.as_slice() {
        copy.push((*conn, bytes.copy(alloc)?))?;
    }
    Ok(Items::from_vec(copy))
}

/// What a node answers to an event.
#[derive(Drop)]
pub enum NodeAnswer {
    /// The messages and replies that it gives out; `closed` is the number of the refusal that
    /// closes the connection.
    Did {
        out: Envelopes,
        replies: Replies,
        closed: Option<u8>,
    },
    /// A document that the statement touches is held by a prepared transaction; the event may be
    /// given again.
    Blocked {
        id: Id,
        tag: Tag,
        ts: Ts,
    },
    /// The disk failed.
    DiskFault,
    /// The disk failed before.
    Stopped,
    /// There was no memory; nothing has changed.
    Memory,
}

impl NodeAnswer {
    pub fn copy(&self, alloc: Global) -> Result<NodeAnswer, AllocError>
        ensures { IfOk result (λ a. a ≡ self.now) }
    {
        match self {
            NodeAnswer::Did {
                out,
                replies,
                closed,
            } => Ok(NodeAnswer::Did {
                out: copy_envelopes(alloc, out)?,
                replies: copy_replies(alloc, replies)?,
                closed: *closed,
            }),
            NodeAnswer::Blocked { id, tag, ts } => Ok(NodeAnswer::Blocked {
                id: id.copy(alloc)?,
                tag: *tag,
                ts: *ts,
            }),
            NodeAnswer::DiskFault => Ok(NodeAnswer::DiskFault),
            NodeAnswer::Stopped => Ok(NodeAnswer::Stopped),
            NodeAnswer::Memory => Ok(NodeAnswer::Memory),
        }
    }
}
