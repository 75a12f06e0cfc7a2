ghost use Rattle.std.specs.Prelude.{◌≡◌, IfOk, [], ◌∷◌};
ghost use Rattle.router_state.specs.Deeds.{nothing, both, aborting, sending, telling, told, told_if, in_session};

use crate::state::{Asker, Doing, Posts, Session, Transaction};
use client_reply::Reply;
use sqlite_items::Items;
use std::alloc::{AllocError, Global};

/// A reply to a request of a connection; `legacy` where it was asked in the older form of messages.
#[derive(Drop)]
pub struct Sent {
    pub conn: u32,
    pub request: i32,
    pub legacy: bool,
    pub reply: Reply,
}

/// What is given out: aborts, other messages, and replies.
#[derive(Drop)]
pub struct Given {
    pub aborts: Posts,
    pub sends: Posts,
    pub replies: Items<Sent>,
}

/// A session after an event, and what is given out.
#[derive(Drop)]
pub struct Deed {
    pub session: Session,
    pub given: Given,
}

impl Given {
    pub fn nothing(alloc: Global) -> Given
        ensures { result ≡ nothing }
    {
        Given {
            aborts: Items::new(alloc),
            sends: Items::new(alloc),
            replies: Items::new(alloc),
        }
    }

    pub fn aborting(alloc: Global, posts: Posts) -> Given
        ensures { result ≡ aborting posts }
    {
        Given {
            aborts: posts,
            sends: Items::new(alloc),
            replies: Items::new(alloc),
        }
    }

    pub fn sending(alloc: Global, posts: Posts) -> Given
        ensures { result ≡ sending posts }
    {
        Given {
            aborts: Items::new(alloc),
            sends: posts,
            replies: Items::new(alloc),
        }
    }

    pub fn telling(alloc: Global, replies: Items<Sent>) -> Given
        ensures { result ≡ telling replies }
    {
        Given {
            aborts: Items::new(alloc),
            sends: Items::new(alloc),
            replies,
        }
    }

    /// One is told this.
    pub fn telling_one(alloc: Global, asker: Asker, reply: Reply) -> Result<Given, AllocError>
        ensures { IfOk result (λ g. g ≡ telling (told asker reply ∷ [])) }
    {
        Ok(Given::telling(alloc, told_if(alloc, Some(asker), reply)?))
    }

    /// This, and then the other.
    pub fn both(self, other: Given) -> Result<Given, AllocError>
        ensures { IfOk result (λ g. g ≡ both self other) }
    {
        let mut given = self;
        given.aborts.append(other.aborts)?;
        given.sends.append(other.sends)?;
        given.replies.append(other.replies)?;
        Ok(given)
    }
}

/// What is told to whoever waits.
pub fn told(asker: Asker, reply: Reply) -> Sent
    ensures { result ≡ told asker reply }
{
    Sent {
        conn: asker.conn,
        request: asker.request,
        legacy: false,
        reply,
    }
}

/// What is told, where somebody waits.
pub fn told_if(alloc: Global, asker: Option<Asker>, reply: Reply) -> Result<Items<Sent>, AllocError>
    ensures { IfOk result (λ s. s ≡ told_if asker reply) }
{
    let mut replies = Items::new(alloc);
    if let Some(asker) = asker {
        replies.push(told(asker, reply))?;
    }
    Ok(replies)
}

/// The session's transaction is this.
pub fn in_session(number: i64, t: Transaction, given: Given) -> Deed
    ensures { result ≡ in_session number t given }
{
    Deed {
        session: Session {
            number,
            doing: Doing::Begun(t),
        },
        given,
    }
}
