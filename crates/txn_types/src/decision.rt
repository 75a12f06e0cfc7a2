ghost use Rattle.std.specs.Prelude.{◌≡◌, IfOk};

use crate::cause::Cause;
use crate::names::Tag;
use crate::time::Ts;
use std::alloc::{AllocError, Global};

/// What a coordinator decides of a transaction.
#[derive(Clone, Copy, PartialEq, Eq)]
pub enum Decision {
    /// It commits at the greatest of its participants' prepare timestamps.
    Commit(Ts),
    /// This shard voted with the cause of this number.
    Abort { shard: u16, code: u8 },
}

impl Decision {
    pub fn copy(&self) -> Decision
        ensures { result ≡ self.now }
    {
        *self
    }
}

/// What a shard tells of a transaction's end.
#[derive(Drop)]
pub enum Told {
    Committed { at: Ts },
    /// It ended without a write.
    Released,
    Aborted { cause: Cause },
    /// The session has this larger number.
    TooOld { have: i64 },
    /// The shard knows no decision.
    NoTrace,
}

impl Told {
    pub fn copy(&self, alloc: Global) -> Result<Told, AllocError>
        ensures { IfOk result (λ t. t ≡ self.now) }
    {
        match self {
            Told::Committed { at } => Ok(Told::Committed { at: *at }),
            Told::Released => Ok(Told::Released),
            Told::Aborted { cause } => Ok(Told::Aborted {
                cause: cause.copy(alloc)?,
            }),
            Told::TooOld { have } => Ok(Told::TooOld { have: *have }),
            Told::NoTrace => Ok(Told::NoTrace),
        }
    }
}

/// A recovery token: what a client gives to another router to learn how its transaction ended.
#[derive(Clone, Copy)]
pub enum Token {
    /// No write was made yet.
    Early { tag: Tag },
    /// The first shard that wrote, and its boot.
    Placed { tag: Tag, shard: u16, boot: u32 },
    /// A document that is no token of this cluster.
    Other,
}

impl Token {
    pub fn copy(&self) -> Token
        ensures { result ≡ self.now }
    {
        *self
    }
}
