ghost use Rattle.std.specs.Prelude.{◌≡◌, IfOk};
ghost use Rattle.session_table.specs.declared.session.SessionErr.TheVariants.{Memory};

use std::alloc::{AllocError, Global};
use txn_types::{Cause, Tag, Ts};

/// How a session's transaction stands at a shard.
#[derive(Drop)]
pub enum SessionState {
    Live,
    /// It can commit from this timestamp on; the shard of this number coordinates.
    Prepared { at: Ts, coordinator: u16 },
    Committed { at: Ts },
    /// It ended without a write.
    Released,
    /// It was refused or ended, and the refusal tells this read timestamp.
    Aborted { cause: Cause, read_at: Ts },
}

impl SessionState {
    pub fn copy(&self, alloc: Global) -> Result<SessionState, AllocError>
        ensures { IfOk result (λ s. s ≡ self.now) }
    {
        match self {
            SessionState::Live => Ok(SessionState::Live),
            SessionState::Prepared { at, coordinator } => Ok(SessionState::Prepared {
                at: *at,
                coordinator: *coordinator,
            }),
            SessionState::Committed { at } => Ok(SessionState::Committed { at: *at }),
            SessionState::Released => Ok(SessionState::Released),
            SessionState::Aborted { cause, read_at } => Ok(SessionState::Aborted {
                cause: cause.copy(alloc)?,
                read_at: *read_at,
            }),
        }
    }
}

/// A session's newest transaction: its number in the session, its tag, and how it stands.
#[derive(Drop)]
pub struct Session {
    pub number: i64,
    pub tag: Tag,
    pub state: SessionState,
}

impl Session {
    pub fn copy(&self, alloc: Global) -> Result<Session, AllocError>
        ensures { IfOk result (λ s. s ≡ self.now) }
    {
        Ok(Session {
            number: self.number,
            tag: self.tag,
            state: self.state.copy(alloc)?,
        })
    }
}

/// Why a transaction isn't begun.
#[derive(Clone, Copy)]
pub enum SessionErr {
    /// The session has a larger number.
    TooOld { number: i64, have: i64 },
    /// The session has this number.
    InUse { tag: Tag },
    /// The session's older transaction is prepared.
    PreparedStands { tag: Tag },
    /// As many sessions stand as may.
    TooMany,
    /// There was no memory.
    Memory,
}

impl From<AllocError> for SessionErr {
    ghost from_gives = { λ _ e. e ≡ Memory };

    fn from(_e: AllocError) -> SessionErr {
        SessionErr::Memory
    }
}
