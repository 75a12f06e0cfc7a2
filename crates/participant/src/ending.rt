ghost use Rattle.std.specs.Prelude.{◌≡◌, true, IfOk, OnErr};
ghost use Rattle.participant.specs.Abort.{abort};
ghost use Rattle.participant.specs.Memory.{may_tell_memory};
ghost use Rattle.participant.specs.Recover.{recover, recovers_none};

use crate::part::Participant;
use crate::said::PartErr;
use session_table::{SessionState, is_same_tag};
use txn_types::{Abort, Cause, Recover, Told};

impl Participant {
    /// Ends the live transaction of that tag. It takes no memory.
    #[tactic(auto, unfolding(crate::specs::Abort::abort))]
    pub fn abort(&mut self, m: &Abort)
        ensures { self.new ≡ abort self.old m.now }
    {
        let Some(session) = self.session(&m.lsid) else {
            return;
        };
        if !is_same_tag(&session.tag, &m.tag) {
            return;
        }
        match session.state {
            SessionState::Live => self.end_live(&m.lsid, Cause::ClientAbort { why: m.why }),
            SessionState::Prepared { .. } => {}
            SessionState::Committed { .. } => {}
            SessionState::Released => {}
            SessionState::Aborted { .. } => {}
        }
    }

    /// What is told to a router that looks for a transaction's end. One that is live is ended
    /// first.
    #[tactic(auto, unfolding(crate::specs::Recover::recover))]
    pub fn recover(&mut self, m: &Recover) -> Result<Told, PartErr>
        ensures told { IfOk result (λ told. recover self.old m.now ≡ (told, self.new)) }
        ensures err { OnErr result (self.new ≡ self.old) }
        ensures memory { OnErr result
            (may_tell_memory self.old m.now.lsid m.now.number m.now.tag ≡ true) }
    {
        let Some(session) = self.session(&m.lsid) else {
            return Ok(self.recover_none(m));
        };
        if m.number < session.number {
            return Ok(Told::TooOld {
                have: session.number,
            });
        }
        if !is_same_tag(&session.tag, &m.tag) {
            return Ok(self.recover_none(m));
        }
        match &session.state {
            SessionState::Live => {
                self.end_live(&m.lsid, Cause::ClientAbort { why: 3 });
                Ok(Told::Aborted {
                    cause: Cause::ClientAbort { why: 3 },
                })
            }
            SessionState::Prepared { .. } => Ok(Told::NoTrace),
            SessionState::Committed { at } => Ok(Told::Committed { at: *at }),
            SessionState::Released => Ok(Told::NoTrace),
            SessionState::Aborted { cause, .. } => Ok(Told::Aborted {
                cause: cause.copy(self.alloc)?,
            }),
        }
    }

    /// What is told of a transaction that left nothing here: it is lost where the shard was started
    /// again since.
    fn recover_none(&self, m: &Recover) -> Told
        ensures { recovers_none self.now m.now ≡ (result, self.now) }
    {
        if m.boot == self.boot {
            return Told::NoTrace;
        }
        Told::Aborted {
            cause: Cause::Unavailable {
                carried: m.boot,
                have: self.boot,
            },
        }
    }
}
