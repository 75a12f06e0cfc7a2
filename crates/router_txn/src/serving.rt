//! Messages of shards, in a session.
ghost use Rattle.std.specs.Prelude.{◌≡◌, unwrap_or, IfOk};
ghost use Rattle.router_state.specs.Deeds.{stays};
ghost use Rattle.router_rules.specs.Safe.{IsSafeDoing};
ghost use Rattle.router_rules.specs.Serving.{answered_in, ended_in};

use crate::commits::on_outcome;
use crate::statements::on_answer;
use crate::tokens::on_recovered;
use router_state::{Deed, Doing, Session};
use std::alloc::{AllocError, Global};
use txn_types::{Answer, Lsid, Outcome};

/// A shard's answer, in a session. None where it changes nothing.
pub fn answered_in(
    alloc: Global,
    answer: &Answer,
    lsid: Lsid,
    session: &Session,
) -> Result<Option<Deed>, AllocError>
    requires { IsSafeDoing session.now.doing }
    ensures { IfOk result
        (λ d. unwrap_or d (stays session.now) ≡ answered_in answer.now lsid session.now) }
{
    match &session.doing {
        Doing::Begun(t) => on_answer(alloc, lsid, session.number, answer, t),
        Doing::Sought { .. } => Ok(None),
    }
}

/// A shard's outcome, in a session. None where it changes nothing.
pub fn ended_in(
    alloc: Global,
    outcome: &Outcome,
    lsid: Lsid,
    session: &Session,
) -> Result<Option<Deed>, AllocError>
    requires { IsSafeDoing session.now.doing }
    ensures { IfOk result
        (λ d. unwrap_or d (stays session.now) ≡ ended_in outcome.now lsid session.now) }
{
    match &session.doing {
        Doing::Begun(t) => on_outcome(alloc, lsid, session.number, outcome, t),
        Doing::Sought { seeking, known } => {
            on_recovered(alloc, session.number, *seeking, known, outcome)
        }
    }
}
