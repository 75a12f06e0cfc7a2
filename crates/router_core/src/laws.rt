//! Laws of a router's step: a law is the contract of a function with an empty body.
ghost use Rattle.std.specs.Prelude.{Bool};
ghost use Rattle.txn_types.specs.declared.event.NodeEvent.{NodeEvent};
ghost use Rattle.router_state.specs.State.{RouterState};
ghost use Rattle.router_core.specs.Laws.{GoesOn};
ghost use Rattle.router_core.specs.Step.{router_step};

/// A router's number, boot and map never change, its times never fall, and it draws its serials one
/// by one.
#[tactic(auto, using(crate::proofs::Going::step_on))]
pub fn a_router_goes_on()
    ensures { (want : Bool) (s : RouterState) (e : NodeEvent)
        → GoesOn s (router_step want s e).state }
{}
