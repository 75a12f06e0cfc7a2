//! A node that is a router.
ghost use Rattle.std.specs.Prelude.{◌≡◌};
ghost use Rattle.txn_types.specs.declared.event.NodeAnswer.{NodeAnswer as Answer};
ghost use Rattle.txn_types.specs.declared.event.NodeEvent.{NodeEvent as Event};
ghost use Rattle.router_state.specs.State.{RouterState};
ghost use Rattle.router_core.specs.Step.{RouterTakes};

use crate::router::Router;
use machine::Machine;
use txn_types::{NodeAnswer, NodeEvent};

/// A machine that is a router's node. Its boot is its router's.
pub trait Routing: Machine<Event = NodeEvent, Answer = NodeAnswer> {
    /// The router's state.
    ghost state: { Self → RouterState };

    /// The router.
    fn router(&self) -> &Router
        ensures { result.now ≡ state self.now };

    /// Each `take` is a step of the router.
    ghost steps: { (old new : Self) (event : Event) (answer : Answer) → Self.takes old event answer new → RouterTakes (state old) event answer (state new) };
}
