//! What a router's step is made of: what a client's message asks, why a request is refused, the
//! router's times, what a step is to change, and how that which it gives out is spelled.
#![tactic(auto)]

mod change;
mod message;
mod plan;
mod refusals;
mod spelling;
mod times;
mod turn;

pub use change::{Change, make};
pub use message::{Unserved, asked};
pub use plan::{Base, Plan, answers, done_in, still, told_also};
pub use refusals::{abort_refusal, begun_in, commit_refusal, plain_refusal, statement_refusal};
pub use times::{met, read_time, timed, walled};
pub use turn::{Turn, turn_of};
