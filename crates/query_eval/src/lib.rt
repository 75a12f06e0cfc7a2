//! Statements over rows: which documents a filter matches, what an update makes of one, what an
//! operation answers and writes, and how the answers of several shards are told as one.
#![tactic(auto)]

mod counts;
mod error;
mod evaluating;
mod filters;
mod finding;
mod held;
pub mod laws;
mod merging;
mod places;
mod rows;
mod updates;

pub use error::{ApplyErr, EvalErr};
pub use evaluating::eval;
pub use filters::matches;
pub use merging::merge;
pub use updates::apply;
