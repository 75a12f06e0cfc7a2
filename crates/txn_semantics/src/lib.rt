//! What committed transactions mean: rows, views, statements, and answers that are right.
//! Definitions, and laws over them: a law is the contract of a function with an empty body.
#![tactic(auto)]

mod commits;
pub mod laws;

pub use commits::{Answered, Entry};
