//! The order of values.
#![tactic(auto)]

pub mod laws;
mod order;

pub use order::{bracket, compare};
