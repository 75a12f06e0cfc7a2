//! Laws of a shard: what its journal's records hold of it stays so after each step, and a start
//! from them finds it again.
#![tactic(auto)]

pub mod laws;
