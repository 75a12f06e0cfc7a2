//! What becomes of transactions at a router, as definitions: at statements and their answers, at
//! commits, also by a token, at aborts, and at the ends of sessions and connections; and laws of
//! these.
#![tactic(auto)]

pub mod laws;
