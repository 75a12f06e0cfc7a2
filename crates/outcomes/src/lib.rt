//! Words on results that all crates share: what is told, a count of faults that rose, and a result
//! that is as defined unless memory ran out. Definitions alone; there is no code here.
#![tactic(auto)]
