//! All nodes of a cluster and the messages between them: what may happen, and when a run's answers
//! are right.
#![tactic(auto)]
