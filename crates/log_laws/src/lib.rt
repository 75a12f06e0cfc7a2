//! Laws of logs on disks: what a start finds of what a log left.
#![tactic(auto)]

pub mod laws;
