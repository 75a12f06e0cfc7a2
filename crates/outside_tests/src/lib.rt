//! Tests of the outside, in memory and over the system. They stand in a crate of their own, since a
//! crate with tests is proved twice.
#![tactic(auto)]

#[cfg(test)]
mod outside;
#[cfg(test)]
mod system;
