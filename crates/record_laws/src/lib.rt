//! Laws of the records of journals, of all nine kinds: what is written is read as itself, and no
//! two records have the same bytes. `specs/Fits` says of which records they speak.
#![tactic(auto)]

pub mod laws;
