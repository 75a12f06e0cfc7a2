//! Laws of what stands at several shards: views and write sets split by the places of documents, and join again. txn_semantics
//! has the law of statements.
#![tactic(auto)]

pub mod laws;
