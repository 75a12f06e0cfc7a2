//! What clients write: filters and updates, as documents, are read into what they mean.
#![tactic(auto)]

mod error;
mod filters;
mod laws;
mod names;
mod operators;
mod updates;

pub use error::CrudErr;
pub use filters::{flag_in, read_filter, read_inner};
pub use laws::filters_in_filters_are_read_alike;
pub use names::begins_with_operator;
pub use updates::read_update;
