//! Commands of clients: the fields of a message are held against those that the command has, and
//! the operation is read.
#![tactic(auto)]

mod batches;
mod building;
mod checks;
mod command;
mod fields;
mod items;
mod laws;
mod operations;
mod rules;
mod values;

pub use command::{Command, Statement};
pub use fields::{check, is_in_transaction};
pub use laws::items_have_places;
pub use operations::read_op;
pub use values::{document_in, is_zero, number_in, time_in};
