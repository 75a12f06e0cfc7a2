//! Schedules: the lines that are read of one, and what each asks.
#![tactic(auto)]

mod input;
mod line;

pub use input::{End, Input, read_input};
pub use line::{Ask, Line, LineErr, next_line, read_ask, read_line};
