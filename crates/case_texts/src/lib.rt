//! What the programs of cases have in common: names, operations, replies and causes as text, and
//! the documents and operations that the lines of their files name. No clause speaks of a text
//! here: the files of cases hold what each program is to say, word by word.
#![tactic(auto)]

mod contents;
mod names;
mod operations;

pub use contents::{put_cause, put_document, put_op, put_reply, put_told};
pub use names::{put_named, put_node, put_parts, put_session, put_tag, put_time};
pub use operations::{delete, document, find, increment, where_id};
