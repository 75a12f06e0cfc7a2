//! Documents in BSON 1.1 (bsonspec.org): values, their bytes, and the document that bytes are.
#![tactic(auto)]

mod error;
mod fields;
mod kind;
mod laws;
mod reading;
mod sizes;
mod text;
mod value;
mod writing;

pub use error::BsonErr;
pub use fields::{get, set};
pub use laws::{
    documents_are_told_apart, grammar_has_no_fault, reading_undoes_writing,
    spelling_is_in_the_grammar,
};
pub use reading::{decode, front_name, front_u32};
pub use sizes::size;
pub use text::{Bytes, Name, Text};
pub use value::{Bin, Doc, List, Value, copy_doc, copy_list};
pub use writing::{append, encode, low_bytes};
