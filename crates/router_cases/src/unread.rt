//! Why a line is not done, and the numbers and bytes of lines.
use std::alloc::{AllocError, AllocFailed, Global};
use std::num::ParseIntError;

/// Why a line is not done.
#[derive(Clone, Copy)]
pub enum Unread {
    /// It isn't what has to stand there.
    Word,
    /// There was no memory.
    Memory,
}

impl From<AllocError> for Unread {
    fn from(_e: AllocError) -> Unread {
        Unread::Memory
    }
}

impl<T: Drop> From<AllocFailed<T>> for Unread {
    fn from(_e: AllocFailed<T>) -> Unread {
        Unread::Memory
    }
}

impl From<ParseIntError> for Unread {
    fn from(_e: ParseIntError) -> Unread {
        Unread::Word
    }
}

/// The two texts at the sides of a sign.
pub fn sides<'a>(text: &'a str, sign: &str) -> Result<(&'a str, &'a str), Unread> {
    match text.split_once(sign) {
        Some(both) => Ok(both),
        None => Err(Unread::Word),
    }
}

/// The bytes of hexadecimal digits.
pub fn bytes_of(alloc: Global, digits: &str) -> Result<Vec<u8>, Unread> {
    match hex::decode(alloc, digits) {
        Ok(bytes) => Ok(bytes),
        Err(_) => Err(Unread::Word),
    }
}
