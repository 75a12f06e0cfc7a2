//! The numbers of a line.
use std::str::SplitWhitespace;
use txn_types::{Lsid, Tag, Ts};

/// The words that are left of a line. A word that is missing is empty, and one that is no number
/// is 0.
#[derive(Drop)]
pub struct Numbers<'a> {
    words: SplitWhitespace<'a>,
}

impl<'a> Numbers<'a> {
    pub fn of(text: &'a str) -> Numbers<'a> {
        Numbers {
            words: text.split_whitespace(),
        }
    }

    pub fn word(&mut self) -> &'a str {
        self.words.next().unwrap_or("")
    }

    pub fn number(&mut self) -> u32 {
        self.word().parse::<u32>().unwrap_or(0)
    }

    /// A time, by its seconds and its count.
    pub fn time(&mut self) -> Ts {
        let seconds = self.number();
        Ts(u64::from(seconds) << 32 | u64::from(self.number()))
    }

    /// A session: a connection's own, of boot 1 of router 0.
    pub fn lsid(&mut self) -> Lsid {
        Lsid::Own {
            router: 0,
            boot: 1,
            conn: self.number(),
        }
    }

    /// A transaction of boot 1 of router 0.
    pub fn tag(&mut self) -> Tag {
        Tag {
            router: 0,
            boot: 1,
            serial: u64::from(self.number()),
        }
    }
}
