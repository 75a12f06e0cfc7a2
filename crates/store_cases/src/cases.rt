use crate::standing::Standing;
use std::alloc::{AllocError, Global};

/// A file of cases that is run: how many there were, the number of the line, and the store.
///
/// A line is a comment, which begins with `#`, or `new`, after which there is another store, or a
/// question and its answer, `QUESTION -> ANSWER`. Transactions and times are numbers, a namespace
/// is a collection's name, an id is a number or a text, a value is a number:
///
/// - `put T at R NS ID = VALUE -> ok`, or `conflict ID with T`, or `conflict ID committed at TIME`:
///   what a transaction that reads at R is answered; `delete T at R NS ID` likewise, and `against T
///   at R NS ID -> nothing`, or the same words.
/// - `read T at R NS ID -> VALUE`, or `nothing`, or `held by T since TIME`.
/// - `scan T at R NS -> ID = VALUE, ID = VALUE ..`, or `nothing`, or `ID held by T since TIME`;
///   `scan T at R NS of ID ID ..` looks at these ids.
/// - `newest NS ID -> TIME` or `none`, and `keys T -> NS ID, NS ID ..` or `none`.
/// - `prepare T at TIME -> ok`, `commit T at TIME -> ok`, `abort T -> ok`, `drop T -> ok`.
#[derive(Drop)]
pub struct Cases {
    pub count: u64,
    line: u64,
    standing: Standing,
}

impl Cases {
    pub fn new(alloc: Global) -> Cases {
        Cases {
            count: 0,
            line: 0,
            standing: Standing::new(alloc),
        }
    }

    /// Says where a case goes another way.
    fn compare(&mut self, found: &str, wanted: &str, out: &mut String) -> Result<(), AllocError> {
        self.count = self.count.saturating_add(1);
        if found == wanted {
            return Ok(());
        }
        let line = self.line;
        write!(out, "line {line}: {found}\n    and not {wanted}\n")
    }

    /// Takes one line.
    fn take(&mut self, alloc: Global, line: &str, out: &mut String) -> Result<(), AllocError> {
        self.line = self.line.saturating_add(1);
        if line.is_empty() || line.starts_with("#") {
            return Ok(());
        }
        if line == "new" {
            self.standing = Standing::new(alloc);
            return Ok(());
        }
        if let Some((asked, wanted)) = line.split_once(" -> ") {
            let found = self.standing.answer(alloc, asked)?;
            return self.compare(found.as_str(), wanted, out);
        }
        self.compare("no line of cases", line, out)
    }

    /// Runs the cases of a text, and says which go another way.
    pub fn run(&mut self, alloc: Global, text: &str) -> Result<String, AllocError> {
        let mut out = String::new(alloc);
        for line in text.lines() {
            self.take(alloc, line, &mut out)?;
        }
        Ok(out)
    }
}
