use crate::standing::Standing;
use std::alloc::{AllocError, Global};

/// A file of cases that is run: how many there were, the number of the line, and the part.
///
/// A line is a comment, which begins with `#`, or what is done and what is answered to it, `DONE ->
/// ANSWERED`:
///
/// - `new LIMIT -> ok`: a part of shard 0 at boot 1, without sessions and documents, and a table of
///   sessions beside it; in each LIMIT sessions may come. Its clock has told no time.
/// - `statement SESSION NUMBER TRANSACTION PLACE BOOT OPERATION`: what the part answers, `counts N`,
///   `finds N`, `refused CAUSE`, or `volume BYTES`. The operation is `texts ID COUNT LENGTH`, so
///   many documents from this id on, each with a text of that length, `delete ID`, or `find`.
/// - `session SESSION`: the number and the transaction of a session in the part, or `none`.
/// - `begin SESSION NUMBER TRANSACTION`: what the table answers.
/// - `tick SECONDS COUNT WALL SECONDS COUNT`: what a clock that stands at the first time ticks to at
///   this wall, below the second as its ceiling; or why it doesn't. A time is `SECONDS.COUNT`.
#[derive(Drop)]
pub struct Cases {
    pub count: u64,
    line: u64,
    standing: Standing,
}

impl Cases {
    pub fn new(alloc: Global) -> Cases {
        Cases {
            count: 0,
            line: 0,
            standing: Standing::new(alloc, 1),
        }
    }

    /// Says where a case goes another way.
    fn compare(&mut self, found: &str, wanted: &str, out: &mut String) -> Result<(), AllocError> {
        self.count = self.count.saturating_add(1);
        if found == wanted {
            return Ok(());
        }
        let line = self.line;
        write!(out, "line {line}: {found}\n    and not {wanted}\n")
    }

    /// Takes one line.
    fn take(&mut self, alloc: Global, line: &str, out: &mut String) -> Result<(), AllocError> {
        self.line = self.line.saturating_add(1);
        if line.is_empty() || line.starts_with("#") {
            return Ok(());
        }
        let (done, wanted) = line.split_once(" -> ").unwrap_or((line, ""));
        let found = self.standing.answer(alloc, done)?;
        self.compare(found.as_str(), wanted, out)
    }

    /// Runs the cases of a text, and says which go another way.
    pub fn run(&mut self, alloc: Global, text: &str) -> Result<String, AllocError> {
        let mut out = String::new(alloc);
        for line in text.lines() {
            self.take(alloc, line, &mut out)?;
        }
        Ok(out)
    }
}
