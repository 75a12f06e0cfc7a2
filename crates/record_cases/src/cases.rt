use crate::texts::{fault_text, record_text};
use journal_rec::{Rec, decode, encode};
use std::alloc::{AllocError, Global};

/// A file of cases that is run: how many there were, and the number of the line.
///
/// A line is a comment, which begins with `#`, or one of these, whose bytes are in hexadecimal
/// digits with spaces among them:
///
/// - `BYTES -> TEXT`: the record that the bytes are, which is also written as these bytes; or why
///   they are none.
/// - `BYTES => BYTES`: the bytes are a record, which is written as the others.
#[derive(Drop)]
pub struct Cases {
    pub count: u64,
    line: u64,
}

/// The text without its spaces.
fn joined(alloc: Global, text: &str) -> Result<String, AllocError> {
    let mut joined = String::new(alloc);
    for word in text.split_whitespace() {
        joined.push_str(word)?;
    }
    Ok(joined)
}

/// The bytes of a record in hexadecimal digits.
fn written(alloc: Global, rec: &Rec) -> Result<String, AllocError> {
    let mut bytes = Vec::new(alloc);
    match encode(alloc, rec, &mut bytes) {
        Ok(()) => hex::encode(alloc, bytes.as_slice()),
        Err(_) => Err(AllocError),
    }
}

/// What the bytes are, as text; or how their record is written, where that isn't so.
fn read(alloc: Global, digits: &str) -> Result<String, AllocError> {
    let Ok(bytes) = hex::decode(alloc, digits) else {
        return String::from_str(alloc, "no digits");
    };
    match decode(alloc, bytes.as_slice()) {
        Ok(rec) => {
            let again = written(alloc, &rec)?;
            if again.as_str() == digits {
                record_text(alloc, &rec)
            } else {
                format!(in alloc; "written as {again}")
            }
        }
        Err(error) => fault_text(alloc, error),
    }
}

/// How the record that the bytes are is written.
fn rewritten(alloc: Global, digits: &str) -> Result<String, AllocError> {
    let Ok(bytes) = hex::decode(alloc, digits) else {
        return String::from_str(alloc, "no digits");
    };
    match decode(alloc, bytes.as_slice()) {
        Ok(rec) => written(alloc, &rec),
        Err(error) => fault_text(alloc, error),
    }
}

impl Cases {
    pub fn new() -> Cases {
        Cases { count: 0, line: 0 }
    }

    /// Says where a case goes another way.
    fn compare(&mut self, found: &str, wanted: &str, out: &mut String) -> Result<(), AllocError> {
        self.count = self.count.saturating_add(1);
        if found == wanted {
            return Ok(());
        }
        let line = self.line;
        write!(out, "line {line}: {found}\n    and not {wanted}\n")
    }

    /// Takes one line.
    fn take(&mut self, alloc: Global, line: &str, out: &mut String) -> Result<(), AllocError> {
        self.line = self.line.saturating_add(1);
        if line.is_empty() || line.starts_with("#") {
            return Ok(());
        }
        if let Some((digits, wanted)) = line.split_once(" -> ") {
            let digits = joined(alloc, digits)?;
            let found = read(alloc, digits.as_str())?;
            return self.compare(found.as_str(), wanted, out);
        }
        if let Some((digits, wanted)) = line.split_once(" => ") {
            let digits = joined(alloc, digits)?;
            let wanted = joined(alloc, wanted)?;
            let found = rewritten(alloc, digits.as_str())?;
            return self.compare(found.as_str(), wanted.as_str(), out);
        }
        self.compare("no line of cases", line, out)
    }

    /// Runs the cases of a text, and says which go another way.
    pub fn run(&mut self, alloc: Global, text: &str) -> Result<String, AllocError> {
        let mut out = String::new(alloc);
        for line in text.lines() {
            self.take(alloc, line, &mut out)?;
        }
        Ok(out)
    }
}
