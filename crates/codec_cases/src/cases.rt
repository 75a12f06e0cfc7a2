use crate::order::{compared, first_value, risen};
use crate::streams::{feed, feeder_of, next};
use crate::{documents, messages};
use bson_core::Value;
use op_msg::Feeder;
use std::alloc::{AllocError, Global};

/// A file of cases that is run: how many there were, the number of the line, the values that rose
/// so far, and the stream.
///
/// A line is `CALL WORDS => WANTED`; `limit N`, a new stream with that limit, or `feed HEX`, bytes
/// that come on it; blank, or a comment, which begins with `#`. Any other line is a failure.
#[derive(Drop)]
pub struct Cases {
    pub count: u64,
    line: u64,
    values: Vec<Value>,
    feeder: Feeder,
}

impl Cases {
    pub fn new(alloc: Global) -> Cases {
        Cases {
            count: 0,
            line: 0,
            values: Vec::new(alloc),
            feeder: Feeder::new(alloc, 0),
        }
    }

    /// Counts a case, and says where it goes another way.
    fn compare(&mut self, found: &str, wanted: &str, out: &mut String) -> Result<(), AllocError> {
        self.count = self.count.saturating_add(1);
        if found == wanted {
            return Ok(());
        }
        let line = self.line;
        write!(out, "line {line}: {found}\n    and not {wanted}\n")
    }

    /// The bracket of a value that has to come after all of the file before it.
    fn rise(&mut self, alloc: Global, digits: &str) -> Result<String, AllocError> {
        let value = first_value(alloc, digits)?;
        let text = risen(alloc, self.values.as_slice(), &value)?;
        self.values.push(value)?;
        Ok(text)
    }

    /// What a call answers, or none where there is no such call.
    fn answer(
        &mut self,
        alloc: Global,
        call: &str,
        first: &str,
        second: &str,
    ) -> Result<Option<String>, AllocError> {
        let text = match call {
            "read" => documents::read(alloc, first, second)?,
            "write" => documents::written(alloc, first)?,
            "get" => documents::field(alloc, first, second)?,
            "set" => documents::set_true(alloc, first, second)?,
            "nest" => documents::nested(alloc, first)?,
            "rises" => self.rise(alloc, first)?,
            "compare" => compared(alloc, first, second)?,
            "message" => messages::read(alloc, first)?,
            "rewrite" => messages::written(alloc, first)?,
            "asks" => messages::asked(alloc, first)?,
            "next" => next(alloc, &mut self.feeder)?,
            _ => return Ok(None),
        };
        Ok(Some(text))
    }

    /// Takes one line.
    fn take(&mut self, alloc: Global, line: &str, out: &mut String) -> Result<(), AllocError> {
        self.line = self.line.saturating_add(1);
        if line.is_empty() || line.starts_with("#") {
            return Ok(());
        }
        if let Some(limit) = line.strip_prefix("limit ") {
            self.feeder = feeder_of(alloc, limit);
            return Ok(());
        }
        if let Some(digits) = line.strip_prefix("feed ") {
            return feed(alloc, &mut self.feeder, digits);
        }
        let (asked, wanted) = line.split_once(" => ").unwrap_or((line, ""));
        let (call, words) = asked.split_once(" ").unwrap_or((asked, ""));
        let (first, second) = words.split_once(" ").unwrap_or((words, ""));
        match self.answer(alloc, call, first, second)? {
            Some(text) => self.compare(text.as_str(), wanted, out),
            None => self.compare("no line of cases", line, out),
        }
    }

    /// Runs the cases of a text, and says which go another way.
    pub fn run(&mut self, alloc: Global, text: &str) -> Result<String, AllocError> {
        let mut out = String::new(alloc);
        for line in text.lines() {
            self.take(alloc, line, &mut out)?;
        }
        Ok(out)
    }
}
