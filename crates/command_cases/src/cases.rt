use crate::large::{deletes, inserts};
use crate::replies::reply_text;
use crate::told::told;
use std::alloc::{AllocError, Global};

/// A file of cases that is run: how many there were, the number of the line, the wall and the
/// message of the case, and the words of a reply.
///
/// A line is `ask HEX`, a message; `deletes N` and `insert of SIZE`, messages that are too large to
/// be written out; `reads WORDS`, what read_command makes of it; `tell WORDS`, a reply, and `says
/// TEXT`, the text of its document; `wall N`, the moment of the messages after it; or a comment,
/// which begins with `#`.
#[derive(Drop)]
pub struct Cases {
    pub count: u64,
    line: u64,
    wall: u32,
    message: Vec<u8>,
    reply: String,
}

impl Cases {
    pub fn new(alloc: Global) -> Cases {
        Cases {
            count: 0,
            line: 0,
            wall: 1,
            message: Vec::new(alloc),
            reply: String::new(alloc),
        }
    }

    /// Says where a case goes another way.
    fn compare(&mut self, found: &str, wanted: &str, out: &mut String) -> Result<(), AllocError> {
        self.count = self.count.saturating_add(1);
        if found == wanted {
            return Ok(());
        }
        let line = self.line;
        write!(out, "line {line}: {found}\n    and not {wanted}\n")
    }

    /// Takes one line.
    fn take(&mut self, alloc: Global, line: &str, out: &mut String) -> Result<(), AllocError> {
        self.line = self.line.saturating_add(1);
        if line.is_empty() || line.starts_with("#") {
            return Ok(());
        }
        if let Some(wanted) = line.strip_prefix("reads ") {
            let found = told(alloc, self.wall, self.message.as_slice())?;
            return self.compare(found.as_str(), wanted, out);
        }
        if let Some(words) = line.strip_prefix("tell ") {
            self.reply = String::from_str(alloc, words)?;
            return Ok(());
        }
        if let Some(wanted) = line.strip_prefix("says ") {
            let found = reply_text(alloc, self.reply.as_str())?;
            return self.compare(found.as_str(), wanted, out);
        }
        if let Some(number) = line.strip_prefix("wall ") {
            self.wall = number.parse::<u32>().unwrap_or(0);
            return Ok(());
        }
        self.take_message(alloc, line, out)
    }

    /// Takes a line that gives a message.
    fn take_message(
        &mut self,
        alloc: Global,
        line: &str,
        out: &mut String,
    ) -> Result<(), AllocError> {
        if let Some(digits) = line.strip_prefix("ask ") {
            let Ok(message) = hex::decode(alloc, digits) else {
                return self.compare("no digits", line, out);
            };
            self.message = message;
            return Ok(());
        }
        if let Some(number) = line.strip_prefix("deletes ") {
            self.message = deletes(alloc, number.parse::<u32>().unwrap_or(0))?;
            return Ok(());
        }
        if let Some(size) = line.strip_prefix("insert of ") {
            self.message = inserts(alloc, size.parse::<u32>().unwrap_or(0))?;
            return Ok(());
        }
        self.compare("no line of cases", line, out)
    }

    /// Runs the cases of a text, and says which go another way.
    pub fn run(&mut self, alloc: Global, text: &str) -> Result<String, AllocError> {
        let mut out = String::new(alloc);
        for line in text.lines() {
            self.take(alloc, line, &mut out)?;
        }
        Ok(out)
    }
}
