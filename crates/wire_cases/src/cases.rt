use crate::frames::{read_content, read_message};
use std::alloc::{AllocError, Global};

/// A file of cases that is run: how many there were, and the number of the line.
///
/// A line is a comment, which begins with `#`, or one of these, whose bytes are in hexadecimal
/// digits. What a message says stands in the comment `#= ..` above it.
///
/// - `message BYTES -> again`: the message is read as one between nodes, and written as these bytes
///   again; or why it isn't read. `batch BYTES -> again`: the same of a batch.
/// - `KIND BYTES -> WHY`: why the frame with this kind and these bytes as `b` isn't read. Kind 0 is
///   a batch.
/// - `cut KIND BYTES -> PLACE ..`: the place at which each shorter piece of the bytes is refused,
///   from no byte on.
#[derive(Drop)]
pub struct Cases {
    pub count: u64,
    line: u64,
}

impl Cases {
    pub fn new() -> Cases {
        Cases { count: 0, line: 0 }
    }

    /// Says where a case goes another way.
    fn compare(&mut self, found: &str, wanted: &str, out: &mut String) -> Result<(), AllocError> {
        self.count = self.count.saturating_add(1);
        if found == wanted {
            return Ok(());
        }
        let line = self.line;
        write!(out, "line {line}: {found}\n    and not {wanted}\n")
    }

    /// Each shorter piece of the bytes.
    fn take_pieces(
        &mut self,
        alloc: Global,
        kind: i32,
        bytes: &[u8],
        places: &str,
        out: &mut String,
    ) -> Result<(), AllocError> {
        let mut places = places.split_whitespace();
        for count in 0..bytes.len() {
            let found = read_content(alloc, kind, &bytes[..count])?;
            let place = places.next().unwrap_or("none");
            let wanted = format!(in alloc; "field {place}")?;
            self.compare(found.as_str(), wanted.as_str(), out)?;
        }
        match places.next() {
            Some(place) => self.compare("no more pieces", place, out),
            None => Ok(()),
        }
    }

    /// A line's case, of its words, and what has to come of it.
    fn take_case(
        &mut self,
        alloc: Global,
        case: &str,
        wanted: &str,
        out: &mut String,
    ) -> Result<(), AllocError> {
        let (front, digits) = case.rsplit_once(" ").unwrap_or(("", case));
        let Ok(bytes) = hex::decode(alloc, digits) else {
            return self.compare("no digits", wanted, out);
        };
        let bytes = bytes.as_slice();
        let is_batch = front == "batch";
        if is_batch || front == "message" {
            let found = read_message(alloc, is_batch, bytes)?;
            return self.compare(found.as_str(), wanted, out);
        }
        let (is_cut, kind) = match front.strip_prefix("cut ") {
            Some(kind) => (true, kind),
            None => (false, front),
        };
        match kind.parse::<i32>() {
            Ok(kind) if is_cut => self.take_pieces(alloc, kind, bytes, wanted, out),
            Ok(kind) => {
                let found = read_content(alloc, kind, bytes)?;
                self.compare(found.as_str(), wanted, out)
            }
            Err(_) => self.compare("no kind of cases", wanted, out),
        }
    }

    /// Takes one line.
    fn take(&mut self, alloc: Global, line: &str, out: &mut String) -> Result<(), AllocError> {
        self.line = self.line.saturating_add(1);
        if line.is_empty() || line.starts_with("#") {
            return Ok(());
        }
        match line.split_once(" -> ") {
            Some((case, wanted)) => self.take_case(alloc, case, wanted, out),
            None => self.compare("no line of cases", line, out),
        }
    }

    /// Runs the cases of a text, and says which go another way.
    pub fn run(&mut self, alloc: Global, text: &str) -> Result<String, AllocError> {
        let mut out = String::new(alloc);
        for line in text.lines() {
            self.take(alloc, line, &mut out)?;
        }
        Ok(out)
    }
}
