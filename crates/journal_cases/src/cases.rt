use crate::standing::Standing;
use std::alloc::{AllocError, Global};

/// A file of cases that is run: how many there were, the number of the line, and what stands.
///
/// A line is a comment, which begins with `#`, or one of these, whose bytes are in hexadecimal
/// digits with spaces among them:
///
/// - `room N`: the next disks have room for so many bytes.
/// - `calls N`: the next disk passes so many calls, and then stops.
/// - `disk BYTES`: a disk that holds these bytes.
/// - `start -> ok`, `start -> byte N` or `start -> disk fault`: what a start on it answers.
/// - `append BYTES -> ok`, or `disk fault`, or `closed`.
/// - `append and start BYTES -> ..`: the same, and then a start, whose answer is told.
/// - `count -> N`, `end -> N`, and `payloads -> none` or `payloads -> BYTES BYTES ..`, where `.` is
///   a
///   payload without bytes.
/// - `file -> BYTES` or `file -> none`: what the disk holds. The journal is put away, and its disk
///   stops no more.
#[derive(Drop)]
pub struct Cases {
    pub count: u64,
    line: u64,
    standing: Standing,
}

/// The text without its spaces.
fn joined(alloc: Global, text: &str) -> Result<String, AllocError> {
    let mut joined = String::new(alloc);
    for word in text.split_whitespace() {
        joined.push_str(word)?;
    }
    Ok(joined)
}

impl Cases {
    pub fn new(alloc: Global) -> Cases {
        Cases {
            count: 0,
            line: 0,
            standing: Standing::new(),
        }
    }

    /// Says where a case goes another way.
    fn compare(&mut self, found: &str, wanted: &str, out: &mut String) -> Result<(), AllocError> {
        self.count = self.count.saturating_add(1);
        if found == wanted {
            return Ok(());
        }
        let line = self.line;
        write!(out, "line {line}: {found}\n    and not {wanted}\n")
    }

    /// Sets up what the lines after it are about, and tells whether it could.
    fn set(&mut self, alloc: Global, line: &str) -> Result<bool, AllocError> {
        if let Some(number) = line.strip_prefix("room ") {
            return Ok(self.standing.set_room(number));
        }
        if let Some(number) = line.strip_prefix("calls ") {
            return Ok(self.standing.set_calls(number));
        }
        if let Some(digits) = line.strip_prefix("disk") {
            let digits = joined(alloc, digits)?;
            return self.standing.put_disk(alloc, digits.as_str());
        }
        Ok(false)
    }

    /// What is answered to a question.
    fn answer(&mut self, alloc: Global, asked: &str) -> Result<String, AllocError> {
        match asked {
            "start" => self.standing.start(alloc),
            "count" => self.standing.count(alloc),
            "end" => self.standing.end(alloc),
            "payloads" => self.standing.payloads(alloc),
            "file" => self.standing.file(alloc),
            _ => self.append(alloc, asked),
        }
    }

    /// What is answered to an append, or to an append and a start.
    fn append(&mut self, alloc: Global, asked: &str) -> Result<String, AllocError> {
        if let Some(digits) = asked.strip_prefix("append and start") {
            let digits = joined(alloc, digits)?;
            return self.standing.append_and_start(alloc, digits.as_str());
        }
        if let Some(digits) = asked.strip_prefix("append") {
            let digits = joined(alloc, digits)?;
            return self.standing.append(alloc, digits.as_str());
        }
        String::from_str(alloc, "no question")
    }

    /// Takes one line.
    fn take(&mut self, alloc: Global, line: &str, out: &mut String) -> Result<(), AllocError> {
        self.line = self.line.saturating_add(1);
        if line.is_empty() || line.starts_with("#") {
            return Ok(());
        }
        if let Some((asked, wanted)) = line.split_once(" -> ") {
            let found = self.answer(alloc, asked)?;
            if asked == "file" {
                let wanted = joined(alloc, wanted)?;
                return self.compare(found.as_str(), wanted.as_str(), out);
            }
            return self.compare(found.as_str(), wanted, out);
        }
        if self.set(alloc, line)? {
            return Ok(());
        }
        self.compare("no line of cases", line, out)
    }

    /// Runs the cases of a text, and says which go another way.
    pub fn run(&mut self, alloc: Global, text: &str) -> Result<String, AllocError> {
        let mut out = String::new(alloc);
        for line in text.lines() {
            self.take(alloc, line, &mut out)?;
        }
        Ok(out)
    }
}
