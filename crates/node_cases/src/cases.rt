use crate::unread::Unread;
use std::alloc::{AllocError, Global};

/// The lines of a file of cases, how many of them were taken, how many cases there were among
/// them, and what is to be said of those that go another way.
///
/// A line is empty, a comment, which begins with `#`, something that is done, or `= TEXT`: the next
/// line of what was found when it was done. Each line that was found has to be named so. Messages
/// and records stand as their bytes in hexadecimal digits; the comment `#= ..` above says what they
/// say. What is done:
///
/// - `disk ROOM` or `disk ROOM BYTES`: a disk with room for so many bytes, new or with these.
///   `room ROOM`: the same disk with other room. `file`: its bytes.
/// - `payload BYTES`: these are appended to the journal of the disk.
/// - `start SHARD`: the node of this shard starts from the disk: `ok`, `disk fault` or `bad journal
///   INDEX`. `list SHARD`: a node without a disk starts, without a record.
/// - `at WALL: EVENT`: the node is given a message, by its bytes, `resend`, `moment`, `client
///   CONNECTION` or `gone CONNECTION`. `router N BYTES` is a message whose sender is that router.
///   Found are the records that it journals then, each as `+ BYTES`, and the messages that it gives
///   out, or `nothing`; or `blocked ID by TRANSACTION since TIME`, `disk fault` or `stopped`.
/// - `records`, `boot`, `faults`, `resolved`: what the node tells.
/// - `| at ..` and `> at ..` keep events. `stops SHARD` gives those with a stroke to a node on a new
///   disk, and finds its records. Then it does so on disks that stop after 0, 1, 2 .. calls, starts
///   each again without a stop, and gives it the events kept with `>`: found are where the disk
///   stopped, how many records were journalled by then, how many were found, and the answers after
///   it; each once, where it is the same as after one call less.
#[derive(Drop)]
pub struct Cases<'a> {
    pub said: String,
    pub count: u64,
    lines: &'a [&'a str],
    next: usize,
}

impl<'a> Cases<'a> {
    pub fn of(alloc: Global, lines: &'a [&'a str]) -> Cases<'a> {
        Cases {
            said: String::new(alloc),
            count: 0,
            lines,
            next: 0,
        }
    }

    /// How many lines there are.
    pub fn len(&self) -> usize {
        self.lines.len()
    }

    /// The next line that is no comment; an empty one after the last.
    pub fn peek(&mut self) -> &'a str {
        let lines = self.lines;
        for line in lines.get(self.next..).unwrap_or(&[]) {
            if !line.is_empty() && !line.starts_with("#") {
                return *line;
            }
            self.next = self.next.saturating_add(1);
        }
        ""
    }

    /// Takes the line that comes next.
    pub fn pass(&mut self) {
        self.next = self.next.saturating_add(1);
    }

    fn compare(&mut self, found: &str, wanted: &str) -> Result<(), AllocError> {
        if found == wanted {
            return Ok(());
        }
        let line = self.next;
        write!(self.said, "line {line}: {found}\n    and not {wanted}\n")
    }

    /// Holds a line that was found against the next, which has to name it.
    pub fn hold(&mut self, found: &str) -> Result<(), AllocError> {
        match self.peek().strip_prefix("= ") {
            Some(wanted) => {
                self.pass();
                self.count = self.count.saturating_add(1);
                self.compare(found, wanted)
            }
            None => self.compare(found, "no more lines"),
        }
    }

    /// Holds the lines that were found when a line was done, or says that it wasn't.
    pub fn close(
        &mut self,
        line: &str,
        done: Result<(), Unread>,
        found: &str,
    ) -> Result<(), AllocError> {
        match done {
            Ok(()) => {
                for text in found.lines() {
                    self.hold(text)?;
                }
                Ok(())
            }
            Err(Unread::Word) => self.compare("no line of cases", line),
            Err(Unread::Memory) => Err(AllocError),
        }
    }
}
