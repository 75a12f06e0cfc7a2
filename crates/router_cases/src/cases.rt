use crate::unread::Unread;
use std::alloc::{AllocError, Global};

/// The lines of a file of cases, how many of them were taken, how many cases there were among
/// them, and what is to be said of those that go another way.
///
/// A case is an event and, below it, a line for each thing that the router gives out at it: `->
/// BYTES`, a message between nodes, `-> reply CONNECTION: BYTES`, `-> closed N`, or `-> nothing`.
/// Bytes stand in hexadecimal digits; the comment `#= ..` above says what they say. Other lines are
/// comments, which begin with `#`, or set something:
///
/// - `shards N`, and `range NAMESPACE SHARD` or `range NAMESPACE SHARD from ID`: how many shards
///   the routers after it have, and their ranges, front to back; an id is a number or a text.
/// - `router N boot B`: a new router, at the wall 1.
/// - `wall SECONDS`: the moment of the events after it.
///
/// Events: `client CONNECTION BYTES`, a client's message; `deliver BYTES`, a message of a shard;
/// `gone CONNECTION`; `resend`; `moment`; and `boot`, which asks for the router's.
#[derive(Drop)]
pub struct Cases<'a> {
    pub said: String,
    pub count: u64,
    lines: &'a [&'a str],
    next: usize,
}

impl<'a> Cases<'a> {
    pub fn of(alloc: Global, lines: &'a [&'a str]) -> Cases<'a> {
        Cases {
            said: String::new(alloc),
            count: 0,
            lines,
            next: 0,
        }
    }

    /// How many lines there are.
    pub fn len(&self) -> usize {
        self.lines.len()
    }

    /// The next line that is no comment; an empty one after the last.
    pub fn peek(&mut self) -> &'a str {
        let lines = self.lines;
        for line in lines.get(self.next..).unwrap_or(&[]) {
            if !line.is_empty() && !line.starts_with("#") {
                return *line;
            }
            self.next = self.next.saturating_add(1);
        }
        ""
    }

    /// Takes the line that comes next.
    pub fn pass(&mut self) {
        self.next = self.next.saturating_add(1);
    }

    fn compare(&mut self, found: &str, wanted: &str) -> Result<(), AllocError> {
        if found == wanted {
            return Ok(());
        }
        let line = self.next;
        write!(self.said, "line {line}: {found}\n    and not {wanted}\n")
    }

    /// Holds something that was given out against the next line, which has to name it.
    fn hold(&mut self, found: &str) -> Result<(), AllocError> {
        match self.peek().strip_prefix("-> ") {
            Some(wanted) => {
                self.pass();
                self.compare(found, wanted)
            }
            None => self.compare(found, "no more lines"),
        }
    }

    /// Holds what was given out when a line was done, or says that it wasn't.
    pub fn close(
        &mut self,
        line: &str,
        done: Result<(), Unread>,
        found: &str,
    ) -> Result<(), AllocError> {
        match done {
            Ok(()) => {
                if !found.is_empty() {
                    self.count = self.count.saturating_add(1);
                }
                for text in found.lines() {
                    self.hold(text)?;
                }
                Ok(())
            }
            Err(Unread::Word) => self.compare("no line of cases", line),
            Err(Unread::Memory) => Err(AllocError),
        }
    }
}
