use crate::reading::{filter_text, update_text};
use crate::rules::{applied, changed, compared, id_text, matched, namespace_text};
use crate::statements::{Shards, deleted, found, inserted, merged, updated};
use crate::times::{advanced, ticked};
use std::alloc::{AllocError, Global};

/// A file of cases that is run: how many there were, the number of the line, and the rows that
/// stand.
///
/// A line is `CALL WORDS => WANTED`, with ` | ` between the arguments; `standing IDS`, the ids that
/// stand from here on, or
/// `beside IDS`, those of a second shard; blank, or a comment, which begins with `#`. Any other
/// line is a failure.
#[derive(Drop)]
pub struct Cases {
    pub count: u64,
    line: u64,
    shards: Shards,
}

impl Cases {
    pub fn new(alloc: Global) -> Cases {
        Cases {
            count: 0,
            line: 0,
            shards: Shards::new(alloc),
        }
    }

    /// Counts a case, and says where it goes another way.
    fn compare(&mut self, found: &str, wanted: &str, out: &mut String) -> Result<(), AllocError> {
        self.count = self.count.saturating_add(1);
        if found == wanted {
            return Ok(());
        }
        let line = self.line;
        write!(out, "line {line}: {found}\n    and not {wanted}\n")
    }

    /// What a call answers, or none where there is no such call.
    fn answer(
        &self,
        alloc: Global,
        call: &str,
        first: &str,
        second: &str,
    ) -> Result<Option<String>, AllocError> {
        let text = match call {
            "filter" => filter_text(alloc, first)?,
            "update" => update_text(alloc, first)?,
            "matches" => matched(alloc, first, second)?,
            "apply" => applied(alloc, first, second)?,
            "change" => changed(alloc, first, second)?,
            "namespace" => namespace_text(alloc, first, second)?,
            "id" => id_text(alloc, first)?,
            "compare" => compared(alloc, first, second)?,
            "tick" => ticked(alloc, first, second)?,
            "advance" => advanced(alloc, first, second)?,
            "inserts" => inserted(alloc, &self.shards, first)?,
            "finds" => found(alloc, &self.shards, first, second)?,
            "updates" => updated(alloc, &self.shards, first, second)?,
            "deletes" => deleted(alloc, &self.shards, first)?,
            "merges" => merged(alloc, &self.shards, first, second)?,
            _ => return Ok(None),
        };
        Ok(Some(text))
    }

    /// Takes one line.
    fn take(&mut self, alloc: Global, line: &str, out: &mut String) -> Result<(), AllocError> {
        self.line = self.line.saturating_add(1);
        if line.is_empty() || line.starts_with("#") {
            return Ok(());
        }
        if let Some(ids) = line.strip_prefix("standing ") {
            return self.shards.stand(alloc, ids);
        }
        if let Some(ids) = line.strip_prefix("beside ") {
            return self.shards.stand_beside(alloc, ids);
        }
        let (asked, wanted) = line.split_once(" => ").unwrap_or((line, ""));
        let (call, words) = asked.split_once(" ").unwrap_or((asked, ""));
        let (first, second) = words.split_once(" | ").unwrap_or((words, ""));
        match self.answer(alloc, call, first, second)? {
            Some(text) => self.compare(text.as_str(), wanted, out),
            None => self.compare("no line of cases", line, out),
        }
    }

    /// Runs the cases of a text, and says which go another way.
    pub fn run(&mut self, alloc: Global, text: &str) -> Result<String, AllocError> {
        let mut out = String::new(alloc);
        for line in text.lines() {
            self.take(alloc, line, &mut out)?;
        }
        Ok(out)
    }
}
