ghost use Rattle.std.specs.Prelude.{◌≡◌, ◌≢◌, ◌≤◌, length, take, IfOk, MatchOption};
ghost use Rattle.play_script.specs.Limits.{most_lines};
ghost use Rattle.outcomes.specs.Causes.{FailsOnly};
ghost use Rattle.outcomes.specs.Told.{WhereKnown};
ghost use Rattle.play_script.specs.Lines.{lines_of};
ghost use Rattle.play_script.specs.Input.{IsInput, IsAtEnd};
ghost use Rattle.play_script.specs.Counting.{AreShort, Counted};

use crate::line::MOST_LINE;
use outside_core::{Source, SourceErr};
use std::alloc::Global;

/// How many bytes are asked of the source at a time.
const PIECE: usize = 65_536;

/// A schedule has no more lines.
const MOST_LINES: u64 = 10_000_000;

/// Where the reading of a schedule ended.
#[derive(Clone, Copy, Debug, PartialEq, Eq)]
pub enum End {
    /// At the source's end.
    Whole,
    /// In a line of more than 100,000,000 bytes.
    LongLine,
    /// In line 10,000,001.
    ManyLines,
}

/// What was read of a schedule: all of it, or the whole lines in front of where it can't be served
/// further.
#[derive(Drop)]
pub struct Input {
    pub bytes: Vec<u8>,
    pub end: End,
}

/// Where a reading of lines stands: how many have ended, the place after the last of them, and how
/// long the next is so far.
#[derive(Drop)]
struct LineCount {
    ended: u64,
    whole: usize,
    tail: usize,
}

impl LineCount {
    /// Goes through the bytes from a place on, and tells where a schedule can't be served further.
    fn end_in(&mut self, bytes: &[u8], from: usize) -> Option<End>
        requires within { from ≤ length bytes.now }
        requires counted { Counted (take from bytes.now) self.old }
        ensures { MatchOption result (Counted bytes.now self.new)
            (λ end. IsInput bytes.now (take self.new.whole bytes.now) end × (end ≢ End.Whole)
            × AreShort (take self.new.whole bytes.now)) }
    {
        for place in from..bytes.len() {
            if self.ended >= MOST_LINES {
                return Some(End::ManyLines);
            }
            if bytes[place] == b'\n' {
                self.ended += 1;
                self.whole = place + 1;
                self.tail = 0;
            } else if self.tail >= MOST_LINE {
                return Some(End::LongLine);
            } else {
                self.tail += 1;
            }
        }
        None
    }
}

/// Reads the source to its end, or as far as a schedule can be served: to a byte of line
/// 10,000,001, or to byte
/// 100,000,001 of a line. It goes through the bytes once.
pub fn read_input<S: Source>(alloc: Global, src: &mut S) -> Result<Input, SourceErr>
    ensures faults { FailsOnly SourceErr.Failed (S.fault_count src.old)
        (S.fault_count src.new) result }
    ensures read { IfOk result
        (λ i. WhereKnown (S.left src.old) (λ input. IsInput input i.bytes.items i.end)) }
    ensures at_end { IfOk result
        (λ i. WhereKnown (S.left src.old) (λ input. IsAtEnd (S.left src.new) i.end)) }
    ensures few { IfOk result (λ i. length (lines_of i.bytes.items) ≤ most_lines) }
    ensures short { IfOk result (λ i. AreShort i.bytes.items) }
{
    let mut bytes = Vec::new(alloc);
    let mut count = LineCount {
        ended: 0,
        whole: 0,
        tail: 0,
    };
    loop {
        let from = bytes.len();
        if src.read(PIECE, &mut bytes)? == 0 {
            let end = End::Whole;
            return Ok(Input { bytes, end });
        }
        if let Some(end) = count.end_in(&bytes, from) {
            bytes.truncate(count.whole);
            return Ok(Input { bytes, end });
        }
    }
}
