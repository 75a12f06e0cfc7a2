//! The configuration in front of a schedule.
ghost use Rattle.std.specs.Prelude.{◌≡◌, IfOk, IfErr, Ok, option_map};
ghost use Rattle.play_script.specs.Lines.{lines_of};
ghost use Rattle.cluster_play.specs.Schedule.{Gives, up_to_marker, marked_by, settings_in, enclosed, unmarked, schedule_of};
ghost use Rattle.cluster_play.specs.Steps.{IsFrontErr};

use crate::status::Status;
use cluster_conf::{Conf, ConfErr};
use play_script::next_line;
use std::alloc::{AllocError, Global};
use std::marker::Model;

/// The line in front of a configuration, and after it.
const MARKER: &[u8] = b"+++";

/// A configuration, and the lines after it; so many lines came before these.
#[derive(Drop)]
pub struct Front<'a> {
    pub conf: Conf,
    pub taken: u64,
    pub lines: &'a [u8],
}

impl<'a> Model for Front<'a> {
    ghost use Rattle.play_script.specs.Lines.{lines_of};
    ghost use Rattle.cluster_play.specs.Schedule.{Schedule};

    ghost Value = { Schedule };

    ghost view = { λ f. record { conf = f.conf; taken = f.taken; lines = lines_of f.lines.now } };
}

/// The text between two markers, and the lines after that; so many lines came before these.
#[derive(Drop)]
struct MarkedText<'a> {
    text: Vec<u8>,
    taken: u64,
    lines: &'a [u8],
}

impl<'a> Model for MarkedText<'a> {
    ghost use Rattle.play_script.specs.Lines.{lines_of};
    ghost use Rattle.cluster_play.specs.Schedule.{MarkedLines};

    ghost Value = { MarkedLines };

    ghost view = { λ m. record { text = m.text.items; taken = m.taken; lines = lines_of m.lines.now } };
}

/// What stands in front of the next marker.
fn enclosed(alloc: Global, lines: &[u8]) -> Result<Option<MarkedText>, AllocError>
    ensures { IfOk result
        (λ found. found ≡ option_map marked_by (up_to_marker (lines_of lines.now))) }
{
    let mut text = Vec::new(alloc);
    let mut taken: u64 = 1;
    let mut rest = lines;
    while !rest.is_empty() {
        let (line, after) = next_line(rest);
        rest = after;
        taken += 1;
        if line == MARKER {
            let lines = rest;
            return Ok(Some(MarkedText { text, taken, lines }));
        }
        text.extend_from_slice(line)?;
        text.push(b'\n')?;
    }
    Ok(None)
}

/// The configuration that a text is.
fn conf_of(alloc: Global, text: &[u8]) -> Result<Conf, Status>
    ensures conf { Gives (λ c. c) result (settings_in text.now) }
    ensures errors { IfErr result IsFrontErr }
{
    let Ok(text) = std::str::from_utf8(text) else {
        return Err(Status::BadConf);
    };
    match Conf::read(alloc, text) {
        Ok(conf) => Ok(conf),
        Err(ConfErr::Memory) => Err(Status::Memory),
        Err(_) => Err(Status::BadConf),
    }
}

/// The plain configuration, in front of these lines.
fn unmarked(alloc: Global, lines: &[u8]) -> Result<Front, Status>
    ensures front { Gives (λ f. f) result (Ok (unmarked (lines_of lines.now))) }
    ensures errors { IfErr result IsFrontErr }
{
    match Conf::plain(alloc) {
        Ok(conf) => Ok(Front {
            conf,
            taken: 0,
            lines,
        }),
        Err(_) => Err(Status::Memory),
    }
}

/// The configuration up to the next marker, and the lines after it.
fn marked(alloc: Global, lines: &[u8]) -> Result<Front, Status>
    ensures front { Gives (λ f. f) result
        (enclosed (option_map marked_by (up_to_marker (lines_of lines.now)))) }
    ensures errors { IfErr result IsFrontErr }
{
    match enclosed(alloc, lines) {
        Ok(Some(MarkedText { text, taken, lines })) => {
            let conf = conf_of(alloc, &text)?;
            Ok(Front { conf, taken, lines })
        }
        Ok(None) => Err(Status::BadLine { line: 1 }),
        Err(AllocError) => Err(Status::Memory),
    }
}

/// The schedule that lines are.
pub fn front_of(alloc: Global, lines: &[u8]) -> Result<Front, Status>
    ensures front { Gives (λ f. f) result (schedule_of (lines_of lines.now)) }
    ensures errors { IfErr result IsFrontErr }
{
    if lines.is_empty() {
        return unmarked(alloc, lines);
    }
    let (line, after) = next_line(lines);
    if line == MARKER {
        marked(alloc, after)
    } else {
        unmarked(alloc, lines)
    }
}
