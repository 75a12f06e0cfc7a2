//! A shard's part, and what it answers in words.
ghost use Rattle.std.specs.Prelude.{◌≡◌, ◌≤◌, ◌⊎◌};
ghost use Rattle.txn_types.specs.Clock.{last_time, next_time};

use crate::numbers::Numbers;
use bson_core::{Text, Value};
use case_texts::{delete, document, find, where_id};
use participant::{PartErr, Participant, Said};
use session_table::{SessionErr, Sessions};
use std::alloc::{AllocError, Global};
use txn_types::{
    Cause, ClockErr, HybridClock, InsertItem, InsertItems, Ns, Op, OpReply, Statement, Ts,
};

#[derive(Drop)]
pub struct Standing {
    part: Participant,
    sessions: Sessions,
}

/// A new clock that may go on to the last time that there is.
fn free_clock(wall: u32) -> HybridClock
    ensures { (result.last ≡ last_time) ⊎ (next_time result.last wall ≤ result.ceiling) }
{
    let mut clock = HybridClock::new();
    clock.raise(Ts(u64::MAX));
    clock
}

/// A hundred letters.
const HUNDRED: &str =
    "xxxxxxxxxxxxxxxxxxxxxxxxxxxxxxxxxxxxxxxxxxxxxxxxxxxxxxxxxxxxxxxxxxxxxxxxxxxxxxxxxxxxxxxxxxxxxxxxxxxx";

/// A text of so many letters.
fn long_text(alloc: Global, length: u32) -> Result<Value, AllocError> {
    let mut text = String::new(alloc);
    for _ in 0..length / 100 {
        text.push_str(HUNDRED)?;
    }
    for _ in 0..length % 100 {
        text.push('x')?;
    }
    Ok(Value::Text(Text::new(text)))
}

/// An insert of so many documents, whose ids follow one another, with a text of so many letters
/// each.
fn texts(alloc: Global, ns: Ns, numbers: &mut Numbers) -> Result<Op, AllocError> {
    let (first, count, length) = (numbers.number(), numbers.number(), numbers.number());
    let mut docs = InsertItems::new(alloc);
    for index in 0..count {
        let id = i32::try_from(first.saturating_add(index)).unwrap_or(0);
        let doc = document(alloc, id, long_text(alloc, length)?)?;
        docs.push(InsertItem { index, doc })?;
    }
    Ok(Op::Insert { ns, docs })
}

/// The operation of the words that are left; a find of all, where there is no such operation.
fn operation(alloc: Global, numbers: &mut Numbers) -> Result<Op, AllocError> {
    let Ok(ns) = Ns::of(alloc, "d", "c") else {
        return Err(AllocError);
    };
    match numbers.word() {
        "texts" => texts(alloc, ns, numbers),
        "delete" => {
            let id = i32::try_from(numbers.number()).unwrap_or(0);
            delete(alloc, ns, where_id(alloc, Some(id))?)
        }
        _ => Ok(find(ns, where_id(alloc, None)?)),
    }
}

fn put_said(out: &mut String, said: &Said) -> Result<(), AllocError> {
    match said {
        Said::Did { reply, .. } => match reply {
            OpReply::Count { n, .. } => write!(out, "counts {n}"),
            OpReply::Rows { docs, .. } => write!(out, "finds {}", docs.as_slice().len()),
        },
        Said::Refused { cause, .. } => match cause {
            Cause::Volume { bytes } => write!(out, "volume {bytes}"),
            _ => write!(out, "refused {}", cause.number()),
        },
        _ => out.push_str("nothing"),
    }
}

fn put_begun(out: &mut String, begun: Result<(), SessionErr>) -> Result<(), AllocError> {
    match begun {
        Ok(()) => out.push_str("ok"),
        Err(SessionErr::TooOld { have, .. }) => write!(out, "too old, it has {have}"),
        Err(SessionErr::InUse { tag }) => write!(out, "in use by {}", tag.serial),
        Err(SessionErr::PreparedStands { .. }) => out.push_str("prepared stands"),
        Err(SessionErr::TooMany) => out.push_str("too many sessions"),
        Err(SessionErr::Memory) => Err(AllocError),
    }
}

fn put_time(out: &mut String, at: Ts) -> Result<(), AllocError> {
    write!(out, "{}.{}", at.0 >> 32, at.0 & 0xffff_ffff)
}

/// The time that a clock ticks to, or why it doesn't.
fn put_tick(out: &mut String, tick: &Result<Ts, ClockErr>) -> Result<(), AllocError> {
    match tick {
        Ok(at) => put_time(out, *at),
        Err(ClockErr::ClockEnd) => out.push_str("clock end"),
        Err(ClockErr::NeedCeiling { bound }) => {
            out.push_str("need ceiling ")?;
            put_time(out, *bound)
        }
    }
}

/// A clock below a ceiling that stands at a time ticks.
fn tick(numbers: &mut Numbers, out: &mut String) -> Result<(), AllocError> {
    let (at, wall, ceiling) = (numbers.time(), numbers.number(), numbers.time());
    let mut clock = HybridClock::new();
    clock.raise(ceiling);
    match clock.advance(at) {
        Ok(()) => put_tick(out, &clock.tick(wall)),
        Err(_) => out.push_str("above the ceiling"),
    }
}

impl Standing {
    /// A part and a table of sessions where so many sessions may come.
    pub fn new(alloc: Global, limit: u32) -> Standing {
        Standing {
            part: Participant::new(alloc, 0, 1, limit),
            sessions: Sessions::new(alloc, limit),
        }
    }

    /// A statement goes to the part, unless another session has its transaction.
    fn statement(
        &mut self,
        alloc: Global,
        numbers: &mut Numbers,
        out: &mut String,
    ) -> Result<(), AllocError> {
        let m = Statement {
            lsid: numbers.lsid(),
            number: i64::from(numbers.number()),
            tag: numbers.tag(),
            k: numbers.number(),
            read_at: Ts(0),
            boot: numbers.number(),
            op: operation(alloc, numbers)?,
        };
        if self.part.elsewhere(&m.lsid, m.tag) {
            return out.push_str("another session has it");
        }
        match self.part.statement(&mut free_clock(1), 1, &m) {
            Ok(said) => put_said(out, &said),
            Err(PartErr::Memory) => Err(AllocError),
        }
    }

    fn session(&self, numbers: &mut Numbers, out: &mut String) -> Result<(), AllocError> {
        match self.part.session(&numbers.lsid()) {
            Some(session) => write!(out, "{} {}", session.number, session.tag.serial),
            None => out.push_str("none"),
        }
    }

    fn begin(&mut self, numbers: &mut Numbers, out: &mut String) -> Result<(), AllocError> {
        let lsid = numbers.lsid();
        let number = i64::from(numbers.number());
        put_begun(out, self.sessions.begin(lsid, number, numbers.tag()))
    }

    /// What is answered to what is done.
    pub fn answer(&mut self, alloc: Global, line: &str) -> Result<String, AllocError> {
        let mut out = String::new(alloc);
        let mut numbers = Numbers::of(line);
        match numbers.word() {
            "new" => {
                *self = Standing::new(alloc, numbers.number());
                out.push_str("ok")?;
            }
            "statement" => self.statement(alloc, &mut numbers, &mut out)?,
            "session" => self.session(&mut numbers, &mut out)?,
            "begin" => self.begin(&mut numbers, &mut out)?,
            "tick" => tick(&mut numbers, &mut out)?,
            _ => out.push_str("no line of cases")?,
        }
        Ok(out)
    }
}
