//! A clock that ticks and advances.

use std::alloc::{AllocError, Global};
use txn_types::{ClockErr, HybridClock, Ts};

/// The time `SECONDS.INCREMENT`, or the last that there is, `end`.
fn time_of(words: &str) -> Ts {
    if words == "end" {
        return Ts(u64::MAX);
    }
    let (seconds, increment) = words.split_once(".").unwrap_or((words, "0"));
    let high = u64::from(seconds.parse::<u32>().unwrap_or(0)) << 32;
    Ts(high | u64::from(increment.parse::<u32>().unwrap_or(0)))
}

/// The time that was told, or why the clock stands.
fn time_text(alloc: Global, told: Result<Ts, ClockErr>) -> Result<String, AllocError> {
    match told {
        Ok(Ts(time)) => format!(in alloc; "{}.{}", time >> 32, time & 0xffff_ffff),
        Err(ClockErr::ClockEnd) => String::from_str(alloc, "end"),
        Err(ClockErr::NeedCeiling { bound: Ts(bound) }) => {
            format!(in alloc; "needs {}.{}", bound >> 32, bound & 0xffff_ffff)
        }
    }
}

/// A clock at a time under a ceiling, `LAST CEILING`.
fn clock_of(words: &str) -> HybridClock {
    let (last, ceiling) = words.split_once(" ").unwrap_or((words, "end"));
    let mut clock = HybridClock::new();
    clock.raise(time_of(ceiling));
    let _ = clock.advance(time_of(last));
    clock
}

/// What the clock tells at this wall, in seconds.
pub fn ticked(alloc: Global, clock: &str, wall: &str) -> Result<String, AllocError> {
    let mut clock = clock_of(clock);
    time_text(alloc, clock.tick(wall.parse::<u32>().unwrap_or(0)))
}

/// Where the clock stands once it was told a time, or why it stands as it did.
pub fn advanced(alloc: Global, clock: &str, time: &str) -> Result<String, AllocError> {
    let mut clock = clock_of(clock);
    match clock.advance(time_of(time)) {
        Ok(()) => time_text(alloc, Ok(clock.last)),
        Err(refusal) => time_text(alloc, Err(refusal)),
    }
}
