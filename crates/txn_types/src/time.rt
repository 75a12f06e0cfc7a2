//! Cluster times, and the clock that tells them. A time is written (seconds, increment) here. A
//! clock that stands at (100, 5), below a ceiling of (110, 0), tells
//!
//! ```text
//! tick at the wall's second 100    (100, 6)
//!                      103         (103, 1)
//!                       99         (103, 2): it never goes back
//! advance to (105, 7)              and the next tick at 99 is (105, 8)
//! tick at 111                      NeedCeiling { (121, 1) }, and the clock stays
//! ```
ghost use Rattle.std.specs.Prelude.{◌≡◌, ◌≢◌, ◌≤◌, ◌<◌, ◌+◌, ◌-◌, ◌^◌, ◌↔◌, ℕ, max, IfOk, OnOk, OnErr};
ghost use Rattle.txn_types.specs.Clock.{next_time, wanted_ceiling};

use std::marker::Model;

/// A cluster time: seconds since 1970 in the high 32 bits, an increment in the low ones. Contracts
/// see it as the number.
#[derive(Clone, Copy, Debug, PartialEq, Eq, PartialOrd, Ord)]
pub struct Ts(pub u64);

impl Model for Ts {
    ghost use Rattle.std.specs.Prelude.{ℕ};

    ghost Value = { ℕ };

    ghost view = { λ t. t.0 };

    ghost inverse = { λ n. record { 0 = n } };
}

/// Why a clock doesn't move.
#[derive(Clone, Copy, Debug, PartialEq, Eq)]
pub enum ClockErr {
    /// It stands at the last time that there is, 2^64 - 1.
    ClockEnd,
    /// The next time would pass the ceiling; this one would let it go on.
    NeedCeiling { bound: Ts },
}

/// A hybrid logical clock: the last time that it told, and a ceiling that no time passes before the
/// ceiling is raised, so that it may be made durable first.
#[derive(Clone, Copy, PartialEq, Eq)]
pub struct HybridClock {
    pub last: Ts,
    pub ceiling: Ts,
    ghost below: { last ≤ ceiling },
}

/// How far above the next time a ceiling is asked for: ten seconds.
const LEAD: u64 = 10 << 32;

impl HybridClock {
    /// A clock that has told no time.
    pub fn new() -> HybridClock
        ensures { (result.last ≡ 0) × (result.ceiling ≡ 0) }
    {
        HybridClock {
            last: Ts(0),
            ceiling: Ts(0),
        }
    }

    /// Moves on to the next time, at the moment `wall` in seconds since 1970, and tells it.
    pub fn tick(&mut self, wall: u32) -> Result<Ts, ClockErr>
        ensures ok { IfOk result (λ t. (t ≡ next_time self.old.last wall) × (self.new.last ≡ t)
            × (self.new.ceiling ≡ self.old.ceiling)) }
        ensures err { OnErr result (self.new ≡ self.old) }
        ensures end { (result ≡ Err ClockErr.ClockEnd) ↔ (self.old.last ≡ 2 ^ 64 - 1) }
        ensures ceiling { (bound : ℕ) → (result ≡ Err (ClockErr.NeedCeiling bound))
            ↔ ((self.old.last < 2 ^ 64 - 1) × (self.old.ceiling < next_time self.old.last wall)
            × (bound ≡ wanted_ceiling (next_time self.old.last wall))) }
    {
        if self.last.0 == u64::MAX {
            return Err(ClockErr::ClockEnd);
        }
        let next = (self.last.0 + 1).max((u64::from(wall) << 32) + 1);
        if next > self.ceiling.0 {
            return Err(ClockErr::NeedCeiling {
                bound: Ts(next.saturating_add(LEAD)),
            });
        }
        self.last = Ts(next);
        Ok(Ts(next))
    }

    /// Moves on to a time that was told elsewhere; the clock never moves back. It takes no memory.
    pub fn advance(&mut self, to: Ts) -> Result<(), ClockErr>
        ensures ok { OnOk result
            ((self.new.last ≡ max self.old.last to) × (self.new.ceiling ≡ self.old.ceiling)) }
        ensures err { OnErr result (self.new ≡ self.old) }
        ensures end { result ≢ Err ClockErr.ClockEnd }
        ensures ceiling { (bound : ℕ) → (result ≡ Err (ClockErr.NeedCeiling bound))
            ↔ ((self.old.ceiling < to) × (bound ≡ wanted_ceiling to)) }
    {
        if to.0 > self.ceiling.0 {
            return Err(ClockErr::NeedCeiling {
                bound: Ts(to.0.saturating_add(LEAD)),
            });
        }
        if self.last.0 < to.0 {
            self.last = to;
        }
        Ok(())
    }

    /// Lets the clock go on up to `bound`; a ceiling never falls.
    pub fn raise(&mut self, bound: Ts)
        ensures ceiling { self.new.ceiling ≡ max self.old.ceiling bound }
        ensures last { self.new.last ≡ self.old.last }
    {
        if self.ceiling.0 < bound.0 {
            self.ceiling = bound;
        }
    }
}
