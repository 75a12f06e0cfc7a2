ghost use Rattle.std.specs.Prelude.{◌≡◌, ◌≤◌, ◌⊎◌, nat_eq, unwrap_or};
ghost use Rattle.txn_types.specs.Clock.{last_time, next_time, ticked};

use txn_types::{HybridClock, Ts};

/// Moves the clock on to its next time, if there is one.
pub fn next_tick(clock: &mut HybridClock, wall: u32) -> Option<Ts>
    requires { (clock.old.last ≡ last_time) ⊎ (next_time clock.old.last wall ≤ clock.old.ceiling) }
    ensures time { result ≡ ticked clock.old.last wall }
    ensures last { clock.new.last ≡ unwrap_or result clock.old.last }
    ensures ceiling { clock.new.ceiling ≡ clock.old.ceiling }
{
    match clock.tick(wall) {
        Ok(at) => Some(at),
        Err(_end) => None,
    }
}

/// Whether the clock stands at the last time that there is.
pub fn is_at_end(clock: &HybridClock) -> bool
    ensures { result ≡ nat_eq clock.now.last last_time }
{
    clock.last.0 == u64::MAX
}
