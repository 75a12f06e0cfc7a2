//! The times of a router. Its wall is the greatest that it has met, and so is its cluster time.
ghost use Rattle.std.specs.Prelude.{◌≡◌, max, unwrap_or};
ghost use Rattle.txn_types.specs.BySession.{BySession};
ghost use Rattle.chunk_map.specs.Map.{Map};
ghost use Rattle.router_state.specs.declared.state.Session.{Session};
ghost use Rattle.router_rules.specs.Times.{walled, timed, met, chosen, is_left, read_time};
ghost use Rattle.router_plan.specs.Plans.{state_of};

use crate::plan::Base;
use txn_types::Ts;

/// With the wall that an event names.
pub fn walled(base: &Base, wall: u32) -> Base
    ensures { (chunks : Map) (sessions : BySession Session)
        → state_of result chunks sessions ≡ walled (state_of base.now chunks sessions) wall }
{
    let mut base = base.copy();
    base.wall = base.wall.max(wall);
    base
}

/// With a time that was told.
pub fn timed(base: &Base, time: Ts) -> Base
    ensures { (chunks : Map) (sessions : BySession Session)
        → state_of result chunks sessions ≡ timed (state_of base.now chunks sessions) time }
{
    let mut base = base.copy();
    base.time = Ts(base.time.0.max(time.0));
    base
}

/// The later of a time and of another, where there is one.
fn later(time: Ts, other: Option<Ts>) -> Ts
    ensures { result ≡ max time (unwrap_or other 0) }
{
    match other {
        Some(other) => Ts(time.0.max(other.0)),
        None => time,
    }
}

/// With the times that a request names.
pub fn met(base: &Base, time: Option<Ts>, after: Option<Ts>) -> Base
    ensures { (chunks : Map) (sessions : BySession Session)
        → state_of result chunks sessions ≡ met (state_of base.now chunks sessions) time after }
{
    let mut base = base.copy();
    base.time = later(later(base.time, time), after);
    base
}

/// What a transaction reads at: the time that its first statement names, or else the greatest of
/// the router's time, of its wall and of 1.
fn chosen(base: &Base, at: &Option<Ts>) -> Ts
    ensures { (chunks : Map) (sessions : BySession Session)
        → result ≡ chosen (state_of base.now chunks sessions) at.now }
{
    match at {
        Some(at) => *at,
        None => Ts(base.time.0.max(u64::from(base.wall) << 32).max(1)),
    }
}

/// Whether the choice is left to the one shard of a command by itself.
fn is_left(plain: bool, shards: &[u16], at: &Option<Ts>) -> bool
    ensures { result ≡ is_left plain shards.now at.now }
{
    match (shards, at) {
        ([_shard], None) => plain,
        _ => false,
    }
}

/// What a transaction reads at, 0 where its shard is to choose.
pub fn read_time(base: &Base, plain: bool, shards: &[u16], at: Option<Ts>) -> Ts
    ensures { (chunks : Map) (sessions : BySession Session)
        → result ≡ read_time (state_of base.now chunks sessions) plain shards.now at }
{
    if is_left(plain, shards, &at) {
        Ts(0)
    } else {
        chosen(base, &at)
    }
}
