ghost use Rattle.std.specs.Prelude.{◌≡◌, IfSome};
ghost use Rattle.node_lock.specs.Known.{IsSound};

use crate::flag::{Ask, Flag};
use machine::Machine;
use node_lock::{NodeLock, Pass};
use std::sync::Wait;
use std::thread::{Threads, join};

fn call_once<R: Wait>(rt: &R, lock: &NodeLock<Flag>, mut pass: Pass<Flag>, ask: Ask) -> Pass<Flag>
    requires { pass.table ≡ lock.now.table }
    ensures { (result.table ≡ pass.table) × (result.knows.shares ≡ pass.knows.shares) }
{
    lock.call(rt, &mut pass, &ask);
    pass
}

/// Two threads make a call each, with passes that are cut off this one and met again; and then the
/// length of the history.
pub fn two_calls<R: Threads + Wait + Sync>(
    rt: &R,
    lock: &NodeLock<Flag>,
    pass: &mut Pass<Flag>,
) -> u64
    requires table { pass.old.table ≡ lock.now.table }
    requires shares { (pass.old.knows.shares ≡ 3) × (pass.old.knows.all ≡ 3) }
    ensures table { pass.new.table ≡ pass.old.table }
    ensures sound { IsSound ⟦<Flag as Machine>⟧.takes pass.new.knows }
{
    let first = lock.split(pass);
    let second = lock.split(pass);
    let (first, second) = join(
        rt,
        move || -> Pass<Flag>
            requires { (first.table ≡ lock.now.table) × (first.knows.shares ≡ 1) }
            ensures { (result.table ≡ lock.entry.now.table) × (result.knows.shares ≡ 1) }
        { call_once(rt, lock, first, Ask::Set) },
        move || -> Pass<Flag>
            requires { (second.table ≡ lock.now.table) × (second.knows.shares ≡ 1) }
            ensures { (result.table ≡ lock.entry.now.table) × (result.knows.shares ≡ 1) }
        { call_once(rt, lock, second, Ask::Wait) },
    );
    lock.meet(pass, first);
    lock.meet(pass, second);
    lock.whole(pass)
}
