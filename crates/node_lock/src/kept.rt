ghost use Rattle.std.specs.Prelude.{◌≡◌};

use std::snapshot::Snapshot;

/// What the lock's slot holds: the machine, and a note of the call that was just made, which has no
/// bytes.
#[derive(Drop)]
pub struct Kept<M, E, A> {
    pub machine: Option<M>,
    pub event: Option<Snapshot<E>>,
    pub answer: Option<Snapshot<A>>,
}

/// The machine itself, out of a note.
pub(crate) fn machine_of<M, E, A>(kept: Kept<M, E, A>) -> Option<M>
    ensures { result ≡ kept.machine }
{
    let Kept {
        machine,
        event: _,
        answer: _,
    } = kept;
    machine
}
