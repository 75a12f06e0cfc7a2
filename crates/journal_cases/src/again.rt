//! Runs of a journal's calls, one after another, with what is proved of the whole run.
ghost use Rattle.std.specs.Prelude.{◌≡◌, ◌⊎◌, ◌≤◌, ◌++◌, ◌∷◌, [], false, IsTrue, IfOk, length};
ghost use Rattle.outside_core.specs.Crash.{LeavesOnly};
ghost use Rattle.journal_core.specs.Left.{Leaves, IsAtRest};
ghost use Rattle.journal_core.specs.State.{disk_of};

use journal_core::{Journal, JournalErr, MOST_PAYLOAD};
use outside_core::Disk;

/// Starts the journal of a disk again. One at rest has the same payloads then.
pub fn restart<D: Disk>(journal: Journal<D>) -> Result<Journal<D>, (JournalErr, D)>
    ensures { IsTrue (D.tells journal.disk)
        → IsAtRest (D.seen journal.disk) (D.may_leave journal.disk)
        journal.frames journal.count journal.end
        → IfOk result (λ again. again.frames ≡ journal.frames) }
{
    Journal::start(journal.into_disk())
}

/// Appends, and starts the journal again, whatever became of that. It has the payloads from before
/// then, or these with the new one; and so has what a crash at any moment of both leaves.
pub fn append_and_restart<D: Disk>(
    mut journal: Journal<D>,
    payload: &[u8],
) -> Result<Journal<D>, (JournalErr, D)>
    requires short { length payload.now ≤ MOST_PAYLOAD }
    ensures found { IsTrue (D.tells journal.disk) → journal.closed ≡ false
        → IfOk result (λ again. (again.frames ≡ journal.frames)
        ⊎ (again.frames ≡ journal.frames ++ payload.now ∷ [])) }
    ensures any_moment { IsTrue (D.tells journal.disk) → journal.closed ≡ false
        → LeavesOnly D.moment D.left_since journal.disk (disk_of result)
        (Leaves journal.frames payload.now) }
{
    let _ = journal.append(payload);
    Journal::start(journal.into_disk())
}
