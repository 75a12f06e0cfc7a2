ghost use Rattle.std.specs.Prelude.{◌≡◌, ℕ, List, Option, IsTrue};
ghost use Rattle.outcomes.specs.Causes.{Rose};
ghost use Rattle.course_laws.specs.Clients.{AreOfClients, IsPlayable};
ghost use Rattle.mtx.specs.Play.{PlayedOver};
ghost use Rattle.mtx.specs.Ending.{IsLeft};
ghost use Rattle.mtx.specs.declared.status.Status.{Status};
ghost use Rattle.mtx.specs.declared.status.Status.TheVariants.{ReadFault, WriteFault};

use outside_core::Disk;

/// Where each line is of a client and asks something, and no count of faults rose, the lines were
/// played to their end, or one of a few things that the schedule can't help stopped the playing. So
/// it is for each status of which the clauses of `offline` hold.
pub fn only_want_of_memory_is_left<D: Disk>()
    ensures { (lines : List (List ℕ)) (held after : Option (List ℕ)) (status : Status)
        (reads reads_now writes writes_now : ℕ)
        → PlayedOver ((d : D) → IsTrue (D.tells d)) lines held after status
        → AreOfClients lines → IsPlayable lines
        → (status ≡ ReadFault → Rose reads reads_now)
        → (status ≡ WriteFault → Rose writes writes_now)
        → (Rose reads reads_now → ⊥) → (Rose writes writes_now → ⊥) → IsLeft status }
{}
