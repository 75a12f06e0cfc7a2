ghost use Rattle.std.specs.Prelude.{◌≡◌, ◌≤◌, ◌+◌, ◌^◌, ◌%◌, ◌∷◌, ◌++◌, [], List, ℕ, max, length, OnOk, OnErr, IfNone, IfSome};
ghost use Rattle.outcomes.specs.Causes.{FailsOnly, Rose};

use crate::job::{Job, Running, launch};
use std::alloc::AllocError;
use std::sync::Wait;
use std::thread::Threads;

/// Why a job wasn't started. It is then dropped.
#[derive(Clone, Copy, Debug, PartialEq, Eq)]
pub enum SpawnErr {
    /// No thread was had; the count of faults has risen.
    Failed,
    /// There was no memory to keep it.
    Memory,
}

/// Starts jobs beside the caller, and gathers them in the order in which they were started.
///
/// `start` is made here, of `make_room`, `keep` and `count_fault`, which are for it alone.
pub trait Spawner<J: Job + Send + Drop + 'static>
where
    J::Out: Send + Drop + 'static,
{
    /// What starts threads.
    type R: Threads + Wait + Copy + Send + 'static;

    /// The jobs that were started and not gathered, the first of them first.
    ghost standing: { Self → List J };

    /// How many jobs were started, modulo 2^64.
    ghost start_count: { Self → ℕ };

    /// The greatest number of jobs that have stood.
    ghost most_standing: { Self → ℕ };

    /// How often a start has failed.
    ghost fault_count: { Self → ℕ };

    /// It can keep one job more without memory.
    ghost has_room: { Self → Type 0 };

    /// The runtime whose threads it takes.
    fn runtime(&self) -> Self::R;

    /// Makes room for one job more.
    fn make_room(&mut self) -> Result<(), AllocError>
        ensures room { OnOk result (has_room self.new) }
        ensures standing { standing self.new ≡ standing self.old }
        ensures started { start_count self.new ≡ start_count self.old }
        ensures most { most_standing self.new ≡ most_standing self.old }
        ensures faults { fault_count self.new ≡ fault_count self.old };

    /// Keeps the job that `running` has, and counts it.
    fn keep(&mut self, running: &mut Option<Running<J>>)
        requires { has_room self.old }
        ensures standing { IfSome running.old
            (λ r. standing self.new ≡ standing self.old ++ r.handle.promise.0.value ∷ []) }
        ensures started { IfSome running.old
            (λ r. start_count self.new ≡ (start_count self.old + 1) % 2 ^ 64) }
        ensures most { IfSome running.old (λ r. most_standing self.new
            ≡ max (most_standing self.old) (length (standing self.new))) }
        ensures faults { fault_count self.new ≡ fault_count self.old };

    /// Counts a start that has failed.
    fn count_fault(&mut self)
        ensures later { fault_count self.old ≤ fault_count self.new }
        ensures rose { Rose (fault_count self.old) (fault_count self.new) }
        ensures standing { standing self.new ≡ standing self.old }
        ensures started { start_count self.new ≡ start_count self.old }
        ensures most { most_standing self.new ≡ most_standing self.old };

    /// Runs a job beside the caller.
    final fn start(&mut self, job: J) -> Result<(), SpawnErr>
        ensures standing { OnOk result (standing self.new ≡ standing self.old ++ job ∷ []) }
        ensures started { OnOk result (start_count self.new ≡ (start_count self.old + 1) % 2 ^ 64) }
        ensures most { OnOk result
            (most_standing self.new ≡ max (most_standing self.old) (length (standing self.new))) }
        ensures standing_refused { OnErr result (standing self.new ≡ standing self.old) }
        ensures started_refused { OnErr result (start_count self.new ≡ start_count self.old) }
        ensures most_refused { OnErr result (most_standing self.new ≡ most_standing self.old) }
        ensures faults { FailsOnly SpawnErr.Failed (fault_count self.old)
            (fault_count self.new) result }
    {
        if self.make_room().is_err() {
            return Err(SpawnErr::Memory);
        }
        match launch(self.runtime(), job) {
            Ok(running) => {
                self.keep(&mut Some(running));
                Ok(())
            }
            Err(_) => {
                self.count_fault();
                Err(SpawnErr::Failed)
            }
        }
    }

    /// Waits for the job that was started first of those that stand, and answers what it gave;
    /// `None` where none stands.
    fn gather(&mut self) -> Option<J::Out>
        ensures none { IfNone result ((standing self.old ≡ []) × (standing self.new ≡ [])) }
        ensures some { IfSome result
            (λ out. (job : J) × (standing self.old ≡ job ∷ standing self.new) × J.gives job out) }
        ensures started { start_count self.new ≡ start_count self.old }
        ensures most { most_standing self.new ≡ most_standing self.old }
        ensures faults { fault_count self.new ≡ fault_count self.old };

    /// How many jobs were started, modulo 2^64.
    fn started(&self) -> u64
        ensures { result ≡ start_count self.now };

    /// The greatest number of jobs that have stood.
    fn most(&self) -> u64
        ensures { result ≡ most_standing self.now };

    /// How often a start has failed; it stands still at 2^64 - 1.
    fn faults(&self) -> u64
        ensures { result ≡ fault_count self.now };
}
