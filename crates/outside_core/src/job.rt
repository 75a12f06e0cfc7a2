ghost use Rattle.std.specs.Prelude.{◌≡◌, IfOk};

use std::alloc::AllocError;
use std::snapshot::Snapshot;
use std::sync::Wait;
use std::thread;
use std::thread::{Promise, PromisedHandle, Threads};

/// What is run once, beside the caller.
pub trait Job: Sized {
    /// What a run answers.
    type Out;

    /// What a run of this job may answer.
    ghost gives: { Self → Self.Out → Type 0 };

    /// Runs it. It may wait for other threads, so what it promises holds once it returns.
    fn go<R: Wait>(self, rt: &R) -> Self::Out
        ensures { gives self result };
}

/// The promise of a job's thread: what it answers is what a run of the job may answer.
#[derive(Drop)]
pub struct Gives<J: Job>(Snapshot<J>);

impl<J: Job> Promise<J::Out> for Gives<J> {
    ghost kept_by = { λ promise out. J.gives promise.0.value out };
}

/// A job that runs in a thread of its own.
#[derive(Drop)]
pub struct Running<J: Job + Send + Drop + 'static>
where
    J::Out: Send + Drop + 'static,
{
    pub handle: PromisedHandle<J::Out, Gives<J>>,
}

/// Starts a job in a thread of its own.
pub fn launch<R: Threads + Wait + Copy + Send + 'static, J: Job + Send + Drop + 'static>(
    rt: R,
    job: J,
) -> Result<Running<J>, AllocError>
where
    J::Out: Send + Drop + 'static,
    ensures { IfOk result (λ running. running.handle.promise.0.value ≡ job) }
{
    let promise = Gives(Snapshot::of(&job));
    let handle = thread::spawn_with(&rt, promise, move || job.go(&rt))?;
    Ok(Running { handle })
}
