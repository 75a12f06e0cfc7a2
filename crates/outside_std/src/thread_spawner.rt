ghost use Rattle.std.specs.Prelude.{◌≡◌, ◌≤◌, ◌+◌, ◌<◌, ◌%◌, ◌^◌, ◌++◌, ◌∷◌, [], max, length, map, IfSome};
ghost use Rattle.std.specs.VecDeque.{deque_len, deque_capacity};

use outside_core::{Job, Running, Spawner};
use std::alloc::{AllocError, Global};
use std::collections::VecDeque;
use std::sync::Wait;
use std::thread::Threads;

/// Jobs in threads of the system, one for each.
#[derive(Drop)]
pub struct ThreadSpawner<R: Threads + Wait + Copy + Send + 'static, J: Job + Send + Drop + 'static>
where
    J::Out: Send + Drop + 'static,
{
    rt: R,
    running: VecDeque<Running<J>>,
    started: u64,
    most: u64,
    faults: u64,
}

impl<R: Threads + Wait + Copy + Send + 'static, J: Job + Send + Drop + 'static> ThreadSpawner<R, J>
where
    J::Out: Send + Drop + 'static,
{
    pub fn new(rt: R, alloc: Global) -> Self
        ensures standing { result.running.items ≡ [] }
        ensures counts { (result.started ≡ 0) × (result.most ≡ 0) × (result.faults ≡ 0) }
    {
        ThreadSpawner {
            rt,
            running: VecDeque::new(alloc),
            started: 0,
            most: 0,
            faults: 0,
        }
    }
}

impl<R: Threads + Wait + Copy + Send + 'static, J: Job + Send + Drop + 'static> Spawner<J>
    for ThreadSpawner<R, J>
where
    J::Out: Send + Drop + 'static,
{
    type R = R;

    ghost standing = { λ s. map (λ r. r.handle.promise.0.value) s.running.items };

    ghost start_count = { λ s. s.started };

    ghost most_standing = { λ s. s.most };

    ghost fault_count = { λ s. s.faults };

    ghost has_room = { λ s. deque_len s.running < deque_capacity s.running };

    fn runtime(&self) -> R {
        self.rt
    }

    fn make_room(&mut self) -> Result<(), AllocError> {
        self.running.reserve(1)
    }

    fn keep(&mut self, running: &mut Option<Running<J>>)
        requires { deque_len self.old.running < deque_capacity self.old.running }
        ensures standing { IfSome running.old (λ r. map (λ r. r.handle.promise.0.value)
            self.new.running.items ≡ map (λ r. r.handle.promise.0.value) self.old.running.items
            ++ r.handle.promise.0.value ∷ []) }
        ensures started { IfSome running.old
            (λ r. self.new.started ≡ (self.old.started + 1) % 2 ^ 64) }
        ensures most { IfSome running.old (λ r. self.new.most ≡ max self.old.most
            (length (map (λ r. r.handle.promise.0.value) self.new.running.items))) }
        ensures faults { self.new.faults ≡ self.old.faults }
    {
        if let Some(running) = running.take() {
            self.running.push_back_reserved(running);
            self.started = self.started.wrapping_add(1);
            self.most = self.most.max(self.running.len() as u64);
        }
    }

    fn count_fault(&mut self) {
        self.faults = self.faults.saturating_add(1);
    }

    fn gather(&mut self) -> Option<J::Out> {
        let Running { handle } = self.running.pop_front()?;
        Some(handle.join(&self.rt))
    }

    fn started(&self) -> u64 {
        self.started
    }

    fn most(&self) -> u64 {
        self.most
    }

    fn faults(&self) -> u64 {
        self.faults
    }
}
