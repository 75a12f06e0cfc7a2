ghost use Rattle.std.specs.Prelude.{◌≢◌};

use crossbeam_utils::CachePadded;
use std::sync::Wait;
use std::sync::atomic::{AtomicU64, Ordering};
use std::time::Duration;

/// A room where threads wait for a count to change. It lies in a block of memory of its own, so
/// that threads that look at it don't slow down those that write beside it.
#[derive(Drop)]
pub struct WaitRoom {
    count: CachePadded<AtomicU64>,
}

impl WaitRoom {
    pub fn new() -> WaitRoom {
        WaitRoom {
            count: CachePadded::new(AtomicU64::new(0)),
        }
    }

    /// The count at this moment. Other threads may ring at any time.
    pub fn count(&self) -> u64 {
        self.count.load(Ordering::SeqCst)
    }

    /// Adds 1 to the count, modulo 2^64, and wakes those who sleep; whoever sleeps still sees it at
    /// its next look.
    pub fn ring(&self) {
        self.count.fetch_add(1, Ordering::SeqCst);
        self.count.wake_all();
    }

    /// Sleeps and looks again until the count isn't `seen`, and answers it.
    pub fn wait<R: Wait>(&self, rt: &R, seen: u64) -> u64
        ensures { result ≢ seen }
    {
        for _ in rt.forever() {
            let found = self.count();
            if found != seen {
                return found;
            }
            // A sleep compares the low half of the count alone; its length bounds what that can't
            // see.
            self.count
                .park_timeout(rt, (seen & 0xffff_ffff) as u32, Duration::from_millis(1));
        }
        unreachable!()
    }
}
