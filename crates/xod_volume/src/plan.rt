//! Which calls of a volume in memory are to fail.
//!
//! A `MemoryVolume` and all its leases share one plan, which counts the calls of them all in one atomic word. No clause
//! knows the number of a call: any call may be one that fails, and where no call is planned none is.
ghost use Rattle.std.specs.Prelude.{◌≡◌, [], false};

use std::sync::atomic::{AtomicU64, Ordering};

/// The numbers of the calls that are to fail, and how many calls there have been.
#[derive(Drop)]
pub struct Plan {
    failing: Vec<u64>,
    made: AtomicU64,
}

impl Plan {
    /// The plan that these calls fail, counted from 0.
    pub fn new(failing: Vec<u64>) -> Self
        ensures { result.failing.items ≡ failing.items }
    {
        Plan {
            failing,
            made: AtomicU64::new(0),
        }
    }

    /// Counts a call, and answers whether it is to fail.
    pub fn fails(&self) -> bool
        ensures { self.now.failing.items ≡ [] → result ≡ false }
    {
        let number = self.made.fetch_add(1, Ordering::SeqCst);
        self.failing.contains(&number)
    }
}
