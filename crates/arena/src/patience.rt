// How a call comes to a lock that another thread may have.
ghost use Rattle.std.specs.Prelude.{◌≡◌, IfOk};

use latch::{Busy, Latch, LatchGuard};
use std::convert::Infallible;
use std::sync::Wait;

/// Whether a call waits for a lock, or answers that another thread has it.
pub(crate) trait Patience {
    /// What it answers in place of waiting on. A call that waits answers nothing of that kind.
    type Busy: Drop;

    /// The guard of the lock.
    fn lock<'a, T: Drop>(&self, latch: &'a Latch<T>) -> Result<LatchGuard<'a, T>, Self::Busy>
        ensures { IfOk result (λ guard. guard.latch.now ≡ latch.now) };
}

/// Waits until it has the lock.
#[derive(Drop)]
pub(crate) struct Waits<'a, R: Wait> {
    pub(crate) rt: &'a R,
}

impl<'a, R: Wait> Patience for Waits<'a, R> {
    type Busy = Infallible;

    #[inline]
    fn lock<'b, T: Drop>(&self, latch: &'b Latch<T>) -> Result<LatchGuard<'b, T>, Infallible> {
        Ok(latch.lock(self.rt))
    }
}

/// Looks a bounded number of times.
#[derive(Clone, Copy)]
pub(crate) struct Tries;

impl Patience for Tries {
    type Busy = Busy;

    #[inline(always)]
    fn lock<'a, T: Drop>(&self, latch: &'a Latch<T>) -> Result<LatchGuard<'a, T>, Busy> {
        latch.try_lock()
    }
}
