// The guard of a lock.
ghost use Rattle.std.specs.Prelude.{◌≡◌};

use crate::latch::{Latch, Turn};
use std::ops::{Deref, DerefMut};

/// Lends the value of a [`Latch`] to one thread, and gives it back when it is dropped.
pub struct LatchGuard<'a, T: Drop> {
    /// The latch that lends it.
    pub latch: &'a Latch<T>,
    turn: Turn<T>,
    /// What is lent.
    pub value: Box<T>,
    ghost same: { turn ≡ latch.now },
}

impl<'a, T: Drop> LatchGuard<'a, T> {
    pub(crate) fn new(latch: &'a Latch<T>, turn: Turn<T>, value: Box<T>) -> LatchGuard<'a, T>
        requires { turn ≡ latch.now }
        ensures { result.latch.now ≡ latch.now }
    {
        LatchGuard { latch, turn, value }
    }
}

impl<T: Drop> Deref for LatchGuard<'_, T> {
    type Target = T;

    ghost deref_gives = { λ guard value. value ≡ guard.value.value };

    #[inline]
    fn deref(&self) -> &T {
        &*self.value
    }
}

impl<T: Drop> DerefMut for LatchGuard<'_, T> {
    ghost deref_mut_gives = { λ guard value. value ≡ guard.value.value };

    #[inline]
    fn deref_mut(&mut self) -> &mut T {
        &mut *self.value
    }
}

impl<T: Drop> Drop for LatchGuard<'_, T> {
    #[inline(always)]
    fn drop(self) {
        let Self { latch, turn, value } = self;
        latch.give(turn, value);
    }
}
