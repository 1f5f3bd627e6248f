// Pages that move to lower blocks.
ghost use Rattle.std.specs.Prelude.{◌≡◌, ◌-◌, IfOk, length, min};
ghost use Rattle.pool.specs.Sound.{IsSound};

use super::Stock;
use span::spans::Log;
use std::alloc::AllocError;

impl<L: Log> Stock<L> {
    /// Moves the pages of up to `most` groups, from this one on, to blocks that it asks for now,
    /// and says how many groups these are.
    ///
    /// # Errors
    ///
    /// `AllocError` if a block is refused. Some pages have moved then.
    pub(crate) fn gather(&mut self, from: usize, most: usize) -> Result<usize, AllocError>
        ensures same { self.new ≡ self.old }
        ensures count { IfOk result (λ count. count ≡ min most (length self.old.groups - from)) }
        ensures sound { IsSound self.new }
    {
        self.groups.gather(self.alloc, from, most)
    }
}
