// Pages that move to lower blocks.
ghost use Rattle.std.specs.Prelude.{◌≡◌, ◌-◌, IfOk, length, min};
ghost use Rattle.pool.specs.Sound.{IsSound};

use super::Pool;
use span::spans::Log;
use std::alloc::AllocError;

impl<L: Log> Pool<L> {
    /// Moves the pages of up to `most` groups, from the one numbered `from` on, to blocks that it
    /// asks for now, and changes nothing else. It says how many groups these are: fewer than `most`
    /// if there are no more. Each group has a number below the number of groups, and keeps it until
    /// a group goes. A source of pages that hands out its lowest free block first can so empty its
    /// upper end.
    ///
    /// # Errors
    ///
    /// `AllocError` if a block is refused. Some pages have moved then.
    pub fn gather(&mut self, from: usize, most: usize) -> Result<usize, AllocError>
        ensures same { self.new ≡ self.old }
        ensures count { IfOk result (λ count. count ≡ min most (length self.old.groups - from)) }
        ensures sound { IsSound self.new }
    {
        let Some(stock) = &mut self.stock else {
            return Ok(0);
        };
        stock.gather(from, most)
    }
}
