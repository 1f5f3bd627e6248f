// Pages that move to lower blocks, in parts, so that no lock is held for long.
ghost use Rattle.std.specs.Prelude.{◌≡◌, ◌≤◌, ◌-◌, IfOk, length, min};

use crate::arena::Arena;
use crate::gate::Gate;
use crate::patience::{Patience, Tries, Waits};
use latch::Busy;
use shard::Shard;
use span::spans::Log;
use std::alloc::AllocError;
use std::sync::Wait;

impl<G: Gate, L: Log> Arena<G, L> {
    /// Moves the pages of up to `most` groups of the pool, from the one numbered `from` on, to
    /// blocks that it asks for now, under the pool's lock, and says how many groups these are:
    /// fewer than `most` if the pool has no more. No key changes. In parts of few groups the lock
    /// is held for a short time only; groups that come or go between two parts may be passed over,
    /// or moved twice. [`Seat::gather`](crate::Seat::gather) does so of a seat's shard.
    ///
    /// # Errors
    ///
    /// `AllocError` if a block is refused. Some pages have moved then.
    pub fn gather_pool<R: Wait>(
        &self,
        rt: &R,
        from: usize,
        most: usize,
    ) -> Result<usize, AllocError>
        ensures at_most { IfOk result (λ count. count ≤ most) }
    {
        let Ok(gathered) = self.gather_pool_within(&Waits { rt }, from, most);
        gathered
    }

    /// What [`Arena::gather_pool`] does, if no other thread has the pool's lock.
    ///
    /// # Errors
    ///
    /// [`Busy`] if another thread has it. Else the gathering, whose error is that of
    /// [`Arena::gather_pool`].
    pub fn try_gather_pool(
        &self,
        from: usize,
        most: usize,
    ) -> Result<Result<usize, AllocError>, Busy>
        ensures at_most { IfOk result (λ gathered. IfOk gathered (λ count. count ≤ most)) }
    {
        self.gather_pool_within(&Tries, from, most)
    }

    // Moves the pages of up to that many groups of the pool.
    fn gather_pool_within<P: Patience>(
        &self,
        patience: &P,
        from: usize,
        most: usize,
    ) -> Result<Result<usize, AllocError>, P::Busy>
        ensures at_most { IfOk result (λ gathered. IfOk gathered (λ count. count ≤ most)) }
    {
        let mut pool = patience.lock(&self.pool)?;
        Ok(pool.gather(from, most))
    }
}

/// Moves the pages of up to `most` groups of the shard, from its group `from` on, to blocks that it
/// asks for now, the first first, and changes nothing else. It says how many groups these are.
///
/// # Errors
///
/// `AllocError` if a block is refused: some pages have moved then.
pub(crate) fn gather_in<L: Log>(
    shard: &mut Shard<L>,
    from: usize,
    most: usize,
) -> Result<usize, AllocError>
    ensures same { shard.new ≡ shard.old }
    ensures count { IfOk result (λ count. count ≡ min most (length shard.old.groups - from)) }
{
    let left = shard.len().saturating_sub(from);
    let count = left.min(most);
    for index in from..from + count {
        shard.renew(index)?;
    }
    Ok(count)
}
