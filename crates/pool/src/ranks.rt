// Ranks of heads, of which the least is at hand.
ghost use Rattle.std.specs.Prelude.{◌≡◌, ◌<◌, ◌≤◌, ◌+◌, ◌∷◌, [], ℕ, MatchOption, OnOk, length};
ghost use Rattle.std.specs.List.Sorted.{IsPermutation};
ghost use Rattle.pool.specs.Noted.{IsLeastOf};

use std::alloc::{AllocError, Global};
use std::cmp::Reverse;
use std::collections::BinaryHeap;
use std::marker::Model;

/// Ranks, each as often as it was put in, in a binary heap: the least is found at once, and one
/// that goes in or out takes as many steps as the number of ranks has binary digits.
#[derive(Drop)]
pub(crate) struct Ranks {
    heap: BinaryHeap<Reverse<u64>>,
}

impl Model for Ranks {
    ghost use Rattle.pool.specs.Noted.{RanksState};
    ghost use Rattle.std.specs.Coded.{codes};

    ghost Value = { RanksState };

    ghost coded = { Prim.hlevel codes };

    ghost use Rattle.pool.specs.RanksKept.{IsKept, state_of};

    ghost view = { state_of };

    ghost invariant = { IsKept };
}

impl Ranks {
    /// No rank. Takes no memory.
    pub(crate) fn new(alloc: Global) -> Ranks
        ensures { result.ranks ≡ [] }
    {
        Ranks {
            heap: BinaryHeap::new(alloc),
        }
    }

    /// How many ranks it has.
    pub(crate) fn len(&self) -> usize
        ensures len { result ≡ length self.now.ranks }
        ensures fits { result ≤ self.now.capacity }
    {
        self.heap.len()
    }

    /// Makes room for that many more ranks.
    ///
    /// # Errors
    ///
    /// `AllocError` where memory is refused.
    pub(crate) fn reserve(&mut self, more: usize) -> Result<(), AllocError>
        ensures same { self.new.ranks ≡ self.old.ranks }
        ensures room { OnOk result (length self.new.ranks + more ≤ self.new.capacity) }
        ensures capacity { self.old.capacity ≤ self.new.capacity }
    {
        self.heap.reserve(more)
    }

    /// Puts the rank in, where there is room.
    pub(crate) fn put(&mut self, rank: u64)
        requires { length self.old.ranks < self.old.capacity }
        ensures more { IsPermutation (rank ∷ self.old.ranks) self.new.ranks }
        ensures capacity { self.old.capacity ≤ self.new.capacity }
    {
        match self.heap.push(Reverse(rank)) {
            Ok(()) => {}
            Err(_) => unreachable!(),
        }
    }

    /// The least rank.
    pub(crate) fn least(&self) -> Option<u64>
        ensures { MatchOption result (self.now.ranks ≡ []) (IsLeastOf self.now.ranks) }
    {
        let Reverse(rank) = self.heap.peek()?;
        Some(*rank)
    }

    /// The least rank goes, once.
    pub(crate) fn drop_least(&mut self)
        ensures dropped { (rank : ℕ) → IsLeastOf self.old.ranks rank
            → IsPermutation self.old.ranks (rank ∷ self.new.ranks) }
        ensures capacity { self.new.capacity ≡ self.old.capacity }
    {
        self.heap.pop();
    }

    /// All ranks go. The room stays.
    pub(crate) fn clear(&mut self)
        ensures { self.new ≡ record self.old { ranks = [] } }
    {
        self.heap.clear();
    }

    /// Gives memory back where a quarter of the room would do for so many ranks and those that room
    /// is reserved for. Twice as much stays.
    pub(crate) fn give_back(&mut self, used: usize, room: usize)
        requires len { length self.old.ranks ≤ used }
        requires room { used + room ≤ self.old.capacity }
        ensures same { self.new.ranks ≡ self.old.ranks }
        ensures room { used + room ≤ self.new.capacity }
    {
        let capacity = self.heap.capacity();
        let wanted = used + room;
        if wanted < capacity / 4 {
            self.heap.shrink_to(2 * wanted);
        }
    }
}
