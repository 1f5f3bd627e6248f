// A set of places that takes no memory.
ghost use Rattle.std.specs.Prelude.{◌≡◌, ◌==◌, ◌≤◌, ◌<◌, ◌||◌, ℕ, false, not, replicate};
ghost use Rattle.std.specs.List.{count_by, range_with_len};
ghost use Rattle.bitmap.specs.Slots.{has_bit};
ghost use Rattle.mesh_graph.specs.declared.build.TheConstants.{MOST_GROUPS};

use mesh_graph::MOST_GROUPS;

/// Words for the places that a set has.
const WORDS: usize = MOST_GROUPS / 64;

/// A set of places below [`MOST_GROUPS`]: a bit for each, in 512 bytes of its own. The checker asks
/// it whether a group was met before, where a walk over the earlier ones would cost their square.
#[derive(Drop)]
pub(crate) struct PlaceSet {
    words: [u64; WORDS],
}

impl PlaceSet {
    pub(crate) fn empty() -> PlaceSet
        ensures { (place : ℕ) → has_bit result.words place ≡ false }
    {
        PlaceSet {
            words: zeros::<WORDS>(),
        }
    }

    /// Puts the place in, and answers whether it is a new one.
    pub(crate) fn insert(&mut self, place: usize) -> bool
        requires { place < MOST_GROUPS }
        ensures new { result ≡ not (has_bit self.old.words place) }
        ensures bits { (other : ℕ) → has_bit self.new.words other
            ≡ (other == place || has_bit self.old.words other) }
    {
        let word = self.words[place / 64];
        self.words[place / 64] = word | (1 << (place % 64));
        (word >> (place % 64)) & 1 == 0
    }

    pub(crate) fn contains(&self, place: usize) -> bool
        requires { place < MOST_GROUPS }
        ensures { result ≡ has_bit self.now.words place }
    {
        (self.words[place / 64] >> (place % 64)) & 1 == 1
    }

    /// How many of the first places are in the set.
    pub(crate) fn count_below(&self, places: usize) -> usize
        requires { places ≤ MOST_GROUPS }
        ensures { result ≡ count_by (has_bit self.now.words) (range_with_len 0 places) }
    {
        let mut count = 0;
        for place in 0..places {
            count += usize::from(self.contains(place));
        }
        count
    }
}

fn zeros<const N: usize>() -> [u64; N]
    ensures { result ≡ replicate N 0 }
{
    [0; N]
}
