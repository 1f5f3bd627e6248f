// How many groups have so many live slots.
ghost use Rattle.std.specs.Prelude.{◌≡◌, ◌+◌, ◌-◌, ◌*◌, ◌≤◌, ◌^◌, ℕ, MatchOption, min, replicate, slice_index_or, slice_set};
ghost use Rattle.bitmap.specs.declared.bits.TheConstants.{SLOTS};
ghost use Rattle.groups.specs.Tally.{IsBoundOf, below, wanted};
ghost use Rattle.groups.specs.declared.live_tally.TheConstants.{COUNTS, SAMPLE};

use bitmap::SLOTS;
use std::marker::Model;

/// How many groups a sample has at most.
pub const SAMPLE: usize = 2048;

/// How many groups of a sample are looked for beyond the part that is wanted, so that a small part
/// is not missed by chance.
pub const MARGIN: usize = 8;

/// How many numbers of live slots a group may have: 0 to 256.
pub const COUNTS: usize = SLOTS + 1;

/// For each number of live slots, how many of the groups that were counted have it. It takes no
/// memory of its own, however many they are.
#[derive(Drop)]
pub struct LiveTally {
    counts: [usize; COUNTS],
}

impl Model for LiveTally {
    ghost use Rattle.std.specs.Prelude.{List, ℕ};

    ghost Value = { List ℕ };

    ghost view = { λ tally. tally.counts };
}

impl LiveTally {
    /// No group is counted yet.
    pub fn none() -> LiveTally
        ensures { result ≡ replicate COUNTS 0 }
    {
        LiveTally {
            counts: [0; COUNTS],
        }
    }

    /// Counts a group that has so many live slots.
    #[inline(always)]
    pub fn count(&mut self, live: usize)
        requires { live ≤ SLOTS }
        ensures { self.new ≡ slice_set self.old live
            (min (slice_index_or self.old live 0 + 1) (2 ^ 64 - 1)) }
    {
        self.counts[live] = self.counts[live].saturating_add(1);
    }

    /// The least number of slots such that more of the counted groups have fewer live ones than are
    /// wanted of them: if they are one of each `step` groups, `most` of all groups are then likely
    /// to have fewer. `None` if no more were counted. The caller must count the groups that it
    /// finds by it.
    pub fn likely_bound(&self, most: usize, step: usize) -> Option<usize>
        requires { 1 ≤ step }
        ensures { MatchOption result (below self.now COUNTS ≤ wanted most step)
            (IsBoundOf self.now (wanted most step)) }
    {
        let part = most / step;
        bound_of(&self.counts, part.saturating_add(part / 2 + MARGIN))
    }
}

/// The least step with which one of each so many groups are a sample of few.
pub fn sample_step(groups: usize) -> usize
    ensures some { 1 ≤ result }
    ensures few { groups ≤ SAMPLE * result }
    ensures least { (step : ℕ) → 1 ≤ step → groups ≤ SAMPLE * step → result ≤ step }
{
    groups.div_ceil(SAMPLE).max(1)
}

// The least number of slots such that more groups than are wanted have fewer live ones.
fn bound_of(counts: &[usize; COUNTS], wanted: usize) -> Option<usize>
    ensures { MatchOption result (below counts.now COUNTS ≤ wanted)
        (IsBoundOf counts.now wanted) }
{
    let mut left = wanted;
    for live in 0..COUNTS {
        let here = counts[live];
        if here > left {
            return Some(live + 1);
        }
        left -= here;
    }
    None
}
