// What some groups have, which stand for all.
ghost use Rattle.std.specs.Prelude.{◌*◌, ◌≡◌, ◌≤◌, length};
ghost use Rattle.bitmap.specs.declared.bits.TheConstants.{SLOTS};
ghost use Rattle.groups.specs.Group.{live_in, paged_in};
ghost use Rattle.shard.specs.Spaced as spaces;
ghost use Rattle.shard.specs.Spaced.{spaced};
ghost use Rattle.shard.specs.Sound.{IsSound};

use super::Shard;
use span::spans::Log;

/// What some of the groups have.
#[derive(Clone, Copy, PartialEq, Eq, Debug)]
pub struct Sample {
    /// How many of them have a page.
    pub pages: usize,
    /// How many keys are live in them.
    pub live: usize,
}

/// A sample has so many groups at most, and one more of each shard.
const MOST_LOOKED_AT: usize = 4096;

/// How many of so many groups a sample passes over after each that it looks at: none of up to 4,096
/// groups, and of more as few as can be if it looks at no more than these.
pub fn gap_of(count: usize) -> u32
    ensures { result ≡ spaces.gap_of count }
{
    (count.saturating_sub(1) / MOST_LOOKED_AT).min(u32::MAX as usize) as u32
}

impl<L: Log> Shard<L> {
    /// What the first group has together with one after each `gap` others, by ascending head. It
    /// reads no other group.
    pub fn sample(&self, gap: u32) -> Sample
        ensures pages { result.pages ≡ length (paged_in (spaced gap self.now.groups)) }
        ensures live { result.live ≡ live_in (spaced gap self.now.groups) }
        ensures few { result.pages ≤ length self.now.groups }
        ensures few_live { result.live ≤ SLOTS * length self.now.groups }
        ensures sound { IsSound self.now }
    {
        let step = gap as usize + 1;
        let mut pages = 0;
        let mut live = 0;
        let mut index = 0;
        while index < self.groups.len() {
            let group = &self.groups[index];
            if group.is_paged() {
                pages += 1;
            }
            live += group.live();
            index += step;
        }
        Sample { pages, live }
    }
}
