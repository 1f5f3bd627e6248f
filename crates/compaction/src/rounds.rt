// Which round comes next.

use crate::division::Division;
use crate::occupancy::{MOST_GROUPS, Occupancy};

/// How many groups a round may have in the pool at least, whatever the budget is: with fewer a plan
/// looks at too few to be worth it, so such a round is retired over several calls.
const LEAST_ROUND: usize = 64;

/// How many of the sparsest pages the first part has.
const FIRST_PART: usize = 8;

/// Parts of at most so many pages are few: they are halved, and no half of all pages is worth it.
const FEW: usize = 32;

/// After how many poor rounds in a row there is no more, and of few pages.
const POOR_ROUNDS: u32 = 3;

const POOR_OF_FEW: u32 = 4;

/// All pages are divided if one of so many can go.
const WORTH_HALVES: usize = 8;

/// After that the first part has one of so many pages.
const PARTS: usize = 64;

/// The rounds of a compaction. The first leaves as few pages in the shards as can be expected to
/// stay, so that several plans fold the others onto these, if that gives more than halves could.
/// The others begin with the 8 sparsest pages, once with all of these in the pool and once with
/// half of them, and go on with twice as many each time: if pages fit others, then first these.
/// Once they are worth it and much can go, half of all pages is divided from the other half by
/// shards. Some poor rounds in a row are the last ones.
#[derive(Clone, Copy)]
pub(crate) struct Rounds {
    has_gathered: bool,
    has_halved: bool,
    // How many of the sparsest pages come next, or 0 before the first part, and whether some of
    // them are kept.
    part: usize,
    keeps: bool,
    // How many rounds in a row were not worth it.
    poor: u32,
}

impl Rounds {
    /// Before the first one.
    pub(crate) fn none() -> Rounds {
        Rounds {
            has_gathered: false,
            has_halved: false,
            part: 0,
            keeps: false,
            poor: 0,
        }
    }

    /// The division of the next round, if there is one. A plan of it compares at most 4,096 times
    /// so many pairs of groups as the budget is, or as 64 or 4,096 if that is out of these bounds.
    pub(crate) fn next(&mut self, pages: Occupancy, budget: usize) -> Option<Division> {
        if pages.most_folds() == 0 {
            return None;
        }
        let most = budget.clamp(LEAST_ROUND, MOST_GROUPS);
        let gathered = self.next_gathered(pages, most);
        if gathered.is_some() {
            return gathered;
        }
        let largest = pages.largest_part();
        if self.poor >= most_poor(largest) {
            return None;
        }
        let halves = self.next_halves(pages, most);
        if halves.is_some() {
            return halves;
        }
        Some(self.next_part(largest, most))
    }

    // The round that leaves as few pages as can be expected to stay, which is the first one if any.
    fn next_gathered(&mut self, pages: Occupancy, most: usize) -> Option<Division> {
        if self.has_gathered {
            return None;
        }
        self.has_gathered = true;
        match pages.gathered() {
            Some(retired) if is_bounded(retired, pages.pages, most) => {
                Some(Division::whole(retired))
            }
            _ => None,
        }
    }

    // The round that divides all pages, once the first part was worth it, if much can go.
    fn next_halves(&mut self, pages: Occupancy, most: usize) -> Option<Division> {
        let half = pages.pages / 2;
        let is_worth = self.part > FIRST_PART
            && self.poor < 2
            && pages.largest_part() > FEW
            && pages.most_folds().saturating_mul(WORTH_HALVES) >= pages.pages;
        if self.has_halved || !is_worth || !is_bounded(half, pages.pages, most) {
            return None;
        }
        self.has_halved = true;
        self.part = FIRST_PART.max(pages.pages / PARTS);
        Some(Division::by_shards(half))
    }

    // The next part, once with all of it in the pool and once with half of it.
    fn next_part(&mut self, largest: usize, most: usize) -> Division {
        let part = if self.part == 0 {
            FIRST_PART.min(largest)
        } else {
            self.part.min(largest)
        };
        let keeps = self.keeps;
        self.keeps = !keeps && part > 1;
        self.part = if self.keeps {
            part
        } else {
            part_after(part, largest)
        };
        if keeps {
            Division::halved(part.min(most.saturating_mul(2)))
        } else {
            Division::whole(part.min(most))
        }
    }

    /// Notes whether the plans of a round were worth it.
    pub(crate) fn note(&mut self, is_worth: bool) {
        if is_worth {
            self.poor = 0;
        } else if self.part > 0 {
            self.poor = self.poor.saturating_add(1);
        }
    }
}

// After how many poor rounds in a row there is no more, if the largest part has so many pages.
fn most_poor(largest: usize) -> u32 {
    if largest > FEW {
        POOR_ROUNDS
    } else {
        POOR_OF_FEW
    }
}

// The part after this one: of few pages half of it, down to one, and else twice as many, up to the
// largest.
fn part_after(part: usize, largest: usize) -> usize {
    if largest > FEW {
        if part < largest {
            part.saturating_mul(2).min(largest)
        } else {
            FIRST_PART
        }
    } else if part > 1 {
        part / 2
    } else {
        largest
    }
}

// Whether a plan with so many groups in the pool compares at most 4,096 times so many pairs.
fn is_bounded(pool: usize, pages: usize, most: usize) -> bool {
    let owned = pages.saturating_sub(pool).min(MOST_GROUPS);
    pool.min(MOST_GROUPS).saturating_mul(owned) <= most.saturating_mul(MOST_GROUPS)
}
