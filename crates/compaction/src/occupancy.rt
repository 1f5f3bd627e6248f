// How full the pages are, and how many of them can be expected to go.

use marks::Totals;

/// What is 1 where a number has ten bits behind the point: a mean, or a part of a page.
const ONE: usize = 1024;

/// The chance of what is certain.
const CERTAIN: usize = 4_294_967_296;

/// How many groups a plan may have on a side.
pub(crate) const MOST_GROUPS: usize = 4096;

/// A round that gathers looks at so many pages at least, or at any number that has this many.
const LEAST_GATHERED: usize = 8;

/// How many pages there are, how many keys are live on them, and how many slots a page has, of the
/// class with the most.
#[derive(Clone, Copy)]
pub(crate) struct Occupancy {
    pub(crate) pages: usize,
    live: usize,
    slots: usize,
}

impl Occupancy {
    /// Of a core with these totals, whose pages have up to so many slots.
    pub(crate) fn new(totals: Totals, slots: usize) -> Occupancy {
        Occupancy {
            pages: totals.pages,
            live: totals.live,
            slots,
        }
    }

    /// How many pages can go at most: what is live needs the others, be each of these full.
    pub(crate) fn most_folds(self) -> usize {
        self.pages
            .saturating_sub(self.live.div_ceil(self.slots.max(1)))
    }

    /// How many of the sparsest pages a round retires at most: all that can be half empty, of which
    /// one is among any two that fit each other. If there were more, more pages could go.
    pub(crate) fn largest_part(self) -> usize {
        self.most_folds()
            .saturating_mul(2)
            .saturating_add(1)
            .min(self.pages / 2)
            .max(1)
    }

    /// How many pages a round retires that has several folded onto each that stays, if so many can
    /// be expected to go that halves could not give them; of few pages, if any can.
    pub(crate) fn gathered(self) -> Option<usize> {
        let expected = self.expected_folds();
        let is_more = self.pages < LEAST_GATHERED
            || expected.saturating_mul(5) >= self.pages.saturating_mul(3);
        if expected > 0 && is_more {
            Some(expected)
        } else {
            None
        }
    }

    // How many pages can be expected to go if the others are filled one fold after another.
    fn expected_folds(self) -> usize {
        let reachable = self.reachable();
        if reachable == 0 {
            return 0;
        }
        self.pages
            .saturating_sub(self.live.saturating_mul(ONE).div_ceil(reachable))
    }

    // How many keys a page can be expected to have in the end, in parts of `ONE`, if pages of the
    // mean are folded onto it one after another, as long as one of those that are left can be
    // expected to fit.
    fn reachable(self) -> usize {
        let mean = self.mean();
        let mut reached = mean;
        for _ in 0..self.slots {
            if !self.is_fit_expected(mean, reached) {
                break;
            }
            reached = reached.saturating_add(mean);
        }
        reached
    }

    // How many keys are live on a page in the mean, in parts of `ONE`.
    fn mean(self) -> usize {
        self.live.saturating_mul(ONE) / self.pages.max(1)
    }

    // Whether some page of the mean can be expected to fit onto each page that has reached so much.
    fn is_fit_expected(self, mean: usize, reached: usize) -> bool {
        let next = reached.saturating_add(mean);
        if next == 0 || next > self.slots.saturating_mul(ONE) {
            return false;
        }
        // So many pages would stay, and the others are folded but for the last of each.
        let stay = self.live.saturating_mul(ONE).saturating_mul(ONE) / next;
        let gone = stay.saturating_mul(reached) / mean.max(1);
        let left = self
            .pages
            .saturating_mul(ONE)
            .saturating_sub(gone)
            .clamp(ONE, MOST_GROUPS * ONE);
        self.chance(mean, reached).saturating_mul(left) >= CERTAIN * ONE
    }

    // The chance that the keys of a page of the mean, at random slots, meet none of a page that has
    // reached so much.
    fn chance(self, mean: usize, reached: usize) -> usize {
        let keys = (mean.saturating_add(ONE / 2) / ONE).clamp(1, self.slots.max(1));
        let mut slots = self.slots.saturating_mul(ONE);
        let mut free = slots.saturating_sub(reached);
        let mut chance = CERTAIN;
        for _ in 0..keys {
            chance = chance.saturating_mul(free) / slots.max(1);
            free = free.saturating_sub(ONE);
            slots = slots.saturating_sub(ONE);
        }
        chance
    }
}
