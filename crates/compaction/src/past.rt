// What compactions before found out, by which it is estimated whether another one pays.

use crate::occupancy::Occupancy;
use bitmap::SLOTS;
use marks::Totals;

/// What the last compaction of a core found out.
#[derive(Clone, Copy)]
pub(crate) struct Past {
    // How many slots a page has, of the class with the most that one of its marks saw, or 0 before
    // the first mark.
    slots: usize,
    // How many pages it left that could have gone by the counts of an estimate.
    stay: usize,
}

impl Past {
    /// Before the first compaction.
    pub(crate) fn none() -> Past {
        Past { slots: 0, stay: 0 }
    }

    /// After a mark that saw pages of so many slots.
    pub(crate) fn with_slots(self, slots: usize) -> Past {
        Past {
            slots: self.slots.max(slots),
            ..self
        }
    }

    /// After a compaction that left so much, by an estimate as the next look takes it.
    pub(crate) fn with_left(self, totals: Totals) -> Past {
        Past {
            stay: self.most_folds(totals),
            ..self
        }
    }

    // How many pages can go at most of a core with so much.
    fn most_folds(self, totals: Totals) -> usize {
        let slots = if self.slots == 0 { SLOTS } else { self.slots };
        Occupancy::new(totals, slots).most_folds()
    }

    /// Whether at least so many percent of the pages of a core with so much, by an estimate, could
    /// go, without as many as the last compaction has left.
    pub(crate) fn pays(self, totals: Totals, least_percent: usize) -> bool {
        let may_go = self.most_folds(totals).saturating_sub(self.stay);
        may_go > 0 && may_go.saturating_mul(100) >= totals.pages.saturating_mul(least_percent)
    }
}
