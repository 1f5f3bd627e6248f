// One round of a compaction, and whether it was worth it.

use crate::division::Division;

/// What a round retires, and what it has done of that.
#[derive(Clone, Copy)]
pub(crate) struct Round {
    // None if the round is of what the pool had before.
    division: Option<Division>,
    retired: usize,
    kept: usize,
    /// Whether one of its marks planned enough.
    pub(crate) is_worth: bool,
    /// Whether the last mark planned so much, and left so much in the pool, that another one is
    /// worth it.
    pub(crate) is_again: bool,
}

impl Round {
    /// The round of what is in the pool, which retires nothing.
    pub(crate) fn of_pool() -> Round {
        Round {
            division: None,
            retired: 0,
            kept: 0,
            is_worth: false,
            is_again: false,
        }
    }

    /// The round of this division.
    pub(crate) fn of(division: Division) -> Round {
        Round {
            division: Some(division),
            ..Round::of_pool()
        }
    }

    /// Whether it retires something.
    pub(crate) fn has_division(self) -> bool {
        self.division.is_some()
    }

    /// Whether every second shard retires what it has.
    pub(crate) fn is_by_shards(self) -> bool {
        match self.division {
            Some(division) => division.is_by_shards,
            None => false,
        }
    }

    /// How many groups a shard that is asked retires, if others have as many and so many shards are
    /// left. If every second shard does, the last one may give an eighth more, and so all it has.
    pub(crate) fn share(self, left: usize) -> usize {
        if !self.is_by_shards() {
            return self.wanted().div_ceil(left.max(1));
        }
        let more = if self.retired > 0 {
            self.retired.saturating_add(self.wanted()) / 8
        } else {
            0
        };
        self.wanted().saturating_add(more)
    }

    /// How many groups are left to be retired.
    pub(crate) fn wanted(self) -> usize {
        match self.division {
            Some(division) => division.retired.saturating_sub(self.retired),
            None => 0,
        }
    }

    /// How many groups of those that were retired are left to be adopted before the plan.
    pub(crate) fn to_keep(self) -> usize {
        match self.division {
            Some(division) => division.kept_of(self.retired).saturating_sub(self.kept),
            None => 0,
        }
    }

    /// The round after so many groups were retired.
    pub(crate) fn with_retired(self, count: usize) -> Round {
        Round {
            retired: self.retired.saturating_add(count),
            ..self
        }
    }

    /// The round after one of the groups was adopted again.
    pub(crate) fn with_kept(self) -> Round {
        Round {
            kept: self.kept.saturating_add(1),
            ..self
        }
    }

    /// The round after a mark that was worth it or not, and that left some groups in the pool or
    /// none.
    pub(crate) fn with_mark(self, is_worth: bool, leaves_some: bool) -> Round {
        Round {
            is_worth: self.is_worth || is_worth,
            is_again: is_worth && leaves_some,
            ..self
        }
    }
}
