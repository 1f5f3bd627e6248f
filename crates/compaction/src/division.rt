// How a round divides the pages.

/// A round retires groups, and then has the shards adopt some of these again, those of the lowest
/// heads. The rest is folded onto all that is in shards.
#[derive(Clone, Copy)]
pub(crate) struct Division {
    /// How many groups are retired.
    pub(crate) retired: usize,
    /// How many of these the shards adopt again before the plan.
    kept: usize,
    /// Whether every second shard retires all that it has until they are so many, and not each
    /// shard its sparsest ones.
    pub(crate) is_by_shards: bool,
}

impl Division {
    /// So many of the sparsest groups, of which none is kept.
    pub(crate) fn whole(retired: usize) -> Division {
        Division {
            retired,
            kept: 0,
            is_by_shards: false,
        }
    }

    /// So many of the sparsest groups, of which half is kept: so those that fit each other can be
    /// on different sides.
    pub(crate) fn halved(retired: usize) -> Division {
        Division {
            kept: retired / 2,
            ..Division::whole(retired)
        }
    }

    /// So many groups of every second shard: so both sides have sparse groups and full ones.
    pub(crate) fn by_shards(retired: usize) -> Division {
        Division {
            is_by_shards: true,
            ..Division::whole(retired)
        }
    }

    /// How many groups of those that were retired are kept, if fewer could be than were asked for.
    pub(crate) fn kept_of(self, retired: usize) -> usize {
        self.kept.saturating_mul(retired) / self.retired.max(1)
    }
}
