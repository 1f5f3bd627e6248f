// Which shard is next.

/// The shard that is asked next to retire or to adopt groups.
#[derive(Clone, Copy)]
pub(crate) struct Turn {
    pub(crate) shard: u32,
    /// How many groups it is still to retire before the next shard is asked, or 0 if that is not
    /// decided.
    pub(crate) due: usize,
    // A bit for each shard that can do no more: it has no group left to retire, may adopt none, or
    // has ended.
    without: u64,
}

impl Turn {
    /// The first shard, where each can do something.
    pub(crate) fn first() -> Turn {
        Turn {
            shard: 0,
            due: 0,
            without: 0,
        }
    }

    /// The turn of this shard.
    pub(crate) fn at(self, shard: u32) -> Turn {
        Turn {
            shard,
            due: 0,
            ..self
        }
    }

    /// The same turn, with so many groups still to come from the shard.
    pub(crate) fn with_due(self, due: usize) -> Turn {
        Turn { due, ..self }
    }

    /// The turn after the shard could do no more.
    pub(crate) fn without_this(self) -> Turn {
        Turn {
            without: self.without | 1u64.wrapping_shl(self.shard),
            ..self
        }
    }

    /// The turn of the next of so many shards that can do something.
    pub(crate) fn next(self, shards: u32) -> Turn {
        let mut shard = self.shard;
        for _ in 0..shards {
            shard = if shard < shards.saturating_sub(1) {
                shard.saturating_add(1)
            } else {
                0
            };
            if self.can(shard) {
                break;
            }
        }
        self.at(shard)
    }

    /// The turn of the shard before it, of so many, that can do something. What a shard opened is
    /// behind all that a shard before it opened, so that no other group there moves up.
    pub(crate) fn before(self, shards: u32) -> Turn {
        let mut shard = self.shard;
        for _ in 0..shards {
            shard = if shard > 0 && shard < shards {
                shard - 1
            } else {
                shards.saturating_sub(1)
            };
            if self.can(shard) {
                break;
            }
        }
        self.at(shard)
    }

    /// The turn of the next but one of so many shards, which passes the odd ones over at first.
    pub(crate) fn next_but_one(self, shards: u32) -> Turn {
        let next = self.shard.saturating_add(2);
        let is_even = self.shard % 2 == 0;
        self.at(if next < shards {
            next
        } else if is_even && shards > 1 {
            1
        } else {
            0
        })
    }

    /// How many shards from this one to the last of so many can do something.
    pub(crate) fn shards_left(self, shards: u32) -> usize {
        let mut count = 0usize;
        for shard in self.shard..shards {
            if self.can(shard) {
                count = count.saturating_add(1);
            }
        }
        count
    }

    /// Whether none of so many shards can do anything.
    pub(crate) fn is_over(self, shards: u32) -> bool {
        let mut is_over = true;
        for shard in 0..shards {
            is_over = is_over && !self.can(shard);
        }
        is_over
    }

    fn can(self, shard: u32) -> bool {
        self.without.wrapping_shr(shard) & 1 == 0
    }
}
