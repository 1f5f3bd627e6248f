// What the core is asked.
use span::names::{Key, Object};

/// One call on the core: what it is asked.
#[derive(Clone, Copy, Debug)]
pub enum Event {
    /// Keep the object in the shard of this number, from 0 on.
    Put { shard: u32, value: Object },
    /// Look the key up.
    Get { key: Key },
    /// Set the key to the object, in place of the one of its class that it has.
    Set { key: Key, value: Object },
    /// Free the key.
    Free { key: Key },
    /// Free the key later: it goes on the ring from the worker of this number to the shard that
    /// opened its span.
    Later { worker: u32, key: Key },
    /// Take the oldest key from the ring from the worker to the shard of these numbers, and free it
    /// wherever its span is.
    Settle { worker: u32, shard: u32 },
    /// End the shard of this number: its groups go to the pool, and it takes no put until it begins
    /// again.
    End { shard: u32 },
    /// Let the shard of this number, which has ended, run again, for a new thread: its serials go
    /// on from where they stood.
    Begin { shard: u32 },
    /// Move up to `most` groups with a live key of the shard of this number to the pool, those with
    /// the fewest first, and let the shard go on.
    Retire { shard: u32, most: usize },
    /// Give back the page of each open group of the shard of this number in which no slot is live;
    /// the groups stay.
    Trim { shard: u32 },
    /// Move the pool's group of lowest head that has a page to the shard of this number.
    Adopt { shard: u32 },
    /// Plan as many folds as possible of the pool's groups onto the shards' groups, and close those
    /// that are planned onto.
    Mark,
    /// Do as a mark does, with the 4,096 groups of each side that have the fewest live slots, or
    /// all where there are no more.
    MarkSome,
    /// Carry out the next pair of the open plan.
    Step,
    /// End the open plan, and open all groups.
    Close,
}
