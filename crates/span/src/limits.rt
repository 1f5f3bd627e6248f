// The limits that several crates speak of.

/// How many shards there are at most: the shard of an id is below this.
pub const MOST_SHARDS: u32 = 64;

/// How many spans one shard opens at most: the serial of an id is below this.
pub const MOST_SPANS: u32 = u32::MAX;

/// How many span ids there are: the rank of an id is below this.
pub const ALL_IDS: u64 = MOST_SHARDS as u64 * MOST_SPANS as u64;

/// How many pages one shard has at most.
pub const MOST_PAGES: usize = 1_048_576;

/// How many keys a ring of deferred frees holds at most.
pub const MOST_RING_KEYS: usize = 1024;
