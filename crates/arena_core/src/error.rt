// Why no core was made.
use thiserror::Error;

/// Why no core was made.
#[derive(Clone, Copy, PartialEq, Eq, Debug, Error)]
pub enum CoreError {
    /// A number of the product is out of its range.
    #[error("a number is out of range: 1 to 64 shards, 1 to 1048576 pages a shard, rings of 1 to 1024 entries, 1 to 4294967295 generations")]
    Config,
}
