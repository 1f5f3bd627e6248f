// Why no arena was opened.
ghost use Rattle.std.specs.Prelude.{◌≡◌};
ghost use Rattle.arena.specs.declared.error.OpenError.TheVariants.{OutOfMemory};

use std::alloc::AllocError;
use thiserror::Error;

/// Why no arena was opened.
#[derive(Clone, Copy, PartialEq, Eq, Debug, Error)]
pub enum OpenError {
    /// A number of the arena is out of its range, whether or not there is memory.
    #[error("a number is out of range: 1 to 64 shards, 1 to 1048576 pages a shard, rings of 1 to 1024 keys, 1 to 4294967295 generations")]
    Config,
    /// Memory ran out, and each number is within its range.
    #[error("out of memory: free some and try again")]
    OutOfMemory,
}

/// Why nothing was forgotten: the steward has an open plan, which is to be closed before.
#[derive(Clone, Copy, PartialEq, Eq, Debug, Error)]
#[error("a plan is open: close it first")]
pub struct PlanOpen;

impl From<AllocError> for OpenError {
    ghost from_gives = { λ _ error. error ≡ OutOfMemory };

    fn from(_: AllocError) -> OpenError {
        OpenError::OutOfMemory
    }
}
