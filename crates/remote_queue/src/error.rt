// Why no rings were made.
ghost use Rattle.std.specs.Prelude.{◌≡◌};
ghost use Rattle.remote_queue.specs.declared.error.LinkError.TheVariants.{OutOfMemory};

use std::alloc::AllocError;
use thiserror::Error;

/// Why no rings were made.
#[derive(Clone, Copy, PartialEq, Eq, Debug, Error)]
pub enum LinkError {
    /// A number is out of its range, whether or not there is memory.
    #[error("a number is out of range: 1 to 64 workers, 1 to 64 shards, rings of 1 to 1024 keys")]
    Config,
    /// Memory ran out, and each number is within its range.
    #[error("out of memory: free some and try again")]
    OutOfMemory,
}

impl From<AllocError> for LinkError {
    ghost from_gives = { λ _ error. error ≡ OutOfMemory };

    fn from(_: AllocError) -> LinkError {
        LinkError::OutOfMemory
    }
}
