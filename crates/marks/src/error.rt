// Why a mark was refused.
ghost use Rattle.std.specs.Prelude.{◌≡◌};
ghost use Rattle.marks.specs.declared.error.MarkError.TheVariants as mark_error;

use std::alloc::AllocError;
use thiserror::Error;

/// Why a mark was refused. Pool and shards are as they were before.
#[derive(Clone, Copy, PartialEq, Eq, Debug, Error)]
pub enum MarkError {
    /// Memory ran out, while no plan is open and no side has too many groups.
    #[error("out of memory: free some and try again")]
    OutOfMemory,
    /// Two groups of one side that have a page have the same head.
    #[error("two groups of one side have the same head")]
    Doubled,
    /// A plan is open.
    #[error("a plan is open: close it first")]
    PlanOpen,
    /// A side has more than 4,096 groups that have a page.
    #[error("a side has more than 4096 groups, too many for a plan")]
    TooMany,
}

impl From<AllocError> for MarkError {
    ghost from_gives = { λ _ error. error ≡ mark_error.OutOfMemory };

    fn from(_: AllocError) -> MarkError {
        MarkError::OutOfMemory
    }
}
