// Why the end of a shard or a retirement was refused, and why an adoption was.
ghost use Rattle.std.specs.Prelude.{◌≡◌};
ghost use Rattle.pool.specs.declared.error.AdoptError.TheVariants as adopt;
ghost use Rattle.pool.specs.declared.error.ReceiveError.TheVariants as receive;

use std::alloc::AllocError;

/// Why the end of a shard or a retirement was refused. Pool and shard are as they were before.
#[derive(Clone, Copy, PartialEq, Eq, Debug, thiserror::Error)]
pub enum ReceiveError {
    /// The pool's row of groups or its directory could not grow, or the list of the groups that
    /// were to go.
    #[error("out of memory")]
    OutOfMemory,
    /// The shard has ended before.
    #[error("the shard has ended")]
    Ended,
    /// A span of the shard is in the pool already.
    #[error("a span of the shard is in the pool already")]
    Doubled,
    /// A group of the shard is closed, since a plan of folds is open.
    #[error("a group of the shard is closed by a plan of folds")]
    PlanOpen,
}

impl From<AllocError> for ReceiveError {
    ghost from_gives = { λ _ e. e ≡ receive.OutOfMemory };

    fn from(_: AllocError) -> ReceiveError {
        ReceiveError::OutOfMemory
    }
}

/// Why no group was adopted. Pool and shard are as they were before.
#[derive(Clone, Copy, PartialEq, Eq, Debug, thiserror::Error)]
pub enum AdoptError {
    /// The shard's list of groups or its directory could not grow.
    #[error("out of memory")]
    OutOfMemory,
    /// The shard has as many groups as it may have pages.
    #[error("the shard may have no more pages")]
    PagesSpent,
    /// The shard has ended.
    #[error("the shard has ended")]
    Ended,
    /// A span of the group is in the shard already, or one that the shard may yet open.
    #[error("a span of the group is in the shard already, or one that it may yet open")]
    Doubled,
    /// A plan of folds is open.
    #[error("a plan of folds is open")]
    PlanOpen,
    /// No group of the pool has a page.
    #[error("no group has a page")]
    NothingToAdopt,
}

impl From<AllocError> for AdoptError {
    ghost from_gives = { λ _ e. e ≡ adopt.OutOfMemory };

    fn from(_: AllocError) -> AdoptError {
        AdoptError::OutOfMemory
    }
}
