// What the core answers.
ghost use Rattle.std.specs.Prelude.{◌≡◌, ◌≢◌, Some};
ghost use Rattle.arena_core.specs.Refusals.{refusal_of, refusal_of_adoption, refusal_of_end, refusal_of_mark};
ghost use Rattle.arena_core.specs.declared.reply.Refusal.TheVariants as cause;

use certificate::Certificate;
use fold::Step;
use marks::MarkError;
use pool::{AdoptError, ReceiveError};
use shard::PutError;
use span::names::{Key, Object, SpanId};
use std::alloc::AllocError;
use thiserror::Error;

/// What the core answers to one event.
#[derive(Drop)]
pub enum Reply {
    /// The key under which a put keeps its object.
    Issued(Key),
    /// The object that a look-up found, or that the key is not live.
    Found(Option<Object>),
    /// Whether a set found its key live with an object of the class of the new one, and replaced
    /// it.
    Replaced(bool),
    /// Whether a free found its key live, and freed it.
    Freed(bool),
    /// The key waits to be freed.
    Sent,
    /// The key that had waited longest on the ring, which is freed where it was still live, or that
    /// none waited.
    Settled(Option<Key>),
    /// The shard has ended, and its groups are the pool's.
    ShardEnded,
    /// The shard runs again, and no key that it issues was issued before.
    ShardBegun,
    /// How many groups of the shard have gone to the pool: as many as were asked for, or all that
    /// have a live key.
    Retired(usize),
    /// How many pages the shard has given back.
    Trimmed(usize),
    /// The head of the group that the shard has adopted.
    Adopted(SpanId),
    /// What the mark saw, a plan of it that has the most pairs, and the short set that shows it:
    /// all of it can be written. The plan is open.
    Marked(Certificate),
    /// The pair that was next, its abandoned group first, and what came of it.
    Stepped(SpanId, SpanId, Step),
    /// The open plan has no pair left: none of its abandoned groups has a page of its own.
    NoPairLeft,
    /// The plan has ended, and all groups are open.
    Closed,
    /// No plan is open.
    NoPlan,
    /// The event was refused, and nothing has changed.
    Refused(Refusal),
}

/// Why an event was refused. The state is as it was before the event.
#[derive(Clone, Copy, PartialEq, Eq, Debug, Error)]
pub enum Refusal {
    /// Memory ran out, and no other cause holds: the event may be tried again.
    #[error("out of memory: free some and try again")]
    OutOfMemory,
    /// A put or an adoption needs a further group, and the shard has as many as it may have pages;
    /// or a put needs a new span, and the shard has opened as many as it may.
    #[error("the shard may have no further page: free keys, or ask another shard")]
    PagesSpent,
    /// The shard has ended.
    #[error("the shard has ended: ask another shard")]
    Ended,
    /// The shard has not ended, so it can't begin again.
    #[error("the shard has not ended: end it before it begins again")]
    Running,
    /// A plan is open: a mark and an adoption wait for its close, and so do the end and the
    /// retirements of a shard that has a closed group.
    #[error("a plan is open: close it first")]
    PlanOpen,
    /// A mark would see more than 4,096 groups on a side.
    #[error("a side has more than 4096 groups, too many for a plan")]
    TooMany,
    /// No group of the pool has a page.
    #[error("no group of the pool has a page: there is nothing to adopt")]
    NothingToAdopt,
    /// The ring from this worker to this shard holds as many keys as it may.
    #[error("the ring from this worker to this shard is full: settle a key of it first")]
    RingFull,
    /// There is no shard of this number, or no worker: there are as many workers as shards.
    #[error("there is no shard or worker of this number: they are numbered from 0 to one below the count of shards")]
    Config,
}

impl From<AllocError> for Refusal {
    ghost from_gives = { λ _ refusal. refusal ≡ cause.OutOfMemory };

    fn from(_: AllocError) -> Refusal {
        Refusal::OutOfMemory
    }
}

impl From<PutError> for Refusal {
    ghost from_gives = { λ error refusal. refusal ≡ refusal_of error };

    fn from(error: PutError) -> Refusal {
        match error {
            PutError::OutOfMemory => Refusal::OutOfMemory,
            PutError::PagesSpent => Refusal::PagesSpent,
            PutError::Ended => Refusal::Ended,
        }
    }
}

/// Why an end or a retirement is refused, by why the pool does not receive what the shard has. No
/// span stands twice in a core.
pub fn end_refusal(error: ReceiveError) -> Refusal
    requires { error ≢ ReceiveError.Doubled }
    ensures { refusal_of_end error ≡ Some result }
{
    match error {
        ReceiveError::OutOfMemory => Refusal::OutOfMemory,
        ReceiveError::Ended => Refusal::Ended,
        ReceiveError::Doubled => unreachable!(),
        ReceiveError::PlanOpen => Refusal::PlanOpen,
    }
}

/// Why an adoption is refused, by why the pool gives nothing. No span stands twice in a core.
pub fn adopt_refusal(error: AdoptError) -> Refusal
    requires { error ≢ AdoptError.Doubled }
    ensures { refusal_of_adoption error ≡ Some result }
{
    match error {
        AdoptError::OutOfMemory => Refusal::OutOfMemory,
        AdoptError::PagesSpent => Refusal::PagesSpent,
        AdoptError::Ended => Refusal::Ended,
        AdoptError::Doubled => unreachable!(),
        AdoptError::PlanOpen => Refusal::PlanOpen,
        AdoptError::NothingToAdopt => Refusal::NothingToAdopt,
    }
}

/// Why a mark is refused, by why it is of pool and shards. No span stands twice in a core.
pub fn mark_refusal(error: MarkError) -> Refusal
    requires { error ≢ MarkError.Doubled }
    ensures { refusal_of_mark error ≡ Some result }
{
    match error {
        MarkError::OutOfMemory => Refusal::OutOfMemory,
        MarkError::Doubled => unreachable!(),
        MarkError::PlanOpen => Refusal::PlanOpen,
        MarkError::TooMany => Refusal::TooMany,
    }
}
