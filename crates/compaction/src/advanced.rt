// What one step of a compaction did.
ghost use Rattle.std.specs.Prelude.{◌≡◌, ◌≢◌, MatchOption};
ghost use Rattle.compaction.specs.Told.{standing_of, told};

use crate::compacted::Standing;
use arena_core::{Refusal, Reply};
use fold::Step;
use span::names::SpanId;

/// What one step of a compaction did, so that a caller who keeps something beside each page can
/// follow it.
#[derive(Clone, Copy)]
pub enum Advanced {
    /// The group of the first head is on the page of the second now, and its own page is gone.
    Folded(SpanId, SpanId),
    /// Another step was taken, and each group with a page is on the page that it had.
    Went,
    /// Nothing is left to do; a further step begins anew.
    Done,
    /// The step was refused, and a further call tries it again.
    Refused(Refusal),
}

impl Advanced {
    /// How a step that did so leaves the compaction, if that does not go on.
    pub(crate) fn ended(self) -> Option<Standing>
        ensures { MatchOption result (standing_of self ≡ Standing.GoesOn)
            (λ standing. (standing ≡ standing_of self) × (standing ≢ Standing.GoesOn)) }
    {
        match self {
            Advanced::Done => Some(Standing::Done),
            Advanced::Refused(refusal) => Some(Standing::Refused(refusal)),
            Advanced::Folded(_, _) | Advanced::Went => None,
        }
    }
}

/// What the reply to an event of a compaction says. Shards that refuse to retire or to adopt groups
/// are passed over.
pub(crate) fn advanced_by(reply: &Reply) -> Advanced
    ensures { result ≡ told reply.now }
{
    match reply {
        Reply::Stepped(abandoned, owned, Step::Folded) => Advanced::Folded(*abandoned, *owned),
        Reply::Refused(Refusal::OutOfMemory) => Advanced::Refused(Refusal::OutOfMemory),
        Reply::Refused(Refusal::PlanOpen) => Advanced::Refused(Refusal::PlanOpen),
        _ => Advanced::Went,
    }
}
