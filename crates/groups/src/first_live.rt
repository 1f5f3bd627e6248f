// Which live key comes first among spans.
ghost use Rattle.std.specs.Prelude.{◌≡◌, ◌≤◌, ◌<◌, ◌⊎◌, ◌↔◌, IsTrue, MatchOption};
ghost use Rattle.span.specs.Ids.{rank};
ghost use Rattle.groups.specs.FirstLive.{HasNoneIn, IsFirstAmong, IsSooner, rank_or_end};
ghost use Rattle.groups.specs.Spans.{all_spans};
ghost use Rattle.span.specs.declared.limits.TheConstants.{ALL_IDS};

use crate::spans::Spans;
use span::names::{Key, SpanId};
use span::spans::{Log, Span};

impl<L: Log> Spans<L> {
    /// The first live key of its spans from this id on, by ids and then by slots. It takes no
    /// memory, and looks at no span where none of their slots is live.
    pub fn first_live(&self, from: SpanId) -> Option<Key>
        ensures { IsFirstAmong (all_spans self.now) (rank from) result }
    {
        if self.live() == 0 {
            return None;
        }
        let low = from.rank();
        let mut first: Option<Key> = None;
        for place in 0..self.len() {
            if let Some(key) = sooner(self.span_at(place), low, &first) {
                first = Some(key);
            }
        }
        first
    }
}

// The first live key of the span, if its rank is not below this one and comes before the key's.
fn sooner<L: Log>(span: &Span<L>, low: u64, first: &Option<Key>) -> Option<Key>
    ensures { MatchOption result (HasNoneIn low (rank_or_end first.now) span.now)
        (IsSooner low (rank_or_end first.now) span.now) }
{
    let rank = span.id().rank();
    if rank < low || !is_before(rank, first) {
        return None;
    }
    span.first_from(0)
}

/// The one of both keys whose span comes first, if there is one.
pub fn earlier(first: Option<Key>, second: Option<Key>) -> Option<Key>
    ensures { ((result ≡ first) × (rank_or_end first ≤ rank_or_end second))
        ⊎ ((result ≡ second) × (rank_or_end second < rank_or_end first)) }
{
    let Some(key) = second else {
        return first;
    };
    if is_before(key.span.rank(), &first) {
        second
    } else {
        first
    }
}

// Whether the rank is below that of the key's span. It is if there is no key.
fn is_before(rank: u64, key: &Option<Key>) -> bool
    requires { rank < ALL_IDS }
    ensures { IsTrue result ↔ (rank < rank_or_end key.now) }
{
    match key {
        Some(key) => rank < key.span.rank(),
        None => true,
    }
}
