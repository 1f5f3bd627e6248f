// A group as a plan sees it.
ghost use Rattle.std.specs.Prelude.{◌≡◌};

use crate::class::Class;
use crate::id::SpanId;
use bitmap::Bits256;

/// A group of a snapshot.
#[derive(Clone, Copy, PartialEq, Eq, Debug)]
pub struct Entry {
    /// The id of the group's head.
    pub id: SpanId,
    /// The class of its spans.
    pub class: Class,
    /// The slots that are live in one of the group's spans.
    pub occupied: Bits256,
}

impl Entry {
    ghost use Rattle.span.specs.Entries.{are_compatible};

    /// Whether the groups are of one class, and no slot is occupied in both, so that one page can
    /// hold the words of both.
    pub fn is_compatible(&self, other: &Entry) -> bool
        ensures { result ≡ are_compatible self.now other.now }
    {
        self.class == other.class && self.occupied.is_disjoint(&other.occupied)
    }
}
