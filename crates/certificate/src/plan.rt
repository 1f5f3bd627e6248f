// A plan and a short set, as lists of ids.
ghost use Rattle.std.specs.Prelude.{◌≡◌};

use span::names::SpanId;
use std::marker::Model;

/// Pairs of an abandoned group and the owned group that it is to be folded onto, each by the id of
/// its head. Contracts see the list of the pairs.
#[derive(Drop)]
pub struct Plan {
    pairs: Vec<(SpanId, SpanId)>,
}

impl Model for Plan {
    ghost use Rattle.std.specs.Prelude.{List};
    ghost use Rattle.span.specs.declared.id.SpanId.{SpanId};

    ghost Value = { List (SpanId × SpanId) };

    ghost view = { λ plan. plan.pairs.items };
}

impl Plan {
    /// The plan of these pairs, whatever they are.
    pub fn new(pairs: Vec<(SpanId, SpanId)>) -> Plan
        ensures { result ≡ pairs.items }
    {
        Plan { pairs }
    }

    /// The pairs, in their order.
    pub fn pairs(&self) -> &[(SpanId, SpanId)]
        ensures { result.now ≡ self.now }
    {
        &self.pairs
    }
}

/// Ids of abandoned groups that have too few partners. Contracts see the list of the ids.
#[derive(Drop)]
pub struct Short {
    ids: Vec<SpanId>,
}

impl Model for Short {
    ghost use Rattle.std.specs.Prelude.{List};
    ghost use Rattle.span.specs.declared.id.SpanId.{SpanId};

    ghost Value = { List SpanId };

    ghost view = { λ short. short.ids.items };
}

impl Short {
    /// The short set of these ids, whatever they are.
    pub fn new(ids: Vec<SpanId>) -> Short
        ensures { result ≡ ids.items }
    {
        Short { ids }
    }

    /// The ids, in their order.
    pub fn ids(&self) -> &[SpanId]
        ensures { result.now ≡ self.now }
    {
        &self.ids
    }
}
