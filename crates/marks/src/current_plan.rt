// The open plan, in room that is made once.
ghost use Rattle.std.specs.Prelude.{◌≡◌, ◌+◌, ◌++◌, ◌≤◌, None, Some, IfOk, IsSome, is_some, length, option_map, vec_len, vec_capacity};
ghost use Rattle.marks.specs.Plans.{next_pair, with_next_done};
ghost use Rattle.mesh_graph.specs.declared.build.TheConstants.{MOST_GROUPS};

use mesh_graph::MOST_GROUPS;
use span::names::SpanId;
use std::alloc::{AllocError, Global};
use std::marker::Model;

/// The open plan of folds, if there is one: its pairs, each an abandoned group and the owned group
/// that it is to be folded onto, and how many of them are done with. It keeps the room for 4,096
/// pairs, so that a plan is opened without memory.
#[derive(Drop)]
pub struct CurrentPlan {
    pairs: Vec<(SpanId, SpanId)>,
    done: usize,
    is_open: bool,
}

impl Model for CurrentPlan {
    ghost use Rattle.std.specs.Prelude.{◌≤◌, Option, length, vec_capacity};
    ghost use Rattle.marks.specs.Plans.{plan_where};
    ghost use Rattle.marks.specs.Plans.{OpenPlan};
    ghost use Rattle.mesh_graph.specs.declared.build.TheConstants.{MOST_GROUPS};

    ghost Value = { Option OpenPlan };

    ghost view = { λ plan. plan_where plan.is_open plan.pairs.items plan.done };

    ghost invariant = { λ plan. (MOST_GROUPS ≤ vec_capacity plan.pairs)
        × (plan.done ≤ length plan.pairs.items) };
}

impl CurrentPlan {
    /// No plan, with the room for one of 4,096 pairs.
    pub fn new(alloc: Global) -> Result<CurrentPlan, AllocError>
        ensures { IfOk result (λ plan. plan ≡ None) }
    {
        Ok(CurrentPlan {
            // No plan has more pairs than a side has groups.
            pairs: Vec::with_capacity(alloc, MOST_GROUPS)?,
            done: 0,
            is_open: false,
        })
    }

    /// Whether a plan is open.
    #[inline]
    pub fn is_open(&self) -> bool
        ensures { result ≡ is_some self.now }
    {
        self.is_open
    }

    /// The pair that comes next. There is none where no plan is open, and none where all pairs of
    /// the plan are done with; `is_open` tells which.
    #[inline]
    pub fn next(&self) -> Option<(SpanId, SpanId)>
        ensures { result ≡ next_pair self.now }
    {
        if !self.is_open {
            return None;
        }
        self.pairs.get(self.done).copied()
    }

    /// Goes on to the pair after the next one.
    #[inline]
    pub fn advance(&mut self)
        requires { IsSome (next_pair self.old) }
        ensures { self.new ≡ option_map with_next_done self.old }
    {
        self.done += 1;
    }

    /// Opens the plan of these pairs, of which none is done with. It takes no memory.
    pub fn begin(&mut self, pairs: &[(SpanId, SpanId)])
        requires none { self.old ≡ None }
        requires few { length pairs.now ≤ MOST_GROUPS }
        ensures { self.new ≡ Some (record { pairs = pairs.now; done = 0 }) }
    {
        self.pairs.clear();
        push_all(&mut self.pairs, pairs);
        self.done = 0;
        self.is_open = true;
    }

    /// Closes the plan, if there is one, and drops the pairs that are left. It takes no memory.
    #[inline]
    pub fn end(&mut self)
        ensures { self.new ≡ None }
    {
        self.is_open = false;
    }
}

// Appends the pairs where there is room, which needs no memory.
fn push_all(list: &mut Vec<(SpanId, SpanId)>, pairs: &[(SpanId, SpanId)])
    requires room { vec_len list.old + length pairs.now ≤ vec_capacity list.old }
    ensures items { list.new.items ≡ list.old.items ++ pairs.now }
    ensures capacity { vec_capacity list.new ≡ vec_capacity list.old }
{
    for pair in pairs {
        list.push_reserved(*pair);
    }
}
