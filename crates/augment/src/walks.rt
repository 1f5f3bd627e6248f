// Alternating walks from the abandoned places left out.
ghost use Rattle.std.specs.Prelude.{◌≡◌, ◌+◌, ◌<◌, length, true, None, IfSome, IfNone, IfOk};
ghost use Rattle.augment.specs.Mates.{mate};
ghost use Rattle.augment.specs.Searches.{HaveSearched, most_entries};
ghost use Rattle.mesh_graph.specs.Groups.{compatible_at};
ghost use Rattle.augment.specs.Walks.{Joins, pair_count, group, AreReached};

use crate::mates::Mates;
use crate::places::Places;
use mesh_graph::Graph;
use std::alloc::{AllocError, Global};

/// An abandoned place that a walk reached.
#[derive(Clone, Copy, Drop)]
pub(crate) struct Reached {
    pub group: usize,
    /// The entry that it was reached from. A place left out, where walks begin, has 0.
    pub before: usize,
}

/// Turns round the pairs of the walk that ends at the entry `last` and, from there, at a free owned
/// place. It notes the owned places of the walk as used.
pub(crate) fn turn_round(
    graph: &Graph,
    mates: &mut Mates,
    entries: &[Reached],
    mut last: usize,
    mut free: usize,
    used: &mut Places,
)
    // The entries are a walk along the pairs.
    requires joins { Joins graph.now mates.old.onto.items }
    requires linked { AreReached graph.now mates.old.onto.items entries.now }

    // It comes from the last entry to a free place.
    requires last_in { last < length entries.now }
    requires free_in { free < length mates.old.planned.items }
    requires free { mate mates.old.planned.items free ≡ None }
    requires used { length used.old.passed.items ≡ length mates.old.planned.items }
    requires end { compatible_at graph.now (group entries.now last) free ≡ true }

    // There is one pair more.
    ensures joins { Joins graph.now mates.new.onto.items }
    ensures more { pair_count mates.new.onto.items ≡ pair_count mates.old.onto.items + 1 }
    ensures onto { length mates.new.onto.items ≡ length mates.old.onto.items }
    ensures planned { length mates.new.planned.items ≡ length mates.old.planned.items }
    ensures used { length used.new.passed.items ≡ length used.old.passed.items }
{
    'walk: while let Some(left) = mates.pair_up(entries[last].group, free) {
        used.pass(free);
        free = left;
        last = entries[last].before;
    }
    used.pass(free);
}

/// What a search along alternating walks has reached.
#[derive(Drop)]
pub(crate) struct Walks {
    pub entries: Vec<Reached>,
    pub reached: Places,
}

impl Walks {
    /// The search that has reached the places left out alone.
    pub(crate) fn start(alloc: Global, graph: &Graph, mates: &Mates) -> Result<Self, AllocError>
        requires owned { length mates.now.planned.items ≡ length graph.now.owned }
        ensures search { IfOk result (λ walks. HaveSearched graph.now mates.now walks 0) }
        ensures owned { IfOk result (λ walks. length walks.reached.passed.items
            ≡ length graph.now.owned) }
    {
        let mut entries = Vec::new(alloc);
        for (group, mate) in mates.onto.iter().enumerate() {
            if mate.is_none() {
                entries.push(Reached { group, before: 0 })?;
            }
        }
        let reached = Places::new(alloc, graph.owned())?;
        Ok(Walks { entries, reached })
    }

    /// Adds what the entry `at` reaches. Where an owned place that is compatible with it is free,
    /// it answers that one instead.
    pub(crate) fn reach_from(
        &mut self,
        graph: &Graph,
        mates: &Mates,
        at: usize,
    ) -> Result<Option<usize>, AllocError>
        // The search has come to this entry.
        requires search { HaveSearched graph.now mates.now self.old at }
        requires at_in { at < length self.old.entries.items }
        requires groups { length mates.now.onto.items ≡ length graph.now.abandoned }
        requires owned { length mates.now.planned.items ≡ length graph.now.owned }
        requires places { length self.old.reached.passed.items ≡ length graph.now.owned }

        // It has gone past the entry.
        ensures searched { IfOk result (λ found. IfNone found
            (HaveSearched graph.now mates.now self.new (at + 1))) }

        // Or it has come to a free place.
        ensures linked { IfOk result (λ found. IfSome found
            (λ free. AreReached graph.now mates.now.onto.items self.new.entries.items)) }
        ensures at_in { IfOk result (λ found. at < length self.new.entries.items) }
        ensures free { IfOk result (λ found. IfSome found
            (λ free. mate mates.now.planned.items free ≡ None)) }
        ensures free_in { IfOk result (λ found. IfSome found
            (λ free. free < length graph.now.owned)) }
        ensures joined_to { IfOk result (λ found. IfSome found
            (λ free. compatible_at graph.now (group self.new.entries.items at) free ≡ true)) }

        // Each entry stands for a place that was passed.
        ensures left { IfOk result (λ found. most_entries self.new ≡ most_entries self.old) }
        ensures places { IfOk result (λ found. length self.new.reached.passed.items
            ≡ length graph.now.owned) }
    {
        let group = self.entries[at].group;
        let mut from = 0;
        'partners: while let Some(owned) = graph.next_partner_among(
            group,
            from,
            &self.reached.unpassed,
        ) {
            match mates.planned[owned] {
                None => return Ok(Some(owned)),
                Some(back) => {
                    self.reached.pass(owned);
                    self.entries.push(Reached {
                        group: back,
                        before: at,
                    })?;
                }
            }
            from = owned + 1;
        }
        Ok(None)
    }
}
