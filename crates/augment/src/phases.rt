// Turning round several walks in one phase, along layers.
ghost use Rattle.std.specs.Prelude.{◌≡◌, ◌+◌, ◌<◌, ◌≤◌, ℕ, length, true, false, None, IfSome, IfNone, IfOk};
ghost use Rattle.augment.specs.Mates.{mate};
ghost use Rattle.mesh_graph.specs.Groups.{compatible_at};
ghost use Rattle.augment.specs.Walks.{Joins, pair_count, AreReached, is_passed, IsSearched};

use crate::mates::Mates;
use crate::places::Places;
use crate::walks::{Reached, Walks, turn_round};
use mesh_graph::Graph;
use std::alloc::{AllocError, Global};

/// Turns round, in one phase, walks along shortest layers that share no group. Where no walk comes
/// to a free owned place, it answers which owned places walks reach, and changes nothing.
pub(crate) fn turn_phase(
    alloc: Global,
    graph: &Graph,
    mates: &mut Mates,
) -> Result<Option<Vec<bool>>, AllocError>
    // The pairs fit the graph.
    requires joins { Joins graph.now mates.old.onto.items }
    requires groups { length mates.old.onto.items ≡ length graph.now.abandoned }
    requires owned { length mates.old.planned.items ≡ length graph.now.owned }

    // So they do afterwards.
    ensures joins { Joins graph.now mates.new.onto.items }
    ensures groups { length mates.new.onto.items ≡ length graph.now.abandoned }
    ensures owned { length mates.new.planned.items ≡ length graph.now.owned }

    // A walk was turned round.
    ensures more { IfOk result (λ reached. IfNone reached
        (pair_count mates.old.onto.items + 1 ≤ pair_count mates.new.onto.items)) }

    // Or no walk comes to a free place.
    ensures unchanged { IfOk result (λ reached. IfSome reached
        (λ places. mates.new.onto.items ≡ mates.old.onto.items)) }
    ensures searched { IfOk result (λ reached. IfSome reached
        (λ places. IsSearched graph.now mates.new.onto.items places.items)) }
    ensures places { IfOk result (λ reached. IfSome reached
        (λ places. length places.items ≡ length graph.now.owned)) }
{
    let mut walks = Walks::start(alloc, graph, mates)?;
    let mut next = 0;
    'entries: while next < walks.entries.len() {
        if let Some(free) = walks.reach_from(graph, mates, next)? {
            let layers = layers_of(alloc, graph, mates, &walks.entries)?;
            let mut used = Places::new(alloc, graph.owned())?;
            turn_round(graph, mates, &walks.entries, next, free, &mut used);
            turn_others(alloc, graph, mates, &layers, &mut used)?;
            return Ok(None);
        }
        next += 1;
    }
    Ok(Some(walks.reached.into_passed()))
}

/// Turns round a walk from each place left out from which there is one along the layers.
fn turn_others(
    alloc: Global,
    graph: &Graph,
    mates: &mut Mates,
    layers: &[Option<usize>],
    used: &mut Places,
) -> Result<(), AllocError>
    // The pairs and the lists fit the graph.
    requires joins { Joins graph.now mates.old.onto.items }
    requires groups { length mates.old.onto.items ≡ length graph.now.abandoned }
    requires layers { length layers.now ≡ length mates.old.onto.items }
    requires owned { length mates.old.planned.items ≡ length graph.now.owned }
    requires used { length used.old.passed.items ≡ length graph.now.owned }

    // So do the pairs afterwards, which are no fewer.
    ensures joins { Joins graph.now mates.new.onto.items }
    ensures groups { length mates.new.onto.items ≡ length graph.now.abandoned }
    ensures owned { length mates.new.planned.items ≡ length graph.now.owned }
    ensures more { pair_count mates.old.onto.items ≤ pair_count mates.new.onto.items }
{
    let mut cursors = vec![in alloc; 0; mates.onto.len()]?;
    let mut path = Vec::new(alloc);
    let mut first = 0;
    for root in 0..mates.onto.len() {
        if mates.onto[root].is_none() {
            // The places before the first one are used, and in a dense graph they are many.
            first = first_unused(&used.passed, first);
            cursors[root] = first;
            turn_from(graph, mates, layers, used, &mut cursors, &mut path, root)?;
        }
    }
    Ok(())
}

/// The least place from `from` on that is not used, or the number of places where all of them are.
fn first_unused(used: &[bool], from: usize) -> usize
    ensures from { from ≤ length used.now → from ≤ result }
    ensures passed { (k : ℕ) → from ≤ k → k < result → is_passed used.now k ≡ true }
    ensures unused { result < length used.now → is_passed used.now result ≡ false }
{
    for at in from..used.len() {
        if !used[at] {
            return at;
        }
    }
    used.len()
}

/// The layer of each abandoned place that an entry reached: how many pairs its walk has.
fn layers_of(
    alloc: Global,
    graph: &Graph,
    mates: &Mates,
    entries: &[Reached],
) -> Result<Vec<Option<usize>>, AllocError>
    requires { AreReached graph.now mates.now.onto.items entries.now }
    ensures { IfOk result (λ layers. length layers.items ≡ length mates.now.onto.items) }
{
    let mut layers: Vec<Option<usize>> = vec![in alloc; None; mates.onto.len()]?;
    for (t, entry) in entries.iter().enumerate() {
        let layer = match mates.onto[entry.group] {
            None => Some(0),
            Some(_) => layers[entries[entry.before].group].map(|layer| layer.saturating_add(1)),
        };
        layers[entry.group] = layer;
    }
    Ok(layers)
}

/// A partner of `group` that is not used, and that is free or whose mate lies in the next layer.
/// The partners before the group's cursor were looked at in this phase, and need no second look:
/// what was used stays so, and layers don't change.
fn next_step(
    graph: &Graph,
    mates: &Mates,
    layers: &[Option<usize>],
    used: &Places,
    cursors: &mut [usize],
    group: usize,
) -> Option<usize>
    // The pairs and the lists fit the graph.
    requires group { group < length graph.now.abandoned }
    requires groups { length mates.now.onto.items ≡ length graph.now.abandoned }
    requires layers { length layers.now ≡ length mates.now.onto.items }
    requires owned { length mates.now.planned.items ≡ length graph.now.owned }
    requires used { length used.now.passed.items ≡ length graph.now.owned }
    requires cursors { length cursors.old ≡ length mates.now.onto.items }

    // A compatible place that no walk has used.
    ensures joined_to { IfSome result (λ j. compatible_at graph.now group j ≡ true) }
    ensures within { IfSome result (λ j. j < length graph.now.owned) }
    ensures unused { IfSome result (λ j. is_passed used.now.passed.items j ≡ false) }
{
    let mut from = cursors[group];
    'partners: while let Some(owned) = graph.next_partner_among(group, from, &used.unpassed) {
        from = owned + 1;
        cursors[group] = from;
        match mates.planned[owned] {
            None => return Some(owned),
            Some(next) => {
                if is_next(layers[group], layers[next]) {
                    return Some(owned);
                }
            }
        }
    }
    None
}

/// Whether the second layer is the one after the first.
fn is_next(layer: Option<usize>, other: Option<usize>) -> bool {
    match (layer, other) {
        (Some(layer), Some(other)) => other.checked_sub(layer) == Some(1),
        _ => false,
    }
}

/// Turns round a walk along the layers from a place left out, where one is left. What the path has
/// is written over: it is lent so that few calls take memory.
fn turn_from(
    graph: &Graph,
    mates: &mut Mates,
    layers: &[Option<usize>],
    used: &mut Places,
    cursors: &mut [usize],
    path: &mut Vec<Reached>,
    root: usize,
) -> Result<(), AllocError>
    // The pairs and the lists fit the graph.
    requires joins { Joins graph.now mates.old.onto.items }
    requires groups { length mates.old.onto.items ≡ length graph.now.abandoned }
    requires layers { length layers.now ≡ length mates.old.onto.items }
    requires owned { length mates.old.planned.items ≡ length graph.now.owned }
    requires used { length used.old.passed.items ≡ length graph.now.owned }
    requires cursors { length cursors.old ≡ length mates.old.onto.items }

    // The walk begins at a group that is left out.
    requires root { root < length mates.old.onto.items }
    requires left_out { mate mates.old.onto.items root ≡ None }

    // The pairs fit the graph afterwards, and are no fewer.
    ensures joins { Joins graph.now mates.new.onto.items }
    ensures groups { length mates.new.onto.items ≡ length graph.now.abandoned }
    ensures owned { length mates.new.planned.items ≡ length graph.now.owned }
    ensures more { pair_count mates.old.onto.items ≤ pair_count mates.new.onto.items }
    ensures used { length used.new.passed.items ≡ length used.old.passed.items }
{
    path.clear();
    path.push(Reached {
        group: root,
        before: 0,
    })?;
    'path: while !path.is_empty() {
        let at = path.len() - 1;
        match next_step(graph, mates, layers, used, cursors, path[at].group) {
            None => {
                path.pop();
            }
            Some(owned) => {
                used.pass(owned);
                match mates.planned[owned] {
                    None => {
                        turn_round(graph, mates, path, at, owned, used);
                        return Ok(());
                    }
                    Some(next) => path.push(Reached {
                        group: next,
                        before: at,
                    })?,
                }
            }
        }
    }
    Ok(())
}
