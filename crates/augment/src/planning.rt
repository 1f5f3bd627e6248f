// A largest plan, found by turning round alternating walks.
ghost use Rattle.std.specs.Prelude.{◌≡◌, ◌+◌, ◌≤◌, length, map, IfOk};
ghost use Rattle.mesh_graph.specs.Groups.{IsAscending, ids};
ghost use Rattle.certificate.specs.Plans.{IsBestPlanOf, IsCertificateOf, IsShortOf};
ghost use Rattle.augment.specs.Listed.{pairs_of, short_of};

use crate::mates::Mates;
use crate::phases::turn_phase;
use certificate::{Plan, Short};
use mesh_graph::Graph;
use span::names::SpanId;
use std::alloc::{AllocError, Global};

/// A plan with the most pairs (found by Hopcroft and Karp's phases), and the short set that shows
/// it (Hall's theorem), both by ascending abandoned ids. The short set is the least that holds each
/// abandoned group left out and, for each partner of a member, the group planned onto it. The error
/// means that memory ran out.
pub fn plan(alloc: Global, graph: &Graph) -> Result<(Plan, Short), AllocError>
    ensures best { IfOk result (λ found. IsBestPlanOf graph.now found.0) }
    ensures short { IfOk result (λ found. IsShortOf graph.now found.0 found.1) }
    ensures certificate { IfOk result (λ found. IsCertificateOf graph.now found.0 found.1) }
    ensures ascending { IfOk result (λ found. IsAscending (map (λ p. p.0) found.0)) }
    ensures short_ascending { IfOk result (λ found. IsAscending found.1) }
{
    let (plan, short, _) = plan_counted(alloc, graph)?;
    Ok((plan, short))
}

/// The same, and how many phases found it, the last one, which finds no more, among them. The error
/// means that memory ran out.
pub fn plan_counted(alloc: Global, graph: &Graph) -> Result<(Plan, Short, usize), AllocError>
    ensures best { IfOk result (λ found. IsBestPlanOf graph.now found.0) }
    ensures short { IfOk result (λ found. IsShortOf graph.now found.0 found.1) }
    ensures certificate { IfOk result (λ found. IsCertificateOf graph.now found.0 found.1) }
    ensures ascending { IfOk result (λ found. IsAscending (map (λ p. p.0) found.0)) }
    ensures short_ascending { IfOk result (λ found. IsAscending found.1) }
    ensures phases { IfOk result (λ found. found.2 ≤ length found.0 + 1) }
{
    let mut mates = Mates::new(alloc, graph.abandoned(), graph.owned())?;
    let mut phases = 0;
    'phases: loop {
        if let Some(reached) = turn_phase(alloc, graph, &mut mates)? {
            let pairs = list_pairs(alloc, graph, &mates)?;
            let short = list_short(alloc, graph, &mates, &reached)?;
            return Ok((Plan::new(pairs), Short::new(short), phases + 1));
        }
        phases += 1;
    }
}

/// The pairs by their ids, in the order of the abandoned groups.
fn list_pairs(
    alloc: Global,
    graph: &Graph,
    mates: &Mates,
) -> Result<Vec<(SpanId, SpanId)>, AllocError>
    requires onto { length mates.now.onto.items ≡ length graph.now.abandoned }
    requires planned { length mates.now.planned.items ≡ length graph.now.owned }
    ensures { IfOk result (λ pairs. pairs.items
        ≡ pairs_of (ids graph.now.owned) (ids graph.now.abandoned) mates.now.onto.items) }
{
    let mut pairs = Vec::new(alloc);
    for (i, mate) in mates.onto.iter().enumerate() {
        if let Some(j) = mate {
            pairs.push((graph.abandoned_id(i), graph.owned_id(*j)))?;
        }
    }
    Ok(pairs)
}

/// The ids of the groups left out and of those planned onto a reached one, in order.
fn list_short(
    alloc: Global,
    graph: &Graph,
    mates: &Mates,
    reached: &[bool],
) -> Result<Vec<SpanId>, AllocError>
    requires onto { length mates.now.onto.items ≡ length graph.now.abandoned }
    requires planned { length mates.now.planned.items ≡ length reached.now }
    ensures { IfOk result (λ short. short.items
        ≡ short_of reached.now (ids graph.now.abandoned) mates.now.onto.items) }
{
    let mut short = Vec::new(alloc);
    for (i, mate) in mates.onto.iter().enumerate() {
        let is_short = match mate {
            None => true,
            Some(j) => reached[*j],
        };
        if is_short {
            short.push(graph.abandoned_id(i))?;
        }
    }
    Ok(short)
}
