// The checker of certificates: it tests sets pair by pair, with no graph and no memory.
ghost use Rattle.std.specs.Prelude.{◌≡◌, ◌↔◌, IsTrue};
ghost use Rattle.std.specs.List.{list_all};
ghost use Rattle.span.specs.Ids.{same_span};
ghost use Rattle.mesh_graph.specs.Groups.{any_compatible, has_id, ids};
ghost use Rattle.certificate.specs.Plans.{IsBestPlanOf, IsCertificateOf, IsPlanOf};
ghost use Rattle.certificate.specs.Sides.{IsChoice};

use crate::distinct::{IdList, are_once};
use crate::partner::partner_count;
use crate::plan::{Plan, Short};
use mesh_graph::Snapshot;
use span::names::SpanId;

/// Whether the pairs are a plan of the snapshot and the short set shows that no plan has more: its
/// ids are distinct and of abandoned groups, and there are as many pairs and ids together as
/// abandoned groups and partners of the short set (Hall's theorem, deficiency form). It takes no
/// memory, and tests two sets at most once for each pair of groups and once for each pair of the
/// plan.
pub fn check(snapshot: &Snapshot, plan: &Plan, short: &Short) -> bool
    ensures exact { IsTrue result ↔ IsCertificateOf snapshot.now plan.now short.now }
    ensures best { IsTrue result → IsBestPlanOf snapshot.now plan.now }
{
    if !is_plan(snapshot, plan.pairs()) {
        return false;
    }
    if !is_choice(snapshot, short.ids()) {
        return false;
    }
    plan.pairs().len() + short.ids().len()
        == snapshot.abandoned().len() + partner_count(snapshot, short.ids())
}

/// Whether the pairs are a plan of the snapshot.
fn is_plan(snapshot: &Snapshot, pairs: &[(SpanId, SpanId)]) -> bool
    ensures { IsTrue result ↔ IsPlanOf snapshot.now pairs.now }
{
    if !are_compatible(snapshot, pairs) {
        return false;
    }
    if !are_once(snapshot.abandoned(), &IdList::Abandoned(pairs)) {
        return false;
    }
    are_once(snapshot.owned(), &IdList::Owned(pairs))
}

/// Whether each pair is of an abandoned and an owned group of the snapshot that are compatible.
fn are_compatible(snapshot: &Snapshot, pairs: &[(SpanId, SpanId)]) -> bool
    ensures { result ≡ list_all (λ p. any_compatible snapshot.now p.0 p.1) pairs.now }
{
    pairs
        .iter()
        .all(|pair| snapshot.is_compatible(pair.0, pair.1))
}

/// Whether the ids are those of abandoned groups of the snapshot, and none stands twice.
fn is_choice(snapshot: &Snapshot, chosen: &[SpanId]) -> bool
    ensures { IsTrue result ↔ IsChoice same_span (ids snapshot.now.abandoned) chosen.now }
{
    if !are_abandoned(snapshot, chosen) {
        return false;
    }
    are_once(snapshot.abandoned(), &IdList::Short(chosen))
}

/// Whether each id is that of an abandoned group.
fn are_abandoned(snapshot: &Snapshot, chosen: &[SpanId]) -> bool
    ensures { result ≡ list_all (λ id. has_id snapshot.now.abandoned id) chosen.now }
{
    chosen.iter().all(|id| snapshot.has_abandoned(*id))
}
