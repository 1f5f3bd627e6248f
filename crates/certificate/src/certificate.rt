// A certificate: what it is of, and what shows it.
use crate::plan::{Plan, Short};
use mesh_graph::Snapshot;

/// A snapshot, a plan of it, and the short set that is to show that no plan has more pairs. Whether
/// it does, [`check`](crate::check) tells.
#[derive(Drop)]
pub struct Certificate {
    /// The groups that the plan is made for.
    pub snapshot: Snapshot,
    /// The pairs.
    pub plan: Plan,
    /// The abandoned groups that have too few partners.
    pub short: Short,
}
