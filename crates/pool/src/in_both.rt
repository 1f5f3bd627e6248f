// Whether a span of the pool is in a shard, too.
ghost use Rattle.std.specs.Prelude.{◌↔◌, IsTrue};
ghost use Rattle.groups.specs.Spans.{all_spans};
ghost use Rattle.pool.specs.Handover.{HasAnyIn, HaveOneIn};

use crate::pooled::Pooled;
use groups::Spans;
use shard::Shard;
use span::spans::Log;

/// Whether one of the groups' spans is in the shard, too.
pub(crate) fn have_one_in<L: Log>(groups: &[Pooled<L>], shard: &Shard<L>) -> bool
    ensures { IsTrue result ↔ HaveOneIn shard.now.groups groups.now }
{
    for index in 0..groups.len() {
        if has_any_in(groups[index].spans(), shard) {
            return true;
        }
    }
    false
}

// Whether one of the spans is in the shard.
fn has_any_in<L: Log>(spans: &Spans<L>, shard: &Shard<L>) -> bool
    ensures { IsTrue result ↔ HasAnyIn shard.now.groups (all_spans spans.now) }
{
    for place in 0..spans.len() {
        if shard.has(spans.span_at(place).id()) {
            return true;
        }
    }
    false
}
