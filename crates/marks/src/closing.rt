// Closes the groups onto which a plan folds, and opens them again.
ghost use Rattle.std.specs.Prelude.{◌≡◌, map};
ghost use Rattle.std.specs.List.{IsDistinct};
ghost use Rattle.span.specs.Ids.{same_span};
ghost use Rattle.span.specs.declared.id.SpanId.{SpanId};
ghost use Rattle.mesh_graph.specs.Groups.{ids};
ghost use Rattle.marks.specs.Closings.{closing, reopened};
ghost use Rattle.marks.specs.OneShard.{CloseOneMore, ClosesAt};
ghost use Rattle.marks.specs.Seen.{owned_entries};

use crate::lends_shard::LendsShard;
use shard::Shard;
use span::names::SpanId;
use span::spans::Log;

/// Closes each owned group that has a page and onto which a pair folds, in the shard that has it,
/// so that it takes no put. It takes no memory.
pub(crate) fn close_planned<H: LendsShard>(shards: &mut [H], pairs: &[(SpanId, SpanId)])
    requires { IsDistinct same_span (ids (owned_entries (map H.lent shards.old))) }
    ensures { map H.lent shards.new ≡ map (closing pairs.now) (map H.lent shards.old) }
{
    for pair in pairs {
        close_one(shards, *pair);
    }
}

/// Opens all groups of all shards, so that they take puts. It takes no memory.
pub fn reopen_all<L: Log>(shards: &mut [Shard<L>])
    ensures { shards.new ≡ map reopened shards.old }
{
    for shard in shards.iter_mut() {
        shard.reopen();
    }
}

// Closes the group onto which the pair folds, after those of other pairs. A shard that did not end
// has the groups that it opened, so the one of the head's number is asked before the others.
fn close_one<H: LendsShard>(shards: &mut [H], pair: (SpanId, SpanId))
    ensures { CloseOneMore pair (map H.lent shards.old) (map H.lent shards.new) }
{
    if close_at(shards, pair.1.shard as usize, pair.1) {
        return;
    }
    for place in 0..shards.len() {
        if close_at(shards, place, pair.1) {
            return;
        }
    }
}

// Closes the group of the head in the shard at the place, if there is one, and says whether it has
// the group, with a page.
fn close_at<H: LendsShard>(shards: &mut [H], place: usize, head: SpanId) -> bool
    ensures { ClosesAt (map H.lent shards.old) place head result (map H.lent shards.new) }
{
    if place >= shards.len() {
        return false;
    }
    shards[place].close(head)
}
