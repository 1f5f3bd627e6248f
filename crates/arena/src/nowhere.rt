// That a span is nowhere, and who may say so.
ghost use Rattle.std.specs.Prelude.{◌≡◌, All, Some, map};
ghost use Rattle.groups.specs.Group.{IsElsewhere};
ghost use Rattle.arena.specs.Hints.{HintsAt};
ghost use Rattle.arena.specs.Locked.{HasGroup, latches_of, lent_by};

use crate::arena::Arena;
use crate::gate::Gate;
use crate::hints::{Hints, Place};
use crate::locks::LockedShard;
use latch::LatchGuard;
use pool::Pool;
use span::names::SpanId;
use span::spans::Log;

/// That a span is nowhere: it was not opened yet, or it was forgotten, so its keys find nothing.
/// Only this module makes one: if the span's hint says so, or if nobody has the span under the
/// locks of all.
#[derive(Drop)]
pub(crate) struct Nowhere {
    id: SpanId,
}

/// Where a span may be, as its hint says. It may have moved since.
#[derive(Drop)]
pub(crate) enum Hinted {
    /// Nowhere, for now or for good.
    Nowhere(Nowhere),
    /// In the pool.
    Pool,
    /// In the shard of this number.
    Shard(u32),
}

impl Nowhere {
    /// That the span is nowhere: under the locks of all nobody has it. This is noted.
    pub(crate) fn in_all<G: Gate, L: Log>(
        id: SpanId,
        arena: &Arena<G, L>,
        pool: &LatchGuard<'_, Pool<L>>,
        shards: &[Option<LockedShard<'_, L>>],
    ) -> Nowhere
        requires pool { pool.now.latch.now ≡ arena.now.pool }
        requires unpooled { IsElsewhere pool.now.value.value.groups id }
        requires lent { latches_of shards.now ≡ map Some arena.now.shards.items }
        requires unsharded { All (λ shard. HasGroup id shard → ⊥) (lent_by shards.now) }
        ensures { result.id ≡ id }
    {
        let nowhere = Nowhere { id };
        arena.hints.note_nowhere(&nowhere);
        nowhere
    }

    /// The span.
    pub(crate) fn id(&self) -> SpanId
        ensures { result ≡ self.now.id }
    {
        self.id
    }
}

impl Hinted {
    /// Where the span may be: two loads.
    #[inline(always)]
    pub(crate) fn at(id: SpanId, hints: &Hints) -> Hinted
        ensures { HintsAt id result }
    {
        match hints.place_of(id) {
            Place::Nowhere => Hinted::Nowhere(Nowhere { id }),
            Place::Pool => Hinted::Pool,
            Place::Shard(number) => Hinted::Shard(number),
        }
    }
}
