// Keys and spans as C has them.
ghost use Rattle.std.specs.Prelude.{◌≡◌, MatchOption};
ghost use Rattle.teurlaks_c.specs.Keys.{IsKeyOf, IsNoKey, IsIdOf, IsNoId};

use crate::replies::{RawKey, RawSpan};
use span::names::{Key, SpanId};

/// The key of these numbers, or `None` where no key has them.
#[inline(always)]
pub(crate) fn key_of(raw: RawKey) -> Option<Key>
    ensures { MatchOption result (IsNoKey raw) (IsKeyOf raw) }
{
    let RawKey {
        serial,
        generation,
        shard,
        slot,
        reserved,
    } = raw;
    let Some(span) = SpanId::new(u32::from(shard), serial) else {
        return None;
    };
    // Asked behind the shard, whose bytes stand beside these: the compiler tests both at once.
    if reserved != 0 {
        return None;
    }
    Key::new(span, slot, generation)
}

/// The numbers of the key.
#[inline(always)]
pub(crate) fn raw_of(key: Key) -> RawKey
    ensures { IsKeyOf result key }
{
    let Key {
        span,
        slot,
        generation,
    } = key;
    let SpanId { shard, serial } = span;
    RawKey {
        serial,
        generation,
        shard: shard as u8,
        slot,
        reserved: 0,
    }
}

/// The span of these numbers, or `None` where no span has them.
pub(crate) fn span_of(raw: RawSpan) -> Option<SpanId>
    ensures { MatchOption result (IsNoId raw) (IsIdOf raw) }
{
    let RawSpan { shard, serial } = raw;
    SpanId::new(shard, serial)
}

/// The numbers of the span.
#[inline(always)]
pub(crate) fn raw_span(id: SpanId) -> RawSpan
    ensures { IsIdOf result id }
{
    let SpanId { shard, serial } = id;
    RawSpan { shard, serial }
}
