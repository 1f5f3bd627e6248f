// The numbers of a core or an arena, as a caller in C gives them.
ghost use Rattle.std.specs.Prelude.{◌≡◌, ◌↔◌, IfSome, IsSome};
ghost use Rattle.marks.specs.Numbers.{AreWithin};
ghost use Rattle.teurlaks_c.specs.Numbers.{limits_with};

use marks::Limits;

/// The numbers, or `None` exactly where one is out of its range.
pub(crate) fn limits_for(
    shards: u32,
    page_limit: u32,
    span_limit: u32,
    slot_limit: u32,
    ring_capacity: u32,
    gens: u32,
) -> Option<Limits>
    ensures in_range { IsSome result
        ↔ AreWithin (limits_with shards page_limit span_limit slot_limit ring_capacity gens) }
    ensures parts { IfSome result (λ limits. limits
        ≡ limits_with shards page_limit span_limit slot_limit ring_capacity gens) }
{
    let (pages, keys) = (page_limit as usize, ring_capacity as usize);
    let Ok(slots) = u16::try_from(slot_limit) else {
        return None;
    };
    let Some(limits) = Limits::new(shards, pages, keys, gens) else {
        return None;
    };
    let Some(limits) = limits.with_span_limit(span_limit) else {
        return None;
    };
    limits.with_slot_limit(slots)
}
