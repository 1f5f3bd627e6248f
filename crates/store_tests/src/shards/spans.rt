// Shards that may open few spans.
use super::{Put, get, id, key, put, put_object, sizes};
use crate::objects::{Sought, object};
use shard::{PutError, Shard};
use span::names::{Class, MOST_SPANS};
use std::alloc::Global;

// Shard 3, of up to four pages, which may open that many spans.
fn shard_of_spans(alloc: Global, span_limit: u32) -> Option<Shard> {
    Shard::with_log(alloc, 3, 4, span_limit, 9).ok()
}

// Whether a shard that may open that many spans is made, and says so.
fn is_made(alloc: Global, span_limit: u32) -> bool {
    match shard_of_spans(alloc, span_limit) {
        Some(shard) => shard.span_limit() == span_limit && shard.opened() == 0,
        None => false,
    }
}

#[test]
fn may_open_a_span_at_least(rt: HostRuntime) {
    let made = [
        is_made(rt.alloc(), 0),
        is_made(rt.alloc(), 1),
        is_made(rt.alloc(), MOST_SPANS),
    ];
    assert_eq!(rt; made, [false, true, true]);
}

// Puts an object of each class, for the last of which there is no span, and one more of each.
fn puts(shard: &mut Shard) -> ([Put; 3], [Put; 3]) {
    let first = [
        put(shard, 5),
        put_object(shard, object(Class::C64, 6)),
        put_object(shard, object(Class::C256, 7)),
    ];
    let second = [
        put(shard, 8),
        put_object(shard, object(Class::C64, 9)),
        put_object(shard, object(Class::C256, 10)),
    ];
    (first, second)
}

// What these puts are told by a shard that may open two spans, whose pages, live keys and opened
// spans come then, and what its last key finds.
fn puts_of_two_spans(alloc: Global) -> Option<([Put; 3], [Put; 3], (usize, usize), u32, Sought)> {
    let mut shard = shard_of_spans(alloc, 2)?;
    let (first, second) = puts(&mut shard);
    let last = get(&shard, &key(id(3, 1), 1, 1));
    Some((first, second, sizes(&shard), shard.opened(), last))
}

#[test]
fn opens_no_span_past_its_limit(rt: HostRuntime) {
    let (narrow, wide) = (id(3, 0), id(3, 1));
    let first: [Put; 3] = [
        Ok((key(narrow, 0, 1), 0)),
        Ok((key(wide, 0, 1), 0)),
        Err(PutError::PagesSpent),
    ];
    let second: [Put; 3] = [
        Ok((key(narrow, 1, 1), 1)),
        Ok((key(wide, 1, 1), 1)),
        Err(PutError::PagesSpent),
    ];
    let last = Sought::Value(object(Class::C64, 9), 2);
    assert_eq!(rt;
        puts_of_two_spans(rt.alloc()),
        Some((first, second, (2, 4), 2, last))
    );
}
