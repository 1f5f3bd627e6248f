//! A span at work: the generations that it gives out, and what its log tells. A put that was
//! refused memory is made again.
use span::names::{Class, Key, SpanId};
use span::spans::{ChangeView, Counted, Kept, Log, Span, SpanLog};
use std::test::Fail;

// The id of a span, 3.17.
fn id() -> SpanId {
    let Some(id) = SpanId::new(3, 17) else {
        unreachable!();
    };
    id
}

// The slot and the generation of the key that a put gives.
fn put_once<L: Log>(span: &mut Span<L>, slot: u8, value: u128) -> Option<(u8, u32)> {
    let taken = span.live().contains(slot) || span.worn().contains(slot);
    if taken || span.class() != Class::C16 {
        return None;
    }
    let key = span.put_at(slot, &[value]).ok()?;
    Some((key.slot, key.generation))
}

// Its live slots, its worn slots and its changes.
fn counts<L: Log>(span: &Span<L>) -> (u32, u32, usize) {
    (span.live().count(), span.worn().count(), span.changes())
}

// Puts. Where memory was refused, and the span is as before, it puts the second time.
fn put<L: Log>(span: &mut Span<L>, slot: u8, value: u128) -> Option<(u8, u32)> {
    let before = counts(span);
    let made = put_once(span, slot, value);
    if made.is_none() && counts(span) == before {
        put_once(span, slot, value)
    } else {
        made
    }
}

// Whether the slot is live at the generation, and whether a free of it finds it.
fn frees<L: Log>(span: &mut Span<L>, slot: u8, generation: u32) -> (bool, bool) {
    (
        span.holds(slot, generation),
        span.free_held(slot, generation),
    )
}

#[test]
fn gives_each_generation_once(rt: HostRuntime) {
    let mut span = Span::new(rt.alloc(), id(), Class::C16, 2);
    let first = (
        put(&mut span, 255, 7),
        frees(&mut span, 255, 1),
        counts(&span),
    );
    let second = (
        put(&mut span, 255, 8),
        frees(&mut span, 255, 1),
        counts(&span),
    );
    assert_eq!(rt;
        (first, second, put(&mut span, 9, 9), span.log().len()),
        (
            (Some((255, 1)), (true, true), (0, 0, 2)),
            (Some((255, 2)), (false, false), (1, 1, 3)),
            Some((9, 1)),
            4,
        )
    );
}

// Puts the slot and frees it again, so many times; the last generation that it was given.
fn wear<L: Log>(span: &mut Span<L>, slot: u8, times: u32) -> Option<u32> {
    let mut last = None;
    for _ in 0..times {
        let (_, generation) = put(span, slot, 7)?;
        span.free_held(slot, generation);
        last = Some(generation);
    }
    last
}

#[test]
fn goes_on_past_a_byte(rt: HostRuntime) {
    let mut span: Span<Counted> = Span::with_log(rt.alloc(), id(), Class::C16, u32::MAX);
    let others = (put(&mut span, 9, 8), wear(&mut span, 8, 255));
    let worn = (wear(&mut span, 255, 300), put(&mut span, 255, 7));
    let found = (
        frees(&mut span, 255, 45),
        frees(&mut span, 255, 301),
        frees(&mut span, 9, 1),
    );
    assert_eq!(rt;
        (others, worn, found, put(&mut span, 8, 7)),
        (
            (Some((9, 1)), Some(255)),
            (Some(300), Some((255, 301))),
            ((false, false), (true, true), (true, true)),
            Some((8, 256)),
        )
    );
}

// Puts each of the words in the slot, and frees it after each.
fn put_each(span: &mut Span<Kept>, slot: u8, words: u32) -> Option<()> {
    for word in 0..words {
        let (_, generation) = put(span, slot, word as u128)?;
        span.free_held(slot, generation);
    }
    Some(())
}

// The generation and the first word of the put at the place of the log.
fn put_at_place(log: &Kept, place: usize) -> Option<(u32, u128)> {
    if place >= log.len() {
        return None;
    }
    match log.view(place) {
        ChangeView::Put {
            generation,
            words,
            ..
        } => Some((generation, *words.first()?)),
        _ => None,
    }
}

#[test]
fn tells_the_words_of_each_block(rt: HostRuntime) {
    let mut span = Span::new(rt.alloc(), id(), Class::C16, u32::MAX);
    let made = put_each(&mut span, 8, 1500);
    let log = span.log();
    assert_eq!(rt;
        (
            made,
            (
                put_at_place(log, 0),
                put_at_place(log, 1022),
                put_at_place(log, 1023)
            ),
            (
                put_at_place(log, 1024),
                put_at_place(log, 2048),
                put_at_place(log, 2998)
            ),
            put_at_place(log, 3000),
        ),
        (
            Some(()),
            (Some((1, 0)), Some((512, 511)), None),
            (Some((513, 512)), Some((1025, 1024)), Some((1500, 1499))),
            None,
        )
    );
}

#[test]
fn needs_no_log(rt: HostRuntime) {
    let mut span: Span<Counted> = Span::with_log(rt.alloc(), id(), Class::C16, 2);
    let first = (put(&mut span, 255, 7), frees(&mut span, 255, 1));
    let second = (put(&mut span, 255, 8), frees(&mut span, 255, 1));
    assert_eq!(rt;
        (first, second, counts(&span)),
        (
            (Some((255, 1)), (true, true)),
            (Some((255, 2)), (false, false)),
            (1, 1, 3),
        )
    );
}

#[test]
fn prints_its_parts(rt: HostRuntime) -> Result<(), Fail> {
    if let Some(key) = Key::new(id(), 255, 1) {
        let texts = (id().to_string(rt.alloc())?, key.to_string(rt.alloc())?);
        assert_eq!(rt;
            (texts.0.as_str(), texts.1.as_str()),
            ("3.17", "3.17/255/1")
        );
        return Ok(());
    }
    Err(Fail::from("a slot and a generation within their limits"))
}
