//! Events of a core.
use crate::refusing::{Rounds, Script, Subject};
use arena_core::{Core, Event, Refusal, Reply};
use fold::Step;
use span::names::{Class, Key, Object, SpanId};
use std::alloc::{AllocError, Global};
use std::sync::Wait;

/// What a reply says; of a mark, how many pairs it plans and how many members its short set has.
#[derive(Clone, Copy, PartialEq)]
pub(crate) enum Told {
    Issued(Key),
    Found(Option<Object>),
    Replaced(bool),
    Freed(bool),
    Sent,
    Settled(Option<Key>),
    ShardEnded,
    ShardBegun,
    Retired(usize),
    Trimmed(usize),
    Adopted(SpanId),
    Marked(usize, usize),
    Stepped(SpanId, SpanId, Step),
    NoPairLeft,
    Closed,
    NoPlan,
    Refused(Refusal),
}

pub(crate) fn tell(reply: &Reply) -> Told {
    match reply {
        Reply::Issued(key) => Told::Issued(*key),
        Reply::Found(value) => Told::Found(*value),
        Reply::Replaced(done) => Told::Replaced(*done),
        Reply::Freed(done) => Told::Freed(*done),
        Reply::Sent => Told::Sent,
        Reply::Settled(key) => Told::Settled(*key),
        Reply::ShardEnded => Told::ShardEnded,
        Reply::ShardBegun => Told::ShardBegun,
        Reply::Retired(count) => Told::Retired(*count),
        Reply::Trimmed(count) => Told::Trimmed(*count),
        Reply::Adopted(head) => Told::Adopted(*head),
        Reply::Marked(certificate) => Told::Marked(
            certificate.plan.pairs().len(),
            certificate.short.ids().len(),
        ),
        Reply::Stepped(abandoned, owned, step) => Told::Stepped(*abandoned, *owned, *step),
        Reply::NoPairLeft => Told::NoPairLeft,
        Reply::Closed => Told::Closed,
        Reply::NoPlan => Told::NoPlan,
        Reply::Refused(refusal) => Told::Refused(*refusal),
    }
}

// Whether both have the same pages, and the same keys, with the same values.
fn are_alike(core: &mut Core, twin: &mut Core) -> bool {
    let totals = core.totals();
    if totals != twin.totals() {
        return false;
    }
    let mut last: Option<Key> = None;
    for _ in 0..totals.live {
        let next = core.next_live(last);
        let Some(key) = next else {
            return false;
        };
        if next != twin.next_live(last) || value(core, key) != value(twin, key) {
            return false;
        }
        last = next;
    }
    true
}

fn value(core: &mut Core, key: Key) -> Told {
    tell(&core.step(Event::Get { key }))
}

impl Subject for Core {
    type Call = Event;

    type Told = Told;

    fn fresh<R: Wait>(_rt: &R, alloc: Global) -> Option<Core> {
        Core::new(alloc, 6, 8, 4, 9).ok()
    }

    fn answer<R: Wait>(&mut self, _rt: &R, call: Event) -> Told {
        tell(&self.step(call))
    }

    fn out_of_memory() -> Told {
        Told::Refused(Refusal::OutOfMemory)
    }

    fn may_do_without(call: Event) -> bool {
        matches!(call, Event::Retire { .. })
    }

    fn is_like<R: Wait>(&mut self, _rt: &R, twin: &mut Core, _told: &[Told]) -> bool {
        are_alike(self, twin)
    }
}

fn key(shard: u32, serial: u32, slot: u8) -> Option<Key> {
    Key::new(SpanId::new(shard, serial)?, slot, 1)
}

// The object of the class whose words are all this one.
fn object(class: Class, word: u128) -> Object {
    let words = [word; 16];
    Object::of(class, &words[..class.words()])
}

fn add(events: &mut Vec<Event>, event: Event) -> Result<(), AllocError> {
    events.push(event)?;
    Ok(())
}

// So many puts of objects of the class in the shard.
fn add_puts(
    events: &mut Vec<Event>,
    shard: u32,
    class: Class,
    count: u32,
) -> Result<(), AllocError> {
    for number in 0..count {
        let value = object(class, u128::from(shard) * 1000 + u128::from(number));
        events.push(Event::Put { shard, value })?;
    }
    Ok(())
}

// Two puts of zeros of the class in the shard, on a page that takes no memory for them.
fn add_zeros(events: &mut Vec<Event>, shard: u32, class: Class) -> Result<(), AllocError> {
    let value = object(class, 0);
    add(events, Event::Put { shard, value })?;
    add(events, Event::Put { shard, value })
}

// Frees of the keys at those slots of the shard's first span.
fn add_frees(events: &mut Vec<Event>, shard: u32, slots: &[u8]) -> Result<(), AllocError> {
    for slot in slots {
        if let Some(key) = key(shard, 0, *slot) {
            events.push(Event::Free { key })?;
        }
    }
    Ok(())
}

// Sets of the keys at the first two slots of that span: once to an object of its class, and once to
// one of another.
fn add_sets(
    events: &mut Vec<Event>,
    shard: u32,
    serial: u32,
    class: Class,
    other: Class,
) -> Result<(), AllocError> {
    for slot in 0..2u8 {
        if let Some(key) = key(shard, serial, slot) {
            let value = object(class, u128::from(slot));
            events.push(Event::Set { key, value })?;
            let value = object(other, 7);
            events.push(Event::Set { key, value })?;
        }
    }
    Ok(())
}

// Deferred frees of keys of shard 1 by worker 2, as many as its ring takes and one more, and their
// settling.
fn add_later(events: &mut Vec<Event>) -> Result<(), AllocError> {
    for slot in 3..8u8 {
        if let Some(key) = key(1, 0, slot) {
            events.push(Event::Later { worker: 2, key })?;
        }
    }
    for _ in 0..5 {
        events.push(Event::Settle {
            worker: 2,
            shard: 1,
        })?;
    }
    Ok(())
}

// Two marks, of which the second is refused, with steps, in the midst of which there are puts, and
// a close.
fn add_mark(events: &mut Vec<Event>, shard: u32, mark: Event) -> Result<(), AllocError> {
    add(events, mark)?;
    add(events, mark)?;
    add(events, Event::Step)?;
    add_puts(events, shard, Class::C16, 3)?;
    for _ in 0..5 {
        add(events, Event::Step)?;
    }
    add(events, Event::Close)
}

// A look-up of each key that may be live, and two frees.
fn add_last_frees(events: &mut Vec<Event>) -> Result<(), AllocError> {
    for shard in 0..6u32 {
        for serial in 0..3u32 {
            for slot in 0..24u8 {
                if let Some(key) = key(shard, serial, slot) {
                    add(events, Event::Get { key })?;
                    add(events, Event::Free { key })?;
                    add(events, Event::Free { key })?;
                }
            }
        }
    }
    Ok(())
}

// Puts of each class, over more than a page, frees, sets wherever the key is, ends, a retirement,
// folds of groups with guests, an adoption of one, trims, and a group that no fold is for.
fn events_of(alloc: Global) -> Result<Vec<Event>, AllocError> {
    let mut events = Vec::new(alloc);
    add_puts(&mut events, 0, Class::C16, 4)?;
    add_frees(&mut events, 0, &[0, 1])?;
    add_puts(&mut events, 0, Class::C64, 2)?;
    add_sets(&mut events, 0, 1, Class::C64, Class::C16)?;
    add_zeros(&mut events, 0, Class::C128)?;
    add_sets(&mut events, 0, 2, Class::C128, Class::C16)?;
    add_zeros(&mut events, 0, Class::C144)?;
    add_puts(&mut events, 1, Class::C16, 12)?;
    add_frees(&mut events, 1, &[2, 3])?;
    add_later(&mut events)?;
    add(&mut events, Event::End { shard: 0 })?;
    add_sets(&mut events, 0, 1, Class::C64, Class::C256)?;
    add_sets(&mut events, 0, 3, Class::C144, Class::C64)?;
    add_mark(&mut events, 1, Event::Mark)?;
    add_puts(&mut events, 2, Class::C16, 8)?;
    add_puts(&mut events, 2, Class::C240, 18)?;
    add_puts(&mut events, 3, Class::C240, 1)?;
    add(&mut events, Event::Retire { shard: 2, most: 1 })?;
    add(&mut events, Event::End { shard: 1 })?;
    add(&mut events, Event::End { shard: 3 })?;
    add(&mut events, Event::Adopt { shard: 4 })?;
    add_puts(&mut events, 4, Class::C16, 2)?;
    add(&mut events, Event::End { shard: 4 })?;
    add_puts(&mut events, 5, Class::C16, 20)?;
    add_frees(
        &mut events,
        5,
        &[0, 1, 2, 3, 4, 5, 6, 7, 8, 9, 10, 11, 12, 13, 14, 15],
    )?;
    add_mark(&mut events, 5, Event::MarkSome)?;
    add_sets(&mut events, 1, 0, Class::C16, Class::C64)?;
    add(&mut events, Event::Trim { shard: 2 })?;
    add(&mut events, Event::Adopt { shard: 5 })?;
    add(&mut events, Event::Retire { shard: 5, most: 2 })?;
    add_last_frees(&mut events)?;
    add(&mut events, Event::Trim { shard: 5 })?;
    add_puts(&mut events, 5, Class::C16, 1)?;
    add(&mut events, Event::Begin { shard: 1 })?;
    add_puts(&mut events, 1, Class::C32, 1)?;
    Ok(events)
}

fn rounds_of<R: Wait>(rt: &R, alloc: Global) -> Option<Rounds> {
    let events = events_of(alloc).ok()?;
    let script = Script::<Core>::new(rt, alloc, events)?;
    script.rounds(rt, alloc)
}

#[test]
fn refuses_each(rt: HostRuntime) {
    let rounds = rounds_of(&rt, rt.alloc());
    assert!(rt;
        matches!(rounds, Some(rounds) if rounds.are_well()),
        "{rounds:?}"
    );
}
