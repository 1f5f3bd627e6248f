// A core at sizes far beyond those of the other tests, with ample memory: no size alone is a reason
// for an event to be refused.
use super::{Told, found, key, tell};
use crate::objects::first_of;
use arena_core::{Core, Event, Refusal};
use fold::Step;
use marks::Totals;
use span::names::{Class, Key, Object};
use span::spans::{Counted, Log};
use std::alloc::Global;

fn new_core(alloc: Global, shards: u32, pages: usize) -> Option<Core<Counted>> {
    Core::with_log(alloc, shards, pages, 8, 9).ok()
}

// Goes on if the core answers so.
fn ask<L: Log>(core: &mut Core<L>, event: Event, wanted: Told) -> Option<()> {
    if tell(&core.step(event)) == wanted {
        Some(())
    } else {
        None
    }
}

// Puts an object of the class, whose words are all this one.
fn put<L: Log>(core: &mut Core<L>, shard: u32, class: Class, word: u128) -> Option<Key> {
    core.put(shard, first_of(class, &[word; 16])).ok()
}

fn free<L: Log>(core: &mut Core<L>, key: Key) -> Option<()> {
    if core.free(&key) { Some(()) } else { None }
}

// The last slot of a page of objects of the class.
fn last_slot(class: Class) -> u8 {
    u8::try_from(class.slots().saturating_sub(1)).unwrap_or(u8::MAX)
}

// Fills that many new pages with objects of the class, and gives the last key.
fn fill<L: Log>(core: &mut Core<L>, shard: u32, class: Class, pages: u32) -> Option<Key> {
    let mut last = None;
    let objects = u32::from(last_slot(class)) + 1;
    for number in 0..pages.saturating_mul(objects) {
        last = Some(put(core, shard, class, u128::from(number))?);
    }
    last
}

// Frees the keys of the shard's span at the slots below that, which none but the first issue has.
fn free_below<L: Log>(core: &mut Core<L>, shard: u32, serial: u32, slot: u8) -> Option<()> {
    for lower in 0..slot {
        free(core, key(shard, serial, lower, 1)?)?;
    }
    Some(())
}

// How many steps fold, until no pair is left; then the plan is closed.
fn fold_all<L: Log>(core: &mut Core<L>) -> Option<u32> {
    let mut count = 0u32;
    for _ in 0..5_000 {
        match tell(&core.step(Event::Step)) {
            Told::Stepped(_, _, Step::Folded) => count = count.saturating_add(1),
            Told::NoPairLeft => {
                ask(core, Event::Close, Told::Closed)?;
                return Some(count);
            }
            _ => return None,
        }
    }
    None
}

// Fills that many pages of the class, and leaves in each the last key alone, or the one before it.
fn thin_out<L: Log>(
    core: &mut Core<L>,
    shard: u32,
    class: Class,
    first: u32,
    is_last: bool,
) -> Option<()> {
    fill(core, shard, class, 250)?;
    let last = last_slot(class);
    let before = last.saturating_sub(1);
    for serial in first..first.saturating_add(250) {
        free_below(core, shard, serial, before)?;
        let other = if is_last { before } else { last };
        free(core, key(shard, serial, other, 1)?)?;
    }
    Some(())
}

// How many steps of a plan of 500 pages of two classes on each side fold, and what is left.
fn folded<L: Log>(mut core: Core<L>) -> Option<(u32, Totals)> {
    for (shard, is_last) in [(0u32, false), (1, true)] {
        thin_out(&mut core, shard, Class::C48, 0, is_last)?;
        thin_out(&mut core, shard, Class::C256, 250, is_last)?;
    }
    ask(&mut core, Event::End { shard: 0 }, Told::ShardEnded)?;
    ask(&mut core, Event::Mark, Told::Marked(500))?;
    let count = fold_all(&mut core)?;
    Some((count, core.totals()))
}

#[test]
fn folds_pages_of_two_classes(rt: HostRuntime) {
    let totals = Totals {
        pages: 500,
        live: 1_000,
    };
    let core = new_core(rt.alloc(), 2, 500);
    assert_eq!(rt; core.and_then(folded), Some((500, totals)));
}

// The slots of the owned groups that fit onto a group: a group fits onto that of its own number and
// onto the next, and the last of a chain onto the first of it alone. Chains have two groups, three,
// and so on up to thirteen.
fn partners(number: u8) -> (u8, u8) {
    let mut first = 0u8;
    for length in 2..14u8 {
        let next = first.saturating_add(length);
        if number.saturating_add(1) < next {
            return (number, number.saturating_add(1));
        }
        if number < next {
            return (first, first);
        }
        first = next;
    }
    (0, 0)
}

// How many groups all chains have.
const IN_CHAINS: u8 = 90;

// Whether the slot is live in an owned group, or in one that is to be folded.
fn is_live(number: u8, slot: u8, is_owned: bool) -> bool {
    let (one, other) = partners(number);
    if is_owned {
        slot == number
    } else {
        slot != one && slot != other
    }
}

// Retires a new group of shard 0 for each number, which is owned or is to be folded.
fn retire_groups<L: Log>(core: &mut Core<L>, first: u32, is_owned: bool) -> Option<()> {
    for number in 0..IN_CHAINS {
        for _ in 0..IN_CHAINS {
            put(core, 0, Class::C16, 5)?;
        }
        for slot in 0..IN_CHAINS {
            if !is_live(number, slot, is_owned) {
                let serial = first.saturating_add(u32::from(number));
                free(core, key(0, serial, slot, 1)?)?;
            }
        }
        let retire = Event::Retire { shard: 0, most: 1 };
        ask(core, retire, Told::Retired(1))?;
    }
    Some(())
}

// Each chain but the last group of it is planned in the first pass. A chain of more groups needs a
// longer walk to be planned whole, so that each takes a pass of its own.
fn planned<L: Log>(mut core: Core<L>) -> Option<(u32, usize)> {
    retire_groups(&mut core, 0, true)?;
    for serial in 0..u32::from(IN_CHAINS) {
        let head = key(0, serial, 0, 1)?.span;
        ask(&mut core, Event::Adopt { shard: 1 }, Told::Adopted(head))?;
    }
    retire_groups(&mut core, u32::from(IN_CHAINS), false)?;
    ask(&mut core, Event::Mark, Told::Marked(90))?;
    let count = fold_all(&mut core)?;
    Some((count, core.totals().pages))
}

#[test]
fn plans_what_takes_many_passes(rt: HostRuntime) {
    let core = new_core(rt.alloc(), 2, 100);
    assert_eq!(rt; core.and_then(planned), Some((90, 90)));
}

// How many steps fold that a mark of some plans of 10,000 owned pages, which are too many for a
// mark, and what is left.
fn marked<L: Log>(mut core: Core<L>) -> Option<(u32, Totals)> {
    for shard in 1..6u32 {
        fill(&mut core, shard, Class::C256, 2_000)?;
    }
    free_below(&mut core, 3, 1_999, 15)?;
    put(&mut core, 0, Class::C256, 7)?;
    ask(&mut core, Event::End { shard: 0 }, Told::ShardEnded)?;
    ask(&mut core, Event::Mark, Told::Refused(Refusal::TooMany))?;
    ask(&mut core, Event::MarkSome, Told::Marked(1))?;
    let count = fold_all(&mut core)?;
    Some((count, core.totals()))
}

#[test]
fn marks_some_of_ten_thousand_pages(rt: HostRuntime) {
    let totals = Totals {
        pages: 10_000,
        live: 160_000 - 15 + 1,
    };
    let core = new_core(rt.alloc(), 6, 2_000);
    assert_eq!(rt; core.and_then(marked), Some((1, totals)));
}

// Sets the key 1,100,000 times, and then by an event.
fn is_set_often<L: Log>(mut core: Core<L>) -> Option<()> {
    let key = put(&mut core, 0, Class::C16, 7)?;
    for word in 0..1_100_000u32 {
        if core.set(&key, &[u128::from(word)]) != Ok(true) {
            return None;
        }
    }
    let value = Object::c16(8);
    ask(&mut core, Event::Set { key, value }, Told::Replaced(true))?;
    ask(&mut core, Event::Get { key }, found(8))
}

#[test]
fn sets_a_key_a_million_times(rt: HostRuntime) {
    let core = new_core(rt.alloc(), 1, 1);
    assert_eq!(rt; core.and_then(is_set_often), Some(()));
}

// Retires a group with one key, at that slot, and folds it. Only the one group of shard 1 is owned.
fn fold_at<L: Log>(core: &mut Core<L>, slot: u8) -> Option<u32> {
    for _ in 0..=slot {
        put(core, 0, Class::C16, 5)?;
    }
    free_below(core, 0, u32::from(slot), slot)?;
    ask(core, Event::Retire { shard: 0, most: 1 }, Told::Retired(1))?;
    ask(core, Event::Mark, Told::Marked(1))?;
    fold_all(core)
}

// Folds sixty groups onto one, which goes to the pool and to another shard, where the last key that
// was folded is found and set.
fn is_folded_often<L: Log>(mut core: Core<L>) -> Option<Totals> {
    let own = fill(&mut core, 1, Class::C16, 1)?;
    free_below(&mut core, 1, 0, 255)?;
    for slot in 0..60u8 {
        fold_at(&mut core, slot)?;
    }
    ask(&mut core, Event::End { shard: 1 }, Told::ShardEnded)?;
    let adopt = Event::Adopt { shard: 2 };
    ask(&mut core, adopt, Told::Adopted(own.span))?;
    let key = key(0, 59, 59, 1)?;
    ask(&mut core, Event::Get { key }, found(5))?;
    let value = Object::c16(8);
    ask(&mut core, Event::Set { key, value }, Told::Replaced(true))?;
    Some(core.totals())
}

#[test]
fn folds_onto_a_group_of_sixty_spans(rt: HostRuntime) {
    let core = new_core(rt.alloc(), 3, 2);
    let totals = Totals { pages: 1, live: 61 };
    assert_eq!(rt; core.and_then(is_folded_often), Some(totals));
}
