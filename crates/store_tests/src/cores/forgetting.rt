// Spans that a core forgets, once nothing of them can be live again.
use super::{Told, answer, found, key, new_counted_core, put};
use arena_core::{Core, Event, Refusal};
use fold::Step;
use span::names::Key;
use span::spans::Counted;
use std::alloc::Global;

// Whether each event is answered as wanted, one after another.
fn are_answered(core: &mut Core<Counted>, table: &[(Event, Told)]) -> bool {
    for (event, wanted) in table {
        if answer(core, event) != Some(*wanted) {
            return false;
        }
    }
    true
}

fn forget(core: &mut Core<Counted>) -> Result<usize, Refusal> {
    core.forget()
}

fn free(key: Key, done: bool) -> (Event, Told) {
    (Event::Free { key }, Told::Freed(done))
}

fn look(key: Key, word: u128) -> (Event, Told) {
    (Event::Get { key }, found(word))
}

fn look_gone(key: Key) -> (Event, Told) {
    (Event::Get { key }, Told::Found(None))
}

// The keys of three spans that come to share a page: of the first guest, of the head, and of the
// second guest.
fn keys() -> Option<[Key; 3]> {
    Some([key(0, 0, 1, 1)?, key(1, 0, 0, 1)?, key(2, 0, 2, 1)?])
}

// Whether the group of the guest's span is retired and planned onto that of the head's, and folded.
fn is_folded(core: &mut Core<Counted>, guest: Key, head: Key) -> bool {
    let shard = guest.span.shard;
    let table = [
        (Event::Retire { shard, most: 1 }, Told::Retired(1)),
        (Event::Mark, Told::Marked(1)),
        (
            Event::Step,
            Told::Stepped(guest.span, head.span, Step::Folded),
        ),
    ];
    are_answered(core, table.as_slice())
}

// The first key of the slot of the shard's first span.
fn first_key(shard: u32, slot: u8) -> Option<Key> {
    key(shard, 0, slot, 1)
}

// Whether the shard's first span comes to have one live key, at this slot.
fn is_put_alone(core: &mut Core<Counted>, shard: u32, slot: u8) -> bool {
    for slot in 0..=slot {
        let made = first_key(shard, slot).map(Told::Issued);
        if made.is_none() || answer(core, &put(shard, 2)) != made {
            return false;
        }
    }
    for slot in 0..slot {
        let Some(key) = first_key(shard, slot) else {
            return false;
        };
        if answer(core, &Event::Free { key }) != Some(Told::Freed(true)) {
            return false;
        }
    }
    true
}

// Whether the key's span is folded onto the head's group, and nothing is forgotten before the plan
// is closed.
fn is_guest(core: &mut Core<Counted>, guest: Key, head: Key) -> bool {
    is_put_alone(core, guest.span.shard, guest.slot)
        && is_folded(core, guest, head)
        && forget(core) == Err(Refusal::PlanOpen)
        && answer(core, &Event::Close) == Some(Told::Closed)
        && forget(core) == Ok(0)
}

// Whether the first guest is forgotten once its key is freed, and the head and the second guest
// answer as before.
fn is_forgotten(core: &mut Core<Counted>, keys: [Key; 3], next: [Key; 2]) -> bool {
    let [first, head, second] = keys;
    let [in_head, anew] = next;
    let stale = [
        look_gone(first),
        free(first, false),
        look(head, 3),
        look(second, 2),
        (put(1, 4), Told::Issued(in_head)),
        (put(0, 5), Told::Issued(anew)),
    ];
    answer(core, &Event::Free { key: first }) == Some(Told::Freed(true))
        && forget(core) == Ok(1)
        && forget(core) == Ok(0)
        && are_answered(core, stale.as_slice())
}

// The counts of what is forgotten once the second guest's key is freed, too, and then the head's.
fn are_forgotten(core: &mut Core<Counted>, keys: [Key; 3]) -> Option<[usize; 2]> {
    let [first, head, second] = keys;
    answer(core, &Event::Free { key: second })?;
    let guest = forget(core).ok()?;
    answer(core, &Event::Free { key: head })?;
    let none = forget(core).ok()?;
    let stale = [look_gone(first), look_gone(second), look_gone(head)];
    if are_answered(core, stale.as_slice()) {
        Some([guest, none])
    } else {
        None
    }
}

fn two_guests(alloc: Global) -> Option<[usize; 2]> {
    let mut core = new_counted_core(alloc)?;
    let [first, head, second] = keys()?;
    let next = [key(1, 0, 1, 1)?, key(0, 1, 0, 1)?];
    let is_made = answer(&mut core, &put(1, 3)) == Some(Told::Issued(head))
        && is_guest(&mut core, first, head)
        && is_guest(&mut core, second, head);
    if is_made && is_forgotten(&mut core, [first, head, second], next) {
        are_forgotten(&mut core, [first, head, second])
    } else {
        None
    }
}

// A head that may still take puts stays, also where nothing of it is live.
#[test]
fn guests_are_forgotten_and_heads_stay(rt: HostRuntime) {
    assert_eq!(rt; two_guests(rt.alloc()), Some([1, 0]));
}

fn end(shard: u32) -> (Event, Told) {
    (Event::End { shard }, Told::ShardEnded)
}

// The counts of what is forgotten once all shards have ended: while the guest's key alone is live,
// once none is, and then.
fn are_all_forgotten(core: &mut Core<Counted>, guest: Key, head: Key) -> Option<[usize; 3]> {
    let ends = [
        end(0),
        end(1),
        end(2),
        free(head, true),
        look_gone(head),
        look(guest, 2),
    ];
    if !are_answered(core, ends.as_slice()) {
        return None;
    }
    let with_guest = forget(core).ok()?;
    answer(core, &Event::Free { key: guest })?;
    Some([with_guest, forget(core).ok()?, forget(core).ok()?])
}

fn nothing_left(alloc: Global) -> Option<[usize; 3]> {
    let mut core = new_counted_core(alloc)?;
    let [guest, head, _] = keys()?;
    if answer(&mut core, &put(1, 3)) != Some(Told::Issued(head))
        || !is_guest(&mut core, guest, head)
    {
        return None;
    }
    let counts = are_all_forgotten(&mut core, guest, head)?;
    let stale = [
        look_gone(guest),
        free(head, false),
        (Event::Begin { shard: 1 }, Told::ShardBegun),
        (put(1, 4), Told::Issued(key(1, 1, 0, 1)?)),
    ];
    if are_answered(&mut core, stale.as_slice()) {
        Some(counts)
    } else {
        None
    }
}

// A head stays while a guest of it is live.
#[test]
fn nothing_stays_in_the_pool_that_is_not_live(rt: HostRuntime) {
    assert_eq!(rt; nothing_left(rt.alloc()), Some([0, 2, 0]));
}
