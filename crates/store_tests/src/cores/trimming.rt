// Pages that a shard gives back while it runs, and opens anew.
use super::{Told, are_answered, found, key, new_core, put, tell, totals_after};
use crate::objects::wide;
use arena_core::{Core, Event, Refusal};
use fold::Step;
use marks::Totals;
use span::names::Key;
use std::alloc::Global;

fn trim(shard: u32, count: usize) -> (Event, Told) {
    (Event::Trim { shard }, Told::Trimmed(count))
}

fn free(key: Key, done: bool) -> (Event, Told) {
    (Event::Free { key }, Told::Freed(done))
}

fn look(key: Key, word: u128) -> (Event, Told) {
    (Event::Get { key }, found(word))
}

fn look_gone(key: Key) -> (Event, Told) {
    (Event::Get { key }, Told::Found(None))
}

// Whether the one page of a shard goes when its last key is freed, and no sooner.
fn is_trimmed(core: &mut Core, keys: [Key; 2]) -> bool {
    let [first, second] = keys;
    let table = [
        trim(0, 0),
        (put(0, 5), Told::Issued(first)),
        (put(0, 6), Told::Issued(second)),
        free(first, true),
        trim(0, 0),
        look(second, 6),
        free(second, true),
        (Event::Trim { shard: 1 }, Told::Refused(Refusal::Config)),
        trim(0, 1),
        look_gone(first),
        look_gone(second),
        free(second, false),
        trim(0, 0),
    ];
    are_answered(core, table.as_slice())
}

// Whether a put opens the page anew. Where an allocation was refused, there still is no page and no
// key, and the put is asked again.
fn is_put_anew(core: &mut Core, looks: &[(Event, Told)], made: Key) -> bool {
    let before = core.totals();
    let first = tell(&core.step(put(0, 7)));
    if first != Told::Refused(Refusal::OutOfMemory) {
        return first == Told::Issued(made);
    }
    let again = [trim(0, 0), (put(0, 7), Told::Issued(made))];
    core.totals() == before
        && are_answered(core, looks)
        && core.totals() == before
        && are_answered(core, again.as_slice())
}

// The totals with the page given back, and after a put.
fn totals_of_trim(core: &mut Core) -> Option<[Totals; 2]> {
    let (first, second, third) = (key(0, 0, 0, 1)?, key(0, 0, 1, 1)?, key(0, 0, 0, 2)?);
    let looks = [look_gone(first), look_gone(second), look_gone(third)];
    let is_trimmed = is_trimmed(core, [first, second]);
    let before = core.totals();
    let is_put = is_trimmed && is_put_anew(core, looks.as_slice(), third);
    let then = [look(third, 7), look_gone(first), trim(0, 0)];
    if is_put && are_answered(core, then.as_slice()) {
        Some([before, core.totals()])
    } else {
        None
    }
}

fn one_trim(alloc: Global) -> Option<[Totals; 2]> {
    let mut core = new_core(alloc, 1, 4)?;
    totals_of_trim(&mut core)
}

// The first put after it wants room in the log and a page.
#[test]
fn a_page_goes_and_comes_again(rt: HostRuntime) {
    let wanted = [Totals { pages: 0, live: 0 }, Totals { pages: 1, live: 1 }];
    assert_eq!(rt; one_trim(rt.alloc()), Some(wanted));
}

// A group with no page still is one of those that the shard may have: it takes a key of its own
// class alone, and no other group comes.
fn totals_of_one_group(alloc: Global) -> Option<Totals> {
    let (first, second, other) = (key(0, 0, 0, 1)?, key(0, 0, 0, 2)?, key(1, 0, 0, 1)?);
    let value = wide(8);
    let table = [
        (put(0, 5), Told::Issued(first)),
        free(first, true),
        trim(0, 1),
        (
            Event::Put { shard: 0, value },
            Told::Refused(Refusal::PagesSpent),
        ),
        (put(1, 6), Told::Issued(other)),
        (Event::End { shard: 1 }, Told::ShardEnded),
        trim(1, 0),
        (
            Event::Adopt { shard: 0 },
            Told::Refused(Refusal::PagesSpent),
        ),
        (Event::Retire { shard: 0, most: 5 }, Told::Retired(0)),
        (put(0, 7), Told::Issued(second)),
        look(second, 7),
        look(other, 6),
    ];
    totals_after(alloc, 2, 1, table.as_slice())
}

#[test]
fn a_group_with_no_page_stays(rt: HostRuntime) {
    assert_eq!(rt;
        totals_of_one_group(rt.alloc()),
        Some(Totals { pages: 2, live: 2 })
    );
}

// A shard that ends with a group that has no page leaves nothing to adopt.
fn totals_after_an_end(alloc: Global) -> Option<Totals> {
    let made = key(0, 0, 0, 1)?;
    let table = [
        (put(0, 5), Told::Issued(made)),
        free(made, true),
        trim(0, 1),
        (Event::End { shard: 0 }, Told::ShardEnded),
        trim(0, 0),
        look_gone(made),
        free(made, false),
        (
            Event::Adopt { shard: 1 },
            Told::Refused(Refusal::NothingToAdopt),
        ),
    ];
    totals_after(alloc, 2, 4, table.as_slice())
}

#[test]
fn a_group_with_no_page_ends(rt: HostRuntime) {
    assert_eq!(rt;
        totals_after_an_end(rt.alloc()),
        Some(Totals { pages: 0, live: 0 })
    );
}

// A mark sees no group without a page. The one that it folds onto keeps its page until the close,
// and then gives it back when its guest's key is freed.
fn totals_of_marks(alloc: Global) -> Option<Totals> {
    let (freed, folded) = (key(0, 0, 0, 1)?, key(0, 0, 1, 1)?);
    let (emptied, kept) = (key(1, 0, 0, 1)?, key(1, 0, 0, 2)?);
    let (home, onto) = (folded.span, kept.span);
    let table = [
        (put(1, 7), Told::Issued(emptied)),
        free(emptied, true),
        trim(1, 1),
        (put(0, 10), Told::Issued(freed)),
        (put(0, 11), Told::Issued(folded)),
        free(freed, true),
        (Event::End { shard: 0 }, Told::ShardEnded),
        (Event::Mark, Told::Marked(0)),
        (Event::Step, Told::NoPairLeft),
        (Event::Close, Told::Closed),
        (put(1, 8), Told::Issued(kept)),
        (Event::Mark, Told::Marked(1)),
        free(kept, true),
        trim(1, 0),
        (Event::Step, Told::Stepped(home, onto, Step::Folded)),
        look(folded, 11),
        look_gone(kept),
        (Event::Close, Told::Closed),
        trim(1, 0),
        free(folded, true),
        trim(1, 1),
        look_gone(folded),
    ];
    totals_after(alloc, 2, 4, table.as_slice())
}

#[test]
fn a_closed_group_keeps_its_page(rt: HostRuntime) {
    assert_eq!(rt;
        totals_of_marks(rt.alloc()),
        Some(Totals { pages: 0, live: 0 })
    );
}
