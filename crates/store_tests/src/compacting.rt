//! Compactions of a core within budgets: how many pages are left, and that each key finds its
//! object at each place where one may stop.
use arena_core::{Core, Event, Refusal};
use compaction::{Compacted, Compaction, Standing};
use span::names::{Key, Object};
use span::spans::Counted;
use std::alloc::{AllocError, Global};

// How many objects of 16 words are put, and how many of a page stay.
const OBJECTS: u32 = 960;

const PAGE: u32 = 16;

const STAY: u32 = 3;

// A core of that many shards, which take objects in turn, and keep some of each page.
#[derive(Drop)]
struct Thinned {
    core: Core<Counted>,
    kept: Vec<(Key, u32)>,
}

fn object(number: u32) -> Object {
    Object::of(span::names::Class::C256, &[u128::from(number); 16])
}

// Whether the object of this number stays: on each page others do.
fn stays(number: u32) -> bool {
    let at = (number / PAGE)
        .wrapping_mul(7)
        .wrapping_add(number.wrapping_mul(5))
        % PAGE;
    at < STAY
}

fn new_thinned(alloc: Global, shards: u32) -> Option<Thinned> {
    let mut core = Core::with_log(alloc, shards, 100, 1, 9).ok()?;
    let mut keys = Vec::with_capacity(alloc, OBJECTS as usize).ok()?;
    for number in 0..OBJECTS {
        let key = core.put(number / PAGE % shards, object(number)).ok()?;
        keys.push_reserved((key, number));
    }
    let mut kept = Vec::with_capacity(alloc, OBJECTS as usize).ok()?;
    for (key, number) in keys.iter() {
        if stays(*number) {
            kept.push_reserved((*key, *number));
        } else {
            core.free(key);
        }
    }
    Some(Thinned { core, kept })
}

impl Thinned {
    // Whether each key that was kept finds its object.
    fn is_whole(&mut self) -> bool {
        for (key, number) in self.kept.iter() {
            let found = self.core.get(key);
            if !found.is_some_and(|words| words == object(*number).words()) {
                return false;
            }
        }
        true
    }

    // Compacts by calls within the budget, and answers how many pages were counted, how many
    // calls it took, and whether all was there between them.
    fn compact(&mut self, budget: usize) -> Option<(usize, u32)> {
        let mut compaction = Compaction::new();
        let mut pages = 0usize;
        for calls in 0..100_000u32 {
            let Compacted {
                pages: gone,
                standing,
            } = compaction.go_on(&mut self.core, budget);
            pages = pages.saturating_add(gone);
            match standing {
                Standing::GoesOn => {}
                Standing::Done => return Some((pages, calls)),
                Standing::Refused(_) => return None,
            }
            if calls % 64 == 0 && !self.is_whole() {
                return None;
            }
        }
        None
    }
}

// Whether a compaction within the budget leaves at most twice as many pages as the objects need, of
// five times as many, and each key, and counts the pages that went.
fn is_compacted(alloc: Global, shards: u32, budget: usize) -> Option<bool> {
    let mut thinned = new_thinned(alloc, shards)?;
    let before = thinned.core.totals().pages;
    let (pages, _) = thinned.compact(budget)?;
    let after = thinned.core.totals().pages;
    let is_sparse = before == 60 && after <= 24;
    Some(thinned.is_whole() && is_sparse && before == after + pages)
}

#[test]
fn compacts_one_shard_step_by_step(rt: HostRuntime) {
    assert_eq!(rt; is_compacted(rt.alloc(), 1, 1), Some(true));
}

#[test]
fn compacts_many_shards_by_parts(rt: HostRuntime) {
    assert_eq!(rt; is_compacted(rt.alloc(), 5, 7), Some(true));
}

#[test]
fn compacts_at_once(rt: HostRuntime) {
    assert_eq!(rt; is_compacted(rt.alloc(), 3, 100_000), Some(true));
}

// What is answered where too few pages can go, where enough can, and again; and whether the pages
// that are left are so many.
fn if_it_pays(alloc: Global) -> Option<[bool; 4]> {
    let mut thinned = new_thinned(alloc, 3)?;
    let before = thinned.core.totals().pages;
    let mut compaction = Compaction::new();
    let few = compaction.go_on_if_pays(&mut thinned.core, 100);
    let enough = compaction.go_on_if_pays(&mut thinned.core, 75);
    let again = compaction.go_on_if_pays(&mut thinned.core, 1);
    let after = thinned.core.totals().pages;
    Some([
        matches!(few.standing, Standing::Done) && few.pages == 0,
        matches!(enough.standing, Standing::Done) && after <= 24,
        matches!(again.standing, Standing::Done) && again.pages == 0,
        before == after + enough.pages && thinned.is_whole(),
    ])
}

#[test]
fn compacts_if_it_pays(rt: HostRuntime) {
    assert_eq!(rt; if_it_pays(rt.alloc()), Some([true; 4]));
}

// Whether the object stays that was put into the slot of the page: of one half of 64 pages the
// lowest five slots or the next five, and of the other half the lowest eleven, onto which none of
// the first half fits.
fn stays_at(page: u32, slot: u32) -> bool {
    match page % 4 {
        0 => slot < 5,
        2 => slot >= 5 && slot < 10,
        _ => slot < 11,
    }
}

// How many pages are left of such 64.
fn pages_left(alloc: Global) -> Option<usize> {
    let mut core = Core::with_log(alloc, 1, 100, 1, 9).ok()?;
    let mut keys = Vec::with_capacity(alloc, 1024).ok()?;
    for number in 0..1024u32 {
        keys.push_reserved(core.put(0, object(number)).ok()?);
    }
    for number in 0..1024u32 {
        if !stays_at(number / PAGE, number % PAGE) {
            core.free(&keys[number as usize]);
        }
    }
    let done = Compaction::new().go_on(&mut core, 100_000);
    match done.standing {
        Standing::Done => Some(core.totals().pages),
        _ => None,
    }
}

#[test]
fn divides_pages_that_fit_each_other_alone(rt: HostRuntime) {
    assert_eq!(rt; pages_left(rt.alloc()), Some(48));
}

// What calls answer while a plan of somebody else is open, and once it is closed.
fn beside_a_plan(alloc: Global) -> Option<[bool; 3]> {
    let mut thinned = new_thinned(alloc, 2)?;
    let mut compaction = Compaction::new();
    thinned.core.step(Event::Mark);
    let refused = compaction.go_on(&mut thinned.core, 9);
    let is_refused = matches!(refused.standing, Standing::Refused(Refusal::PlanOpen));
    thinned.core.step(Event::Close);
    let goes_on = compaction.go_on(&mut thinned.core, 9);
    let none = compaction.go_on(&mut thinned.core, 0);
    let is_idle = matches!(none.standing, Standing::GoesOn) && none.pages == 0;
    Some([
        is_refused,
        matches!(goes_on.standing, Standing::GoesOn),
        is_idle,
    ])
}

#[test]
fn waits_for_the_plan_of_somebody_else(rt: HostRuntime) {
    assert_eq!(rt; beside_a_plan(rt.alloc()), Some([true; 3]));
}
