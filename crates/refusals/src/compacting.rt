//! Steps of a compaction.
use crate::refusing::{Rounds, Script, Subject};
use arena_core::{Core, Refusal};
use compaction::{Compacted, Compaction, Standing};
use span::names::{Key, Object, SpanId};
use span::spans::Counted;
use std::alloc::{AllocError, Global};
use std::sync::Wait;

// How many shards have how many pages with how many objects each, of which some are freed.
const SHARDS: u32 = 2;

const PAGES: u32 = 5;

const SLOTS: u8 = 16;

const STAY: u8 = 2;

// How many steps are taken, more than a compaction is long.
const STEPS: u32 = 150;

/// A core with its compaction.
#[derive(Drop)]
struct Compacting {
    core: Core<Counted>,
    compaction: Compaction,
}

#[derive(Clone, Copy)]
enum Call {
    Put(u32),
    Free(Key),
    TakeStep,
}

#[derive(Clone, Copy, PartialEq)]
enum Told {
    Put(Option<Key>),
    Freed(bool),
    /// How many pages went, and whether that was the last step.
    Took(usize, bool),
    OutOfMemory,
}

fn tell(done: Compacted) -> Told {
    match done.standing {
        Standing::GoesOn => Told::Took(done.pages, false),
        Standing::Done => Told::Took(done.pages, true),
        Standing::Refused(_) => Told::OutOfMemory,
    }
}

// What the core answers to a put of an object of sixteen words.
fn tell_put(put: Result<Key, Refusal>) -> Told {
    match put {
        Ok(key) => Told::Put(Some(key)),
        Err(Refusal::OutOfMemory) => Told::OutOfMemory,
        Err(_) => Told::Put(None),
    }
}

fn object(shard: u32) -> Object {
    Object::of(span::names::Class::C256, &[u128::from(shard); 16])
}

impl Subject for Compacting {
    type Call = Call;

    type Told = Told;

    fn fresh<R: Wait>(_rt: &R, alloc: Global) -> Option<Compacting> {
        Some(Compacting {
            core: Core::with_log(alloc, SHARDS, PAGES as usize, 1, 9).ok()?,
            compaction: Compaction::new(),
        })
    }

    fn answer<R: Wait>(&mut self, _rt: &R, call: Call) -> Told {
        match call {
            Call::Put(shard) => tell_put(self.core.put(shard, object(shard))),
            Call::Free(key) => Told::Freed(self.core.free(&key)),
            Call::TakeStep => tell(self.compaction.go_on(&mut self.core, 1)),
        }
    }

    fn out_of_memory() -> Told {
        Told::OutOfMemory
    }

    // A retirement may, and a forgetting, which keeps a table that is too large.
    fn may_do_without(call: Call) -> bool {
        matches!(call, Call::TakeStep)
    }

    fn is_like<R: Wait>(&mut self, _rt: &R, twin: &mut Compacting, _told: &[Told]) -> bool {
        let totals = self.core.totals();
        if totals != twin.core.totals() {
            return false;
        }
        let mut last: Option<Key> = None;
        for _ in 0..totals.live {
            let next = self.core.next_live(last);
            let Some(key) = next else {
                return false;
            };
            if next != twin.core.next_live(last) || !self.core.get(&key).is_some() {
                return false;
            }
            last = next;
        }
        true
    }
}

// Whether the object at the slot of the page of that number stays.
fn stays(serial: u32, slot: u8) -> bool {
    slot.wrapping_mul(5)
        .wrapping_add((serial as u8).wrapping_mul(3))
        % SLOTS
        < STAY
}

// Puts that fill all pages, frees of most, and steps.
fn calls_of(alloc: Global) -> Result<Vec<Call>, AllocError> {
    let mut calls = Vec::new(alloc);
    for shard in 0..SHARDS {
        for _ in 0..PAGES * u32::from(SLOTS) {
            calls.push(Call::Put(shard))?;
        }
    }
    for shard in 0..SHARDS {
        for serial in 0..PAGES {
            add_frees(&mut calls, shard, serial)?;
        }
    }
    for _ in 0..STEPS {
        calls.push(Call::TakeStep)?;
    }
    Ok(calls)
}

fn add_frees(calls: &mut Vec<Call>, shard: u32, serial: u32) -> Result<(), AllocError> {
    let Some(span) = SpanId::new(shard, serial) else {
        return Ok(());
    };
    for slot in 0..SLOTS {
        if let Some(key) = Key::new(span, slot, 1) {
            if !stays(serial, slot) {
                calls.push(Call::Free(key))?;
            }
        }
    }
    Ok(())
}

fn rounds_of<R: Wait>(rt: &R, alloc: Global) -> Option<Rounds> {
    let calls = calls_of(alloc).ok()?;
    let script = Script::<Compacting>::new(rt, alloc, calls)?;
    script.rounds(rt, alloc)
}

#[test]
fn refuses_each(rt: HostRuntime) {
    let rounds = rounds_of(&rt, rt.alloc());
    assert!(rt;
        matches!(rounds, Some(rounds) if rounds.are_well()),
        "{rounds:?}"
    );
}
