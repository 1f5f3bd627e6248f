//! Calls of an arena's seats and of its steward.
use crate::refusing::{Rounds, Script, Subject};
use arena::{Arena, NoGate, Seat, Stepped, Steward};
use certificate::Certificate;
use marks::MarkError;
use mesh_graph::AtHand;
use pool::{AdoptError, ReceiveError};
use shard::PutError;
use span::names::{Class, Key, Object, SpanId};
use span::receipts::ReceiptList;
use std::alloc::{AllocError, Global};
use std::sync::Wait;

/// One call of the seat of that number, or of the steward.
#[derive(Clone, Copy)]
pub(crate) enum Call {
    Put {
        seat: usize,
        value: Object,
    },
    Get {
        seat: usize,
        key: Key,
    },
    Set {
        seat: usize,
        key: Key,
        value: Object,
    },
    Free {
        seat: usize,
        key: Key,
    },
    Later {
        seat: usize,
        key: Key,
    },
    HandOver {
        seat: usize,
    },
    Tend {
        seat: usize,
    },
    End {
        seat: usize,
    },
    Begin {
        seat: usize,
    },
    Retire {
        seat: usize,
        most: usize,
    },
    Trim {
        seat: usize,
    },
    Gather {
        seat: usize,
    },
    GatherPooled,
    Adopt {
        seat: usize,
    },
    Mark,
    MarkSome,
    Step,
    Close,
}

/// What a call answers.
#[derive(Clone, Copy, PartialEq)]
pub(crate) enum Told {
    Issued(Key),
    NotPut(PutError),
    Found(Option<Object>),
    Replaced(bool),
    Freed(bool),
    Sent(bool),
    HandedOver,
    Tended(usize, usize),
    Ended,
    Begun(bool),
    Retired(usize),
    NotReceived(ReceiveError),
    Trimmed(usize),
    Gathered(usize),
    Adopted(SpanId),
    NotAdopted(AdoptError),
    Marked(usize, usize),
    NotMarked(MarkError),
    Stepped(Stepped),
    Closed(bool),
    OutOfMemory,
    NoSeat,
}

/// An arena with its seats, its steward and the receipts of what was tended.
#[derive(Drop)]
pub(crate) struct Stand {
    arena: Arena<NoGate>,
    seats: Vec<Seat>,
    steward: Steward,
    receipts: ReceiptList,
}

fn put<R: Wait>(rt: &R, arena: &Arena<NoGate>, seat: &mut Seat, value: Object) -> Option<Told> {
    if !seat.fits(arena) {
        return None;
    }
    Some(match seat.put(rt, arena, value) {
        Ok((key, _)) => Told::Issued(key),
        Err(PutError::OutOfMemory) => Told::OutOfMemory,
        Err(error) => Told::NotPut(error),
    })
}

fn get<R: Wait>(rt: &R, arena: &Arena<NoGate>, seat: &mut Seat, key: &Key) -> Option<Told> {
    if !seat.fits(arena) {
        return None;
    }
    Some(Told::Found(seat.get(rt, arena, key).0))
}

fn set<R: Wait>(
    rt: &R,
    arena: &Arena<NoGate>,
    seat: &mut Seat,
    key: &Key,
    value: Object,
) -> Option<Told> {
    if !seat.fits(arena) {
        return None;
    }
    Some(match seat.set(rt, arena, key, value) {
        Ok((done, _)) => Told::Replaced(done),
        Err(_) => Told::OutOfMemory,
    })
}

fn free<R: Wait>(rt: &R, arena: &Arena<NoGate>, seat: &mut Seat, key: &Key) -> Option<Told> {
    if !seat.fits(arena) {
        return None;
    }
    Some(Told::Freed(seat.free(rt, arena, key).0))
}

fn later(seat: &mut Seat, key: Key) -> Option<Told> {
    if !seat.has_shard_of(&key) {
        return None;
    }
    Some(Told::Sent(seat.free_later(key).is_ok()))
}

fn hand_over(seat: &mut Seat) -> Told {
    seat.hand_over();
    Told::HandedOver
}

fn tend<R: Wait>(
    rt: &R,
    arena: &Arena<NoGate>,
    seat: &mut Seat,
    receipts: &mut ReceiptList,
) -> Option<Told> {
    if !seat.fits(arena) {
        return None;
    }
    Some(match seat.tend(rt, arena, receipts) {
        Ok(count) => Told::Tended(count, receipts.len()),
        Err(_) => Told::OutOfMemory,
    })
}

fn end<R: Wait>(rt: &R, arena: &Arena<NoGate>, seat: &mut Seat) -> Option<Told> {
    if !seat.fits(arena) {
        return None;
    }
    Some(match seat.end(rt, arena) {
        Ok(()) => Told::Ended,
        Err(ReceiveError::OutOfMemory) => Told::OutOfMemory,
        Err(error) => Told::NotReceived(error),
    })
}

fn retire<R: Wait>(rt: &R, arena: &Arena<NoGate>, seat: &mut Seat, most: usize) -> Option<Told> {
    if !seat.fits(arena) {
        return None;
    }
    Some(match seat.retire(rt, arena, most) {
        Ok(count) => Told::Retired(count),
        Err(ReceiveError::OutOfMemory) => Told::OutOfMemory,
        Err(error) => Told::NotReceived(error),
    })
}

fn begin<R: Wait>(rt: &R, arena: &Arena<NoGate>, seat: &mut Seat) -> Option<Told> {
    if !seat.fits(arena) {
        return None;
    }
    Some(Told::Begun(seat.begin(rt, arena)))
}

fn trim<R: Wait>(rt: &R, arena: &Arena<NoGate>, seat: &mut Seat) -> Option<Told> {
    if !seat.fits(arena) {
        return None;
    }
    Some(Told::Trimmed(seat.trim(rt, arena)))
}

fn gather<R: Wait>(rt: &R, arena: &Arena<NoGate>, seat: &mut Seat) -> Option<Told> {
    if !seat.fits(arena) {
        return None;
    }
    Some(told_of_gathering(seat.gather(rt, arena, 0, usize::MAX)))
}

fn told_of_gathering(gathered: Result<usize, AllocError>) -> Told {
    match gathered {
        Ok(count) => Told::Gathered(count),
        Err(_) => Told::OutOfMemory,
    }
}

fn adopt<R: Wait>(rt: &R, arena: &Arena<NoGate>, seat: &mut Seat) -> Option<Told> {
    if !seat.fits(arena) {
        return None;
    }
    Some(match seat.adopt(rt, arena) {
        Ok(head) => Told::Adopted(head),
        Err(AdoptError::OutOfMemory) => Told::OutOfMemory,
        Err(error) => Told::NotAdopted(error),
    })
}

fn mark<R: Wait>(rt: &R, arena: &Arena<NoGate>, steward: &mut Steward) -> Option<Told> {
    if !steward.fits(arena) {
        return None;
    }
    Some(told_of_mark(arena.mark(rt, &AtHand, steward)))
}

fn mark_some<R: Wait>(rt: &R, arena: &Arena<NoGate>, steward: &mut Steward) -> Option<Told> {
    if !steward.fits(arena) {
        return None;
    }
    Some(told_of_mark(arena.mark_some(rt, &AtHand, steward)))
}

fn told_of_mark(marked: Result<Certificate, MarkError>) -> Told {
    match marked {
        Ok(found) => Told::Marked(found.plan.pairs().len(), found.short.ids().len()),
        Err(MarkError::OutOfMemory) => Told::OutOfMemory,
        Err(error) => Told::NotMarked(error),
    }
}

fn step<R: Wait>(rt: &R, arena: &Arena<NoGate>, steward: &mut Steward) -> Option<Told> {
    if !steward.fits(arena) {
        return None;
    }
    Some(match arena.step(rt, steward) {
        Ok(stepped) => Told::Stepped(stepped),
        Err(_) => Told::OutOfMemory,
    })
}

fn close<R: Wait>(rt: &R, arena: &Arena<NoGate>, steward: &mut Steward) -> Option<Told> {
    if !steward.fits(arena) {
        return None;
    }
    Some(Told::Closed(arena.close(rt, steward)))
}

fn answer<R: Wait>(rt: &R, stand: &mut Stand, call: Call) -> Option<Told> {
    let Stand {
        arena,
        seats,
        steward,
        receipts,
    } = stand;
    match call {
        Call::Put { seat, value } => put(rt, arena, seats.get_mut(seat)?, value),
        Call::Get { seat, key } => get(rt, arena, seats.get_mut(seat)?, &key),
        Call::Set { seat, key, value } => set(rt, arena, seats.get_mut(seat)?, &key, value),
        Call::Free { seat, key } => free(rt, arena, seats.get_mut(seat)?, &key),
        Call::Later { seat, key } => later(seats.get_mut(seat)?, key),
        Call::HandOver { seat } => Some(hand_over(seats.get_mut(seat)?)),
        Call::Tend { seat } => tend(rt, arena, seats.get_mut(seat)?, receipts),
        Call::End { seat } => end(rt, arena, seats.get_mut(seat)?),
        Call::Begin { seat } => begin(rt, arena, seats.get_mut(seat)?),
        Call::Retire { seat, most } => retire(rt, arena, seats.get_mut(seat)?, most),
        Call::Trim { seat } => trim(rt, arena, seats.get_mut(seat)?),
        Call::Gather { seat } => gather(rt, arena, seats.get_mut(seat)?),
        Call::GatherPooled => Some(told_of_gathering(arena.gather_pool(rt, 0, usize::MAX))),
        Call::Adopt { seat } => adopt(rt, arena, seats.get_mut(seat)?),
        Call::Mark => mark(rt, arena, steward),
        Call::MarkSome => mark_some(rt, arena, steward),
        Call::Step => step(rt, arena, steward),
        Call::Close => close(rt, arena, steward),
    }
}

fn tell<R: Wait>(rt: &R, stand: &mut Stand, call: Call) -> Told {
    match answer(rt, stand, call) {
        Some(told) => told,
        None => Told::NoSeat,
    }
}

fn look_up<R: Wait>(rt: &R, stand: &mut Stand, key: Key) -> Told {
    tell(rt, stand, Call::Get { seat: 0, key })
}

fn find_alike<R: Wait>(rt: &R, stand: &mut Stand, twin: &mut Stand, told: &[Told]) -> bool {
    for issued in told {
        if let Told::Issued(key) = issued
            && look_up(rt, stand, *key) != look_up(rt, twin, *key)
        {
            return false;
        }
    }
    true
}

impl Subject for Stand {
    type Call = Call;

    type Told = Told;

    fn fresh<R: Wait>(_rt: &R, alloc: Global) -> Option<Stand> {
        let (arena, seats, steward) = Arena::open(alloc, 4, 8, 4, 9, NoGate).ok()?;
        Some(Stand {
            arena,
            seats,
            steward,
            receipts: ReceiptList::new(alloc),
        })
    }

    fn answer<R: Wait>(&mut self, rt: &R, call: Call) -> Told {
        tell(rt, self, call)
    }

    fn out_of_memory() -> Told {
        Told::OutOfMemory
    }

    fn may_do_without(call: Call) -> bool {
        matches!(call, Call::Retire { .. })
    }

    fn is_like<R: Wait>(&mut self, rt: &R, twin: &mut Stand, told: &[Told]) -> bool {
        self.arena.totals(rt) == twin.arena.totals(rt)
            && self.receipts.len() == twin.receipts.len()
            && find_alike(rt, self, twin, told)
    }
}

fn key(shard: u32, serial: u32, slot: u8) -> Option<Key> {
    Key::new(SpanId::new(shard, serial)?, slot, 1)
}

fn add(calls: &mut Vec<Call>, call: Call) -> Option<()> {
    calls.push(call).ok()
}

fn add_puts(calls: &mut Vec<Call>, seat: usize, count: u32) -> Option<()> {
    for value in 0..count {
        let value = Object::c16(u128::from(value));
        add(calls, Call::Put { seat, value })?;
    }
    Some(())
}

// Puts of objects of sixteen words, of which a page has as many.
fn add_wide_puts(calls: &mut Vec<Call>, seat: usize, count: u32) -> Option<()> {
    for value in 0..count {
        let value = Object::of(Class::C256, &[u128::from(value); 16]);
        add(calls, Call::Put { seat, value })?;
    }
    Some(())
}

// A mark with its steps, puts in their midst, and its close.
fn add_mark(calls: &mut Vec<Call>, seat: usize, mark: Call) -> Option<()> {
    add(calls, mark)?;
    add(calls, mark)?;
    add(calls, Call::Step)?;
    add_puts(calls, seat, 2)?;
    for _ in 0..4 {
        add(calls, Call::Step)?;
    }
    add(calls, Call::Close)
}

// Frees by the seat of the keys of the shard's first span, from that slot up to that one.
fn add_frees(calls: &mut Vec<Call>, seat: usize, shard: u32, from: u8, to: u8) -> Option<()> {
    for slot in from..to {
        let key = key(shard, 0, slot)?;
        add(calls, Call::Free { seat, key })?;
    }
    Some(())
}

// Deferred frees of keys of shard 1 by two seats, and their tending.
fn add_later(calls: &mut Vec<Call>) -> Option<()> {
    for slot in 4..8u8 {
        for seat in 1..3usize {
            let key = key(1, 0, slot)?;
            add(calls, Call::Later { seat, key })?;
        }
    }
    add(calls, Call::HandOver { seat: 2 })?;
    add(calls, Call::Tend { seat: 1 })?;
    add(calls, Call::Tend { seat: 1 })
}

// A set of the key at that slot of the shard's first span, to an object of its class and to one of
// another.
fn add_sets(calls: &mut Vec<Call>, seat: usize, shard: u32, slot: u8) -> Option<()> {
    let key = key(shard, 0, slot)?;
    let (value, other) = (Object::c16(77), Object::of(Class::C64, &[77; 4]));
    add(calls, Call::Set { seat, key, value })?;
    add(
        calls,
        Call::Set {
            seat,
            key,
            value: other,
        },
    )
}

// A look-up and a free of each key of the first spans.
fn add_last_frees(calls: &mut Vec<Call>) -> Option<()> {
    for shard in 0..4u32 {
        for slot in 0..40u8 {
            let key = key(shard, 0, slot)?;
            add(calls, Call::Get { seat: 3, key })?;
            add(calls, Call::Free { seat: 0, key })?;
        }
    }
    Some(())
}

// Puts over more than a page, frees, sets, deferred frees, ends, a fold of a group, a retirement,
// gatherings, an adoption, a fold of a group with a guest, a trim, and at last a free of every key
// that may be live.
fn calls_of(alloc: Global) -> Option<Vec<Call>> {
    let mut calls = Vec::new(alloc);
    add_puts(&mut calls, 0, 4)?;
    add_frees(&mut calls, 1, 0, 0, 2)?;
    add_sets(&mut calls, 2, 0, 3)?;
    add_puts(&mut calls, 1, 12)?;
    add_frees(&mut calls, 0, 1, 2, 4)?;
    add_later(&mut calls)?;
    add(&mut calls, Call::End { seat: 0 })?;
    add_sets(&mut calls, 2, 0, 2)?;
    add_mark(&mut calls, 1, Call::Mark)?;
    add_puts(&mut calls, 2, 30)?;
    add_wide_puts(&mut calls, 2, 17)?;
    add(&mut calls, Call::Retire { seat: 2, most: 1 })?;
    add(&mut calls, Call::End { seat: 1 })?;
    add(&mut calls, Call::GatherPooled)?;
    add(&mut calls, Call::Gather { seat: 2 })?;
    add(&mut calls, Call::Adopt { seat: 2 })?;
    add(&mut calls, Call::End { seat: 2 })?;
    add_puts(&mut calls, 3, 30)?;
    add_frees(&mut calls, 0, 3, 0, 24)?;
    add_frees(&mut calls, 0, 2, 20, 30)?;
    add_mark(&mut calls, 3, Call::MarkSome)?;
    add(&mut calls, Call::Adopt { seat: 3 })?;
    add_last_frees(&mut calls)?;
    add(&mut calls, Call::Trim { seat: 3 })?;
    add_puts(&mut calls, 3, 1)?;
    add(&mut calls, Call::Begin { seat: 0 })?;
    add_puts(&mut calls, 0, 1)?;
    Some(calls)
}

fn rounds_of<R: Wait>(rt: &R, alloc: Global) -> Option<Rounds> {
    let script = Script::<Stand>::new(rt, alloc, calls_of(alloc)?)?;
    script.rounds(rt, alloc)
}

#[test]
fn refuses_each(rt: HostRuntime) {
    let rounds = rounds_of(&rt, rt.alloc());
    assert!(rt;
        matches!(rounds, Some(rounds) if rounds.are_well()),
        "{rounds:?}"
    );
}
