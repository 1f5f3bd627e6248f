// An arena that several own, so that one of its seats may keep its shard while the others are
// asked; and calls that do not wait. A call looks first whether seat and arena fit, as none of its
// clauses is kept here.
use arena::{Arena, Busy, NoGate, Seat, Session, Stepped, Steward};
use marks::Totals;
use span::names::{Class, Key, Object};
use span::spans::Counted;
use std::alloc::Global;
use std::sync::Arc;

pub(crate) type Shards = Arena<NoGate, Counted>;

pub(crate) type Kept = Session<NoGate, Counted>;

// The object of the class that has the first of these words.
pub(crate) fn first_of(class: Class, words: &[u128; 16]) -> Object {
    Object::of(class, &words[..class.words()])
}

// An arena of three shards with its seats and its steward.
#[derive(Drop)]
pub(crate) struct Shared {
    pub(crate) arena: Arc<Shards, Global>,
    pub(crate) first: Seat,
    pub(crate) second: Seat,
    pub(crate) third: Seat,
    pub(crate) steward: Steward,
}

// Shards of that many pages each. A shard of two has eight words for hints.
pub(crate) fn make_shared(alloc: Global, pages: usize) -> Option<Shared> {
    let opened = Arena::open_with_log(alloc, 3, pages, 4, 9, NoGate);
    let Ok((arena, mut seats, steward)) = opened else {
        return None;
    };
    let third = seats.pop()?;
    let second = seats.pop()?;
    let first = seats.pop()?;
    let Ok(arena) = Arc::new(alloc, arena) else {
        return None;
    };
    Some(Shared {
        arena,
        first,
        second,
        third,
        steward,
    })
}

// The seat with its shard out of its lock.
pub(crate) fn keep(arena: &Arc<Shards, Global>, seat: Seat) -> Option<Kept> {
    if !seat.fits(&**arena) {
        return None;
    }
    let Ok(arena) = Arc::try_clone(arena) else {
        return None;
    };
    match Session::try_begin(arena, seat) {
        Ok(session) => Some(session),
        Err(_) => None,
    }
}

// The seat, whose shard is in its lock again.
pub(crate) fn pause(session: Kept) -> Seat {
    let (_, seat) = session.pause();
    seat
}

pub(crate) fn put(arena: &Shards, seat: &mut Seat, word: u128) -> Option<Key> {
    put_object(arena, seat, Object::c16(word))
}

pub(crate) fn put_object(arena: &Shards, seat: &mut Seat, object: Object) -> Option<Key> {
    if !seat.fits(arena) {
        return None;
    }
    match seat.try_put(arena, object.class(), object.words()) {
        Ok(Ok(put)) => Some(put.key()),
        _ => None,
    }
}

// What a look-up finds, or that another thread has a lock that it asks for.
pub(crate) type Found = Option<Result<Option<Object>, Busy>>;

pub(crate) fn get(arena: &Shards, seat: &mut Seat, key: &Key) -> Found {
    if !seat.fits(arena) {
        return None;
    }
    let mut room = [0u128; 16];
    Some(match seat.try_get(arena, key, &mut room) {
        Ok(looked) => Ok(looked.object(&room)),
        Err(busy) => Err(busy),
    })
}

// The word that a look-up finds in a room for one.
pub(crate) fn get_word(
    arena: &Shards,
    seat: &mut Seat,
    key: &Key,
) -> Option<Result<Option<u128>, Busy>> {
    if !seat.fits(arena) {
        return None;
    }
    let mut room = [0u128];
    Some(match seat.try_get(arena, key, &mut room) {
        Ok(looked) if looked.word_count() == Some(1) => Ok(Some(room[0])),
        Ok(_) => Ok(None),
        Err(busy) => Err(busy),
    })
}

// Whether a set or a free was done, or that another thread has a lock that it asks for.
pub(crate) type Done = Option<Result<bool, Busy>>;

pub(crate) fn set(arena: &Shards, seat: &mut Seat, key: &Key, word: u128) -> Done {
    if !seat.fits(arena) {
        return None;
    }
    Some(match seat.try_set(arena, key, &[word]) {
        Ok(Ok(set)) => Ok(set.done()),
        Ok(Err(_)) => return None,
        Err(busy) => Err(busy),
    })
}

pub(crate) fn free(arena: &Shards, seat: &mut Seat, key: &Key) -> Done {
    if !seat.fits(arena) {
        return None;
    }
    Some(match seat.try_free(arena, key) {
        Ok(freed) => Ok(freed.done()),
        Err(busy) => Err(busy),
    })
}

// How many groups went to the pool.
pub(crate) fn retire(arena: &Shards, seat: &mut Seat, most: usize) -> Option<usize> {
    if !seat.fits(arena) {
        return None;
    }
    match seat.try_retire(arena, most) {
        Ok(Ok(count)) => Some(count),
        _ => None,
    }
}

// Whether the shard adopted a group.
pub(crate) fn adopt(arena: &Shards, seat: &mut Seat) -> bool {
    seat.fits(arena) && matches!(seat.try_adopt(arena), Ok(Ok(_)))
}

// How many pairs the plan of a mark has. `Err` is of one that is busy, and of nothing else.
pub(crate) fn mark(arena: &Shards, steward: &mut Steward) -> Option<Result<usize, Busy>> {
    if !steward.fits(arena) {
        return None;
    }
    match arena.try_mark(steward) {
        Ok(Ok(found)) => Some(Ok(found.plan.pairs().len())),
        Ok(Err(_)) => None,
        Err(busy) => Some(Err(busy)),
    }
}

pub(crate) fn step(arena: &Shards, steward: &mut Steward) -> Option<Result<Stepped, Busy>> {
    if !steward.fits(arena) {
        return None;
    }
    match arena.try_step(steward) {
        Ok(Ok(stepped)) => Some(Ok(stepped)),
        Ok(Err(_)) => None,
        Err(busy) => Some(Err(busy)),
    }
}

pub(crate) fn close(arena: &Shards, steward: &mut Steward) -> Done {
    if !steward.fits(arena) {
        return None;
    }
    Some(arena.try_close(steward))
}

pub(crate) fn totals(arena: &Shards) -> Result<Totals, Busy> {
    arena.try_totals()
}

// A put of the session, of an object of one word.
pub(crate) fn put_kept(session: &mut Kept, word: u128) -> Option<Key> {
    match session.put(Class::C16, &[word]) {
        Ok(put) => Some(put.key()),
        Err(_) => None,
    }
}
