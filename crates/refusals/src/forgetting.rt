//! That a forgetting forgets whatever growth is refused, and keeps nothing of what it forgets.
use crate::refusing::{Fault, MOST, Round, Rounds, refuse, standing, was_refused};
use arena::{Arena, NoGate, Seat, Steward};
use arena_core::Core;
use fold::{Step, fold_one};
use pool::Pool;
use shard::Shard;
use span::names::{MOST_SPANS, Object, SpanId};
use span::spans::Counted;
use std::alloc::Global;
use std::sync::Wait;

/// How many spans are forgotten at a time.
const SPANS: usize = 150;

/// What forgets.
trait Forgets: Sized + Drop {
    fn fresh<R: Wait>(rt: &R, alloc: Global) -> Option<Self>;

    /// Opens a span that takes no more puts, and then frees its one key.
    fn open<R: Wait>(&mut self, rt: &R) -> Option<()>;

    /// How many spans were forgotten.
    fn forget<R: Wait>(&mut self, rt: &R) -> Option<usize>;
}

fn open_all<F: Forgets, R: Wait>(rt: &R, it: &mut F) -> Option<()> {
    for _ in 0..SPANS {
        it.open(rt)?;
    }
    Some(())
}

/// A forgetting whose growth of that number is refused: the room that it gives back may be a
/// smaller table's.
fn round<F: Forgets, R: Wait>(rt: &R, alloc: Global, growth: u32) -> Option<Round> {
    let mut it = F::fresh(rt, alloc)?;
    open_all(rt, &mut it)?;
    refuse(alloc, growth);
    let forgotten = it.forget(rt)?;
    let is_refused = was_refused(alloc);
    open_all(rt, &mut it)?;
    Some(if (forgotten, it.forget(rt)?) != (SPANS, SPANS) {
        Round::Wrong(Fault::Answer)
    } else if is_refused {
        Round::Refused
    } else {
        Round::Done
    })
}

fn rounds_of<F: Forgets, R: Wait>(rt: &R, alloc: Global) -> Option<Rounds> {
    let mut rounds = Rounds::none();
    for growth in 1..MOST {
        if !rounds.count(0, growth, round::<F, R>(rt, alloc, growth)?) {
            break;
        }
    }
    Some(rounds)
}

/// How many bytes stood at the beginning, before a forgetting, after it, and after the next one of
/// as many spans; nothing where nobody counts them.
type Bytes = [Option<usize>; 4];

fn bytes_of<F: Forgets, R: Wait>(rt: &R, alloc: Global) -> Option<Bytes> {
    let mut it = F::fresh(rt, alloc)?;
    let fresh = standing(alloc);
    open_all(rt, &mut it)?;
    let dead = standing(alloc);
    it.forget(rt)?;
    let first = standing(alloc);
    open_all(rt, &mut it)?;
    it.forget(rt)?;
    Some([fresh, dead, first, standing(alloc)])
}

/// What a forgetting comes to.
#[derive(Clone, Copy, Debug)]
struct Told {
    rounds: Option<Rounds>,
    bytes: Option<Bytes>,
    /// Whether the room of what is forgotten goes too. That of a group's guests stays for the next
    /// ones.
    gives_room: bool,
}

impl Told {
    fn of<F: Forgets, R: Wait>(rt: &R, alloc: Global, gives_room: bool) -> Told {
        Told {
            rounds: rounds_of::<F, R>(rt, alloc),
            bytes: bytes_of::<F, R>(rt, alloc),
            gives_room,
        }
    }

    /// Whether it forgot in each round, and what is left are a tenth of the bytes at most, or room
    /// that the next spans find.
    fn is_well(&self) -> bool {
        matches!(self.rounds, Some(rounds) if rounds.are_well()) && self.keeps_nothing()
    }

    fn keeps_nothing(&self) -> bool {
        let Some([Some(fresh), Some(dead), Some(first), Some(second)]) = self.bytes else {
            return self.bytes == Some([None; 4]);
        };
        let (had, has) = (dead.saturating_sub(fresh), first.saturating_sub(fresh));
        let is_room_given = !self.gives_room || has <= had / 10;
        had > 100 * SPANS && is_room_given && second <= first
    }
}

/// A pool and a shard from which its groups come.
#[derive(Drop)]
struct Store {
    pool: Pool<Counted>,
    shard: Shard<Counted>,
}

impl Forgets for Store {
    fn fresh<R: Wait>(_rt: &R, alloc: Global) -> Option<Store> {
        Some(Store {
            pool: Pool::with_log(alloc),
            shard: Shard::with_log(alloc, 0, 4, MOST_SPANS, 9).ok()?,
        })
    }

    fn open<R: Wait>(&mut self, _rt: &R) -> Option<()> {
        let (key, _) = self.shard.put(Object::c16(5)).ok()?;
        self.pool.retire(&mut self.shard, 1).ok()?;
        self.pool.free(&key);
        Some(())
    }

    fn forget<R: Wait>(&mut self, _rt: &R) -> Option<usize> {
        Some(self.pool.forget())
    }
}

/// A pool and two shards: the first one's groups are folded onto the second one's, whose own key is
/// live.
#[derive(Drop)]
struct Guests {
    pool: Pool<Counted>,
    from: Shard<Counted>,
    onto: Shard<Counted>,
    head: SpanId,
}

impl Guests {
    fn new(alloc: Global) -> Option<Guests> {
        let mut onto = Shard::with_log(alloc, 1, 4, MOST_SPANS, 9).ok()?;
        // The slot below it is free for the guests.
        let (gone, _) = onto.put(Object::c16(5)).ok()?;
        let (kept, _) = onto.put(Object::c16(6)).ok()?;
        onto.free(&gone);
        Some(Guests {
            pool: Pool::with_log(alloc),
            from: Shard::with_log(alloc, 0, 4, MOST_SPANS, 9).ok()?,
            onto,
            head: kept.span,
        })
    }

    /// Opens a span, which becomes a guest of the second shard's group, and then frees its one key.
    fn open(&mut self) -> Option<()> {
        let (key, _) = self.from.put(Object::c16(5)).ok()?;
        self.pool.retire(&mut self.from, 1).ok()?;
        let step = fold_one(&mut self.pool, &mut self.onto, key.span, self.head).ok()?;
        self.onto.free(&key);
        if step == Step::Folded { Some(()) } else { None }
    }
}

/// Guests of a shard's group.
#[derive(Drop)]
struct Owned {
    guests: Guests,
}

impl Forgets for Owned {
    fn fresh<R: Wait>(_rt: &R, alloc: Global) -> Option<Owned> {
        Some(Owned {
            guests: Guests::new(alloc)?,
        })
    }

    fn open<R: Wait>(&mut self, _rt: &R) -> Option<()> {
        self.guests.open()
    }

    fn forget<R: Wait>(&mut self, _rt: &R) -> Option<usize> {
        Some(self.guests.onto.forget())
    }
}

/// Guests of a group that goes to the pool each time that it has one more.
#[derive(Drop)]
struct Pooled {
    guests: Guests,
}

impl Forgets for Pooled {
    fn fresh<R: Wait>(_rt: &R, alloc: Global) -> Option<Pooled> {
        let mut guests = Guests::new(alloc)?;
        let Guests { pool, onto, .. } = &mut guests;
        pool.retire(onto, 1).ok()?;
        Some(Pooled { guests })
    }

    fn open<R: Wait>(&mut self, _rt: &R) -> Option<()> {
        self.guests.pool.adopt(&mut self.guests.onto).ok()?;
        self.guests.open()?;
        self.guests.pool.retire(&mut self.guests.onto, 1).ok()?;
        Some(())
    }

    fn forget<R: Wait>(&mut self, _rt: &R) -> Option<usize> {
        Some(self.guests.pool.forget())
    }
}

impl Forgets for Core<Counted> {
    fn fresh<R: Wait>(_rt: &R, alloc: Global) -> Option<Core<Counted>> {
        Core::with_log(alloc, 2, 4, 4, 9).ok()
    }

    fn open<R: Wait>(&mut self, _rt: &R) -> Option<()> {
        let key = self.put(0, Object::c16(5)).ok()?;
        self.retire(0, 1).ok()?;
        self.free(&key);
        Some(())
    }

    fn forget<R: Wait>(&mut self, _rt: &R) -> Option<usize> {
        Core::forget(self).ok()
    }
}

/// An arena with a seat and its steward.
#[derive(Drop)]
struct Stand {
    arena: Arena<NoGate, Counted>,
    seat: Seat,
    steward: Steward,
}

impl Forgets for Stand {
    fn fresh<R: Wait>(_rt: &R, alloc: Global) -> Option<Stand> {
        let (arena, mut seats, steward) = Arena::open_with_log(alloc, 2, 4, 4, 9, NoGate).ok()?;
        Some(Stand {
            arena,
            seat: seats.pop()?,
            steward,
        })
    }

    fn open<R: Wait>(&mut self, rt: &R) -> Option<()> {
        let Stand { arena, seat, .. } = self;
        open_at(rt, arena, seat)
    }

    fn forget<R: Wait>(&mut self, rt: &R) -> Option<usize> {
        if !self.steward.fits(&self.arena) {
            return None;
        }
        self.arena.forget(rt, &self.steward).ok()
    }
}

fn open_at<R: Wait>(rt: &R, arena: &Arena<NoGate, Counted>, seat: &mut Seat) -> Option<()> {
    if !seat.fits(arena) {
        return None;
    }
    let Ok((key, _)) = seat.put(rt, arena, Object::c16(5)) else {
        return None;
    };
    if !seat.fits(arena) || seat.retire(rt, arena, 1).is_err() || !seat.fits(arena) {
        return None;
    }
    seat.free(rt, arena, &key);
    Some(())
}

#[test]
fn forgets_whatever_is_refused_and_keeps_nothing(rt: HostRuntime) {
    let alloc = rt.alloc();
    let told = [
        Told::of::<Store, HostRuntime>(&rt, alloc, true),
        Told::of::<Owned, HostRuntime>(&rt, alloc, false),
        Told::of::<Pooled, HostRuntime>(&rt, alloc, false),
        Told::of::<Core<Counted>, HostRuntime>(&rt, alloc, true),
        Told::of::<Stand, HostRuntime>(&rt, alloc, true),
    ];
    assert!(rt; told.iter().all(|told| told.is_well()), "{told:?}");
}
