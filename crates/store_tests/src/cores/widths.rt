// A map of keys beside a core, under calls on objects of all widths. Each span is of one class, and
// a group takes in none but those of its own.
use super::{Told, tell};
use crate::objects::object;
use arena_core::{Core, Event};
use fold::Step;
use marks::Totals;
use span::names::{CLASSES, Class, Key, SpanId};
use span::spans::Counted;
use std::alloc::Global;

const SHARDS: u32 = 4;

// A live key, and which object it has.
#[derive(Clone, Copy)]
struct Kept {
    key: Key,
    class: Class,
    word: u128,
}

// A core, what its live keys have, and of which class its spans are. How many groups of each class
// were folded comes last.
#[derive(Drop)]
struct Beside {
    core: Core<Counted>,
    live: Vec<Kept>,
    spans: Vec<(SpanId, Class)>,
    folded: [u32; CLASSES],
}

// Goes on if this holds.
fn holds(fact: bool) -> Option<()> {
    if fact { Some(()) } else { None }
}

impl Beside {
    fn new(alloc: Global) -> Option<Beside> {
        Some(Beside {
            core: Core::with_log(alloc, SHARDS, 64, 1, u32::MAX).ok()?,
            live: Vec::new(alloc),
            spans: Vec::new(alloc),
            folded: [0; CLASSES],
        })
    }

    fn class_of(&self, id: SpanId) -> Option<Class> {
        for (span, class) in self.spans.iter() {
            if *span == id {
                return Some(*class);
            }
        }
        None
    }

    // Puts an object of the class, under a key that is not live, in a span of the class or a new
    // one.
    fn put(&mut self, shard: u32, class: Class, word: u128) -> Option<Key> {
        let key = self.core.put(shard, object(class, word)).ok()?;
        for kept in self.live.iter() {
            holds(kept.key != key)?;
        }
        match self.class_of(key.span) {
            Some(other) => holds(class == other)?,
            None => self.spans.push((key.span, class)).ok()?,
        }
        self.live.push(Kept { key, class, word }).ok()?;
        Some(key)
    }

    // Sets the key at that place to an object of the class, which is done if its own is of it too.
    fn set(&mut self, place: usize, class: Class, word: u128) -> Option<()> {
        let kept = self.live.get_mut(place)?;
        let done = self.core.set(&kept.key, object(class, word).words());
        holds(done == Ok(class == kept.class))?;
        if class == kept.class {
            kept.word = word;
        }
        Some(())
    }

    // Frees the key at that place, once.
    fn free(&mut self, place: usize) -> Option<()> {
        holds(place < self.live.len())?;
        let kept = self.live.swap_remove(place);
        holds(self.core.free(&kept.key) && !self.core.free(&kept.key))?;
        holds(self.core.get(&kept.key).is_none())
    }

    // The step of the open plan: whether there is a next. Groups that it folds are of one class.
    fn step(&mut self) -> Option<bool> {
        match tell(&self.core.step(Event::Step)) {
            Told::Stepped(from, onto, Step::Folded) => {
                let class = self.class_of(from)?;
                holds(self.class_of(onto)? == class)?;
                let number = class.number();
                self.folded[number] = self.folded[number].saturating_add(1);
                Some(true)
            }
            Told::Stepped(..) => Some(true),
            Told::NoPairLeft => Some(false),
            _ => None,
        }
    }

    // Carries a plan out, and says how many pairs it had.
    fn fold(&mut self) -> Option<usize> {
        let Told::Marked(planned) = tell(&self.core.step(Event::Mark)) else {
            return None;
        };
        for _ in 0..=planned {
            if !self.step()? {
                break;
            }
        }
        holds(tell(&self.core.step(Event::Close)) == Told::Closed)?;
        Some(planned)
    }

    // Goes on if each key finds its object, to the last word, and no other key is live.
    fn is_whole(&self) -> Option<()> {
        for kept in self.live.iter() {
            let words = self.core.get(&kept.key)?;
            holds(words == object(kept.class, kept.word).words())?;
        }
        holds(self.core.totals().live == self.live.len())
    }
}

// Of each class an object at slot 1 in shard 0, which ends, and one at slot 0 in shard 1.
fn one_of_each(beside: &mut Beside) -> Option<()> {
    for words in 1..=CLASSES {
        let class = Class::of_words(words)?;
        beside.put(0, class, 16)?;
        beside.put(0, class, 32)?;
        beside.put(1, class, 48)?;
        beside.free(words.saturating_mul(2).saturating_sub(2))?;
    }
    holds(tell(&beside.core.step(Event::End { shard: 0 })) == Told::ShardEnded)
}

fn folded_one_of_each(alloc: Global) -> Option<(usize, [u32; CLASSES], Totals)> {
    let mut beside = Beside::new(alloc)?;
    one_of_each(&mut beside)?;
    beside.is_whole()?;
    let planned = beside.fold()?;
    beside.is_whole()?;
    Some((planned, beside.folded, beside.core.totals()))
}

#[test]
fn each_class_is_folded(rt: HostRuntime) {
    let totals = Totals {
        pages: 16,
        live: 32,
    };
    let wanted = (16, [1; CLASSES], totals);
    assert_eq!(rt; folded_one_of_each(rt.alloc()), Some(wanted));
}

// Of every other class an object at slot 1 in shard 0, which ends, and of the others one at slot 0
// in shard 1.
fn apart(alloc: Global) -> Option<(usize, Totals)> {
    let mut beside = Beside::new(alloc)?;
    for words in 1..=CLASSES {
        let class = Class::of_words(words)?;
        if words % 2 == 0 {
            beside.put(0, class, 16)?;
            beside.put(0, class, 32)?;
            let last = beside.live.len().saturating_sub(2);
            beside.free(last)?;
        } else {
            beside.put(1, class, 48)?;
        }
    }
    holds(tell(&beside.core.step(Event::End { shard: 0 })) == Told::ShardEnded)?;
    let planned = beside.fold()?;
    beside.is_whole()?;
    Some((planned, beside.core.totals()))
}

#[test]
fn no_class_is_folded_onto_another(rt: HostRuntime) {
    let totals = Totals {
        pages: 16,
        live: 16,
    };
    assert_eq!(rt; apart(rt.alloc()), Some((0, totals)));
}

// Numbers that look random, the same in each run.
#[derive(Drop)]
struct Random {
    state: u64,
}

impl Random {
    // One below that.
    fn below(&mut self, most: usize) -> usize {
        self.state = self
            .state
            .wrapping_mul(6_364_136_223_846_793_005)
            .wrapping_add(1_442_695_040_888_963_407);
        let high = (self.state >> 33) as usize;
        high.checked_rem(most).unwrap_or(0)
    }

    fn class(&mut self) -> Option<Class> {
        Class::of_words(self.below(CLASSES).saturating_add(1))
    }

    fn shard(&mut self) -> u32 {
        self.below(SHARDS as usize) as u32
    }
}

// One call on a key.
fn call(beside: &mut Beside, random: &mut Random) -> Option<()> {
    let word = random.below(1 << 20) as u128;
    let (class, place) = (random.class()?, random.below(beside.live.len()));
    match random.below(10) {
        0..=4 => {
            let shard = random.shard();
            beside.put(shard, class, word)?;
            Some(())
        }
        _ if beside.live.is_empty() => Some(()),
        5 => beside.set(place, class, word),
        6 => {
            let own = beside.live.get(place)?.class;
            beside.set(place, own, word)
        }
        _ => beside.free(place),
    }
}

// Brings groups of a shard to the pool, all of them or some. A shard that ends begins again.
fn give_up(beside: &mut Beside, random: &mut Random) -> Option<()> {
    let shard = random.shard();
    if random.below(2) == 0 {
        let most = random.below(20);
        let told = tell(&beside.core.step(Event::Retire { shard, most }));
        return holds(matches!(told, Told::Retired(_)));
    }
    holds(tell(&beside.core.step(Event::End { shard })) == Told::ShardEnded)?;
    holds(tell(&beside.core.step(Event::Begin { shard })) == Told::ShardBegun)
}

// Adopts groups of the pool, and gives pages back.
fn take_back(beside: &mut Beside, random: &mut Random) -> Option<()> {
    for _ in 0..random.below(8) {
        let shard = random.shard();
        beside.core.step(Event::Adopt { shard });
    }
    let shard = random.shard();
    let told = tell(&beside.core.step(Event::Trim { shard }));
    holds(matches!(told, Told::Trimmed(_)))
}

// Calls in rounds, each with folds of what shards gave up in it, and the keys looked up after it.
fn folded_in_rounds(alloc: Global) -> Option<[bool; CLASSES]> {
    let mut beside = Beside::new(alloc)?;
    let mut random = Random { state: 42 };
    for _ in 0..60 {
        for _ in 0..80 {
            call(&mut beside, &mut random)?;
        }
        give_up(&mut beside, &mut random)?;
        beside.fold()?;
        beside.is_whole()?;
        take_back(&mut beside, &mut random)?;
    }
    beside.is_whole()?;
    Some(beside.folded.map(|count| count > 2))
}

#[test]
fn all_widths_agree_with_a_map(rt: HostRuntime) {
    assert_eq!(rt; folded_in_rounds(rt.alloc()), Some([true; CLASSES]));
}
