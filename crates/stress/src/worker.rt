// A worker of a run.
ghost use Rattle.std.specs.Prelude.{◌≡◌, IfSome};

use crate::shared::first_of;
use arena::{Arena, NoGate, Seat};
use pool::{AdoptError, ReceiveError};
use rand_core::utils::NextWord;
use rand_pcg::Pcg32;
use shard::PutError;
use span::names::{Class, Key, Object};
use span::receipts::ReceiptList;
use std::alloc::{AllocError, Global};
use std::sync::Wait;

/// How many calls a worker makes in a section.
pub const CALLS: usize = 1000;

/// What no call of a run may come to.
#[derive(Clone, Copy, PartialEq, Eq, Debug)]
pub enum Trouble {
    /// A span that would move was in the receiver already.
    Doubled,
    /// Memory ran out.
    OutOfMemory,
}

impl From<AllocError> for Trouble {
    fn from(_: AllocError) -> Trouble {
        Trouble::OutOfMemory
    }
}

/// A worker at its arena.
#[derive(Drop)]
pub struct Worker<'a> {
    pub arena: &'a Arena<NoGate>,
    pub seat: Seat,
    pub random: Pcg32,
    /// The keys that it was given in this section, and has not freed itself.
    pub keys: Vec<Key>,
    /// The receipts of all its calls, in order.
    pub receipts: ReceiptList,
    /// Whether it ended its shard.
    pub has_ended: bool,
    /// How many groups it adopted.
    pub adopted: usize,
    /// How many groups of its shard it retired.
    pub retired: usize,
    /// How many objects it set in place.
    pub replaced: usize,
    /// How many keys it left to the threads of their shards.
    pub sent: usize,
    /// How many keys it took from the rings of its shard.
    pub taken: usize,
    /// What it met first of what no call may come to.
    pub trouble: Option<Trouble>,
    ghost fits: { seat.limits ≡ arena.now.limits },
}

impl<'a> Worker<'a> {
    /// A worker in this seat, or `None` where the seat is that of an arena of other numbers.
    pub fn new(alloc: Global, arena: &'a Arena<NoGate>, seat: Seat) -> Option<Worker<'a>>
        ensures { IfSome result (λ worker. worker.seat ≡ seat) }
    {
        if !seat.fits(arena) {
            return None;
        }
        let random = Pcg32::new(42, seat.worker() as u64);
        Some(Worker {
            arena,
            seat,
            random,
            keys: Vec::new(alloc),
            receipts: ReceiptList::new(alloc),
            has_ended: false,
            adopted: 0,
            retired: 0,
            replaced: 0,
            sent: 0,
            taken: 0,
            trouble: None,
        })
    }

    /// From now on its receipts carry the next section, and its keys are those of the section
    /// before.
    pub fn go_on(&mut self)
        ensures { self.new.seat.table ≡ self.old.seat.table }
    {
        if self.seat.section() < u64::MAX {
            self.seat.next_section();
        }
        self.keys.clear();
    }

    /// The calls of a section. `old` are keys that workers were given in the section before.
    pub fn work<R: Wait>(&mut self, rt: &R, old: &[Key])
        ensures { self.new.seat.table ≡ self.old.seat.table }
    {
        for turn in 0..CALLS {
            if let Err(trouble) = self.call(rt, old, turn) {
                self.trouble = Some(trouble);
                return;
            }
        }
    }

    // One call: mostly puts at first, and then frees until few keys are left. Now and then it tends
    // its rings. From the second section on, workers of even number adopt near its start; each
    // other worker ends its shard late in the section of its number. In the middle of every second
    // section each retires two groups. So what the first mark finds is the same in each run: the
    // groups of the shard that ended, in the pool.
    fn call<R: Wait>(&mut self, rt: &R, old: &[Key], turn: usize) -> Result<(), Trouble>
        ensures { self.new.seat.table ≡ self.old.seat.table }
    {
        let is_even = self.seat.worker() % 2 == 0;
        if turn == 10 && is_even && self.seat.section() > 1 {
            return self.adopt(rt);
        }
        if turn == 500 && self.seat.section() % 2 == 0 {
            return self.retire(rt);
        }
        if turn == 900 && !is_even && self.seat.section() == self.seat.worker() as u64 {
            return self.end(rt);
        }
        if turn % 50 == 49 {
            return self.tend(rt);
        }
        let word = self.random.next_word();
        match word % 16 {
            0 | 1 => self.get(rt, old, word / 16),
            2 => self.free(rt, old, word / 16),
            3 => self.set(rt, old, word / 16),
            _ if turn < 300 => self.put(rt, word),
            _ => self.free(rt, old, word / 16),
        }
    }

    // A key of its own, at random, which is then its own no more.
    fn own_key(&mut self, word: u32) -> Option<Key>
        ensures { self.new.seat.table ≡ self.old.seat.table }
    {
        if self.keys.is_empty() {
            return None;
        }
        let place = word as usize % self.keys.len();
        Some(self.keys.swap_remove(place))
    }

    fn put<R: Wait>(&mut self, rt: &R, word: u32) -> Result<(), Trouble>
        ensures { self.new.seat.table ≡ self.old.seat.table }
    {
        self.keys.reserve(1)?;
        match self.seat.put(rt, self.arena, object_of(word)) {
            Ok((key, receipt)) => {
                self.keys.push_reserved(key);
                self.receipts.push(&receipt)?;
                Ok(())
            }
            Err(PutError::OutOfMemory) => Err(Trouble::OutOfMemory),
            Err(PutError::PagesSpent | PutError::Ended) => Ok(()),
        }
    }

    // Looks up a key of the section before, or the last of its own.
    fn get<R: Wait>(&mut self, rt: &R, old: &[Key], word: u32) -> Result<(), Trouble>
        ensures { self.new.seat.table ≡ self.old.seat.table }
    {
        let Some(key) = last_or_old(self.keys.as_slice(), old, word) else {
            return Ok(());
        };
        let (_, receipt) = self.seat.get(rt, self.arena, &key);
        self.receipts.push(&receipt)?;
        Ok(())
    }

    // Sets a key of the section before, or the last of its own, whatever class its object has.
    fn set<R: Wait>(&mut self, rt: &R, old: &[Key], word: u32) -> Result<(), Trouble>
        ensures { self.new.seat.table ≡ self.old.seat.table }
    {
        let Some(key) = last_or_old(self.keys.as_slice(), old, word) else {
            return Ok(());
        };
        let (done, receipt) = self.seat.set(rt, self.arena, &key, object_of(word))?;
        self.replaced = self.replaced.saturating_add(usize::from(done));
        self.receipts.push(&receipt)?;
        Ok(())
    }

    // Frees a key of its own, or one of the section before, whoever was given it; a third of them
    // later, where the ring has room.
    fn free<R: Wait>(&mut self, rt: &R, old: &[Key], word: u32) -> Result<(), Trouble>
        ensures { self.new.seat.table ≡ self.old.seat.table }
    {
        let key = if word % 16 < 6 {
            self.own_key(word / 16)
        } else {
            old_key(old, word / 16)
        };
        let Some(key) = key else {
            return Ok(());
        };
        if word % 3 == 0 && self.seat.has_shard_of(&key) && self.seat.free_later(key).is_ok() {
            self.sent = self.sent.saturating_add(1);
            return Ok(());
        }
        let (_, receipt) = self.seat.free(rt, self.arena, &key);
        self.receipts.push(&receipt)?;
        Ok(())
    }

    // Frees the keys that came in for its shard.
    fn tend<R: Wait>(&mut self, rt: &R) -> Result<(), Trouble>
        ensures { self.new.seat.table ≡ self.old.seat.table }
    {
        let taken = self.seat.tend(rt, self.arena, &mut self.receipts)?;
        self.taken = self.taken.saturating_add(taken);
        Ok(())
    }

    fn end<R: Wait>(&mut self, rt: &R) -> Result<(), Trouble>
        ensures { self.new.seat.table ≡ self.old.seat.table }
    {
        match self.seat.end(rt, self.arena) {
            Err(ReceiveError::OutOfMemory) => Err(Trouble::OutOfMemory),
            Err(ReceiveError::Doubled) => Err(Trouble::Doubled),
            Err(ReceiveError::Ended | ReceiveError::PlanOpen) => Ok(()),
            Ok(()) => {
                self.has_ended = true;
                Ok(())
            }
        }
    }

    fn retire<R: Wait>(&mut self, rt: &R) -> Result<(), Trouble>
        ensures { self.new.seat.table ≡ self.old.seat.table }
    {
        match self.seat.retire(rt, self.arena, 2) {
            Err(ReceiveError::OutOfMemory) => Err(Trouble::OutOfMemory),
            Err(ReceiveError::Doubled) => Err(Trouble::Doubled),
            Err(ReceiveError::Ended | ReceiveError::PlanOpen) => Ok(()),
            Ok(count) => {
                self.retired = self.retired.saturating_add(count);
                Ok(())
            }
        }
    }

    fn adopt<R: Wait>(&mut self, rt: &R) -> Result<(), Trouble>
        ensures { self.new.seat.table ≡ self.old.seat.table }
    {
        match self.seat.adopt(rt, self.arena) {
            Err(AdoptError::OutOfMemory) => Err(Trouble::OutOfMemory),
            Err(AdoptError::Doubled) => Err(Trouble::Doubled),
            Err(_) => Ok(()),
            Ok(_) => {
                self.adopted = self.adopted.saturating_add(1);
                Ok(())
            }
        }
    }
}

// An object of the class that the number tells, whose words count from it on: of 64 numbers 49 are
// of one word, and one of each other width.
fn object_of(number: u32) -> Object {
    let mut words = [u128::from(number); 16];
    for place in 0..words.len() {
        words[place] = u128::from(number) + place as u128;
    }
    match Class::of_words((number / 16 % 64) as usize) {
        Some(class) => first_of(class, &words),
        None => Object::c16(words[0]),
    }
}

// The last of a worker's own keys, or one of those that all were given in the section before.
fn last_or_old(own: &[Key], old: &[Key], word: u32) -> Option<Key> {
    if word % 2 == 0 {
        own.last().copied()
    } else {
        old_key(old, word / 2)
    }
}

// A key of those that all were given in the section before, at random.
fn old_key(old: &[Key], word: u32) -> Option<Key> {
    if old.is_empty() {
        return None;
    }
    Some(old[word as usize % old.len()])
}
