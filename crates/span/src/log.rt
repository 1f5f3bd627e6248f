// The log of a span: a list that is kept, or one that only proofs read.
ghost use Rattle.std.specs.Prelude.{◌≡◌, ◌≤◌, ◌<◌, ◌+◌, ◌^◌, ℕ, List, [], ◌∷◌, ◌++◌, OnOk, Some, length, slice_get, vec_len, vec_capacity};
ghost use Rattle.span.specs.declared.change.Change.{Change};
ghost use Rattle.span.specs.declared.change.Change.TheVariants as change;
ghost use Rattle.span.specs.Classes.{width_of};
ghost use Rattle.span.specs.Stored.{AreBlocks, AreWithin, change_of, width_in, words_of};

use crate::blocks::{base_of, begin_block};
use crate::change::Change;
use crate::class::Class;
use crate::ghost_list::GhostList;
use crate::object::Object;
use crate::stored::{BLOCK, Kind, Stored};
use crate::view::ChangeView;
use crate::words::{push_words, words_from};
use std::alloc::{AllocError, Global};
use std::marker::Model;

/// How a span keeps its changes: as [`Kept`], which has them all, or as [`Counted`], which has
/// their number.
///
/// Contracts see all changes in both, so no other clause speaks of the choice.
pub trait Log: Drop {
    /// The changes, the oldest first.
    ghost changes: { Self → List Change };

    /// How many more changes it takes with no memory.
    ghost room: { Self → ℕ };

    /// How many more words of objects it takes with no memory.
    ghost word_room: { Self → ℕ };

    /// No change. Takes no memory.
    fn new(alloc: Global) -> Self
        ensures { changes result ≡ [] };

    /// Makes room for that many more changes, and for that many words of objects among them.
    ///
    /// # Errors
    ///
    /// `AllocError` where memory runs out. The changes are then as they were, and the room has not
    /// shrunk.
    fn reserve(&mut self, more: usize, words: usize) -> Result<(), AllocError>
        ensures changes { changes self.new ≡ changes self.old }
        ensures room { room self.old ≤ room self.new }
        ensures ok { OnOk result (more ≤ room self.new) }
        ensures words { OnOk result (words ≤ word_room self.new) };

    /// Adds a put of an object of the class at the end, in reserved room, which needs no memory.
    fn push_put(&mut self, slot: u8, generation: u32, class: Class, words: &[u128])
        requires room { 0 < room self.old }
        requires word_room { length words.now ≤ word_room self.old }
        requires width { length words.now ≡ width_of class }
        requires in_range { length (changes self.old) + 1 < 2 ^ 64 }
        ensures changes { changes self.new ≡ changes self.old
            ++ change.Put slot generation words.now ∷ [] }
        ensures room { room self.old ≤ room self.new + 1 };

    /// Makes room for that many more changes, of which one is a set, and for that many words of
    /// objects among them.
    ///
    /// # Errors
    ///
    /// `AllocError` where memory runs out, or where there would be more than 2^63 changes, as only
    /// a log that takes no memory could have. The changes are then as they were, and the room has
    /// not shrunk.
    fn reserve_set(&mut self, more: usize, words: usize) -> Result<(), AllocError>
        ensures changes { changes self.new ≡ changes self.old }
        ensures room { room self.old ≤ room self.new }
        ensures ok { OnOk result (more ≤ room self.new) }
        ensures words { OnOk result (words ≤ word_room self.new) }
        ensures few { OnOk result (length (changes self.new) + more ≤ 2 ^ 63) };

    /// Adds a set to an object of the class at the end, in reserved room, which needs no memory.
    fn push_set(&mut self, slot: u8, generation: u32, class: Class, words: &[u128])
        requires room { 0 < room self.old }
        requires word_room { length words.now ≤ word_room self.old }
        requires width { length words.now ≡ width_of class }
        requires in_range { length (changes self.old) + 1 < 2 ^ 64 }
        ensures changes { changes self.new ≡ changes self.old
            ++ change.Set slot generation words.now ∷ [] }
        ensures room { room self.old ≤ room self.new + 1 };

    /// Adds a free at the end, in reserved room, which needs no memory.
    fn push_free(&mut self, slot: u8, generation: u32)
        requires room { 0 < room self.old }
        requires in_range { length (changes self.old) + 1 < 2 ^ 64 }
        ensures changes { changes self.new ≡ changes self.old
            ++ change.Free slot generation ∷ [] }
        ensures room { room self.old ≤ room self.new + 1 };

    /// How many changes there are.
    fn len(&self) -> usize
        ensures { result ≡ length (changes self.now) };
}

/// A log that keeps all its changes, and drops none: it can be read and audited. A change takes 8
/// bytes, 16 of them 8 more, and a put or a set the words of its object besides, which stand in a
/// list of their own.
#[derive(Drop)]
pub struct Kept {
    changes: Vec<Stored>,
    words: Vec<u128>,
    // Where the words of each block of changes begin, but of the first.
    bases: Vec<usize>,
    // The words of each put are there.
    ghost within: { AreWithin (length words.items) bases.items changes.items },
    ghost blocks: { AreBlocks (length words.items) bases.items (length changes.items) },
}

impl Kept {
    ghost use Rattle.span.specs.KeptLogs.{kept_changes};
    ghost use Rattle.span.specs.Rooms.{room_in, room_for_words};
    ghost use Rattle.span.specs.Views.{viewed};

    /// The change at the place, the oldest being at 0.
    pub fn change(&self, place: usize) -> Change
        requires { place < length (kept_changes self.now) }
        ensures { slice_get (kept_changes self.now) place ≡ Some result }
    {
        let stored = self.changes[place];
        let words = self.words_of(place, stored);
        stored.kind.change(stored.slot, stored.generation, words)
    }

    /// The same, with its words lent: an object is not copied.
    pub fn view(&self, place: usize) -> ChangeView<'_>
        requires { place < length (kept_changes self.now) }
        ensures { slice_get (kept_changes self.now) place ≡ Some (viewed result) }
    {
        let stored = self.changes[place];
        let words = self.words_of(place, stored);
        stored.kind.view(stored.slot, stored.generation, words)
    }

    // The words of the change that is stored at the place, or none where it is a free.
    fn words_of(&self, place: usize, stored: Stored) -> &[u128]
        requires { slice_get self.now.changes.items place ≡ Some stored }
        ensures words { result.now
            ≡ words_of self.now.words.items self.now.bases.items place stored }
        ensures width { length result.now ≡ width_in stored.kind }
    {
        let Stored { kind, offset, .. } = stored;
        let first = base_of(self.bases.as_slice(), place / BLOCK) + usize::from(offset);
        words_from(self.words.as_slice(), first, kind.words())
    }

    // Adds a change with its words at the end, in reserved room, which needs no memory.
    fn push(&mut self, kind: Kind, slot: u8, generation: u32, words: &[u128])
        requires room { 0 < room_in self.old.changes self.old.bases }
        requires word_room { length words.now ≤ room_for_words self.old.words }
        requires width { length words.now ≡ width_in kind }
        ensures changes { kept_changes self.new ≡ kept_changes self.old
            ++ change_of kind slot generation words.now ∷ [] }
        ensures room { room_in self.old.changes self.old.bases
            ≤ room_in self.new.changes self.new.bases + 1 }
    {
        let first = self.words.len();
        let block = self.changes.len() / BLOCK;
        begin_block(&mut self.bases, block, first);
        let offset = (first - base_of(self.bases.as_slice(), block)) as u8;
        push_words(&mut self.words, words);
        self.changes.push_reserved(Stored {
            kind,
            slot,
            offset,
            generation,
        });
    }
}

impl Log for Kept {
    ghost use Rattle.span.specs.Rooms.{room_in, room_for_words};
    ghost use Rattle.span.specs.KeptLogs.{kept_changes};

    ghost changes = { λ l. kept_changes l };

    ghost room = { λ l. room_in l.changes l.bases };

    ghost word_room = { λ l. room_for_words l.words };

    fn new(alloc: Global) -> Self {
        Kept {
            changes: Vec::new(alloc),
            words: Vec::new(alloc),
            bases: Vec::new(alloc),
        }
    }

    fn reserve(&mut self, more: usize, words: usize) -> Result<(), AllocError> {
        self.changes.reserve(more)?;
        self.words.reserve(words)?;
        let blocks = (self.changes.len() + more) / BLOCK;
        self.bases.reserve(blocks - self.bases.len())?;
        Ok(())
    }

    fn push_put(&mut self, slot: u8, generation: u32, class: Class, words: &[u128]) {
        self.push(Kind::Put(class), slot, generation, words);
    }

    fn reserve_set(&mut self, more: usize, words: usize) -> Result<(), AllocError> {
        self.reserve(more, words)?;
        Ok(())
    }

    fn push_set(&mut self, slot: u8, generation: u32, class: Class, words: &[u128]) {
        self.push(Kind::Set(class), slot, generation, words);
    }

    fn push_free(&mut self, slot: u8, generation: u32) {
        self.push(Kind::Free, slot, generation, &[]);
    }

    fn len(&self) -> usize {
        self.changes.len()
    }
}

/// A log that keeps the number of its changes alone: it never takes memory, and can't be read.
#[derive(Drop)]
pub struct Counted {
    history: GhostList<Change>,
    len: usize,
    ghost counts: { len ≡ length history.items },
}

impl Log for Counted {
    ghost changes = { λ l. l.history.items };

    // There is always room.
    ghost room = { λ l. 2 ^ 64 };

    ghost word_room = { λ l. 2 ^ 64 };

    fn new(_alloc: Global) -> Self {
        Counted {
            history: GhostList::new(),
            len: 0,
        }
    }

    #[inline(always)]
    fn reserve(&mut self, _more: usize, _words: usize) -> Result<(), AllocError> {
        Ok(())
    }

    #[inline(always)]
    fn push_put(&mut self, slot: u8, generation: u32, class: Class, words: &[u128]) {
        let value = Object::of(class, words);
        let change = Change::Put {
            slot,
            generation,
            value,
        };
        self.history = self.history.pushed(&change);
        self.len += 1;
    }

    #[inline(always)]
    fn reserve_set(&mut self, more: usize, _words: usize) -> Result<(), AllocError> {
        if self.len.saturating_add(more) <= 1 << 63 {
            Ok(())
        } else {
            Err(AllocError)
        }
    }

    #[inline(always)]
    fn push_set(&mut self, slot: u8, generation: u32, class: Class, words: &[u128]) {
        let value = Object::of(class, words);
        let change = Change::Set {
            slot,
            generation,
            value,
        };
        self.history = self.history.pushed(&change);
        self.len += 1;
    }

    #[inline(always)]
    fn push_free(&mut self, slot: u8, generation: u32) {
        let change = Change::Free { slot, generation };
        self.history = self.history.pushed(&change);
        self.len += 1;
    }

    #[inline(always)]
    fn len(&self) -> usize {
        self.len
    }
}
