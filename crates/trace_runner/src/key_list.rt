//! The keys that puts gave out, and which puts were refused.

ghost use Rattle.std.specs.Prelude.{◌≡◌, ◌+◌, ◌<◌, ◌≤◌, ◌^◌, ◌++◌, ◌∷◌, [], ℕ, List, IfNone, IfOk, IfSome, None, OnErr, OnOk, get_or, length, nat_le, slice_get};
ghost use Rattle.trace_runner.specs.Given.{AllGiven, AreCountable, AreInRow, all_given, given_above, given_at, key_at};
ghost use Rattle.span.specs.declared.key.Key.{Key};
ghost use Rattle.trace_runner.specs.declared.key_list.Stretch.{Stretch};
ghost use Rattle.trace_runner.specs.declared.key_list.TheConstants.{MOST_REFUSED};

use span::names::Key;
use std::alloc::{AllocError, Global};
use std::marker::Model;

/// That many puts are refused at most, so that a number counts all puts.
const MOST_REFUSED: usize = 1 << 63;

/// Puts one after another, of which the first ones gave a key out each, and the others were
/// refused.
#[derive(Clone, Copy)]
struct Stretch {
    /// The place of its first put among all puts.
    place: usize,
    /// How many keys the puts above it gave out.
    above: usize,
    /// How many keys its own gave out.
    given: usize,
    /// How many of its puts were refused.
    refused: usize,
}

/// What each put gave, in order: its key, or nothing where it was refused. A key takes 16 bytes,
/// and puts that were refused one after another take 32, however many they are. Contracts see the
/// list of what each put gave.
#[derive(Drop)]
pub(crate) struct KeyList {
    /// The keys, in order.
    keys: Vec<Key>,
    /// The stretches of puts, in order, but for the last.
    closed: Vec<Stretch>,
    /// The place of the first put of the last stretch.
    place: usize,
    /// How many keys the puts above the last stretch gave out; all others are its own.
    above: usize,
    /// How many puts of the last stretch were refused.
    refused: usize,
}

impl Model for KeyList {
    ghost Value = { AllGiven };

    ghost view = { λ l. all_given l.keys.items l.closed.items l.above l.refused };

    ghost invariant = { λ l. AreInRow 0 0 l.closed.items l.place l.above
        × (l.above ≤ length l.keys.items) × (l.place + l.refused ≤ l.above + MOST_REFUSED) };
}

// The sum. `AllocError` comes exactly where it is more than a number counts.
fn sum(first: usize, second: usize, third: usize) -> Result<usize, AllocError>
    ensures count { IfOk result (λ sum. sum ≡ first + second + third) }
    ensures err { OnErr result (2 ^ 64 ≤ first + second + third) }
{
    let both = first.checked_add(second).ok_or(AllocError)?;
    both.checked_add(third).ok_or(AllocError)
}

// The place so far below that one, where a number counts as far.
fn place_below(first: usize, below: u32) -> Option<usize>
    ensures some { IfSome result (λ place. place ≡ first + below) }
    ensures none { IfNone result (2 ^ 64 ≤ first + below) }
{
    first.checked_add(below as usize)
}

// How many of the stretches begin at that place or above it.
fn count_to(closed: &[Stretch], place: usize) -> usize
    requires { (end : ℕ) × (last : ℕ) × AreInRow 0 0 closed.now end last }
    ensures within { result ≤ length closed.now }
    ensures above { (other : ℕ) (one : Stretch) → other < result
        → slice_get closed.now other ≡ Some one → one.place ≤ place }
    ensures others { (other : ℕ) (one : Stretch) → result ≤ other
        → slice_get closed.now other ≡ Some one → place < one.place }
{
    closed.partition_point(
        |one: &Stretch| -> bool
            ensures { result ≡ nat_le one.now.place place }
        { one.place <= place },
    )
}

// Where among all keys that one stands which the put at that place gave out, and none where it was
// refused. It stays out of the calls of a line: most traces have no put that was refused.
#[inline(never)]
fn index_above(closed: &[Stretch], place: usize) -> Option<usize>
    requires { (end : ℕ) × (last : ℕ) × AreInRow 0 0 closed.now end last × (place < end)
        × (last < 2 ^ 64) }
    ensures { (keys : List Key) (end last : ℕ) → AreInRow 0 0 closed.now end last → place < end
        → last ≤ length keys → given_above keys closed.now place ≡ key_at keys result }
{
    let count = count_to(closed, place);
    if count == 0 {
        return None;
    }
    let stretch = closed[count - 1];
    let below = place - stretch.place;
    if below >= stretch.given {
        return None;
    }
    Some(stretch.above + below)
}

// The same for the put so far below the one at the place `first`, where the last stretch begins at
// the place `last`, below so many keys.
#[inline(always)]
fn index_of(
    closed: &[Stretch],
    last: usize,
    above: usize,
    first: usize,
    below: u32,
) -> Option<usize>
    requires { AreInRow 0 0 closed.now last above }
    ensures { (keys : List Key) (refused : ℕ) → AreCountable keys last above refused
        → given_at keys closed.now above refused (first + below) ≡ key_at keys result }
{
    let Some(place) = place_below(first, below) else {
        return None;
    };
    if place < last {
        return index_above(closed, place);
    }
    Some(place - (last - above))
}

// The key at that index.
#[inline(always)]
fn key_at(keys: &[Key], index: Option<usize>) -> Option<Key>
    ensures { result ≡ key_at keys.now index }
{
    let index = index?;
    if index < keys.len() {
        return Some(keys[index]);
    }
    None
}

impl KeyList {
    /// What no put gave.
    pub(crate) fn new(alloc: Global) -> KeyList
        ensures { result.items ≡ [] }
    {
        KeyList {
            keys: Vec::new(alloc),
            closed: Vec::new(alloc),
            place: 0,
            above: 0,
            refused: 0,
        }
    }

    /// How many puts there are. `AllocError` comes exactly where they are more than a number
    /// counts.
    pub(crate) fn len(&self) -> Result<usize, AllocError>
        ensures count { IfOk result (λ len. len ≡ length self.now.items) }
        ensures err { OnErr result (2 ^ 64 ≤ length self.now.items) }
    {
        let given = self.keys.len() - self.above;
        sum(self.place, given, self.refused)
    }

    /// The key that the put gave out which stands so far below the put at the place `first`, where
    /// there is such a put and it was not refused.
    #[inline(always)]
    pub(crate) fn key(&self, first: usize, below: u32) -> Option<Key>
        ensures { result ≡ get_or self.now.items (first + below) None }
    {
        let index = index_of(self.closed.as_slice(), self.place, self.above, first, below);
        key_at(self.keys.as_slice(), index)
    }

    /// Adds what a put gave: its key, or nothing where it was refused. `AllocError` comes where
    /// memory runs out, or where more than 2^63 puts would have been refused.
    pub(crate) fn push(&mut self, key: Option<Key>) -> Result<(), AllocError>
        ensures { OnOk result (self.new.items ≡ self.old.items ++ key ∷ []) }
    {
        let Some(key) = key else {
            let more = MOST_REFUSED - (self.place - self.above);
            if more <= self.refused {
                return Err(AllocError);
            }
            self.refused += 1;
            return Ok(());
        };
        if self.refused == 0 {
            self.keys.push(key)?;
            return Ok(());
        }
        let given = self.keys.len() - self.above;
        let place = sum(self.place, given, self.refused)?;
        self.closed.push(Stretch {
            place: self.place,
            above: self.above,
            given,
            refused: self.refused,
        })?;
        self.place = place;
        self.above = self.keys.len();
        self.refused = 0;
        self.keys.push(key)?;
        Ok(())
    }
}
