// The keys that puts gave.
ghost use Rattle.std.specs.Prelude.{◌≡◌, ◌+◌, ◌<◌, ◌^◌, IfOk, IfSome, None, OnOk, Option, Some, true};
ghost use Rattle.span.specs.declared.key.Key.{Key};
ghost use Rattle.thread_runner.specs.Asked.{GivenKeys};
ghost use Rattle.thread_runner.specs.Known.{AreApart, AreApart-prop, AreFresh, AreKept, IsGiven, key_from};

use crate::error::Halt;
use span::names::Key;
use std::alloc::{AllocError, Global};

/// What puts one after another gave: keys of slots one after another of one span, with one
/// generation, or nothing.
#[derive(Clone, Copy)]
pub(crate) struct Given {
    /// The place of the first one's key among all keys that the lines bind.
    pub(crate) place: usize,
    /// How many puts they are.
    pub(crate) times: u32,
    /// The key that the first one gave, or `None` where they were refused.
    pub(crate) key: Option<Key>,
}

// The key of the slot so far above that of this one, or `None` where a span has no such slot.
fn key_above(key: Key, by: u32) -> Option<Key>
    ensures { IfSome result (λ above. Some above ≡ key_from (Some key) by) }
{
    let slot = u32::from(key.slot).checked_add(by)?;
    let slot = u8::try_from(slot).ok()?;
    let above = Key::new(key.span, slot, key.generation)?;
    Some(above)
}

// What the put gave that comes so far after the first of these, or `None` where a span has no such
// slot.
fn given_after(one: &Given, by: u32) -> Option<Option<Key>>
    ensures { IfSome result (λ key. key ≡ key_from one.now.key by) }
{
    let Some(key) = one.key else {
        return Some(None);
    };
    Some(Some(key_above(key, by)?))
}

// Whether two keys are the same.
fn is_same_key(one: Key, other: Key) -> bool
    ensures { result ≡ true → one ≡ other }
{
    if one.span.shard != other.span.shard {
        return false;
    }
    if one.span.serial != other.span.serial {
        return false;
    }
    if one.slot != other.slot {
        return false;
    }
    if one.generation != other.generation {
        return false;
    }
    true
}

// Whether two puts gave the same.
fn gave_same(one: Option<Key>, other: Option<Key>) -> bool
    ensures { result ≡ true → one ≡ other }
{
    match (one, other) {
        (None, None) => true,
        (Some(one), Some(other)) => is_same_key(one, other),
        (None, Some(_)) | (Some(_), None) => false,
    }
}

// Whether a put that gave this, as the key of that place, goes on with these.
fn goes_on(one: &Given, place: usize, key: Option<Key>) -> bool
    ensures place { result ≡ true → place ≡ one.now.place + one.now.times }
    ensures key { result ≡ true → key ≡ key_from one.now.key one.now.times }
    ensures room { result ≡ true → one.now.times + 1 < 2 ^ 32 }
{
    if one.times == u32::MAX {
        return false;
    }
    let Some(next) = one.place.checked_add(one.times as usize) else {
        return false;
    };
    if next != place {
        return false;
    }
    match given_after(one, one.times) {
        Some(after) => gave_same(key, after),
        None => false,
    }
}

/// Adds what a put gave, as the key of that place, behind what the puts before it gave.
pub(crate) fn enter(
    fresh: &mut Vec<Given>,
    place: usize,
    key: Option<Key>,
) -> Result<(), AllocError>
    ensures { (given : GivenKeys) → AreFresh fresh.new.items given
        → OnOk result (AreFresh fresh.old.items given × (given place ≡ key)) }
{
    let count = fresh.len();
    if count > 0 {
        let last = fresh[count - 1];
        if goes_on(&last, place, key) {
            fresh[count - 1] = Given {
                place: last.place,
                times: last.times + 1,
                key: last.key,
            };
            return Ok(());
        }
    }
    fresh.push(Given {
        place,
        times: 1,
        key,
    })?;
    Ok(())
}

// What the put of that place gave, where it is one of these.
fn given_in(one: &Given, place: usize) -> Option<Option<Key>>
    ensures { (given : GivenKeys) → IsGiven given one.now
        → IfSome result (λ key. given place ≡ key) }
{
    let by = place.checked_sub(one.place)?;
    let by = u32::try_from(by).ok()?;
    if by >= one.times {
        return None;
    }
    given_after(one, by)
}

/// What the put of that place gave, where it is one of these, which stand by place. Whoever asks is
/// told nothing wrong where they don't.
pub(crate) fn find(runs: &[Given], place: usize) -> Option<Option<Key>>
    ensures { (given : GivenKeys) → AreFresh runs.now given
        → IfSome result (λ key. given place ≡ key) }
{
    let count = runs.partition_point(|one| one.place <= place);
    let index = count.checked_sub(1)?;
    if index >= runs.len() {
        return None;
    }
    given_in(&runs[index], place)
}

/// What the puts of the sections before gave.
#[derive(Drop)]
pub(crate) struct Keys {
    /// What they gave, by the places of their keys.
    kept: Vec<Given>,
    /// The place below the last of these.
    end: usize,
    ghost apart: { AreApart 0 kept.items end } by { AreApart-prop 0 kept.items end },
}

impl Keys {
    /// Those of no put.
    pub(crate) fn none(alloc: Global) -> Keys {
        Keys {
            kept: Vec::new(alloc),
            end: 0,
        }
    }

    /// What the put of that key gave, if it was made.
    pub(crate) fn get(&self, place: usize) -> Option<Option<Key>>
        ensures { (given : GivenKeys) → AreKept self.now.kept.items given
            → IfSome result (λ key. given place ≡ key) }
    {
        if place >= self.end {
            return None;
        }
        find(self.kept.as_slice(), place)
    }

    // With what puts gave behind these. It halts where they don't stand there.
    fn with_one(self, one: Given) -> Result<Keys, Halt>
        ensures before { (given : GivenKeys) → IfOk result (λ keys. AreKept keys.kept.items given
            → AreKept self.kept.items given) }
        ensures kept { (given : GivenKeys) → IfOk result (λ keys. AreKept keys.kept.items given
            → IsGiven given one) }
    {
        let Keys { mut kept, end } = self;
        if one.place < end {
            return Err(Halt::Doubled);
        }
        let end = one.place.checked_add(one.times as usize).ok_or(AllocError)?;
        kept.push(one)?;
        Ok(Keys { kept, end })
    }

    // With what puts gave behind these, in that order.
    fn with_all(self, latest: &[Given]) -> Result<Keys, Halt>
        ensures before { (given : GivenKeys) → IfOk result (λ keys. AreKept keys.kept.items given
            → AreKept self.kept.items given) }
        ensures kept { (given : GivenKeys) → IfOk result (λ keys. AreKept keys.kept.items given
            → AreFresh latest.now given) }
    {
        let mut keys = self;
        for one in latest {
            keys = keys.with_one(*one)?;
        }
        Ok(keys)
    }

    /// With what the puts of a section gave, whose keys stand below those of the sections before.
    /// It halts where they don't, or where two puts gave the key of one place.
    pub(crate) fn with(self, latest: Vec<Given>) -> Result<Keys, Halt>
        ensures before { (given : GivenKeys) → IfOk result (λ keys. AreKept keys.kept.items given
            → AreKept self.kept.items given) }
        ensures kept { (given : GivenKeys) → IfOk result (λ keys. AreKept keys.kept.items given
            → AreFresh latest.items given) }
    {
        let mut latest = latest;
        latest.sort_by_key(|one: &Given| one.place)?;
        self.with_all(latest.as_slice())
    }
}
