// A worker's ends of its rings: how keys that wait for their block to be full are handed over in
// time.
ghost use Rattle.std.specs.Prelude.{◌≡◌, ◌+◌, ◌<◌, ◌≤◌, ◌++◌, IfSome, IsOk, IsSome, None, OnErr, OnOk, Some, [], length, map, slice_get, slice_index_or};
ghost use Rattle.arena.specs.Delays.{IsDelayOf, KeepSent, NoneWaits, delay_after, delay_begun};
ghost use Rattle.arena.specs.Seats.{KeepPlacesBut, Sends, free_places_to, sent_by};
ghost use Rattle.remote_queue.specs.declared.ends.TheConstants.{MOST_KNOWN_KEYS};
ghost use Rattle.arena.specs.declared.outboxes.TheConstants.{MOST_DELAY};

use remote_queue::{Inbox, Outbox, count_left};
use span::names::Key;
use std::marker::Model;

/// How long a key waits at its seat for its block to be full, in calls of that seat: the 64th
/// further call hands it over.
pub const MOST_DELAY: u32 = 64;

/// A worker's ends of its rings to the shards, at which no key waits for more than [`MOST_DELAY`]
/// calls of its seat.
#[derive(Drop)]
pub(crate) struct Outboxes {
    // By shard.
    ends: Vec<Outbox>,
    // How many calls were made since the first key was left that may still wait. If this is none,
    // no key waits.
    delay: Option<u32>,
}

impl Model for Outboxes {
    ghost use Rattle.arena.specs.Delays.{IsDelayOf, OutboxesState};

    ghost Value = { OutboxesState };

    ghost view = { λ outboxes. record { ends = outboxes.ends.items; delay = outboxes.delay } };

    ghost invariant = { λ outboxes. IsDelayOf outboxes.ends.items outboxes.delay };
}

impl Outboxes {
    // These ends, at which no key waits.
    pub(crate) fn new(ends: Vec<Outbox>) -> Outboxes
        requires { NoneWaits ends.items }
        ensures { result ≡ record { ends = ends.items; delay = None } }
    {
        Outboxes { ends, delay: None }
    }

    // How many calls were made since the first key was left that may still wait. If this is none,
    // no key waits.
    pub(crate) fn delay(&self) -> Option<u32>
        ensures delay { result ≡ self.now.delay }
        ensures few { IfSome result (λ calls. calls < MOST_DELAY) }
        ensures none { result ≡ None → NoneWaits self.now.ends }
    {
        self.delay
    }

    // Leaves the key for the shard that opened its span, which is a call of the seat. If the ring
    // takes none, all keys that wait are handed over.
    #[inline(always)]
    pub(crate) fn leave(&mut self, key: Key) -> Result<(), Key>
        requires { key.span.shard < length self.old.ends }
        ensures len { length self.new.ends ≡ length self.old.ends }
        ensures rings { map (λ outbox. outbox.ring) self.new.ends
            ≡ map (λ outbox. outbox.ring) self.old.ends }
        ensures sent { Sends key (sent_by self.old.ends) result (sent_by self.new.ends) }
        ensures succeeds { 0 < free_places_to self.old.ends key.span.shard → IsOk result }
        ensures place { OnOk result (free_places_to self.old.ends key.span.shard
            ≤ free_places_to self.new.ends key.span.shard + 1) }
        ensures places { KeepPlacesBut key.span.shard self.old.ends self.new.ends }
        ensures begun { OnOk result (self.new.delay ≡ delay_begun self.old.delay) }
        ensures refused { OnErr result (self.new.delay ≡ None) }
        ensures none { self.new.delay ≡ None → NoneWaits self.new.ends }
    {
        match send(&mut self.ends, key) {
            Ok(()) => {
                self.delay = count_key(&mut self.ends, self.delay);
                Ok(())
            }
            Err(back) => {
                hand_over_all(&mut self.ends);
                self.delay = None;
                Err(back)
            }
        }
    }

    // Counts a call of the seat, if keys wait.
    #[inline(always)]
    pub(crate) fn count_call(&mut self)
        ensures kept { KeepSent self.old.ends self.new.ends }
        ensures delay { self.new.delay ≡ delay_after self.old.delay }
        ensures none { self.new.delay ≡ None → NoneWaits self.new.ends }
        ensures unchanged { self.old.delay ≡ None → self.new.ends ≡ self.old.ends }
        ensures counted { IsSome self.new.delay → self.new.ends ≡ self.old.ends }
    {
        if let Some(calls) = self.delay {
            self.delay = count(&mut self.ends, calls);
        }
    }

    // Hands over all keys that wait, if any does.
    pub(crate) fn hand_over(&mut self)
        ensures kept { KeepSent self.old.ends self.new.ends }
        ensures delay { self.new.delay ≡ None }
        ensures none { NoneWaits self.new.ends }
        ensures unchanged { self.old.delay ≡ None → self.new.ends ≡ self.old.ends }
    {
        if self.delay.is_some() {
            hand_over_all(&mut self.ends);
            self.delay = None;
        }
    }

    // How many keys were sent to a shard that its end has not taken. That end then knows them.
    pub(crate) fn count_left(&mut self, shard: usize, inbox: &mut Inbox) -> usize
        requires { slice_get (map (λ outbox. outbox.ring) self.old.ends) shard
            ≡ Some inbox.old.ring }
        ensures kept { KeepSent self.old.ends self.new.ends }
        ensures delay { self.new.delay ≡ self.old.delay }
        ensures inbox { (inbox.new.ring ≡ inbox.old.ring) × (inbox.new.taken ≡ inbox.old.taken) }
        ensures left { result ≡ length inbox.new.known }
        ensures whole { slice_index_or (sent_by self.old.ends) shard []
            ≡ inbox.new.taken ++ inbox.new.known }
        ensures few { result ≤ MOST_KNOWN_KEYS }
    {
        count_left(&mut self.ends[shard], inbox)
    }
}

// Sends the key to the shard that opened its span.
#[inline(always)]
fn send(ends: &mut Vec<Outbox>, key: Key) -> Result<(), Key>
    requires { key.span.shard < length ends.old.items }
    ensures len { length ends.new.items ≡ length ends.old.items }
    ensures rings { map (λ outbox. outbox.ring) ends.new.items
        ≡ map (λ outbox. outbox.ring) ends.old.items }
    ensures sent { Sends key (sent_by ends.old.items) result (sent_by ends.new.items) }
    ensures succeeds { 0 < free_places_to ends.old.items key.span.shard → IsOk result }
    ensures place { OnOk result (free_places_to ends.old.items key.span.shard
        ≤ free_places_to ends.new.items key.span.shard + 1) }
    ensures places { KeepPlacesBut key.span.shard ends.old.items ends.new.items }
{
    ends[key.span.shard as usize].send(key)
}

// The delay after a call that left a key.
#[inline(always)]
fn count_key(ends: &mut Vec<Outbox>, delay: Option<u32>) -> Option<u32>
    requires { IfSome delay (λ calls. calls < MOST_DELAY) }
    ensures kept { KeepSent ends.old.items ends.new.items }
    ensures delay { result ≡ delay_begun delay }
    ensures is { IsDelayOf ends.new.items result }
{
    match delay {
        None => Some(0),
        Some(calls) => count(ends, calls),
    }
}

// The delay after one call more than so many. If that is the last that keys may wait, they are
// handed over.
#[inline(always)]
fn count(ends: &mut Vec<Outbox>, calls: u32) -> Option<u32>
    requires { calls < MOST_DELAY }
    ensures kept { KeepSent ends.old.items ends.new.items }
    ensures delay { result ≡ delay_after (Some calls) }
    ensures is { IsDelayOf ends.new.items result }
    ensures counted { IsSome result → ends.new.items ≡ ends.old.items }
{
    if calls + 1 < MOST_DELAY {
        return Some(calls + 1);
    }
    hand_over_all(ends);
    None
}

// Hands over the keys that wait at each of the ends.
#[inline(never)]
fn hand_over_all(ends: &mut Vec<Outbox>)
    ensures kept { KeepSent ends.old.items ends.new.items }
    ensures none { NoneWaits ends.new.items }
{
    for shard in 0..ends.len() {
        ends[shard].hand_over();
    }
}
