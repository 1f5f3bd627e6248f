//! One ring, both of whose ends are in one hand: what it holds, and in which order.
ghost use Rattle.std.specs.Prelude.{◌≡◌, IfOk, IfSome};
ghost use Rattle.remote_queue.specs.Rings.{AreNewLinks};

use remote_queue::{Inbox, LinkError, Links, Outbox, count_left, link};
use span::names::{Key, SpanId};
use std::alloc::Global;
use std::test::Fail;

// The key of a slot of a span, in its first generation.
fn key(slot: u8) -> Option<Key> {
    let span = SpanId::new(63, 1023)?;
    Key::new(span, slot, 1)
}

// A ring from one worker to one shard, with room for that many keys; made again where memory was
// refused.
fn links(alloc: Global, capacity: usize) -> Result<Links, LinkError>
    ensures { IfOk result (λ links. AreNewLinks 1 1 capacity links.outboxes.items
        links.inboxes.items) }
{
    match link(alloc, 1, 1, capacity) {
        Err(LinkError::OutOfMemory) => link(alloc, 1, 1, capacity),
        linked => linked,
    }
}

// The two ends of a ring with room for that many keys.
fn ends(alloc: Global, capacity: usize) -> Option<(Outbox, Inbox)>
    ensures { IfSome result (λ ends. ends.0.ring ≡ ends.1.ring) }
{
    let Ok(mut links) = links(alloc, capacity) else {
        return None;
    };
    let outbox = links.outboxes.pop()?.pop()?;
    let inbox = links.inboxes.pop()?.pop()?;
    Some((outbox, inbox))
}

// Takes the oldest key, or `None` if none is seen.
fn take(inbox: &mut Inbox) -> Option<Key> {
    if inbox.known() == 0 && inbox.look() == 0 {
        return None;
    }
    Some(inbox.take_known())
}

// Whether a ring with room for one key takes a key, hands a second one back, and has room again
// once the first is taken; and whether what is left is counted, and then taken.
fn holds_one(outbox: &mut Outbox, inbox: &mut Inbox) -> Option<bool>
    requires { outbox.old.ring ≡ inbox.old.ring }
{
    let first = key(0)?;
    let second = key(1)?;
    let sent = outbox.send(first);
    let handed_back = outbox.send(second);
    let taken = take(inbox);
    let sent_again = outbox.send(second);
    let left = count_left(outbox, inbox);
    let last = take(inbox);
    let none_left = count_left(outbox, inbox);
    let none = take(inbox);
    Some(
        sent == Ok(())
            && handed_back == Err(second)
            && taken == Some(first)
            && sent_again == Ok(())
            && left == 1
            && last == Some(second)
            && none_left == 0
            && none.is_none(),
    )
}

#[test]
fn a_ring_for_one_key(rt: HostRuntime) -> Result<(), Fail> {
    let Some((mut outbox, mut inbox)) = ends(rt.alloc(), 1) else {
        return Err("no ring".into());
    };
    let held = holds_one(&mut outbox, &mut inbox);
    assert_eq!(rt; held, Some(true));
    Ok(())
}

// How many keys of the first slots are sent, up to that many, before one is handed back.
fn send_up_to(outbox: &mut Outbox, keys: u8) -> usize {
    let mut sent = 0usize;
    for slot in 0..keys {
        if let Some(key) = key(slot)
            && outbox.send(key).is_err()
        {
            return sent;
        }
        sent = sent.saturating_add(1);
    }
    sent
}

// How many keys are drawn and taken, four at a time at most, that many times.
fn take_blocks(inbox: &mut Inbox, blocks: usize) -> usize {
    let mut taken = 0usize;
    for _ in 0..blocks {
        inbox.draw(4);
        let drawn = inbox.drawn().len();
        inbox.take_drawn(drawn);
        taken = taken.saturating_add(drawn);
    }
    taken
}

// Of 80 keys on a ring for 100, a full block of 64 is seen; the others once they are handed over.
// 100 more are then as many as it takes, and a key that is refused hands over those before it.
// Where the end is let go, three that wait are seen too.
fn goes_in_blocks(mut outbox: Outbox, inbox: &mut Inbox) -> bool {
    let sent = send_up_to(&mut outbox, 80);
    let seen = take_blocks(inbox, 30);
    outbox.hand_over();
    let rest = take_blocks(inbox, 30);
    let more = send_up_to(&mut outbox, 110);
    let all = take_blocks(inbox, 30);
    let last = send_up_to(&mut outbox, 3);
    let none = take_blocks(inbox, 30);
    drop(outbox);
    let left = take_blocks(inbox, 30);
    (sent, seen, rest) == (80, 64, 16)
        && (more, all) == (100, 100)
        && (last, none, left) == (3, 0, 3)
}

#[test]
fn keys_go_in_blocks(rt: HostRuntime) -> Result<(), Fail> {
    let Some((outbox, mut inbox)) = ends(rt.alloc(), 100) else {
        return Err("no ring".into());
    };
    let gone = goes_in_blocks(outbox, &mut inbox);
    assert_eq!(rt; gone, true);
    Ok(())
}

// Of four keys on a ring for four, the first two are drawn: as many more have a place then, while
// none is taken, and the third has none. Once one is taken, five are left.
fn draws_before_it_takes(outbox: &mut Outbox, inbox: &mut Inbox) -> bool {
    let sent = send_up_to(outbox, 5);
    inbox.draw(2);
    let drawn = (inbox.drawn().len(), inbox.known());
    let more = send_up_to(outbox, 3);
    inbox.draw(4);
    let still = inbox.drawn().len();
    let first = take(inbox).is_some();
    let left = inbox.look();
    (sent, drawn, more) == (4, (2, 4), 2) && (still, first, left) == (2, true, 5)
}

#[test]
fn drawn_keys_leave_their_places(rt: HostRuntime) -> Result<(), Fail> {
    let Some((mut outbox, mut inbox)) = ends(rt.alloc(), 4) else {
        return Err("no ring".into());
    };
    let drawn = draws_before_it_takes(&mut outbox, &mut inbox);
    assert_eq!(rt; drawn, true);
    Ok(())
}

// Whether that many rings are linked, each where it belongs.
fn is_linked(
    alloc: Global,
    workers: usize,
    shards: usize,
    capacity: usize,
) -> Result<bool, LinkError> {
    let links = link(alloc, workers, shards, capacity)?;
    Ok(links.outboxes.len() == workers && links.inboxes.len() == shards)
}

#[test]
fn links_within_limits(rt: HostRuntime) -> Result<(), Fail> {
    let linked = (
        is_linked(rt.alloc(), 3, 2, 1024),
        is_linked(rt.alloc(), 65, 2, 4),
        is_linked(rt.alloc(), 2, 0, 4),
        is_linked(rt.alloc(), 2, 2, 1025),
    );
    let refused = Err(LinkError::Config);
    assert_eq!(rt; linked, (Ok(true), refused, refused, refused));
    Ok(())
}
