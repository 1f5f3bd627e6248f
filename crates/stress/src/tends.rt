//! How much room a tend asks for: a receipt for each key that waits, whatever the rings hold.
ghost use Rattle.std.specs.Prelude.{◌≡◌};
ghost use Rattle.span.specs.ReceiptLists.{kept_receipts, receipt_room};

use arena::{Arena, NoGate, Receipts, Seat};
use span::names::{Key, Object};
use span::receipts::{Receipt, ReceiptList};
use std::alloc::{AllocError, Global};
use std::sync::Wait;
use std::test::Fail;

// A list of receipts, and for how many room was asked last.
#[derive(Drop)]
struct Asked {
    receipts: ReceiptList,
    last: usize,
}

impl Receipts for Asked {
    ghost told = { λ asked. kept_receipts asked.receipts };

    ghost room = { λ asked. receipt_room asked.receipts };

    fn make_room(&mut self, more: usize) -> Result<(), AllocError> {
        self.last = more;
        self.receipts.make_room(more)
    }

    fn tell(&mut self, receipt: Receipt) {
        self.receipts.tell(receipt);
    }
}

// Puts an object, and does so again where memory was refused.
fn put<R: Wait>(rt: &R, arena: &Arena<NoGate>, seat: &mut Seat) -> Option<Key>
    requires { seat.old.limits ≡ arena.now.limits }
    ensures { seat.new.limits ≡ seat.old.limits }
{
    match seat.put(rt, arena, Object::c16(5)) {
        Ok((key, _)) => Some(key),
        Err(_) => match seat.put(rt, arena, Object::c16(5)) {
            Ok((key, _)) => Some(key),
            Err(_) => None,
        },
    }
}

// The first worker puts an object, and the second leaves its key to the first one's thread. Says
// whether it came to that.
fn leave_one<R: Wait>(rt: &R, arena: &Arena<NoGate>, first: &mut Seat, second: &mut Seat) -> bool
    requires { first.old.limits ≡ arena.now.limits }
    ensures { first.new.limits ≡ first.old.limits }
{
    let Some(key) = put(rt, arena, first) else {
        return false;
    };
    second.has_shard_of(&key) && second.free_later(key).is_ok()
}

// Tends, and does so again where memory was refused. It gives how many keys there were.
fn tend<R: Wait>(rt: &R, arena: &Arena<NoGate>, seat: &mut Seat, asked: &mut Asked) -> Option<usize>
    requires { seat.old.limits ≡ arena.now.limits }
{
    match seat.tend(rt, arena, asked) {
        Ok(count) => Some(count),
        Err(AllocError) => seat.tend(rt, arena, asked).ok(),
    }
}

// For how many receipts a tend of three keys asks for room, how many keys it takes, and how many
// receipts there are, where each of the two rings holds 1,024 keys.
fn asked_for<R: Wait>(rt: &R, alloc: Global) -> Option<(usize, usize, usize)> {
    let Ok((arena, mut seats, _)) = Arena::open(alloc, 2, 4, 1024, 9, NoGate) else {
        return None;
    };
    let mut second = seats.pop()?;
    let mut first = seats.pop()?;
    if !first.fits(&arena) {
        return None;
    }
    let one = leave_one(rt, &arena, &mut first, &mut second);
    let two = leave_one(rt, &arena, &mut first, &mut second);
    let three = leave_one(rt, &arena, &mut first, &mut second);
    if !(one && two && three) {
        return None;
    }
    second.hand_over();
    let mut asked = Asked {
        receipts: ReceiptList::new(alloc),
        last: 0,
    };
    let count = tend(rt, &arena, &mut first, &mut asked)?;
    Some((asked.last, count, asked.receipts.len()))
}

#[test]
fn asks_for_what_waits(rt: HostRuntime) -> Result<(), Fail> {
    // Once more where memory was refused before.
    let asked = match asked_for(&rt, rt.alloc()) {
        Some(asked) => Some(asked),
        None => asked_for(&rt, rt.alloc()),
    };
    assert_eq!(rt; asked, Some((3, 3, 3)));
    Ok(())
}
