// The lock.
ghost use Rattle.std.specs.Prelude.{◌≡◌, [], ◌∷◌, IfOk, IfSome, None, OnErr};
ghost use Rattle.atomic_table.specs.Table.{rest};
ghost use Rattle.latch.specs.Rule.{HasSlot, IsKept, gave, took};

use crate::ask::Ask;
use crate::guard::LatchGuard;
use crate::hold::Hold;
use atomic_table::{Play, Seat, Table, TableRule};
use std::alloc::{AllocError, Global};
use std::hint::spin_loop;
use std::marker::Model;
use std::sync::Wait;
use std::thread::yield_now;
use thiserror::Error;

// The table has 256 bytes of words, and uses the one in the middle, so that two latches share no
// cache line.
const WORDS: usize = 32;

const WORD: usize = 16;

// It has 9 slots of 16 bytes, and uses the one in the middle, so that no other thread writes to its
// cache line: what an allocator lays beside a slot that stands alone may be anybody's.
const SLOT: usize = 4;

// How often a call looks at a latch that another thread has, before it answers that, or lets others
// run.
const LOOKS: u32 = 50;

/// Another thread has the value, and had it at each of 50 looks. Nothing has changed: try again
/// later.
#[derive(Clone, Copy, PartialEq, Eq, Debug, Error)]
#[error("another thread has it: try again later")]
pub struct Busy;

// The rule: while the word is 0, the value is at home.
pub(crate) struct Keeping;

impl<T> TableRule<Option<Box<T>>, (), ()> for Keeping {
    ghost holds = { λ _. IsKept };

    ghost first = { λ _. tt };
}

// The step that takes the value out.
struct Taking;

impl<T> Play<Option<Box<T>>, ()> for Taking {
    ghost then = { took };
}

// The step that gives it back.
struct Giving;

impl<T> Play<Option<Box<T>>, ()> for Giving {
    ghost then = { gave };
}

/// A value that threads take turns at, in a box of its own. In a clause it is the name of its
/// table.
#[derive(Drop)]
pub struct Latch<T: Drop> {
    table: Table<Option<Box<T>>, (), (), Keeping, Global>,
    ghost words: { table.shared.table_id.words ≡ 32 },
    ghost slots: { table.shared.table_id.slots ≡ 9 },
}

impl<T: Drop> Model for Latch<T> {
    ghost use Rattle.atomic_table.specs.Seated.{TableId, table_id_coded};

    ghost Value = { TableId };

    ghost coded = { table_id_coded };

    ghost view = { λ latch. latch.table.shared.table_id };
}

/// The right to give the value back. It has no bytes, and nobody can let it go: it is used up where
/// the value is given back. In a clause it is the name of its latch's table.
pub struct Turn<T> {
    seat: Seat<Option<Box<T>>, ()>,
    ghost empty: { seat.me.1 ≡ (4, None) ∷ [] },
}

impl<T> Model for Turn<T> {
    ghost use Rattle.atomic_table.specs.Seated.{TableId, table_id_coded};

    ghost Value = { TableId };

    ghost coded = { table_id_coded };

    ghost view = { λ turn. turn.seat.table_id };
}

impl<T: Drop> Latch<T> {
    /// A latch that has the value.
    ///
    /// # Errors
    ///
    /// `AllocError` if memory for the box, or for the 256 bytes of words and the 144 of slots
    /// beside it, was refused.
    pub fn new(alloc: Global, value: T) -> Result<Latch<T>, AllocError> {
        let Ok(boxed) = Box::new(alloc, value) else {
            return Err(AllocError);
        };
        let slots = vec![in alloc; None, None, None, None, Some(boxed), None, None, None, None]?;
        let words = [0u64; WORDS];
        match Table::new(alloc, &words, slots, &()) {
            Ok((table, _)) => Ok(Latch { table }),
            Err(_) => Err(AllocError),
        }
    }

    /// The guard, which lends the value until it is dropped. It takes no memory, and looks 50 times
    /// at most.
    ///
    /// # Errors
    ///
    /// [`Busy`] if another thread has the value at each look.
    // Inlined, the guard stays in registers: a call passes it through memory.
    #[inline(always)]
    pub fn try_lock(&self) -> Result<LatchGuard<'_, T>, Busy>
        ensures { IfOk result (λ guard. guard.latch.now ≡ self.now) }
    {
        let Hold { turn, value } = self.try_hold()?;
        Ok(LatchGuard::new(self, turn, value))
    }

    /// Makes the call on the value where it is, and lets others at it again. It takes no memory,
    /// and looks 50 times at most.
    ///
    /// A [`LatchGuard`] takes the value out of its slot and puts it back, which writes to one more
    /// cache line: if threads take turns at a latch, that line goes from processor to processor,
    /// too.
    ///
    /// # Errors
    ///
    /// [`Busy`] if another thread has the value at each look. The call is not made then.
    #[inline(always)]
    pub fn try_ask<W, C: Ask<T, W>>(&self, call: &C, room: &mut [W]) -> Result<C::Answer, Busy>
        ensures does { IfOk result (λ answer. (before : T) × (after : T)
            × C.does call.now before room.old answer after room.new) }
        ensures busy { OnErr result (room.new ≡ room.old) }
    {
        let mut seat = self.seat()?;
        let answer = self.ask(&mut seat, call, room);
        self.leave(seat);
        Ok(answer)
    }

    /// The value itself, out of the latch until [`Latch::give_back`]. It takes no memory, and looks
    /// 50 times at most.
    ///
    /// # Errors
    ///
    /// [`Busy`] if another thread has the value at each look.
    #[inline(always)]
    pub fn try_hold(&self) -> Result<Hold<T>, Busy>
        ensures { IfOk result (λ hold. hold.turn ≡ self.now) }
    {
        let mut seat = self.seat()?;
        let Some(value) = self.table.shared.exchange(&mut seat, SLOT, None) else {
            unreachable!()
        };
        let turn = Turn { seat };
        Ok(Hold { turn, value })
    }

    // The seat that has the slot, if no thread has it at one of 50 looks.
    #[inline(always)]
    fn seat(&self) -> Result<Seat<Option<Box<T>>, ()>, Busy>
        ensures { IfOk result (λ seat. (seat.table_id ≡ self.now) × HasSlot seat.me.1) }
    {
        // No other thread has it, mostly. A look before the swap would have the line of the word
        // come twice from another processor.
        match self.take() {
            Some(seat) => Ok(seat),
            None => self.look_again(),
        }
    }

    // The same after the first look: a load goes before each swap, which would take the word's line
    // from who gives the value back.
    #[inline(never)]
    fn look_again(&self) -> Result<Seat<Option<Box<T>>, ()>, Busy>
        ensures { IfOk result (λ seat. (seat.table_id ≡ self.now) × HasSlot seat.me.1) }
    {
        for _ in 1..LOOKS {
            spin_loop();
            if self.table.shared.peek(WORD) == 0 {
                if let Some(seat) = self.take() {
                    return Ok(seat);
                }
            }
        }
        Err(Busy)
    }

    /// Gives back what was held of this latch: from now on any thread may take it.
    #[inline(always)]
    pub fn give_back(&self, hold: Hold<T>)
        requires { hold.turn ≡ self.now }
    {
        let Hold { turn, value } = hold;
        self.give(turn, value);
    }

    /// The guard, once no other thread has the value: between two tries it lets other threads run.
    /// It takes no memory. That its turn comes is not promised.
    pub fn lock<R: Wait>(&self, rt: &R) -> LatchGuard<'_, T>
        ensures { result.latch.now ≡ self.now }
    {
        for _ in rt.forever() {
            if let Ok(guard) = self.try_lock() {
                return guard;
            }
            yield_now();
        }
        unreachable!()
    }

    // The seat that has the slot, if no thread has it now.
    #[inline(always)]
    fn take(&self) -> Option<Seat<Option<Box<T>>, ()>>
        ensures { IfSome result (λ seat. (seat.table_id ≡ self.now) × HasSlot seat.me.1) }
    {
        let (found, seat) = self.table.shared.swap_new_seat::<Taking>(WORD, 1);
        if found != 0 {
            return None;
        }
        Some(seat)
    }

    // Makes the call on the value in the slot that the seat has.
    #[inline(always)]
    fn ask<W, C: Ask<T, W>>(
        &self,
        seat: &mut Seat<Option<Box<T>>, ()>,
        call: &C,
        room: &mut [W],
    ) -> C::Answer
        requires { (seat.old.table_id ≡ self.now) × HasSlot seat.old.me.1 }
        ensures seat { (seat.new.table_id ≡ self.now) × HasSlot seat.new.me.1 }
        ensures does { (before : T) × (after : T)
            × C.does call.now before room.old result after room.new }
    {
        let Some(value) = seat.slot_mut(&self.table.shared, SLOT) else {
            unreachable!()
        };
        call.ask(&mut **value, room)
    }

    // Gives the value back: from now on any thread may take it. The slot was empty while the turn
    // was out.
    #[inline(always)]
    pub(crate) fn give(&self, turn: Turn<T>, value: Box<T>)
        requires { turn ≡ self.now }
    {
        let Turn { mut seat } = turn;
        let None = self.table.shared.exchange(&mut seat, SLOT, Some(value)) else {
            unreachable!()
        };
        self.leave(seat);
    }

    // Gives the slot back, with the value in it.
    #[inline(always)]
    pub(crate) fn leave(&self, mut seat: Seat<Option<Box<T>>, ()>)
        requires { (seat.table_id ≡ self.now) × HasSlot seat.me.1 }
    {
        self.table.shared.store::<Giving>(&mut seat, WORD, 0);
    }
}
