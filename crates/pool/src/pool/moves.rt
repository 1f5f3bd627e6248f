// Groups that come and go whole.
ghost use Rattle.std.specs.Prelude.{◌≡◌, IfOk, MatchOption, OnErr, OnOk};
ghost use Rattle.pool.specs.Calls.{IsBriefHere, Lifts, MayTakeIn, TakesIn, with_room, with_rooms};
ghost use Rattle.groups.specs.Group.{HasNoHead, HasNoMember, IsMemberAt};
ghost use Rattle.pool.specs.Sound.{IsSound};
ghost use Rattle.pool.specs.State.{no_groups};

use super::Pool;
use crate::stock::Stock;
use groups::{Brief, Whole};
use span::names::SpanId;
use span::spans::Log;
use std::alloc::{AllocError, Global};

impl<L: Log> Pool<L> {
    /// A look at the group of the head, if the pool has it.
    pub fn brief(&self, head: SpanId) -> Option<Brief>
        ensures brief { MatchOption result (HasNoHead self.now.groups head)
            (IsBriefHere self.now.groups head) }
        ensures sound { IsSound self.now }
    {
        let group = self.group(head)?;
        Some(group.brief())
    }

    /// The span at the place of the head's group, 0 being the head. `None` is past the last span,
    /// and for a head that the pool does not have.
    pub fn span_at(&self, head: SpanId, place: usize) -> Option<SpanId>
        ensures { MatchOption result (HasNoMember self.now.groups head place)
            (IsMemberAt self.now.groups head place) }
    {
        let group = self.group(head)?;
        if place >= group.len() {
            return None;
        }
        Some(group.span_at(place).id())
    }

    /// The group of the head leaves, with its guests and its page, if it has one. `None` where the
    /// pool does not have it. It takes no memory.
    pub fn lift(&mut self, head: SpanId) -> Option<Whole<L>>
        ensures lifts { Lifts self.old head result self.new }
        ensures sound { IsSound self.new }
    {
        let Some(stock) = &mut self.stock else {
            return None;
        };
        let whole = stock.lift(head);
        self.give_back();
        whole
    }

    /// Makes room for one group of that many spans. Guests come to no group of the pool, so it
    /// makes no difference onto which group they were to come. It takes the place of the room that
    /// was reserved before.
    ///
    /// # Errors
    ///
    /// `AllocError` where memory is refused. The pool is then as it was.
    pub fn reserve_for(&mut self, _onto: Option<SpanId>, spans: usize) -> Result<(), AllocError>
        ensures ok { OnOk result (self.new ≡ with_room self.old spans) }
        ensures err { OnErr result (self.new ≡ self.old) }
        ensures sound { IsSound self.new }
    {
        self.reserve(1, spans)
    }

    // Makes room for that many groups, with that many spans together.
    pub(super) fn reserve(&mut self, groups: usize, spans: usize) -> Result<(), AllocError>
        ensures ok { OnOk result (self.new ≡ with_rooms self.old groups spans) }
        ensures err { OnErr result (self.new ≡ self.old) }
        ensures sound { IsSound self.new }
    {
        if let Some(stock) = &mut self.stock {
            return stock.reserve(groups, spans);
        }
        if groups > 0 || spans > 0 {
            self.stock = Some(stocked(self.alloc, self.has_plan, groups, spans)?);
        }
        Ok(())
    }

    /// Takes the group in, in reserved room, with its guests and its page, which it gives up where
    /// no slot is live. It takes no memory.
    pub fn take_in(&mut self, whole: Whole<L>)
        requires { MayTakeIn self.old whole }
        ensures takes { TakesIn self.old whole self.new }
        ensures sound { IsSound self.new }
    {
        match &mut self.stock {
            Some(stock) => stock.take_in(whole),
            None => unreachable!(),
        }
    }
}

// No group, with room for so many that have so many spans together.
fn stocked<L: Log>(
    alloc: Global,
    has_plan: bool,
    groups: usize,
    spans: usize,
) -> Result<Box<Stock<L>>, AllocError>
    ensures { IfOk result (λ stock. stock.value ≡ with_rooms (no_groups has_plan) groups spans) }
{
    let mut stock = Stock::new(alloc, has_plan);
    stock.reserve(groups, spans)?;
    Ok(Box::new(alloc, stock)?)
}
