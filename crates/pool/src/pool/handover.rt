// The end of a shard, and the adoption of a group by another.
ghost use Rattle.std.specs.Prelude.{◌≡◌, ◌≢◌, ◌<◌, ◌+◌, ◌≤◌, ◌↔◌, ℕ, Err, IfOk, IsOkUnless, IsTrue, if◌then◌else◌, MatchOption, OnErr, OnOk, false, length, map, true};
ghost use Rattle.span.specs.declared.id.SpanId.{SpanId};
ghost use Rattle.span.specs.State.{SpanState};
ghost use Rattle.shard.specs.Group.{GroupState};
ghost use Rattle.groups.specs.Spans.{all_spans};
ghost use Rattle.groups.specs.Whole.{whole_of};
ghost use Rattle.shard.specs.Shown.{shown as shown_by_shard};
ghost use Rattle.shard.specs.Sound.{IsSound as IsSoundShard};
ghost use Rattle.groups.specs.Group.{IsHeadOf, spans_in, spans_of};
ghost use Rattle.pool.specs.Calls.{Adopts, HasAny, HasClosed, HasDoubled, HasNothingToAdopt, HasReceived, IsDoubled, IsHeadOfLowest, IsInPool, MayOpen, MeetsDouble, MeetsNothing, MeetsPlan, Receives, TakesAll, WouldDouble};
ghost use Rattle.pool.specs.Handover.{AreApart, HasRoomFor, HasLetAllGo};
ghost use Rattle.pool.specs.Shown.{shown, together};
ghost use Rattle.pool.specs.Sound.{IsSound};
ghost use Rattle.pool.specs.State.{PooledState};

use super::Pool;
use crate::error::{AdoptError, ReceiveError};
use groups::Spans;
use shard::Shard;
use span::names::SpanId;
use span::spans::Log;

impl<L: Log> Pool<L> {
    /// The end of a shard: all its groups come here whole, and those with no live slot give up
    /// their pages on the way. The shard has ended then, and has no group.
    ///
    /// # Errors
    ///
    /// The first of these that holds, exactly: `Ended` where the shard has ended before; `Doubled`
    /// where one of its spans is here already; `PlanOpen` where one of its groups is closed.
    /// `OutOfMemory` where none holds and an allocation was refused; each allocation comes before
    /// the first change.
    pub fn receive(&mut self, shard: &mut Shard<L>) -> Result<(), ReceiveError>
        // What an end does.
        ensures ok { OnOk result (Receives self.old shard.old self.new shard.new) }
        ensures whole { OnOk result (HasReceived self.old shard.old self.new) }
        ensures kept { OnOk result (shown self.new
            ≡ together (shown self.old) (shown_by_shard shard.old)) }

        // Each refusal, and what it leaves.
        ensures ended { (result ≡ Err ReceiveError.Ended) ↔ (shard.old.ended ≡ true) }
        ensures doubled { (result ≡ Err ReceiveError.Doubled)
            ↔ ((shard.old.ended ≡ false) × IsInPool self.old shard.old) }
        ensures plan_open { (result ≡ Err ReceiveError.PlanOpen) ↔ ((shard.old.ended ≡ false)
            × (IsInPool self.old shard.old → ⊥) × HasClosed shard.old.groups) }
        ensures err { OnErr result (self.new ≡ self.old) }
        ensures err_shard { OnErr result (shard.new ≡ shard.old) }

        // Both are sound afterwards.
        ensures sound { IsSound self.new }
        ensures sound_shard { IsSoundShard shard.new }
    {
        let doubled = self.has_one_of(shard);
        if shard.ended() {
            return Err(ReceiveError::Ended);
        }
        if doubled {
            return Err(ReceiveError::Doubled);
        }
        if shard.has_closed() {
            return Err(ReceiveError::PlanOpen);
        }
        self.receive_all(shard)
    }

    // Makes room for all groups of the shard and takes them in.
    fn receive_all(&mut self, shard: &mut Shard<L>) -> Result<(), ReceiveError>
        // The end may be: no cause of a refusal holds but memory.
        requires running { shard.old.ended ≡ false }
        requires apart { IsInPool self.old shard.old → ⊥ }
        requires sound { IsSound self.old }
        requires sound_shard { IsSoundShard shard.old }

        // What an end does.
        ensures ok { OnOk result (Receives self.old shard.old self.new shard.new) }
        ensures whole { OnOk result (HasReceived self.old shard.old self.new) }
        ensures kept { OnOk result (shown self.new
            ≡ together (shown self.old) (shown_by_shard shard.old)) }

        // What a refusal leaves.
        ensures only { IsOkUnless result ReceiveError.OutOfMemory }
        ensures err { OnErr result (self.new ≡ self.old) }
        ensures err_shard { OnErr result (shard.new ≡ shard.old) }

        // Both are sound afterwards.
        ensures sound { IsSound self.new }
        ensures sound_shard { IsSoundShard shard.new }
    {
        self.reserve(shard.len(), shard.span_count())?;
        self.take_all(shard);
        shard.set_ended();
        Ok(())
    }

    // Takes in the groups of the shard, one after another, in reserved room. The last goes first,
    // so that none moves up.
    fn take_all(&mut self, shard: &mut Shard<L>)
        // Room for all groups is reserved.
        requires sound { IsSound self.old }
        requires sound_shard { IsSoundShard shard.old }
        requires apart { AreApart self.old shard.old }
        requires room { HasRoomFor self.old shard.old }

        // All groups come over.
        ensures moved { TakesAll self.old (map whole_of shard.old.groups)
            self.new }
        ensures emptied { HasLetAllGo shard.old shard.new }
        ensures sound { IsSound self.new }
        ensures sound_shard { IsSoundShard shard.new }
    {
        while let Some(whole) = shard.lift_last() {
            self.take_in(whole);
        }
    }

    // Whether it has a span of the shard. It looks for those of whichever has fewer groups.
    pub(super) fn has_one_of(&self, shard: &Shard<L>) -> bool
        ensures has { IsTrue result ↔ IsInPool self.now shard.now }
        ensures sound { IsSound self.now }
    {
        let Some(stock) = &self.stock else {
            return false;
        };
        if stock.len() < shard.len() {
            return stock.has_one_in(shard);
        }
        self.has_any_of(shard)
    }

    // The same, by a look for each span of the shard.
    fn has_any_of(&self, shard: &Shard<L>) -> bool
        ensures { IsTrue result ↔ IsInPool self.now shard.now }
    {
        for index in 0..shard.len() {
            if self.has_any(shard.spans_at(index)) {
                return true;
            }
        }
        false
    }

    // Whether it has one of the spans.
    fn has_any(&self, spans: &Spans<L>) -> bool
        ensures { IsTrue result ↔ HasAny self.now.groups (all_spans spans.now) }
    {
        for place in 0..spans.len() {
            if self.has(spans.span_at(place).id()) {
                return true;
            }
        }
        false
    }

    /// Moves the group of lowest head that has a page to the shard, whole, with its guests and its
    /// page, and gives its head.
    ///
    /// # Errors
    ///
    /// The first of these that holds, exactly: `PagesSpent` where the shard has as many groups as
    /// it may have pages, whatever the pool holds; `Ended` where the shard has ended; `Doubled`
    /// where a span of the group is in the shard already, or one that it may yet open; `PlanOpen`
    /// where a plan of folds is open; `NothingToAdopt` where no group has a page. `OutOfMemory`
    /// where none holds and an allocation was refused; each allocation comes before the first
    /// change.
    pub fn adopt(&mut self, shard: &mut Shard<L>) -> Result<SpanId, AdoptError>
        // What an adoption does.
        ensures ok { IfOk result (λ head. Adopts self.old shard.old head self.new shard.new) }
        ensures kept { OnOk result (together (shown self.new) (shown_by_shard shard.new)
            ≡ together (shown self.old) (shown_by_shard shard.old)) }

        // Each refusal, and what it leaves.
        ensures spent { (result ≡ Err AdoptError.PagesSpent)
            ↔ (shard.old.page_limit ≡ length shard.old.groups) }
        ensures ended { (result ≡ Err AdoptError.Ended)
            ↔ ((shard.old.page_limit ≢ length shard.old.groups) × (shard.old.ended ≡ true)) }
        ensures doubled { (result ≡ Err AdoptError.Doubled) ↔ MeetsDouble self.old shard.old }
        ensures plan_open { (result ≡ Err AdoptError.PlanOpen) ↔ MeetsPlan self.old shard.old }
        ensures nothing { (result ≡ Err AdoptError.NothingToAdopt)
            ↔ MeetsNothing self.old shard.old }
        ensures err { OnErr result (self.new ≡ self.old) }
        ensures err_shard { OnErr result (shard.new ≡ shard.old) }

        // Both are sound afterwards.
        ensures sound { IsSound self.new }
        ensures sound_shard { IsSoundShard shard.new }
    {
        match self.adoptable(shard) {
            Ok(head) => self.move_to(shard, head),
            Err(error) => Err(error),
        }
    }

    /// The head of the group that [`Pool::adopt`] would move to the shard if no allocation were
    /// refused. It takes no memory, and changes nothing that a caller sees: what is kept to find
    /// the lowest head may be put in order.
    ///
    /// # Errors
    ///
    /// Those of [`Pool::adopt`], each exactly where that has it, but for `OutOfMemory`, which never
    /// comes.
    pub fn adoptable(&mut self, shard: &Shard<L>) -> Result<SpanId, AdoptError>
        ensures lowest { IfOk result (IsHeadOfLowest self.old) }

        // Each refusal.
        ensures spent { (result ≡ Err AdoptError.PagesSpent)
            ↔ (shard.now.page_limit ≡ length shard.now.groups) }
        ensures ended { (result ≡ Err AdoptError.Ended)
            ↔ ((shard.now.page_limit ≢ length shard.now.groups) × (shard.now.ended ≡ true)) }
        ensures doubled { (result ≡ Err AdoptError.Doubled) ↔ MeetsDouble self.old shard.now }
        ensures plan_open { (result ≡ Err AdoptError.PlanOpen) ↔ MeetsPlan self.old shard.now }
        ensures nothing { (result ≡ Err AdoptError.NothingToAdopt)
            ↔ MeetsNothing self.old shard.now }
        ensures memory { result ≢ Err AdoptError.OutOfMemory }

        // Nothing changes, and both are sound.
        ensures same { self.new ≡ self.old }
        ensures sound { IsSound self.new }
        ensures sound_shard { IsSoundShard shard.now }
    {
        let lowest = self.lowest_paged();
        let ended = shard.ended();
        if shard.is_full() {
            return Err(AdoptError::PagesSpent);
        }
        if ended {
            return Err(AdoptError::Ended);
        }
        let Some(head) = lowest else {
            return Err(self.nothing_to_adopt());
        };
        if self.lowest_would_double(shard, head) {
            return Err(AdoptError::Doubled);
        }
        if self.has_plan() {
            return Err(AdoptError::PlanOpen);
        }
        Ok(head)
    }

    // Why no group is adopted where none has a page.
    fn nothing_to_adopt(&self) -> AdoptError
        ensures { result
            ≡ (if self.now.has_plan then AdoptError.PlanOpen else AdoptError.NothingToAdopt) }
    {
        if self.has_plan() {
            AdoptError::PlanOpen
        } else {
            AdoptError::NothingToAdopt
        }
    }

    // The head of the group of lowest head that has a page.
    fn lowest_paged(&mut self) -> Option<SpanId>
        ensures lowest { MatchOption result (HasNothingToAdopt self.old) (IsHeadOfLowest self.old) }
        ensures same { self.new ≡ self.old }
        ensures sound { IsSound self.old }
    {
        let Some(stock) = &mut self.stock else {
            return None;
        };
        stock.lowest_paged()
    }

    /// Whether a span of the group of the head is in the shard already, or one that it may yet
    /// open, so that it would stand twice there. It takes no memory.
    pub fn would_double(&self, shard: &Shard<L>, head: SpanId) -> bool
        ensures doubles { IsTrue result ↔ WouldDouble self.now shard.now head }
        ensures sound { IsSound self.now }
    {
        let Some(group) = self.group(head) else {
            return false;
        };
        is_doubled(shard, group.spans())
    }

    // The same of the lowest group that has a page, which has the head.
    fn lowest_would_double(&self, shard: &Shard<L>, head: SpanId) -> bool
        requires { IsHeadOfLowest self.now head }
        ensures { IsTrue result ↔ IsDoubled self.now shard.now }
    {
        self.would_double(shard, head)
    }

    // Makes room in the shard and moves the lowest group that has a page there.
    fn move_to(&mut self, shard: &mut Shard<L>, head: SpanId) -> Result<SpanId, AdoptError>
        // The adoption may be: no cause of a refusal holds but memory.
        requires lowest { IsHeadOfLowest self.old head }
        requires apart { IsDoubled self.old shard.old → ⊥ }
        requires pages { shard.old.page_limit ≢ length shard.old.groups }
        requires running { shard.old.ended ≡ false }
        requires sound_shard { IsSoundShard shard.old }

        // What an adoption does.
        ensures ok { IfOk result (λ head. Adopts self.old shard.old head self.new shard.new) }
        ensures kept { OnOk result (together (shown self.new) (shown_by_shard shard.new)
            ≡ together (shown self.old) (shown_by_shard shard.old)) }

        // What a refusal leaves.
        ensures only { IsOkUnless result AdoptError.OutOfMemory }
        ensures err { OnErr result (self.new ≡ self.old) }
        ensures err_shard { OnErr result (shard.new ≡ shard.old) }

        // Both are sound afterwards.
        ensures sound { IsSound self.new }
        ensures sound_shard { IsSoundShard shard.new }
    {
        let spans = self.len_of(head);
        shard.reserve_for(None, spans)?;
        let Some(whole) = self.lift(head) else {
            unreachable!();
        };
        shard.take_in(whole);
        Ok(head)
    }

    // How many spans the group of the head has.
    fn len_of(&self, head: SpanId) -> usize
        requires { IsHeadOfLowest self.now head }
        ensures len { (index : ℕ) (group : PooledState) → IsHeadOf self.now.groups head index group
            → result ≡ length (spans_of group) }
        ensures sound { IsSound self.now }
    {
        let Some(group) = self.group(head) else {
            unreachable!();
        };
        group.len()
    }
}

// Whether the id is of the shard's number, and no span that it has opened has it.
fn may_open<L: Log>(shard: &Shard<L>, id: SpanId) -> bool
    ensures { IsTrue result ↔ MayOpen shard.now id }
{
    id.shard == shard.number() && id.serial >= shard.opened()
}

// Whether one of the spans is in the shard already, or one that it may yet open.
fn is_doubled<L: Log>(shard: &Shard<L>, spans: &Spans<L>) -> bool
    ensures { IsTrue result ↔ HasDoubled shard.now (all_spans spans.now) }
{
    for place in 0..spans.len() {
        let id = spans.span_at(place).id();
        if may_open(shard, id) {
            return true;
        }
        if shard.has(id) {
            return true;
        }
    }
    false
}
