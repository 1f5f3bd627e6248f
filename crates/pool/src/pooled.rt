// A group of the pool: a head and its guests, and their page, if they have one.
ghost use Rattle.std.specs.Prelude.{◌≡◌, ◌<◌, ◌≤◌, ◌↔◌, IfOk, IsSome, OnErr, Some, IsTrue, MatchOption, false, is_some, length, slice_get};
ghost use Rattle.std.specs.Bool.{OnTrue, OnFalse};
ghost use Rattle.span.specs.Log.{Holds};
ghost use Rattle.span.specs.State.{IsSettable, SpanState};
ghost use Rattle.page.specs.Words.{IsInObjects};
ghost use Rattle.groups.specs.Pages.{object_at, set_group};
ghost use Rattle.groups.specs.Sound.{IsSoundGroup};
ghost use Rattle.span.specs.Classes.{slots_in, width_of};
ghost use Rattle.groups.specs.Spans.{HasNoSpan, IsSpanAt, union_of, with_free_at, live_count};
ghost use Rattle.groups.specs.Brief.{IsBriefOf};
ghost use Rattle.pool.specs.Calls.{GivesUp};
ghost use Rattle.pool.specs.Groups.{FreesAt, OnDone};
ghost use Rattle.pool.specs.State.{group_of};
ghost use Rattle.groups.specs.Dead.{without_dead};
ghost use Rattle.groups.specs.Group.{spans_of, summary};
ghost use Rattle.bitmap.specs.declared.bits.TheConstants.{SLOTS};

use groups::{Brief, Spans, set_growing};
use page::{MaybePage, Page};
use span::names::{Class, Entry, SpanId};
use span::spans::{Counted, Log, Span};
use std::alloc::{AllocError, Global};
use std::marker::Model;

/// A head and its guests, and their page, which they have exactly while one of their slots is live.
/// A page takes memory as far as an object was put that is not zeros.
#[derive(Drop)]
pub(crate) struct Pooled<L: Log> {
    spans: Spans<L>,
    // The words of the page: zeros, if there is none.
    words: Page,
    is_paged: bool,
}

impl<L: Log> Model for Pooled<L> {
    ghost use Rattle.page.specs.Words.{IsPageOf, page_of};
    ghost use Rattle.pool.specs.State.{PooledState, group_of};

    ghost Value = { PooledState };

    ghost view = { λ g. group_of g.spans (page_of g.is_paged g.words.words) };

    ghost invariant = { λ g. IsPageOf g.spans.head.class g.is_paged g.words };
}

impl<L: Log> Pooled<L> {
    /// The group of the spans, with the page, if there is one.
    pub(crate) fn new(spans: Spans<L>, page: MaybePage) -> Pooled<L>
        requires { IsInObjects spans.head.class page.room }
        ensures { result ≡ group_of spans page.page }
    {
        let (words, is_paged) = page.into_parts();
        Pooled {
            spans,
            words,
            is_paged,
        }
    }

    /// The spans and the page.
    pub(crate) fn into_parts(self) -> (Spans<L>, MaybePage)
        ensures parts { self ≡ group_of result.0 result.1.page }
        ensures whole { IsInObjects result.0.head.class result.1.room }
    {
        (self.spans, MaybePage::new(self.words, self.is_paged))
    }

    /// The spans, without their page.
    pub(crate) fn into_spans(self) -> Spans<L>
        ensures { result ≡ record { head = self.head; guests = self.guests } }
    {
        self.spans
    }

    /// The head and its guests.
    pub(crate) fn spans(&self) -> &Spans<L>
        ensures { result.now ≡ record { head = self.now.head; guests = self.now.guests } }
    {
        &self.spans
    }

    /// A summary of the group.
    pub(crate) fn brief(&self) -> Brief
        ensures { IsBriefOf self.now.head.class (spans_of self.now) (is_some self.now.page)
            false result }
    {
        Brief {
            class: self.spans.class(),
            spans: self.spans.len(),
            occupied: self.spans.occupied(),
            paged: self.is_paged(),
            closed: false,
        }
    }

    /// The id of the head, which names the group.
    pub(crate) fn head_id(&self) -> SpanId
        ensures { result ≡ self.now.head.id }
    {
        self.spans.head_id()
    }

    /// The words of the object of its class at the slot of its page.
    pub(crate) fn value_at(&self, class: Class, slot: u8) -> &[u128]
        requires class { class ≡ self.now.head.class }
        requires paged { IsSome self.now.page }
        requires on_page { slot < slots_in class }
        ensures object { result.now ≡ object_at self.now.page class slot }
        ensures width { length result.now ≡ width_of class }
    {
        self.words.value_at(class, slot)
    }

    /// Whether it has a page.
    pub(crate) fn is_paged(&self) -> bool
        ensures { result ≡ is_some self.now.page }
    {
        self.is_paged
    }

    /// How many spans it has, the head and its guests.
    pub(crate) fn len(&self) -> usize
        ensures { result ≡ length (spans_of self.now) }
    {
        self.spans.len()
    }

    /// The group as a plan sees it.
    pub(crate) fn entry(&self) -> Entry
        ensures { result ≡ summary self.now }
    {
        self.spans.entry()
    }

    /// How many keys are live in the spans.
    pub(crate) fn live(&self) -> usize
        ensures live { result ≡ live_count (spans_of self.now) }
        ensures at_most { result ≤ SLOTS }
    {
        self.spans.live()
    }

    /// The span at the place, 0 being the head.
    pub(crate) fn span_at(&self, place: usize) -> &Span<L>
        requires { place < length (spans_of self.now) }
        ensures { slice_get (spans_of self.now) place ≡ Some result.now }
    {
        self.spans.span_at(place)
    }

    /// Sets the object of the slot in the span at the place to these words, where the slot is live
    /// there at the generation and its object has as many, and says whether it was. The page has
    /// them then, too.
    ///
    /// # Errors
    ///
    /// `AllocError` in place of `true`, where the span's log could not grow, or memory was refused
    /// for words of the page. The group is then as it was.
    pub(crate) fn set(
        &mut self,
        alloc: Global,
        place: usize,
        slot: u8,
        generation: u32,
        words: &[u128],
    ) -> Result<bool, AllocError>
        requires place { place < length (spans_of self.old) }
        requires sound { IsSoundGroup self.old }
        ensures found { (span : SpanState) → slice_get (spans_of self.old) place ≡ Some span
            → IfOk result (λ done. IsTrue done ↔ IsSettable span slot generation words.now) }
        ensures set { (span : SpanState) → slice_get (spans_of self.old) place ≡ Some span
            → OnDone result (self.new ≡ set_group self.old place span slot generation words.now) }
        ensures unknown { IfOk result (λ done. OnFalse done (self.new ≡ self.old)) }
        ensures refused { (span : SpanState) → slice_get (spans_of self.old) place ≡ Some span
            → OnErr result (IsSettable span slot generation words.now) }
        ensures err { OnErr result (self.new ≡ self.old) }
    {
        let class = self.spans.class();
        if !self.words.takes(class, slot, words) {
            let spans = &mut self.spans;
            let page = &mut self.words;
            return set_growing(alloc, spans, page, place, slot, generation, words);
        }
        if !self.spans.set(place, slot, generation, words)? {
            return Ok(false);
        }
        self.words.set_at(class, slot, words);
        Ok(true)
    }

    /// Frees the slot in the span at the place, where it is live there at the generation, and gives
    /// the page up where it was the last that was live.
    pub(crate) fn free(&mut self, alloc: Global, place: usize, slot: u8, generation: u32) -> bool
        requires { place < length (spans_of self.old) }
        ensures found { (span : SpanState) → slice_get (spans_of self.old) place ≡ Some span
            → (IsTrue result ↔ Holds span.log slot generation) }
        ensures freed { (span : SpanState) → slice_get (spans_of self.old) place ≡ Some span
            → OnTrue result (FreesAt self.old place (with_free_at span slot generation) self.new) }
        ensures unknown { OnFalse result (self.new ≡ self.old) }
    {
        if !self.spans.free(place, slot, generation) {
            return false;
        }
        self.give_up_page(alloc);
        true
    }

    /// Moves the words of its page, if it has them in memory, to a block that it asks for now. The
    /// words are the same either way.
    ///
    /// # Errors
    ///
    /// `AllocError` if the block is refused.
    pub(crate) fn renew(&mut self, alloc: Global) -> Result<(), AllocError>
        ensures { self.new ≡ self.old }
    {
        self.words.renew(alloc)
    }

    // Gives its page up, if it has one, where no slot is live.
    fn give_up_page(&mut self, alloc: Global)
        ensures { GivesUp self.old self.new }
    {
        if self.spans.occupied().lowest().is_none() {
            self.words = Page::blank(alloc);
            self.is_paged = false;
        }
    }
}

impl Pooled<Counted> {
    /// Drops its guests in which no slot is live.
    pub(crate) fn forget_guests(&mut self)
        ensures { self.new ≡ without_dead self.old }
    {
        self.spans.forget_guests();
    }
}
