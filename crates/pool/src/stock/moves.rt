// Groups that come and go whole.
ghost use Rattle.std.specs.Prelude.{◌≡◌, ◌≢◌, None, OnErr, OnOk};
ghost use Rattle.std.specs.FinSet as set;
ghost use Rattle.page.specs.Words.{IsInObjects};
ghost use Rattle.groups.specs.Spans.{all_spans, union_of};
ghost use Rattle.pool.specs.Calls.{Lifts, MayTakeIn, TakesIn, with_rooms};
ghost use Rattle.pool.specs.Sound.{IsSound};

use super::Stock;
use crate::pooled::Pooled;
use groups::{Spans, Whole};
use page::MaybePage;
use span::names::SpanId;
use span::spans::Log;
use std::alloc::{AllocError, Global};

impl<L: Log> Stock<L> {
    /// The group of the head leaves, with its guests and its page, if it has one. `None` if it is
    /// not here.
    pub(crate) fn lift(&mut self, head: SpanId) -> Option<Whole<L>>
        ensures lifts { Lifts self.old head result self.new }
        ensures sound { IsSound self.new }
    {
        let group = self.groups.remove(head)?;
        let (spans, page) = group.into_parts();
        self.directory.strike_all(spans.guests());
        Some(Whole::new(spans, page))
    }

    /// Makes room for that many groups, with that many spans together.
    ///
    /// # Errors
    ///
    /// `AllocError` if memory is refused. The groups are then as they were.
    pub(crate) fn reserve(&mut self, groups: usize, spans: usize) -> Result<(), AllocError>
        ensures ok { OnOk result (self.new ≡ with_rooms self.old groups spans) }
        ensures err { OnErr result (self.new ≡ self.old) }
        ensures sound { IsSound self.new }
    {
        self.groups.reserve(groups)?;
        self.directory.reserve(spans)?;
        self.group_room = groups;
        self.span_room = spans;
        Ok(())
    }

    /// Takes the group in, in reserved room, with its guests and its page, which it gives up if no
    /// slot is live.
    pub(crate) fn take_in(&mut self, whole: Whole<L>)
        requires { MayTakeIn self.old whole }
        ensures takes { TakesIn self.old whole self.new }
        ensures sound { IsSound self.new }
    {
        let (spans, page) = whole.into_parts();
        let count = spans.len();
        let head = spans.head_id();
        let page = page_in_use(self.alloc, &spans, page);
        self.directory.enter_from(0, spans.guests(), head);
        self.groups.insert(Pooled::new(spans, page));
        self.group_room -= 1;
        self.span_room -= count;
    }
}

// The page, where one of the spans' slots is live; else it goes.
fn page_in_use<L: Log>(alloc: Global, spans: &Spans<L>, page: MaybePage) -> MaybePage
    requires { IsInObjects spans.now.head.class page.room }
    ensures emptied { union_of (all_spans spans.now) ≡ set.empty → result.page ≡ None }
    ensures live { union_of (all_spans spans.now) ≢ set.empty → result.page ≡ page.page }
    ensures whole { IsInObjects spans.now.head.class result.room }
{
    if spans.occupied().lowest().is_none() {
        return MaybePage::none(alloc);
    }
    page
}
