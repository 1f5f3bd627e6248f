// A group on its way from one owner to another.
ghost use Rattle.std.specs.Prelude.{◌≡◌};
ghost use Rattle.page.specs.Words.{IsInObjects};
ghost use Rattle.groups.specs.Whole.{IsSoundWhole, whole_with};

use crate::spans::Spans;
use page::MaybePage;
use span::names::SpanId;
use span::spans::{Kept, Log};
use std::marker::Model;

/// A group on its way from one owner to another: its spans, and the words of its page, if it has
/// one.
///
/// It keeps that the spans are sound on the words: no span stands twice, the word at each live slot
/// is the one that its log says, and without a page no slot is live.
#[derive(Drop)]
pub struct Whole<L: Log = Kept> {
    spans: Spans<L>,
    words: MaybePage,
}

impl<L: Log> Model for Whole<L> {
    ghost use Rattle.page.specs.Words.{IsInObjects};
    ghost use Rattle.groups.specs.Whole.{WholeState, IsSoundWhole, whole_with};

    ghost Value = { WholeState };

    ghost view = { λ w. whole_with w.spans w.words.page };

    ghost invariant = { λ w. IsSoundWhole (whole_with w.spans w.words.page)
        × IsInObjects w.spans.head.class w.words.room };
}

impl<L: Log> Whole<L> {
    /// The group of spans that are sound on the words, of which those in memory end with an object.
    pub fn new(spans: Spans<L>, words: MaybePage) -> Whole<L>
        requires sound { IsSoundWhole (whole_with spans words.page) }
        requires whole { IsInObjects spans.head.class words.room }
        ensures { result ≡ whole_with spans words.page }
    {
        Whole { spans, words }
    }

    /// The id of the head, which names the group.
    pub fn head_id(&self) -> SpanId
        ensures { result ≡ self.now.head.id }
    {
        self.spans.head_id()
    }

    /// The head and its guests.
    pub fn spans(&self) -> &Spans<L>
        ensures spans { result.now ≡ record { head = self.now.head; guests = self.now.guests } }
        ensures sound { IsSoundWhole self.now }
    {
        &self.spans
    }

    /// The spans, and the words of their page.
    pub fn into_parts(self) -> (Spans<L>, MaybePage)
        ensures parts { self ≡ whole_with result.0 result.1.page }
        ensures sound { IsSoundWhole self }
        ensures whole { IsInObjects self.head.class result.1.room }
    {
        (self.spans, self.words)
    }
}
