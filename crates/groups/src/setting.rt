// A set in spans whose page takes more words in memory for it.
ghost use Rattle.std.specs.Prelude.{◌≡◌, ◌<◌, ◌↔◌, IfOk, IsTrue, OnErr, length};
ghost use Rattle.std.specs.Bool.{OnTrue, OnFalse};
ghost use Rattle.span.specs.State.{IsSettable};
ghost use Rattle.page.specs.Words.{IsInObjects, set_object};
ghost use Rattle.groups.specs.Spans.{OfSpanAt, all_spans, set_spans};

use crate::spans::Spans;
use page::Page;
use span::spans::Log;
use std::alloc::{AllocError, Global};

/// Sets the object of the slot in the span at the place as [`Spans::set`] does, and on the page,
/// which takes more words in memory if the object needs them.
///
/// # Errors
///
/// `AllocError` in place of `true`, where memory is refused for the page or for the span's log. The
/// spans and the page's words are then as they were.
#[inline(never)]
pub fn set_growing<L: Log>(
    alloc: Global,
    spans: &mut Spans<L>,
    page: &mut Page,
    place: usize,
    slot: u8,
    generation: u32,
    words: &[u128],
) -> Result<bool, AllocError>
    requires place { place < length (all_spans spans.old) }
    requires whole { OfSpanAt (all_spans spans.old) place (λ span.
        IsInObjects span.class page.old.room) }
    ensures found { OfSpanAt (all_spans spans.old) place (λ span. IfOk result (λ done.
        IsTrue done ↔ IsSettable span slot generation words.now)) }
    ensures set { OfSpanAt (all_spans spans.old) place (λ span. IfOk result (λ done. OnTrue done
        (spans.new ≡ set_spans spans.old place span slot generation words.now))) }
    ensures page { OfSpanAt (all_spans spans.old) place (λ span. IfOk result (λ done. OnTrue done
        (page.new.words ≡ set_object page.old.words span.class slot words.now))) }
    ensures unknown { IfOk result (λ done. OnFalse done (spans.new ≡ spans.old)) }
    ensures kept { IfOk result (λ done. OnFalse done (page.new.words ≡ page.old.words)) }
    ensures whole { OfSpanAt (all_spans spans.old) place (λ span.
        IsInObjects span.class page.new.room) }
    ensures refused { OfSpanAt (all_spans spans.old) place (λ span.
        OnErr result (IsSettable span slot generation words.now)) }
    ensures err { OnErr result (spans.new ≡ spans.old) }
    ensures same { OnErr result (page.new.words ≡ page.old.words) }
{
    let span = spans.span_at(place);
    let class = span.class();
    if words.len() != class.words() || !span.holds(slot, generation) {
        return Ok(false);
    }
    page.reserve(alloc, class, slot)?;
    if !spans.set(place, slot, generation, words)? {
        return Ok(false);
    }
    page.set_at(class, slot, words);
    Ok(true)
}
