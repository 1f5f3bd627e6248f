// The report's body.
ghost use Rattle.std.specs.Prelude.{◌≡◌, ◌≤◌, ◌++◌, OnOk, IfOk, length, map, true};
ghost use Rattle.std.specs.List.{flat_map};
ghost use Rattle.thread_runner.specs.Report.{body_text, count_above};
ghost use Rattle.thread_runner.specs.Threaded.{AreReplies};
ghost use Rattle.thread_runner.specs.Told.{diary_lines, voice_of};

use crate::diary::Diary;
use std::alloc::{AllocError, Global};
use trace_runner::{LineAnswer, PlanNews, push_answers, push_news};

/// News of plans, with its place in the trace.
#[derive(Drop)]
pub struct Note {
    /// The number of the line that it is told at: it stands after the replies of the lines above
    /// that.
    pub line: usize,
    /// What it tells.
    pub news: PlanNews,
}

/// Adds what all these threads were told, one thread after another.
fn push_all(replies: &mut Vec<LineAnswer>, diaries: &[Diary]) -> Result<(), AllocError>
    ensures { OnOk result (replies.new.items ≡ replies.old.items
        ++ flat_map diary_lines diaries.now) }
{
    for diary in diaries {
        diary.push_replies(replies)?;
    }
    Ok(())
}

/// All replies, in the order of their lines; none where they are not shown.
pub(crate) fn replies_of(
    alloc: Global,
    shown: bool,
    diaries: &[Diary],
) -> Result<Vec<LineAnswer>, AllocError>
    ensures { shown ≡ true → IfOk result (λ replies.
        AreReplies (map voice_of diaries.now) replies.items) }
{
    let mut replies = Vec::new(alloc);
    if !shown {
        return Ok(replies);
    }
    push_all(&mut replies, diaries)?;
    replies.sort_by_key(|reply: &LineAnswer| reply.line)?;
    Ok(replies)
}

/// How many replies, from the first on, are on lines above that one.
fn count_above(line: usize, replies: &[LineAnswer]) -> usize
    ensures above { result ≡ count_above line replies.now }
    ensures within { result ≤ length replies.now }
{
    let mut count = 0;
    for reply in replies {
        if reply.line >= line {
            return count;
        }
        count += 1;
    }
    count
}

/// Adds the replies in order, where they are shown, and each piece of news after those of the lines
/// above its own.
pub(crate) fn push_body(
    out: &mut Vec<u8>,
    shown: bool,
    replies: &[LineAnswer],
    notes: &[Note],
) -> Result<(), AllocError>
    ensures { OnOk result (out.new.items ≡ out.old.items ++ body_text shown replies.now notes.now) }
{
    let mut left = replies;
    for note in notes {
        let (above, below) = left.split_at(count_above(note.line, left));
        push_answers(out, shown, above)?;
        push_news(out, shown, &note.news)?;
        left = below;
    }
    push_answers(out, shown, left)
}
