//! Writes the news of plans: what a mark planned and why no plan has more pairs, and how a plan was
//! carried out.

ghost use Rattle.std.specs.Prelude.{◌≡◌, ◌++◌, OnOk, codes, decimal};
ghost use Rattle.std.specs.List.{flat_map};
ghost use Rattle.trace_runner.specs.Report.{close_text, fold_line, id_word, ids_line, ids_text, mark_line, mark_text, news_text, outcome_text, step_line, steps_text};

use crate::report::{CloseNews, MarkNews, PlanNews, TakenStep};
use crate::writing::{push_id, push_number};
use fold::Step;
use span::names::SpanId;
use std::alloc::AllocError;

fn push_counted(out: &mut Vec<u8>, title: &[u8], count: usize) -> Result<(), AllocError>
    ensures { OnOk result (out.new.items ≡ out.old.items ++ (title.now ++ decimal count)) }
{
    out.extend_from_slice(title)?;
    push_number(out, count)
}

fn push_outcome(out: &mut Vec<u8>, outcome: Step) -> Result<(), AllocError>
    ensures { OnOk result (out.new.items ≡ out.old.items ++ outcome_text outcome) }
{
    match outcome {
        Step::Folded => out.extend_from_slice(b"folded"),
        Step::Emptied => out.extend_from_slice(b"emptied"),
        Step::Absent => out.extend_from_slice(b"absent"),
        Step::Clash => out.extend_from_slice(b"clash"),
    }
}

fn push_step_line(out: &mut Vec<u8>, step: &TakenStep) -> Result<(), AllocError>
    ensures { OnOk result (out.new.items ≡ out.old.items ++ step_line step.now) }
{
    out.extend_from_slice(b"step ")?;
    push_id(out, step.abandoned)?;
    out.extend_from_slice(b" onto ")?;
    push_id(out, step.owned)?;
    out.extend_from_slice(b" ")?;
    push_outcome(out, step.outcome)?;
    out.extend_from_slice(b"\n")
}

fn push_steps(out: &mut Vec<u8>, replies: bool, steps: &[TakenStep]) -> Result<(), AllocError>
    ensures { OnOk result (out.new.items ≡ out.old.items ++ steps_text replies steps.now) }
{
    if replies {
        for step in steps {
            push_step_line(out, step)?;
        }
    }
    Ok(())
}

fn push_close(out: &mut Vec<u8>, replies: bool, close: &CloseNews) -> Result<(), AllocError>
    ensures { OnOk result (out.new.items ≡ out.old.items ++ close_text replies close.now) }
{
    push_steps(out, replies, close.steps.taken())?;
    push_counted(out, b"closed ", close.mark)?;
    push_counted(out, b" pages ", close.pages)?;
    out.extend_from_slice(b"\n")
}

fn push_fold_line(out: &mut Vec<u8>, pair: (SpanId, SpanId)) -> Result<(), AllocError>
    ensures { OnOk result (out.new.items ≡ out.old.items ++ fold_line pair) }
{
    out.extend_from_slice(b"fold ")?;
    push_id(out, pair.0)?;
    out.extend_from_slice(b" onto ")?;
    push_id(out, pair.1)?;
    out.extend_from_slice(b"\n")
}

fn push_folds(out: &mut Vec<u8>, pairs: &[(SpanId, SpanId)]) -> Result<(), AllocError>
    ensures { OnOk result (out.new.items ≡ out.old.items ++ flat_map fold_line pairs.now) }
{
    for pair in pairs {
        push_fold_line(out, *pair)?;
    }
    Ok(())
}

fn push_id_word(out: &mut Vec<u8>, id: SpanId) -> Result<(), AllocError>
    ensures { OnOk result (out.new.items ≡ out.old.items ++ id_word id) }
{
    out.extend_from_slice(b" ")?;
    push_id(out, id)
}

fn push_id_words(out: &mut Vec<u8>, ids: &[SpanId]) -> Result<(), AllocError>
    ensures { OnOk result (out.new.items ≡ out.old.items ++ flat_map id_word ids.now) }
{
    for id in ids {
        push_id_word(out, *id)?;
    }
    Ok(())
}

fn push_ids(out: &mut Vec<u8>, ids: &[SpanId]) -> Result<(), AllocError>
    ensures { OnOk result (out.new.items ≡ out.old.items ++ ids_text ids.now) }
{
    match ids {
        [] => out.extend_from_slice(b" none"),
        [_, ..] => push_id_words(out, ids),
    }
}

fn push_ids_line(out: &mut Vec<u8>, title: &[u8], ids: &[SpanId]) -> Result<(), AllocError>
    ensures { OnOk result (out.new.items ≡ out.old.items ++ ids_line title.now ids.now) }
{
    out.extend_from_slice(title)?;
    push_ids(out, ids)?;
    out.extend_from_slice(b"\n")
}

fn push_mark_line(out: &mut Vec<u8>, mark: &MarkNews) -> Result<(), AllocError>
    ensures { OnOk result (out.new.items ≡ out.old.items ++ mark_line mark.now) }
{
    push_counted(out, b"mark ", mark.mark)?;
    push_counted(out, b" abandoned ", mark.abandoned)?;
    push_counted(out, b" owned ", mark.owned)?;
    push_counted(out, b" folds ", mark.plan.pairs().len())?;
    push_counted(out, b" pages ", mark.pages)?;
    out.extend_from_slice(b"\n")
}

fn push_mark(out: &mut Vec<u8>, mark: &MarkNews) -> Result<(), AllocError>
    ensures { OnOk result (out.new.items ≡ out.old.items ++ mark_text mark.now) }
{
    push_mark_line(out, mark)?;
    push_folds(out, mark.plan.pairs())?;
    push_ids_line(out, b"short", mark.short.ids())?;
    push_ids_line(out, b"partners", mark.partners.ids())
}

/// The line of a mark that saw too many groups.
fn push_too_many(out: &mut Vec<u8>, mark: usize) -> Result<(), AllocError>
    ensures { OnOk result (out.new.items ≡ out.old.items
        ++ (codes "mark " ++ decimal mark ++ codes " refused many\n")) }
{
    push_counted(out, b"mark ", mark)?;
    out.extend_from_slice(b" refused many\n")
}

/// Adds news of a plan to the text, with its steps where `replies` asks for them. `AllocError`
/// comes where memory runs out.
pub fn push_news(out: &mut Vec<u8>, replies: bool, news: &PlanNews) -> Result<(), AllocError>
    ensures { OnOk result (out.new.items ≡ out.old.items ++ news_text replies news.now) }
{
    match news {
        PlanNews::Marked(mark) => push_mark(out, mark),
        PlanNews::TooMany(mark) => push_too_many(out, *mark),
        PlanNews::Closed(close) => push_close(out, replies, close),
    }
}
