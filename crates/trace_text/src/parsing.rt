//! Reads a trace.

ghost use Rattle.std.specs.Prelude.{◌≡◌, [], List, IfOk, IfErr};
ghost use Rattle.trace_text.specs.declared.header.Header.{Header};
ghost use Rattle.trace_text.specs.declared.line.Line.{Line};
ghost use Rattle.trace_text.specs.Causes.{HasCause, AreReadAs};
ghost use Rattle.trace_text.specs.Within.{IsNextUnlessBound};
ghost use Rattle.trace_text.specs.Header.{IsWithinLimits};
ghost use Rattle.trace_text.specs.Earlier.{Knows};
ghost use Rattle.trace_text.specs.Places.{place_at, places_from};
ghost use Rattle.trace_text.specs.Words.{lines_of};
ghost use Rattle.trace_text.specs.Trace.{FailsAt, IsFault, IsReadAs, IsTrace, Spells};

use super::cause::{Cause, ParseError};
use super::earlier::Earlier;
use super::header::{Header, read_header};
use super::line::Line;
use super::line_list::LineList;
use super::reading::read_line;
use super::text_seed::TextSeed;
use super::trace::Trace;
use super::words::first_line;
use std::alloc::Global;

/// How many lines the header has.
const HEADER_LINES: usize = 5;

/// Reads the line that follows those, with the place of the first key that it reads. That it binds
/// a name again is told where it is noted.
fn next_line(header: &Header, earlier: &Earlier, text: &[u8]) -> Result<(Line, usize), Cause>
    requires { IsWithinLimits header.now }
    ensures ok { (before : List Line) → Knows before earlier.now
        → IfOk result (λ next. IsNextUnlessBound header.now before text.now next.0) }
    ensures place { (before : List Line) → Knows before earlier.now
        → IfOk result (λ next. next.1 ≡ place_at before next.0) }
    ensures err { (before : List Line) → Knows before earlier.now
        → IfErr result (HasCause header.now before text.now) }
{
    let mut line = read_line(header.version, text)?;
    earlier.give_class(&mut line);
    match earlier.place_of(header, &line) {
        Ok(place) => Ok((line, place)),
        Err(cause) => Err(cause),
    }
}

/// What the lines below the header are read as.
#[derive(Drop)]
struct Body {
    lines: LineList,
    earlier: Earlier,
}

/// Reads the lines of the text below the header, one after another, with what is kept of them.
fn read_body(alloc: Global, header: &Header, text: &[u8]) -> Result<Body, ParseError>
    requires { IsWithinLimits header.now }
    ensures known { IfOk result (λ body. Knows body.lines.items body.earlier) }
    ensures placed { IfOk result (λ body. body.lines.places ≡ places_from [] body.lines.items) }
    ensures ok { IfOk result
        (λ body. AreReadAs header.now [] (lines_of text.now) body.lines.items) }
    ensures err { IfErr result (FailsAt header.now (lines_of text.now)) }
{
    let mut lines = LineList::new(alloc);
    let mut earlier = Earlier::new(alloc, TextSeed::of(text));
    let mut rest = text;
    while let Some((bytes, below)) = first_line(rest) {
        let (line, place) = match next_line(header, &earlier, bytes) {
            Ok(next) => next,
            Err(cause) => return Err(ParseError::BadTrace {
                line: lines.len() + HEADER_LINES + 1,
                cause,
            }),
        };
        let again = earlier.note(lines.len(), &line)?;
        if again {
            return Err(ParseError::BadTrace {
                line: lines.len() + HEADER_LINES + 1,
                cause: Cause::Bound,
            });
        }
        lines.push(line, place)?;
        rest = below;
    }
    Ok(Body { lines, earlier })
}

/// Reads a trace, so that what is read or refused can be asked whether the text spells it.
fn trace_of(alloc: Global, text: &[u8]) -> Result<Trace, ParseError>
    ensures trace { IfOk result (IsTrace text.now) }
    ensures fault { IfErr result (IsFault text.now) }
{
    let (header, below) = read_header(text)?;
    let Body { lines, earlier } = read_body(alloc, &header, below)?;
    if earlier.awaits_mark() {
        return Err(ParseError::BadTrace {
            line: lines.len() + HEADER_LINES + 1,
            cause: Cause::Adopt,
        });
    }
    Ok(Trace {
        header,
        lines,
        earlier,
    })
}

/// Reads a trace, line by line up to the first that is at fault.
///
/// # Errors
///
/// `BadTrace` where the text is no trace, with the first line at fault, counted from 1, and its
/// first cause; the end of the text has the number of a line that would follow. `OutOfMemory` where
/// memory runs out.
pub fn parse(alloc: Global, text: &[u8]) -> Result<Trace, ParseError>
    // What is read is a trace that the text spells.
    ensures trace { IfOk result (IsTrace text.now) }

    // A text that spells a trace is read as that one, unless memory runs out.
    ensures read { (header : Header) (lines : List Line)
        → Spells text.now header lines → IsReadAs result header lines }

    // A refusal names the first line at fault and its first cause.
    ensures fault { IfErr result (IsFault text.now) }
{
    trace_of(alloc, text)
}
