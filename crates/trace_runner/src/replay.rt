//! Replays a trace on a core of its own.

ghost use Rattle.std.specs.Prelude.{◌≡◌, ◌<◌, ◌-◌, ◌^◌, IfOk, IfErr, List, OnErr, OnOk};
ghost use Rattle.span.specs.PlainMap.{empty_map};
ghost use Rattle.arena_core.specs.State.{shown};
ghost use Rattle.trace_text.specs.Header.{IsWithinLimits};
ghost use Rattle.trace_text.specs.Trace.{Spells};
ghost use Rattle.trace_text.specs.declared.header.Header.{Header};
ghost use Rattle.trace_text.specs.declared.line.Line.{Line};
ghost use Rattle.trace_runner.specs.Replay.{IsNoFault, IsReportOf, Stops, WritesReport, limits_of_trace, start_of};

use crate::fault::ReplayError;
use crate::report::Ending;
use crate::run::{Ran, run_lines};
use crate::sink::{Sink, give};
use crate::writing::push_ending;
use arena_core::Core;
use marks::Limits;
use mesh_graph::Runner;
use span::spans::Counted;
use std::alloc::{AllocError, Global};
use trace_text::{Header, Trace, parse};

/// How many spans a shard of a trace opens at most, in each version of the grammar that there is:
/// what a report tells of a shard that may open no more rests on it.
pub const TRACE_SPANS: u32 = 1024;

/// Replays a trace: reads the text whole, runs its calls one after another on a core of its own,
/// and gives the report to `out`, with a line for each call where `replies` asks for them. `cert`
/// is then the text of the certificate of the last mark that planned, or empty where none did. The
/// runner fills the rows of the marks' graphs; what is written does not depend on it.
///
/// `BadTrace` comes exactly for a text that is no trace, with its first line at fault and the first
/// cause that holds of it. `SinkFailed` comes where `out` failed; it has then taken a prefix of the
/// report. `OutOfMemory` comes where an allocation was refused. After the first and the last `out`
/// has taken nothing. After each of them `cert` is as it was.
pub fn replay_serial<R: Runner, S: Sink>(
    runner: &R,
    alloc: Global,
    text: &[u8],
    replies: bool,
    out: &mut S,
    cert: &mut Vec<u8>,
) -> Result<(), ReplayError>
    requires failures { S.failures out.old < 2 ^ 64 - 1 }
    requires runner { R.ready runner.now }
    ensures ok { OnOk result (WritesReport text.now replies (S.taken out.old)
        (S.taken out.new) cert.new.items) }
    ensures accepted { (header : Header) (lines : List Line) → Spells text.now header lines
        → IfErr result IsNoFault }
    ensures succeeded { OnOk result (S.failures out.new ≡ S.failures out.old) }
    ensures err { IfErr result (Stops text.now replies (S.failures out.old) (S.failures out.new)
        (S.taken out.old) (S.taken out.new)) }
    ensures err_certificate { OnErr result (cert.new ≡ cert.old) }
{
    let trace = parse(alloc, text)?;
    let replayed = replay(runner, alloc, &trace, replies)?;
    match give(out, replayed.report.as_slice()) {
        Ok(()) => {
            *cert = replayed.certificate;
            Ok(())
        }
        Err(_) => Err(ReplayError::SinkFailed),
    }
}

/// What a replay leaves.
#[derive(Drop)]
struct Replayed {
    /// The report's text.
    report: Vec<u8>,
    /// The text of the certificate of the last mark that planned; empty where none did.
    certificate: Vec<u8>,
}

/// The report of a run of the trace, and its last certificate.
fn replay<R: Runner>(
    runner: &R,
    alloc: Global,
    trace: &Trace,
    replies: bool,
) -> Result<Replayed, AllocError>
    requires { R.ready runner.now }
    ensures { IfOk result (λ replayed. IsReportOf trace.now replies replayed.report.items
        replayed.certificate.items) }
{
    let core = core_of(alloc, &trace.header);
    let Ran {
        core,
        mut report,
        calls,
        certificate,
    } = run_lines(runner, alloc, trace, replies, core)?;
    let totals = core.totals();
    let ending = Ending {
        pages: totals.pages,
        live: totals.live,
        calls,
    };
    push_ending(&mut report, &ending)?;
    Ok(Replayed {
        report,
        certificate,
    })
}

/// The core that the header asks for. Its logs are only counted, since no report shows one.
fn core_of(alloc: Global, header: &Header) -> Core<Counted>
    requires { IsWithinLimits header.now }
    ensures core { result ≡ start_of header.now }
    ensures empty { shown (start_of header.now) ≡ empty_map }
{
    Core::with_limits(alloc, limits_of(header))
}

/// The numbers of the core or the arena that the header asks for, whose shards open [`TRACE_SPANS`]
/// spans at most.
pub fn limits_of(header: &Header) -> Limits
    requires { IsWithinLimits header.now }
    ensures { result ≡ limits_of_trace header.now }
{
    let pages = header.pages as usize;
    let ring = header.ring as usize;
    let Some(limits) = Limits::new(header.shards, pages, ring, header.gens) else {
        unreachable!();
    };
    match limits.with_span_limit(TRACE_SPANS) {
        Some(limits) => limits,
        None => unreachable!(),
    }
}
