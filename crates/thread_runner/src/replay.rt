// Replays a trace by threads, and holds what its calls were told against the logs.
ghost use Rattle.std.specs.Prelude.{◌≡◌, ◌<◌, ◌-◌, ◌^◌, All, IfOk, IfErr, IsTrue, List, None, OnErr, OnOk, length, map, vec_len};
ghost use Rattle.std.specs.List.{AllByRecursion, sum_by};
ghost use Rattle.span.specs.ReceiptLists.{kept_receipts};
ghost use Rattle.span.specs.SpanLogs.{span_of_log};
ghost use Rattle.groups.specs.Spans.{live_count};
ghost use Rattle.audit.specs.Agreement.{Agreement};
ghost use Rattle.audit.specs.History.{HaveHistories};
ghost use Rattle.trace_text.specs.Trace.{Spells};
ghost use Rattle.trace_text.specs.declared.header.Header.{Header};
ghost use Rattle.trace_text.specs.declared.line.Line.{Line};
ghost use Rattle.thread_runner.specs.Asked.{replies_in};
ghost use Rattle.thread_runner.specs.Followed.{AreDelivered, AreVoices, carried_by};
ghost use Rattle.thread_runner.specs.Grown.{HaveNothing};
ghost use Rattle.thread_runner.specs.Marked.{AreNotesOf};
ghost use Rattle.thread_runner.specs.Threaded.{IsAuditStop, IsNoFault, IsRunStop, IsThreadedReport, StopsThreads, TellsAll, WritesThreadedReport};
ghost use Rattle.thread_runner.specs.Told.{voice_of};

use crate::body::{push_body, replies_of};
use crate::diary::Diary;
use crate::error::{Halt, ThreadsError};
use crate::layout::{Layout, Text};
use crate::live::live_in;
use crate::run::{Ran, Told, run_lines};
use crate::worker::Reading;
use arena::{Arena, Gate, NoGate, Seat, Steward, finish};
use audit::{AuditError, audit_by_threads};
use span::receipts::ReceiptList;
use span::spans::SpanLog;
use std::alloc::{AllocError, Global};
use std::marker::Brand;
use std::sync::Wait;
use std::thread::Threads;
use trace_runner::{Ending, Sink, Trace, give, limits_of, parse, push_ending};

/// What a replay leaves.
#[derive(Drop)]
struct Replayed {
    /// The report's text.
    report: Vec<u8>,
    /// The text of the certificate of the last mark that planned; empty where none did.
    certificate: Vec<u8>,
}

// How many replies the threads had. More than a number counts find no memory.
fn calls_of(diaries: &[Diary]) -> Result<usize, AllocError>
    ensures { IfOk result (λ calls. calls ≡ sum_by (λ diary. diary.calls) diaries.now) }
{
    let mut calls = 0usize;
    for diary in diaries {
        calls = calls.checked_add(diary.calls()).ok_or(AllocError)?;
    }
    Ok(calls)
}

// The receipts of each thread.
fn receipts_of(alloc: Global, diaries: Vec<Diary>) -> Result<Vec<ReceiptList>, AllocError>
    ensures { IfOk result (λ receipts. map kept_receipts receipts.items
        ≡ map (λ diary. kept_receipts diary.receipts) diaries.items) }
{
    let mut receipts = Vec::with_capacity(alloc, diaries.len())?;
    for diary in diaries {
        receipts.push(diary.into_receipts())?;
    }
    Ok(receipts)
}

// The report of what a run left, without its last line.
fn report_of(
    alloc: Global,
    told: &Told,
    shown: bool,
    ending: &Ending,
) -> Result<Vec<u8>, AllocError>
    ensures { IfOk result (λ text. TellsAll shown (map voice_of told.now.diaries.items)
        told.now.notes.items ending.now text.items) }
{
    let replies = replies_of(alloc, shown, told.diaries.as_slice())?;
    let mut report = Vec::new(alloc);
    push_body(
        &mut report,
        shown,
        replies.as_slice(),
        told.notes.as_slice(),
    )?;
    push_ending(&mut report, ending)?;
    Ok(report)
}

// Holds the receipts against the logs.
fn held_against<R: Threads + Sync>(
    rt: &R,
    alloc: Global,
    logs: &[SpanLog],
    receipts: &[ReceiptList],
) -> Result<(), ThreadsError>
    ensures agreed { OnOk result (Agreement logs.now (map kept_receipts receipts.now)) }
    ensures histories { OnOk result (HaveHistories (map kept_receipts receipts.now)) }
    ensures err { IfErr result (IsAuditStop logs.now (map kept_receipts receipts.now)) }
{
    match audit_by_threads(rt, alloc, logs, receipts) {
        Ok(()) => Ok(()),
        Err(AuditError::Fault(cause)) => Err(ThreadsError::AuditFault(cause)),
        Err(AuditError::OutOfMemory) => Err(ThreadsError::OutOfMemory),
    }
}

// The whole report of what a run of the trace left, where its receipts agree with the logs.
fn audited<R: Threads + Sync>(
    rt: &R,
    alloc: Global,
    trace: &Trace,
    told: Told,
    logs: &[SpanLog],
    shown: bool,
    ending: &Ending,
) -> Result<Replayed, ThreadsError>
    requires voices { AreVoices trace.now shown (map voice_of told.diaries.items) }
    requires calls { ending.now.calls ≡ replies_in trace.now.lines.items }
    requires notes { AreNotesOf trace.now.lines.items told.notes.items told.certificate.items }
    requires live { ending.now.live ≡ live_count (map span_of_log logs.now) }
    ensures ok { IfOk result (λ replayed. IsThreadedReport trace.now shown
        replayed.report.items replayed.certificate.items) }
    ensures err { IfErr result (IsRunStop trace.now shown) }
{
    let mut report = report_of(alloc, &told, shown, ending)?;
    let receipts = receipts_of(alloc, told.diaries)?;
    held_against(rt, alloc, logs, receipts.as_slice())?;
    report.extend_from_slice(b"audit ok\n")?;
    Ok(Replayed {
        report,
        certificate: told.certificate,
    })
}

// So many lists of no receipt.
fn no_receipts(alloc: Global, count: usize) -> Result<Vec<ReceiptList>, AllocError>
    ensures { IfOk result (λ lists. vec_len lists ≡ count) }
{
    let mut lists = Vec::with_capacity(alloc, count)?;
    for _ in 0..count {
        lists.push(ReceiptList::new(alloc))?;
    }
    Ok(lists)
}

// Whether none of a shard's rings had a key, by the count of each.
fn was_empty(counts: &[usize]) -> bool
    ensures { IsTrue result → All (λ count. count ≡ 0) counts.now }
{
    for from in 0..counts.len() {
        if counts[from] != 0 {
            return false;
        }
    }
    true
}

// Whether no ring had a key, by the counts of each.
fn were_empty(counts: &[Vec<usize>]) -> bool
    ensures { IsTrue result → All (λ row. All (λ count. count ≡ 0) row.items) counts.now }
{
    for shard in 0..counts.len() {
        if !was_empty(counts[shard].as_slice()) {
            return false;
        }
    }
    true
}

// The logs of all spans of an arena that comes to its end with these seats, whose rings were
// settled: no key is left on one, and so no receipt is left out, and what was taken from each ring
// is what was sent on it.
fn logs_of<G: Gate>(alloc: Global, arena: Arena<G>, seats: Vec<Seat>) -> Result<Vec<SpanLog>, Halt>
    requires { AllByRecursion (λ seat. seat.table ≡ arena.table) seats.items }
    ensures { OnOk result (AreDelivered (length seats.items) (map carried_by seats.items)) }
{
    if !arena.has_all(seats.as_slice()) {
        return Err(Halt::Doubled);
    }
    let mut receipts = no_receipts(alloc, seats.len())?;
    let Ok(finished) = finish(arena, seats, receipts.as_mut_slice()) else {
        return Err(Halt::OutOfMemory);
    };
    if !were_empty(finished.counts.as_slice()) {
        return Err(Halt::Doubled);
    }
    Ok(finished.logs)
}

// The report of a run of the trace by threads at an arena that was opened for it, and its last
// certificate.
fn replay_at<R: Threads + Wait + Sync, G: Gate + Sync, J: Reading>(
    rt: &R,
    alloc: Global,
    arena: Arena<G>,
    seats: Vec<Seat>,
    steward: Steward,
    trace: &Trace,
    shown: bool,
) -> Result<Replayed, ThreadsError>
    requires unplanned { steward.plan ≡ None }
    requires lines { trace.now.lines.items ≡ J.lines }
    requires shown { shown ≡ J.shown }
    requires table { arena.table ≡ J.table }
    requires seats { AllByRecursion (λ seat. (seat.table ≡ J.table) × (seat.section ≡ 0)
        × HaveNothing (carried_by seat)) seats.items }
    ensures ok { IfOk result (λ replayed. IsThreadedReport trace.now shown
        replayed.report.items replayed.certificate.items) }
    ensures err { IfErr result (IsRunStop trace.now shown) }
{
    let text = Text {
        trace,
        layout: Layout::of(alloc, trace)?,
        replies: shown,
    };
    let Ran { seats, told } = run_lines::<R, G, J>(rt, alloc, &text, &arena, seats, steward)?;
    let pages = arena.totals(rt).pages;
    let logs = logs_of(alloc, arena, seats)?;
    let ending = Ending {
        pages,
        live: live_in(logs.as_slice())?,
        calls: calls_of(told.diaries.as_slice())?,
    };
    audited(rt, alloc, trace, told, logs.as_slice(), shown, &ending)
}

// The report of a run of the trace by threads, and its last certificate.
fn replay<R: Threads + Wait + Sync, G: Gate + Sync>(
    rt: &R,
    alloc: Global,
    gate: G,
    trace: &Trace,
    shown: bool,
) -> Result<Replayed, ThreadsError>
    ensures ok { IfOk result (λ replayed. IsThreadedReport trace.now shown
        replayed.report.items replayed.certificate.items) }
    ensures err { IfErr result (IsRunStop trace.now shown) }
{
    let opened = Arena::with_limits(alloc, limits_of(&trace.header), gate);
    let Ok((arena, seats, steward)) = opened else {
        return Err(ThreadsError::OutOfMemory);
    };
    replay_at::<R, G, Brand>(rt, alloc, arena, seats, steward, trace, shown)
}

/// Replays a trace by threads: reads the text whole, runs each section's lines on a thread for each
/// of its threads that has some, with the steps of the open plan beside them, holds what all calls
/// were told against the logs of all spans, and gives the report to `out`, with a line for each
/// reply where `replies` asks for them. A thread's lines run on the thread at hand where none can
/// be started. `cert` is then the text of the certificate of the last mark that planned, or empty
/// where none did.
///
/// The report is that of the run that happened. What it tells of calls that ran side by side may be
/// another the next time.
///
/// # Errors
///
/// `BadTrace` exactly for a text that is no trace, with its first line at fault and the first cause
/// that holds of it. `AuditFault` where what the calls were told doesn't agree with the logs, with
/// the first part that fails. `Doubled` where a shard or the pool was not as the run had left it,
/// or at the end a seat was missing, a thread had lines left or a ring had a key. `OutOfMemory`
/// where an allocation was refused. After each of these `out` has taken nothing. `SinkFailed` where
/// `out` failed; it has then taken a prefix of the report. After each of them `cert` is as it was.
pub fn replay_threads<R: Threads + Wait + Sync, S: Sink>(
    rt: &R,
    alloc: Global,
    text: &[u8],
    replies: bool,
    out: &mut S,
    cert: &mut Vec<u8>,
) -> Result<(), ThreadsError>
    requires { S.failures out.old < 2 ^ 64 - 1 }
    ensures ok { OnOk result (WritesThreadedReport text.now replies (S.taken out.old)
        (S.taken out.new) cert.new.items) }
    ensures accepted { (header : Header) (lines : List Line) → Spells text.now header lines
        → IfErr result IsNoFault }
    ensures succeeded { OnOk result (S.failures out.new ≡ S.failures out.old) }
    ensures err { IfErr result (StopsThreads text.now replies (S.failures out.old)
        (S.failures out.new) (S.taken out.old) (S.taken out.new)) }
    ensures err_certificate { OnErr result (cert.new ≡ cert.old) }
{
    replay_gated(rt, alloc, NoGate, text, replies, out, cert)
}

/// As [`replay_threads`], with a gate that each thread passes inside of each critical section under
/// one shard's lock. A test can hold threads there, and so see that they run side by side.
pub fn replay_gated<R: Threads + Wait + Sync, G: Gate + Sync, S: Sink>(
    rt: &R,
    alloc: Global,
    gate: G,
    text: &[u8],
    replies: bool,
    out: &mut S,
    cert: &mut Vec<u8>,
) -> Result<(), ThreadsError>
    requires { S.failures out.old < 2 ^ 64 - 1 }
    ensures ok { OnOk result (WritesThreadedReport text.now replies (S.taken out.old)
        (S.taken out.new) cert.new.items) }
    ensures accepted { (header : Header) (lines : List Line) → Spells text.now header lines
        → IfErr result IsNoFault }
    ensures succeeded { OnOk result (S.failures out.new ≡ S.failures out.old) }
    ensures err { IfErr result (StopsThreads text.now replies (S.failures out.old)
        (S.failures out.new) (S.taken out.old) (S.taken out.new)) }
    ensures err_certificate { OnErr result (cert.new ≡ cert.old) }
{
    let trace = parse(alloc, text)?;
    let replayed = replay(rt, alloc, gate, &trace, replies)?;
    match give(out, replayed.report.as_slice()) {
        Ok(()) => {
            *cert = replayed.certificate;
            Ok(())
        }
        Err(_) => Err(ThreadsError::SinkFailed),
    }
}
