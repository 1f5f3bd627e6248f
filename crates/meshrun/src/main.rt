//! Replays traces, and checks certificates of plans, for files.
//!
//! `meshrun run [TRACE] [--serial] [--replies] [--certificate FILE]` replays the trace of a file,
//! or of its standard input where none is named or it is `-`, and `meshrun check FILE` checks a
//! certificate. It ends with status 0 where the report was written, the certificate is accepted, or
//! help or the version was asked for; 1 where the text is no trace or no certificate, or the
//! certificate is rejected; 2 where the words name no job, 3 where memory ran out, 4 where receipts
//! and logs of a run by threads don't agree, and 5 where a read or a write failed.
//!
//! What its words mean, and what is said of a fault, stands in `command_line`, and all that it does
//! is done by `trace_runner` and `thread_runner`; here files and words are read, which have no
//! model. The tests stand in `runner_tests`.
#![tactic(auto)]

ghost use Rattle.std.specs.Prelude.{◌≡◌, ◌<◌, ◌≤◌, ◌+◌, ◌-◌, ◌^◌, ℕ, List, IfErr, IfOk, OnOk};
ghost use Rattle.meshrun.specs.Done.{DoesJob, Halts, HaltsBetween, HaltsCheck, HaltsReplay, IsDone, IsHalted, IsNamed, IsOfFile, IsReplayed, WritesRun, status_of_verdict};
ghost use Rattle.command_line.specs.Job.{bytes_of};
ghost use Rattle.command_line.specs.declared.job.Job.TheVariants.{Run};
ghost use Rattle.trace_runner.specs.Verdict.{WritesVerdict};

use command_line::{Disk, Fault, Job, Store, StoreFailed, save, tell};
use mesh_graph::ByThreads;
use std::env::{self, Env};
use std::fs;
use std::io::{self, Input, Read};
use std::process::ExitCode;
use std::rt::Files;
use std::sync::Wait;
use std::thread::Threads;
use thread_runner::replay_threads;
use trace_runner::{Out, Sink, check_text, replay_serial};

/// The words after the program's own name.
fn words_after_name(rt: &(impl Env + AllocGlobal)) -> Result<Vec<String>, Fault>
    ensures { IfErr result IsOfFile }
{
    let mut words = Vec::new(rt.alloc());
    let all = match env::args(rt) {
        Ok(all) => all,
        Err(error) => return Err(Fault::unread(rt.alloc(), "the command line", error)),
    };
    for word in all.skip(1) {
        words.push(word)?;
    }
    Ok(words)
}

/// The bytes of standard input.
fn standard_input(rt: &(impl Input + AllocGlobal)) -> io::Result<Vec<u8>> {
    let mut text = Vec::new(rt.alloc());
    rt.reader().read_to_end(&mut text)?;
    Ok(text)
}

/// A text, and the file that has it: none for standard input.
#[derive(Drop)]
struct Source {
    file: Option<String>,
    text: Vec<u8>,
}

/// The text of the file, or of standard input where no file is named or it is `-`.
fn source_of(rt: &(impl Files + Input + AllocGlobal), path: Option<&str>) -> Result<Source, Fault>
    ensures named { IfOk result (λ source. IsNamed (bytes_of path.entry) source.file) }
    ensures err { IfErr result IsOfFile }
{
    match path {
        None | Some("-") => match standard_input(rt) {
            Ok(text) => Ok(Source { file: None, text }),
            Err(error) => Err(Fault::unread(rt.alloc(), "standard input", error)),
        },
        Some(path) => match fs::read(rt, path) {
            // What may have to be said of the file is kept before anything is written.
            Ok(text) => Ok(Source {
                file: Some(path.to_string(rt.alloc())?),
                text,
            }),
            Err(error) => Err(Fault::unread(rt.alloc(), path, error)),
        },
    }
}

/// Replays the trace, one call after another or by threads, and writes its report to `out`. `cert`
/// is then the text of the certificate of the last mark that planned, or empty where none did.
fn replay<R: Threads + Wait + Sync + AllocGlobal, S: Sink>(
    rt: &R,
    text: &[u8],
    serial: bool,
    replies: bool,
    out: &mut S,
    cert: &mut Vec<u8>,
) -> Result<(), Fault>
    requires { S.failures out.old < 2 ^ 64 - 1 }
    ensures done { OnOk result (WritesRun serial text.now replies (S.taken out.old)
        (S.taken out.new) cert.new.items) }
    ensures succeeded { OnOk result (S.failures out.new ≡ S.failures out.old) }
    ensures failures { S.failures out.new ≤ S.failures out.old + 1 }
    ensures err { IfErr result (HaltsReplay serial text.now replies (S.failures out.old)
        (S.failures out.new) (S.taken out.old) (S.taken out.new)) }
{
    if serial {
        replay_serial(&ByThreads::new(rt), rt.alloc(), text, replies, out, cert)?;
        return Ok(());
    }
    replay_threads(rt, rt.alloc(), text, replies, out, cert)?;
    Ok(())
}

/// Replays the trace of the file, or of standard input, writes its report to `out`, and then the
/// certificate of the last mark that planned, if there was one, to the file that is named for it.
fn run_trace<R: Threads + Wait + Sync + Files + Input + AllocGlobal, S: Sink, D: Store>(
    rt: &R,
    path: Option<&str>,
    serial: bool,
    replies: bool,
    certificate: Option<&str>,
    out: &mut S,
    store: &mut D,
) -> Result<(), Fault>
    // Failures can still be counted.
    requires sink_room { S.failures out.old < 2 ^ 64 - 1 }
    requires store_room { D.failures store.old < 2 ^ 64 - 1 }

    // What was done, and whether it failed anywhere.
    ensures done { OnOk result (IsReplayed D.held serial replies (bytes_of certificate.entry)
        (S.taken out.old) (S.taken out.new) store.old store.new) }
    ensures succeeded { OnOk result (S.failures out.new ≡ S.failures out.old) }
    ensures failures { S.failures out.new ≤ S.failures out.old + 1 }

    // What became of the files.
    ensures stored { OnOk result (D.failures store.new ≡ D.failures store.old) }
    ensures store_failures { D.failures store.new ≤ D.failures store.old + 1 }
    ensures err { IfErr result (HaltsBetween S.failures S.taken D.held D.failures
        (Run path.entry serial replies certificate.entry) out.old out.new store.old store.new) }
{
    let source = source_of(rt, path)?;
    // What may have to be said of the file for the certificate is kept before anything is written.
    let file = certificate.unwrap_or("").to_string(rt.alloc())?;
    let mut bytes = Vec::new(rt.alloc());
    if let Err(fault) = replay(rt, &source.text, serial, replies, out, &mut bytes) {
        return Err(fault.in_file(source.file, &source.text));
    }
    match save(store, certificate, &bytes) {
        Ok(()) => Ok(()),
        Err(StoreFailed(error)) => Err(Fault::Io { file, error }),
    }
}

/// Checks the certificate of the file, or of standard input where it is `-`, writes the verdict to
/// `out`, and answers whether it is accepted.
fn check_file<R: Files + Input + AllocGlobal, S: Sink>(
    rt: &R,
    path: &str,
    out: &mut S,
) -> Result<bool, Fault>
    requires { S.failures out.old < 2 ^ 64 - 1 }
    ensures done { IfOk result (λ accepted. (text : List ℕ)
        × WritesVerdict text (S.taken out.old) (S.taken out.new) accepted) }
    ensures succeeded { OnOk result (S.failures out.new ≡ S.failures out.old) }
    ensures failures { S.failures out.new ≤ S.failures out.old + 1 }
    ensures err { IfErr result (HaltsCheck (Some path.now) (S.failures out.old)
        (S.failures out.new) (S.taken out.old) (S.taken out.new)) }
{
    let source = source_of(rt, Some(path))?;
    match check_text(rt.alloc(), &source.text, out) {
        Ok(accepted) => Ok(accepted),
        Err(error) => Err(Fault::from(error).in_file(source.file, &source.text)),
    }
}

/// The status with which the program ends after a check.
fn verdict_status(accepted: bool) -> u8
    ensures { result ≡ status_of_verdict accepted }
{
    if accepted { 0 } else { 1 }
}

/// Does the job: writes to `out`, and to `store` where a file is named for the certificate, and
/// answers the status with which the program ends: 1 where a certificate is rejected, and else 0.
fn do_job<R: Threads + Wait + Sync + Files + Input + AllocGlobal, S: Sink, D: Store>(
    rt: &R,
    job: Job<'_>,
    out: &mut S,
    store: &mut D,
) -> Result<u8, Fault>
    // Failures can still be counted.
    requires sink_room { S.failures out.old < 2 ^ 64 - 1 }
    requires store_room { D.failures store.old < 2 ^ 64 - 1 }

    // What was done, and whether it failed anywhere.
    ensures done { IfOk result (DoesJob D.held job.entry (S.taken out.old)
        (S.taken out.new) store.old store.new) }
    ensures succeeded { OnOk result (S.failures out.new ≡ S.failures out.old) }
    ensures failures { S.failures out.new ≤ S.failures out.old + 1 }

    // What became of the files.
    ensures stored { OnOk result (D.failures store.new ≡ D.failures store.old) }
    ensures store_failures { D.failures store.new ≤ D.failures store.old + 1 }
    ensures err { IfErr result (Halts D.held D.failures job.entry (S.failures out.old)
        (S.failures out.new) (S.taken out.old) (S.taken out.new) store.old store.new) }
{
    match job {
        Job::Run {
            trace,
            serial,
            replies,
            certificate,
        } => {
            run_trace(rt, trace, serial, replies, certificate, out, store)?;
            Ok(0)
        }
        Job::Check { file } => {
            let accepted = check_file(rt, file, out)?;
            Ok(verdict_status(accepted))
        }
    }
}

/// Does the job that the program's words name.
fn do_named_job<R: Threads + Wait + Sync + Env + Files + Input + AllocGlobal, S: Sink, D: Store>(
    rt: &R,
    out: &mut S,
    store: &mut D,
) -> Result<u8, Fault>
    // Failures can still be counted.
    requires sink_room { S.failures out.old < 2 ^ 64 - 1 }
    requires store_room { D.failures store.old < 2 ^ 64 - 1 }

    // What was done, and whether it failed anywhere.
    ensures done { IfOk result (IsDone D.held (S.taken out.old)
        (S.taken out.new) store.old store.new) }
    ensures succeeded { OnOk result (S.failures out.new ≡ S.failures out.old) }
    ensures failures { S.failures out.new ≤ S.failures out.old + 1 }

    // What became of the files.
    ensures stored { OnOk result (D.failures store.new ≡ D.failures store.old) }
    ensures store_failures { D.failures store.new ≤ D.failures store.old + 1 }
    ensures err { IfErr result (IsHalted D.held D.failures (S.failures out.old) (S.failures out.new)
        (S.taken out.old) (S.taken out.new) store.old store.new) }
{
    let words = words_after_name(rt)?;
    let mut texts = Vec::new(rt.alloc());
    for word in &words {
        texts.push(word.as_str())?;
    }
    let job = Job::from_words(rt.alloc(), &texts)?;
    do_job(rt, job, out, store)
}

fn main(rt: HostRuntime) -> ExitCode {
    let mut out = Out::new(rt.stdout());
    let mut err = Out::new(rt.stderr());
    let status = match do_named_job(&rt, &mut out, &mut Disk::new(&rt)) {
        Ok(status) => status,
        Err(fault) => match tell(rt.alloc(), &fault, &mut out, &mut err) {
            Ok(status) => status,
            Err(error) => error.status(),
        },
    };
    ExitCode::from(status)
}
