//! What the program is asked to do.

ghost use Rattle.std.specs.Prelude.{◌≡◌, IfOk, IfErr, OnOk, [], codes};
ghost use Rattle.clap.specs.Walk.{texts};
ghost use Rattle.clap.specs.Words.{found_of, new_app, rows_of, subcommand_rows_of};
ghost use Rattle.command_line.specs.declared.job.JobError.TheVariants as job_error;
ghost use Rattle.command_line.specs.Job.{IsApp, IsArg, IsFaultIn, IsJob, IsJobOf, IsRunJob, NamesJob, bare_program, check_app, fault_from, flag, kinds_of, positional, program_app, run_app, valued};

use clap::error::ErrorKind;
use clap::{Arg, ArgAction, ArgMatches, Command};
use std::alloc::{AllocError, Global};
use thiserror::Error;

mod help;

use help::{CHECK_HELP, PROGRAM_HELP, RUN_HELP, VERSION};

/// What the program is asked to do.
#[derive(Clone, Copy)]
pub enum Job<'a> {
    /// `run [TRACE] [--serial] [--replies] [--certificate FILE]`: replay a trace and write its
    /// report.
    Run {
        /// The file of the trace. Where there is none, or it is `-`, the trace is read from
        /// standard input.
        trace: Option<&'a str>,
        /// The calls are carried out one after another, in the order of their lines.
        serial: bool,
        /// The report has a line for what each call answered.
        replies: bool,
        /// The file that the certificate of the last mark is written to.
        certificate: Option<&'a str>,
    },
    /// `check FILE`: check a certificate and write the verdict.
    Check {
        /// The file of the certificate, or `-` for standard input.
        file: &'a str,
    },
}

/// Why the words name no job.
#[derive(Debug, Drop, Error)]
pub enum JobError {
    /// Memory ran out.
    #[error("memory ran out")]
    OutOfMemory,
    /// The words are not those of a job, or they ask for help or for the version. The text says
    /// which, and how the program is called.
    #[error(transparent)]
    Words(clap::Error),
}

impl From<AllocError> for JobError {
    ghost from_gives = { λ _ error. error ≡ job_error.OutOfMemory };

    fn from(_error: AllocError) -> JobError {
        JobError::OutOfMemory
    }
}

impl From<clap::Error> for JobError {
    ghost from_gives = { λ error fault. fault ≡ fault_from error };

    fn from(error: clap::Error) -> JobError {
        match error.kind() {
            ErrorKind::OutOfMemory => JobError::OutOfMemory,
            _ => JobError::Words(error),
        }
    }
}

/// A flag of a command.
fn flag<'a>(alloc: Global, name: &'a str, help: &'a str) -> Arg<'a>
    ensures { IsArg (flag name.entry.now) result }
{
    Arg::new(alloc, name)
        .long(name)
        .action(ArgAction::SetTrue)
        .help(help)
}

/// A command without arguments, with what help says above the list of its words and below it.
fn bare_command<'a>(
    alloc: Global,
    name: &'a str,
    about: &'a str,
    after_help: &'a str,
) -> Command<'a>
    ensures { IsApp (new_app name.entry.now) result }
{
    Command::new(alloc, name)
        .about(about)
        .after_help(after_help)
}

fn trace_arg<'a>(alloc: Global) -> Arg<'a>
    ensures { IsArg (positional (codes "TRACE")) result }
{
    Arg::new(alloc, "TRACE").help(
        "The file of the trace; left out or -, the trace is read from standard input",
    )
}

fn certificate_arg<'a>(alloc: Global) -> Arg<'a>
    ensures { IsArg (valued (codes "certificate")) result }
{
    Arg::new(alloc, "certificate")
        .long("certificate")
        .value_name("FILE")
        .help("Write the certificate of the last mark that planned to this file, after the report")
}

fn run_command<'a>(alloc: Global) -> Result<Command<'a>, AllocError>
    ensures { IfOk result (IsApp run_app) }
{
    let serial = flag(
        alloc,
        "serial",
        "Carry out the calls one after another, in the order of their lines",
    );
    let replies = flag(
        alloc,
        "replies",
        "Report also what each call answered, after the number of its line",
    );
    let about = "Replays a trace and writes its report to standard output";
    let run = bare_command(alloc, "run", about, RUN_HELP)
        .arg(trace_arg(alloc))?
        .arg(serial)?
        .arg(replies)?
        .arg(certificate_arg(alloc))?;
    Ok(run)
}

fn check_command<'a>(alloc: Global) -> Result<Command<'a>, AllocError>
    ensures { IfOk result (IsApp check_app) }
{
    let file = Arg::new(alloc, "FILE")
        .required(true)
        .help("The file of the certificate, or - for standard input");
    let about = "Checks a certificate, and writes accepted, with its counts, or rejected";
    let check = bare_command(alloc, "check", about, CHECK_HELP).arg(file)?;
    Ok(check)
}

/// The program without its commands.
fn bare_program<'a>(alloc: Global) -> Result<Command<'a>, AllocError>
    ensures { IfOk result (IsApp bare_program) }
{
    let about = "Replays traces, texts with one call on a line, and checks certificates";
    let program = bare_command(alloc, "meshrun", about, PROGRAM_HELP)
        .bin_name("meshrun")?
        .no_binary_name(true)
        .version(VERSION)
        .subcommand_required(true);
    Ok(program)
}

fn program_command<'a>(alloc: Global) -> Result<Command<'a>, AllocError>
    ensures { IfOk result (IsApp program_app) }
{
    let bare = bare_program(alloc)?;
    let run = run_command(alloc)?;
    let check = check_command(alloc)?;
    let program = bare.subcommand(run)?.subcommand(check)?;
    Ok(program)
}

/// The job that the words after `run` name.
fn run_job<'a>(run: &ArgMatches<'a>) -> Job<'a>
    ensures { IsRunJob (rows_of (found_of run.now)) result }
{
    Job::Run {
        trace: run.get_str("TRACE"),
        serial: run.get_flag("serial"),
        replies: run.get_flag("replies"),
        certificate: run.get_str("certificate"),
    }
}

/// The job that the words name, of which these are the matches.
fn job_of<'a>(matches: &ArgMatches<'a>) -> Job<'a>
    requires { NamesJob (subcommand_rows_of matches.now) }
    ensures { IsJob (subcommand_rows_of matches.now) result }
{
    if let Some(run) = matches.subcommand_matches("run") {
        return run_job(run);
    }
    // A command is required, and there is no third; and so is its file.
    let check = matches.subcommand_matches("check").unwrap();
    let file = check.get_str("FILE").unwrap();
    Job::Check { file }
}

impl<'a> Job<'a> {
    /// Reads the words after the program's own name.
    ///
    /// `Words` comes where they are neither
    /// `run [TRACE] [--serial] [--replies] [--certificate FILE]` nor `check FILE`, or where they
    /// ask for help by `--help`, `-h` or `help`, or for the version by `--version` or `-V`; and
    /// `OutOfMemory` where memory ran out.
    pub fn from_words(alloc: Global, words: &'a [&'a str]) -> Result<Job<'a>, JobError>
        ensures named { IfOk result (IsJobOf (texts words.entry.now)) }
        ensures accepted { OnOk result (kinds_of (texts words.entry.now) ≡ []) }
        ensures refused { IfErr result (IsFaultIn (texts words.entry.now)) }
    {
        let program = program_command(alloc)?;
        let matches = program.try_get_matches_from(words)?;
        Ok(job_of(&matches))
    }
}
