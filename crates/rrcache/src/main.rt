// SPDX-License-Identifier: MIT
//! Replays a trace of cache operations from standard input by many workers, and writes its report
//! to standard output; or audits the history that an archive on standard input tells.
#![tactic(auto)]

mod history;
mod options;
mod progress;

use crate::history::audited;
use crate::options::Asked;
use crate::progress::Progress;
use clap::ArgMatches;
use clap::error::ErrorKind;
use rrc_replay::trace::ReplayFault;
use rrc_replay::{Gate, OpenGate};
use std::process::ExitCode;
use std::random::RandomSource;
use std::sync::Wait;
use std::thread::Threads;
use std::{env, io};

/// How the program ends: the status of a fault, which is told, or of the arguments, which are.
pub(crate) const FAULT: u8 = 1;

const WRONG_ARGUMENTS: u8 = 2;

fn told(rt: &impl Eprint, fault: ReplayFault) -> ExitCode {
    let _ = eprintln!(rt; "rrcache: {fault}");
    ExitCode::from(FAULT)
}

fn words(rt: &HostRuntime) -> io::Result<Vec<String>> {
    Ok(env::args(rt)?.collect(rt.alloc())?)
}

/// How the program ends where an argument is no text.
fn no_text(rt: &impl Eprint) -> ExitCode {
    let _ = eprintln!(rt; "error: an argument is not UTF-8 text");
    ExitCode::from(WRONG_ARGUMENTS)
}

/// A seed that nobody can foresee, so that names picked by whoever made the trace or the archive
/// don't make its reading slow. Where the system gives none, its callers tell a failed read.
pub(crate) fn random_seed(rt: &HostRuntime) -> io::Result<[u8; 16]> {
    let mut seed = [0; 16];
    rt.fill_bytes(&mut seed)?;
    Ok(seed)
}

/// What is done with standard input.
#[derive(Drop)]
enum Work {
    Replay(Asked),
    /// An audit of the archive that it is.
    AuditHistory,
}

/// What the arguments ask for.
enum Wanted {
    Work(Work),
    /// Nothing more is done: the help was told, or what is wrong with them.
    End(ExitCode),
}

/// What arguments that fit the command line ask for.
fn wanted_by(matches: &ArgMatches<'_>) -> Wanted {
    if options::wants_history(matches) {
        return Wanted::Work(Work::AuditHistory);
    }
    match options::asked_in(matches) {
        Some(asked) => Wanted::Work(Work::Replay(asked)),
        None => Wanted::End(ExitCode::from(WRONG_ARGUMENTS)),
    }
}

/// Tells the help, or what is wrong with the arguments, unless it is that memory was refused.
fn told_of_arguments(rt: &HostRuntime, error: &clap::Error) -> Result<Wanted, ReplayFault> {
    if error.kind() == ErrorKind::OutOfMemory {
        return Err(ReplayFault::Memory);
    }
    let _ = error.print(rt);
    Ok(Wanted::End(ExitCode::from(if error.use_stderr() {
        WRONG_ARGUMENTS
    } else {
        0
    })))
}

fn read_arguments(rt: &HostRuntime, words: &[String]) -> Result<Wanted, ReplayFault> {
    match options::command(rt.alloc())?.try_get_matches_from(words) {
        Ok(matches) => Ok(wanted_by(&matches)),
        Err(error) => told_of_arguments(rt, &error),
    }
}

/// Replays the trace on standard input, with threads from a handle that may start them.
fn replayed<T: Threads + Wait + Sync, G: Gate + Sync>(
    rt: &HostRuntime,
    threads: &T,
    asked: &Asked,
    seed: [u8; 16],
    gate: &G,
) -> Result<(), ReplayFault> {
    let mut reader = rt.reader();
    let mut writer = io::writer(rt);
    rrc_replay::run(
        threads,
        rt.alloc(),
        &mut reader,
        &mut writer,
        &asked.config,
        seed,
        asked.audit,
        gate,
    )
}

/// Replays the trace on standard input, and tells its progress where that is wanted.
fn replayed_as<T: Threads + Wait + Sync>(
    rt: &HostRuntime,
    threads: &T,
    asked: &Asked,
) -> Result<ExitCode, ReplayFault> {
    let seed = random_seed(rt).map_err(|_| ReplayFault::Read)?;
    match Progress::new(rt) {
        Ok(progress) if asked.progress => replayed(rt, threads, asked, seed, &progress)?,
        _ => replayed(rt, threads, asked, seed, &OpenGate)?,
    }
    Ok(ExitCode::SUCCESS)
}

/// Does what the arguments ask for.
fn ended<T: Threads + Wait + Sync>(
    rt: &HostRuntime,
    threads: &T,
    words: &[String],
) -> Result<ExitCode, ReplayFault> {
    match read_arguments(rt, words)? {
        Wanted::Work(Work::Replay(asked)) => replayed_as(rt, threads, &asked),
        Wanted::Work(Work::AuditHistory) => Ok(audited(rt)),
        Wanted::End(code) => Ok(code),
    }
}

fn main(rt: HostRuntime) -> ExitCode {
    let words = match words(&rt) {
        Ok(words) => words,
        Err(error) if error.kind() == io::ErrorKind::OutOfMemory => {
            return told(&rt, ReplayFault::Memory);
        }
        Err(_) => return no_text(&rt),
    };
    match ended(&rt, &rt, words.as_slice()) {
        Ok(code) => code,
        Err(fault) => told(&rt, fault),
    }
}
