// SPDX-License-Identifier: MIT
use clap::{Arg, ArgAction, ArgMatches, Command, value_parser};
use rrc_history::Rules;
use rrc_replay::report::Config;
use rrc_replay::{Audit, usual_limits};
use std::alloc::{AllocError, Global};

/// An option that takes a number from the least to the most.
fn number<'a>(
    alloc: Global,
    name: &'a str,
    help: &'a str,
    usual: &'a str,
    least: i64,
    most: i64,
) -> Arg<'a> {
    Arg::new(alloc, name)
        .long(name)
        .value_name("N")
        .help(help)
        .action(ArgAction::Set)
        .default_value(usual)
        .value_parser(value_parser!(u64).range(least..=most))
}

fn workers<'a>(alloc: Global) -> Arg<'a> {
    let help = "How many threads take the lines of the trace";
    number(alloc, "workers", help, "1", 1, 64)
}

fn parts<'a>(alloc: Global) -> Arg<'a> {
    let help = "How many parts the cache has, each under a lock of its own";
    number(alloc, "parts", help, "1", 1, 64)
}

fn capacity<'a>(alloc: Global) -> Arg<'a> {
    let help = "How many keys a part of the cache may hold";
    number(alloc, "capacity", help, "1024", 1, 65_536)
}

fn chapter<'a>(alloc: Global) -> Arg<'a> {
    let help = "How many events a chapter of a part's history may have";
    number(alloc, "chapter", help, "4096", 1, 1_048_576)
}

fn stale<'a>(alloc: Global) -> Arg<'a> {
    let help = "For how many seconds past its time to live a set may answer";
    number(alloc, "stale", help, "86400", 0, 604_800)
}

fn audit<'a>(alloc: Global) -> Arg<'a> {
    Arg::new(alloc, "audit")
        .long("audit")
        .help("Makes each call again and compares its event, before the report is written")
        .action(ArgAction::SetTrue)
}

fn progress<'a>(alloc: Global) -> Arg<'a> {
    Arg::new(alloc, "progress")
        .long("progress")
        .help("Tells on standard error, once a second at most, at which line the replay is")
        .action(ArgAction::SetTrue)
}

/// The option that asks for an audit of an archive, in the place of a replay.
fn audit_history<'a>(alloc: Global) -> Result<Arg<'a>, AllocError> {
    Arg::new(alloc, "audit-history")
        .long("audit-history")
        .help(
            "Audits the history that the archive on standard input tells, and replays nothing; \
             takes no other option",
        )
        .action(ArgAction::SetTrue)
        .conflicts_with("workers")?
        .conflicts_with("parts")?
        .conflicts_with("capacity")?
        .conflicts_with("chapter")?
        .conflicts_with("stale")?
        .conflicts_with("audit")?
        .conflicts_with("progress")
}

/// The version of the package, as the file VERSION has it, and the kit that proved it.
const VERSION: &str = "2.1.0\nproved with rattle-kit-13f logic dac8208d650f15bf";

fn program<'a>(alloc: Global) -> Command<'a> {
    Command::new(alloc, "rrcache").version(VERSION).about(
        "Replays a trace of cache operations from standard input, and writes its report to standard output",
    )
}

/// The command line of the program.
pub(crate) fn command<'a>(alloc: Global) -> Result<Command<'a>, AllocError> {
    program(alloc)
        .arg(workers(alloc))?
        .arg(parts(alloc))?
        .arg(capacity(alloc))?
        .arg(chapter(alloc))?
        .arg(stale(alloc))?
        .arg(audit(alloc))?
        .arg(progress(alloc))?
        .arg(audit_history(alloc)?)
}

/// Whether the arguments ask for an audit of an archive.
pub(crate) fn wants_history(matches: &ArgMatches<'_>) -> bool {
    matches.get_flag("audit-history")
}

/// What the arguments ask for.
#[derive(Drop)]
pub(crate) struct Asked {
    pub(crate) config: Config,
    pub(crate) audit: Audit,
    /// Whether the progress of the replay is told.
    pub(crate) progress: bool,
}

/// The workers, the parts and the rules that the arguments give, with the usual limits.
fn config_in(matches: &ArgMatches<'_>) -> Option<Config> {
    let workers = matches.get_one::<u64>("workers")?;
    let parts = matches.get_one::<u64>("parts")?;
    let capacity = matches.get_one::<u64>("capacity")?;
    let chapter = matches.get_one::<u64>("chapter")?;
    let stale = matches.get_one::<u64>("stale")?;
    let rules = Rules::new(capacity, chapter, stale)?;
    Config::new(workers as usize, parts as usize, rules, usual_limits())
}

/// Whether the arguments want an audit.
fn audit_in(matches: &ArgMatches<'_>) -> Audit {
    if matches.get_flag("audit") {
        Audit::Made
    } else {
        Audit::Skipped
    }
}

/// What the arguments ask for, where their numbers are within the ranges.
pub(crate) fn asked_in(matches: &ArgMatches<'_>) -> Option<Asked> {
    Some(Asked {
        config: config_in(matches)?,
        audit: audit_in(matches),
        progress: matches.get_flag("progress"),
    })
}
