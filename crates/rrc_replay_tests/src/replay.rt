// SPDX-License-Identifier: MIT
mod archives;
mod gates;

use gates::{Crowd, Pair};
use rrc_fakes::{FailsOnce, Stumble, Stumbling};
use rrc_history::Rules;
use rrc_replay::report::Config;
use rrc_replay::trace::ReplayFault;
use rrc_replay::{Audit, Gate, OpenGate, run, usual_limits};
use std::alloc::Global;
use std::process::Abort;
use std::sync::Wait;
use std::thread::Threads;

/// Three sets, a sweep that removes none and one that removes all; and the report.
const SWEEPS: &str =
    "put 10 Z.a.example. 1 4 1 c0000201\nput 10 example. 1 4 1 c0000202\nput 10 a.example. 1 4 1 c0000203\nsweep 86410\nsweep 86411\n";

const SWEEPS_REPORT: &str = "0 put kept\n1 put kept\n2 put kept\n3 sweep 0\n4 sweep 3\n";

/// Two fetches of one question, each of which would get one address (RFC 1035 section 4.1).
const FETCHES: &str =
    "fetch 100 a.example. 1 example. 1234840000010001000000000161076578616d706c650000010001c00c000100010000003c0004c0000201\nfetch 100 a.example. 1 example. 1234840000010001000000000161076578616d706c650000010001c00c000100010000003c0004c0000201\n";

const FETCHES_BY_TWO: &str =
    "0 fetch fetched 1 kept fresh 60 a.example. c0000201\n1 fetch joined\n";

/// Two questions that nothing answers.
const TWO_ASKS: &str = "ask 1 a.example. 1 answer none\nask 1 a.example. 1 answer none\n";

const TWO_MISSES: &str = "0 ask miss\n1 ask miss\n";

/// Four of them.
const FOUR_ASKS: &str =
    "ask 1 a.example. 1 answer none\nask 1 a.example. 1 answer none\nask 1 a.example. 1 answer none\nask 1 a.example. 1 answer none\n";

const FOUR_MISSES: &str = "0 ask miss\n1 ask miss\n2 ask miss\n3 ask miss\n";

/// So many workers over so many parts, by the usual rules.
fn by(rt: &impl Abort, workers: usize, parts: usize) -> Config {
    let rules = Rules::new(1024, 4096, 86_400).expect(rt, "no rules");
    Config::new(workers, parts, rules, usual_limits()).expect(rt, "no config")
}

/// Whether a trace has this report, by workers that meet a gate.
fn is_reported<T: Threads + Wait + Sync, G: Gate + Sync>(
    threads: &T,
    alloc: Global,
    trace: &str,
    config: &Config,
    gate: &G,
    wanted: &str,
) -> bool {
    let mut written = Vec::new(alloc);
    let ended = run(
        threads,
        alloc,
        &mut trace.as_bytes(),
        &mut written,
        config,
        [0; 16],
        Audit::Made,
        gate,
    );
    ended == Ok(()) && written.as_slice() == wanted.as_bytes()
}

/// Whether the second of two fetches joins the first, where it comes in its midst.
fn is_joined<T: Threads + Wait + Sync>(threads: &T, alloc: Global, config: &Config) -> bool {
    let gate = Pair::new();
    is_reported(threads, alloc, FETCHES, config, &gate, FETCHES_BY_TWO) && !gate.ran_out()
}

#[test]
fn a_fetch_joins_another_one(rt: HostRuntime) {
    for parts in [1, 4] {
        let two = by(&rt, 2, parts);
        assert!(rt; is_joined(&rt, rt.alloc(), &two), "over {parts}");
    }
}

/// As many workers as lines, the parts, a trace and its report.
static AT_ONCE: [(usize, usize, &str, &str); 4] = [
    (2, 1, TWO_ASKS, TWO_MISSES),
    (4, 1, FOUR_ASKS, FOUR_MISSES),
    (2, 4, TWO_ASKS, TWO_MISSES),
    (4, 4, FOUR_ASKS, FOUR_MISSES),
];

/// Whether all workers are within a line at once.
fn are_at_once<T: Threads + Wait + Sync>(
    threads: &T,
    alloc: Global,
    config: &Config,
    trace: &str,
    wanted: &str,
) -> bool {
    let gate = Crowd::new(config.workers as u64);
    is_reported(threads, alloc, trace, config, &gate, wanted) && !gate.ran_out()
}

#[test]
fn as_many_lines_at_once_as_workers(rt: HostRuntime) {
    for (workers, parts, trace, wanted) in &AT_ONCE {
        let config = by(&rt, *workers, *parts);
        let are_at_once = are_at_once(&rt, rt.alloc(), &config, trace, wanted);
        assert!(rt; are_at_once, "by {workers} over {parts}");
    }
}

/// Whether a run that reads from a reader which fails behind so many reads writes nothing.
fn is_unread<T: Threads + Wait + Sync>(
    threads: &T,
    alloc: Global,
    config: &Config,
    reads: usize,
) -> bool {
    let mut reader = FailsOnce {
        octets: SWEEPS.as_bytes(),
        most: 1,
        reads: Some(reads),
    };
    let mut written = Vec::new(alloc);
    let ended = run(
        threads,
        alloc,
        &mut reader,
        &mut written,
        config,
        [7; 16],
        Audit::Skipped,
        &OpenGate,
    );
    ended == Err(ReplayFault::Read) && written.is_empty()
}

#[test]
fn readers_that_fail_once(rt: HostRuntime) {
    let alone = by(&rt, 1, 1);
    for reads in 0..=SWEEPS.len() {
        assert!(rt; is_unread(&rt, rt.alloc(), &alone, reads), "at {reads}");
    }
}

/// Whether a run whose writer stumbles writes so much of its report, an octet by each call, and no
/// more.
fn is_cut<T: Threads + Wait + Sync>(
    threads: &T,
    alloc: Global,
    config: &Config,
    trace: &str,
    stumble: Stumble,
    wanted: &[u8],
) -> bool {
    let mut writer = Stumbling {
        taken: Vec::new(alloc),
        calls: Some(wanted.len()),
        stumble,
    };
    let ended = run(
        threads,
        alloc,
        &mut trace.as_bytes(),
        &mut writer,
        config,
        [7; 16],
        Audit::Skipped,
        &OpenGate,
    );
    ended == Err(ReplayFault::Write) && writer.taken.as_slice() == wanted
}

/// Asserts that of the writers of a report each that stumbles once has the octets before that. The
/// last call flushes; of an empty report it is the only one.
fn are_cut<T: Abort + Threads + Wait + Sync>(rt: &T, alloc: Global, trace: &str, report: &str) {
    let alone = by(rt, 1, 1);
    for calls in 0..=report.len() {
        let wanted = &report.as_bytes()[..calls];
        for stumble in [Stumble::Fails, Stumble::TakesNothing] {
            let is_cut = is_cut(rt, alloc, &alone, trace, stumble, wanted);
            assert!(rt; is_cut, "at {calls}");
        }
    }
}

#[test]
fn writers_that_stumble_once(rt: HostRuntime) {
    are_cut(&rt, rt.alloc(), SWEEPS, SWEEPS_REPORT);
    are_cut(&rt, rt.alloc(), "", "");
}
