// SPDX-License-Identifier: MIT
// That what workers did has a report, each row and each run of several workers shows.

mod claims;
mod made;

use claims::{CLAIMS, Claim, ONE_PUT, Said};
use made::shelves;
use rrc_collate::each_line_stands;
use rrc_history::{Outcome, Reply, Rules};
use rrc_name::Sequence;
use rrc_report::{Answered, Config, Done, collate, one_completion, one_report_by_one_worker};
use rrc_script::one_script;
use rrc_sets::Limits;
use rrc_trace::{Answer, ReplayFault, Told, read_trace};
use std::alloc::Global;
use std::process::Abort;

/// The rules of parts of so many keys.
fn rules(rt: &impl Abort, keys: u64) -> Rules {
    Rules::new(keys, 64, 86_400).expect(rt, "rules")
}

/// The config of so many workers, and of so many parts of four keys.
fn config(rt: &impl Abort, workers: usize, parts: usize) -> Config {
    let limits = Limits::new(604_800, 10_800, 30).expect(rt, "limits");
    Config::new(workers, parts, rules(rt, 4), limits).expect(rt, "a config")
}

/// What became of the three offers of a fetch, and the reply behind them.
fn fetched(rt: &impl Abort, alloc: Global) -> Answer {
    let mut told = Sequence::new(alloc);
    for _ in 0..3 {
        let kept = Told {
            outcome: Outcome::Kept,
            evicted: None,
        };
        told.push(kept).expect(rt, "an outcome");
    }
    let reply = Reply::Miss { retry_from: None };
    Answer::Fetched { told, reply }
}

fn answer(rt: &impl Abort, alloc: Global, said: Said) -> Answer {
    match said {
        Said::Put(outcome) => Answer::Put(Told {
            outcome,
            evicted: None,
        }),
        Said::Swept(count) => {
            let counts = Vec::from_slice(alloc, &[count]).expect(rt, "a count");
            Answer::Swept(Sequence::from_vec(counts))
        }
        Said::Closed => Answer::Closed,
        Said::Joined => Answer::Joined,
        Said::Fetched => fetched(rt, alloc),
    }
}

/// What a worker did, which says this of a line.
fn done(rt: &impl Abort, alloc: Global, line: usize, said: Said) -> Done {
    let answer = answer(rt, alloc, said);
    let mut answers = Sequence::new(alloc);
    answers
        .push(Answered { line, answer })
        .expect(rt, "an answer");
    Done { answers }
}

/// What workers did, each of which says this of the line of its number.
fn workers(rt: &impl Abort, alloc: Global, said: &[Said]) -> Vec<Done> {
    let mut workers = Vec::new(alloc);
    for (line, one) in said.iter().enumerate() {
        workers
            .push(done(rt, alloc, line, *one))
            .expect(rt, "a worker");
    }
    workers
}

/// The fault of a claim, where parts were made for so many keys.
fn fault(rt: &impl Abort, alloc: Global, claim: &Claim, keys: u64) -> Option<ReplayFault> {
    let (_what, text, parts, made, said, _wanted) = claim;
    let trace = read_trace(alloc, &mut text.as_bytes()).expect(rt, text);
    let config = config(rt, said.len(), *parts);
    let shelves = shelves(rt, alloc, rules(rt, keys), *parts, made);
    let workers = workers(rt, alloc, said);
    collate(alloc, &trace, &config, shelves, workers).err()
}

/// Asserts that this is the fault of a claim, where parts were made for so many keys.
fn has_fault(
    rt: &impl Abort,
    alloc: Global,
    claim: &Claim,
    keys: u64,
    wanted: Option<ReplayFault>,
) {
    let found = fault(rt, alloc, claim, keys);
    assert!(rt; found == wanted, "{}: {found:?}", claim.0);
}

#[test]
fn claims_have_a_report_or_stray(rt: HostRuntime) {
    for claim in &CLAIMS {
        has_fault(&rt, rt.alloc(), claim, 4, claim.5);
    }
}

#[test]
fn parts_of_another_capacity_stray(rt: HostRuntime) {
    has_fault(&rt, rt.alloc(), &ONE_PUT, 5, Some(ReplayFault::Strayed));
}

#[test]
fn laws_are_called(_rt: HostRuntime) {
    each_line_stands();
    one_script();
    one_completion();
    one_report_by_one_worker();
}
