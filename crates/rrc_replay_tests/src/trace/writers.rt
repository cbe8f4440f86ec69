// SPDX-License-Identifier: MIT
use super::fakes::Sparing;
use rrc_fakes::{Stumble, Stumbling};
use rrc_trace::{Answer, ReplayFault, write_report};
use std::alloc::Global;
use std::process::Abort;

/// The answers of so many checkpoints. The report of one has 13 octets, that of 1,000 has 14,890.
fn closed(rt: &impl Abort, alloc: Global, count: usize) -> Vec<Answer> {
    let mut answers = Vec::new(alloc);
    for _ in 0..count {
        answers.push(Answer::Closed).expect(rt, "an answer");
    }
    answers
}

/// Whether the report of 1,000 answers goes out whole to a writer that takes so many octets at
/// once, and no write is asked to take more than the buffer has room for.
fn goes_out(rt: &impl Abort, alloc: Global, most: usize) -> bool {
    let answers = closed(rt, alloc, 1_000);
    let mut writer = Sparing {
        most,
        taken: 0,
        asked: 0,
    };
    let ended = write_report(alloc, &mut writer, answers.as_slice());
    ended.is_ok() && writer.taken == 14_890 && writer.asked <= 4_096
}

#[test]
fn long_reports_go_out_in_parts(rt: HostRuntime) {
    for most in &[7, 1_000_000] {
        assert!(rt; goes_out(&rt, rt.alloc(), *most), "by {most}");
    }
}

/// Whether a report ends at the call, behind so many, at which its writer stumbles, and is told to
/// have failed.
fn breaks_off(alloc: Global, answers: &[Answer], stumble: Stumble, calls: usize) -> bool {
    let mut writer = Stumbling {
        taken: Vec::new(alloc),
        calls: Some(calls),
        stumble,
    };
    let ended = write_report(alloc, &mut writer, answers);
    ended == Err(ReplayFault::Write) && writer.taken.len() == calls
}

/// Whether the report of so many answers does so, however the writer stumbles.
fn always_breaks_off(rt: &impl Abort, alloc: Global, count: usize, calls: usize) -> bool {
    let answers = closed(rt, alloc, count);
    breaks_off(alloc, answers.as_slice(), Stumble::Fails, calls)
        && breaks_off(alloc, answers.as_slice(), Stumble::TakesNothing, calls)
}

/// How many answers there are, and the least and the most calls that go well. The last call
/// flushes, and the only one where there is nothing to write.
static STUMBLES: [(usize, usize, usize); 5] = [
    (0, 0, 0),
    (1, 0, 13),
    (1_000, 4_090, 4_100),
    (1_000, 8_192, 8_192),
    (1_000, 14_890, 14_890),
];

#[test]
fn writers_that_stumble_once(rt: HostRuntime) {
    for (count, least, most) in &STUMBLES {
        for calls in *least..=*most {
            assert!(rt;
                always_breaks_off(&rt, rt.alloc(), *count, calls),
                "{count} at {calls}"
            );
        }
    }
}
