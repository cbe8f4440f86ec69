// SPDX-License-Identifier: MIT
use rrc_trace::ReplayFault;
use std::alloc::Global;
use std::process::Abort;

/// Faults, each with its number and its text.
static FAULTS: [(ReplayFault, u8, &str); 9] = [
    (
        ReplayFault::BadLine(3),
        1,
        "line 3 is not a line of a trace",
    ),
    (
        ReplayFault::TooManyLines,
        2,
        "the trace has more than 1000000 lines",
    ),
    (ReplayFault::Read, 3, "the trace could not be read"),
    (ReplayFault::Write, 4, "the report could not be written"),
    (
        ReplayFault::Strayed,
        5,
        "the workers strayed from the trace",
    ),
    (ReplayFault::Memory, 6, "memory or a thread was refused"),
    (
        ReplayFault::Spent(3),
        7,
        "line 3 met a part whose numbers are spent",
    ),
    (
        ReplayFault::TooManyQuestions(3),
        8,
        "line 3 asks one question too many",
    ),
    (
        ReplayFault::NotLegal,
        9,
        "the history of the replay is not legal",
    ),
];

fn is_text(rt: &impl Abort, alloc: Global, fault: ReplayFault, wanted: &str) -> bool {
    let text = fault.to_string(alloc).expect(rt, wanted);
    text.as_str() == wanted
}

#[test]
fn numbers_and_texts_of_faults(rt: HostRuntime) {
    for (fault, number, text) in &FAULTS {
        assert!(rt; fault.number() == *number, "{text}");
        assert!(rt; is_text(&rt, rt.alloc(), *fault, text), "{text}");
    }
}
