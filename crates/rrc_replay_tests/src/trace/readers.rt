// SPDX-License-Identifier: MIT
use rrc_fakes::FailsOnce;
use rrc_trace::{ReplayFault, read_trace};
use std::alloc::Global;
use std::process::Abort;

/// Octets, and how many of them a read gives at most; how many reads come before one that fails, if
/// one does; and the fault.
type Reading = (&'static [u8], usize, Option<usize>, Option<ReplayFault>);

const LINES: &[u8] = b"sweep 10\r\nask 11 a 1 any none";

const BAD_LINES: &[u8] = b"ask\nask 1";

static READINGS: [Reading; 2] = [
    // A bad line that was read whole comes before a later fault of reading.
    (BAD_LINES, 3, Some(1), Some(ReplayFault::Read)),
    (BAD_LINES, 4, Some(1), Some(ReplayFault::BadLine(0))),
];

/// The fault of octets, and how many octets the reader did not give.
fn read(
    alloc: Global,
    octets: &[u8],
    most: usize,
    reads: Option<usize>,
) -> (Option<ReplayFault>, usize) {
    let mut reader = FailsOnce {
        octets,
        most,
        reads,
    };
    let ended = read_trace(alloc, &mut reader);
    (ended.err(), reader.octets.len())
}

#[test]
fn bad_lines_before_a_fault_of_reading(rt: HostRuntime) {
    for (octets, most, reads, fault) in &READINGS {
        let (found, _left) = read(rt.alloc(), octets, *most, *reads);
        assert!(rt; found == *fault, "by {most}: {found:?}");
    }
}

/// Nothing is read behind a read that failed.
#[test]
fn readers_that_fail_once(rt: HostRuntime) {
    for reads in 0..=LINES.len() {
        let wanted = (Some(ReplayFault::Read), LINES.len() - reads);
        let found = read(rt.alloc(), LINES, 1, Some(reads));
        assert!(rt; found == wanted, "at {reads}: {found:?}");
    }
}

/// A line of each kind.
const EACH_KIND: &str =
    "put 100 A.example. 1 4 60 c0000201,c0000202\r\nask 101 a.Example. 28 answer failed\nfail 102 b. 16\nresponse 103 c. 00ff\nfetch 104 D.example. 15 example. 00fe\n fetch 105 e. 1 . -\nsweep 106\ncheckpoint";

/// All lines and fields of a trace that a reader gives so many octets at once.
fn shown(rt: &impl Abort, alloc: Global, most: usize) -> String {
    let mut reader = FailsOnce {
        octets: EACH_KIND.as_bytes(),
        most,
        reads: None,
    };
    let trace = read_trace(alloc, &mut reader).expect(rt, "a trace");
    format!(in alloc; "{trace:?}").expect(rt, "a text")
}

#[test]
fn readers_of_few_octets_give_the_same_trace(rt: HostRuntime) {
    let whole = shown(&rt, rt.alloc(), EACH_KIND.len());
    for most in &[1, 3] {
        let read = shown(&rt, rt.alloc(), *most);
        assert!(rt; read.as_str() == whole.as_str(), "by {most}");
    }
}
