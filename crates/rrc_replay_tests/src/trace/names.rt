// SPDX-License-Identifier: MIT
use rrc_trace::{Line, read_trace};
use std::alloc::Global;
use std::process::Abort;

/// Traces that begin with a response, and how many lines share its zone.
static SHARED: [(&str, usize); 3] = [
    ("response 1 a. -\nresponse 2 bc. -\nresponse 3 a. -", 2),
    ("response 1 a. -\nask 2 a. 1 any now\nresponse 3 a. -", 3),
    ("response 1 a. -\nresponse 2 A. -", 1),
];

/// How many owners the zone of a first line has, where that is a response.
fn owners(lines: &[Line]) -> usize {
    match lines.first() {
        Some(Line::Response(response)) => response.zone.wire.owners(),
        _ => 0,
    }
}

fn owners_in(rt: &impl Abort, alloc: Global, text: &str) -> usize {
    let trace = read_trace(alloc, &mut text.as_bytes()).expect(rt, text);
    owners(trace.lines.as_slice())
}

#[test]
fn lines_share_a_name_that_they_spell_alike(rt: HostRuntime) {
    for (text, count) in &SHARED {
        assert!(rt; owners_in(&rt, rt.alloc(), text) == *count, "{text}");
    }
}
