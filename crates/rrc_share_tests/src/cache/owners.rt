// SPDX-License-Identifier: MIT
use super::{TAG, fresh, question, rules, set};
use rrc_cache::Part;
use std::alloc::Global;
use std::process::Abort;

/// A part that kept a set.
fn kept(rt: &impl Abort, alloc: Global) -> Part {
    let mut part = Part::new(alloc, rules(rt, 8)).expect(rt, "no part");
    part.offer(TAG, set(rt, alloc)).expect(rt, "no outcome");
    part
}

/// What it answers.
fn answer(rt: &impl Abort, alloc: Global) -> Option<(u32, usize, usize)> {
    let ask = question(rt, alloc, "a.example.");
    let mut part = kept(rt, alloc);
    fresh(rt, part.ask(TAG, &ask))
}

// The offer and the answer as they were written, what is kept, and the answer handed out.
#[test]
fn an_answer_shares_what_is_kept(rt: HostRuntime) {
    assert!(rt; answer(&rt, rt.alloc()) == Some((58, 4, 4)));
}
