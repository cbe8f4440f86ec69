// SPDX-License-Identifier: MIT
use super::{TAG, fresh, question, rules, set};
use rrc_cache::{LeanPart, NameHash, ReplyRef};
use rrc_history::Ask;
use std::alloc::Global;
use std::process::Abort;

/// A part that kept a set, by rules for chapters of one event.
fn kept(rt: &impl Abort, alloc: Global) -> LeanPart {
    let mut part = LeanPart::new(alloc, rules(rt, 1)).expect(rt, "no part");
    part.offer(TAG, set(rt, alloc)).expect(rt, "no outcome");
    part
}

/// For how many seconds the set of a reply is fresh.
fn left_of(reply: ReplyRef<'_>) -> Option<u32> {
    match reply {
        ReplyRef::Fresh { left, .. } => Some(left),
        _ => None,
    }
}

/// The same of an ask by two calls: the reply is read where it is kept, and then noted.
fn ask_by_two(rt: &impl Abort, part: &mut LeanPart, ask: &Ask) -> Option<u32> {
    let asked = ask.as_ref();
    let hash = NameHash::of([0; 16], asked.name);
    let (lookup, pick) = part.judge(asked, hash).expect(rt, "no reply");
    let left = left_of(lookup.reply);
    part.note_asked(TAG, asked, pick);
    left
}

/// What is answered by one call, and by two.
type Answers = (Option<(u32, usize, usize)>, Option<u32>);

fn answers(rt: &impl Abort, alloc: Global, part: &mut LeanPart) -> Answers {
    let ask = question(rt, alloc, "a.example.");
    let by_one = fresh(rt, part.ask(TAG, &ask));
    let own = ask.as_ref().to_owned(alloc).expect(rt, "no ask of its own");
    (by_one, ask_by_two(rt, part, &own))
}

/// What both ways answer, and how many keys a sweep then removes.
fn told(rt: &impl Abort, alloc: Global) -> (Answers, usize) {
    let mut part = kept(rt, alloc);
    let answers = answers(rt, alloc, &mut part);
    let removed = part.sweep(TAG, 10 + 60 + 86_400).expect(rt, "no sweep");
    (answers, removed)
}

#[test]
fn a_lean_part_answers_and_sweeps(rt: HostRuntime) {
    assert!(rt; told(&rt, rt.alloc()) == ((Some((58, 2, 2)), Some(58)), 1));
}
