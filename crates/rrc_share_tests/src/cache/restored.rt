// SPDX-License-Identifier: MIT
use super::{TAG, failure, fresh, question, rules, set};
use rrc_cache::{ChapterFault, Part, restored_chapter};
use rrc_history::{Chapter, Event, Outcome, Snapshot};
use rrc_name::Shared;
use std::alloc::Global;
use std::process::Abort;

const SEED: [u8; 16] = [7; 16];

/// The chapter of a part that was offered an address.
fn chapter(rt: &impl Abort, alloc: Global) -> Chapter {
    let mut part = Part::new(alloc, rules(rt, 8)).expect(rt, "no part");
    part.offer(TAG, set(rt, alloc)).expect(rt, "no outcome");
    part.checkpoint().expect(rt, "no chapter")
}

/// What a part that begins with the end of that chapter answers to a question for the address, two
/// seconds later.
fn left(rt: &impl Abort, alloc: Global) -> Option<u32> {
    let chapter = chapter(rt, alloc);
    let closing = chapter.closing.clone().expect(rt, "no owner");
    let mut part = Part::restored(alloc, closing, SEED).expect(rt, "no part");
    let reply = part.ask(TAG, &question(rt, alloc, "a.example."));
    Some(fresh(rt, reply)?.0)
}

#[test]
fn restored_part_answers_what_was_held(rt: HostRuntime) {
    assert!(rt; left(&rt, rt.alloc()) == Some(58));
}

/// That asking failed, which is stored, whatever an event says of it.
fn offered(rt: &impl Abort, alloc: Global, outcome: Outcome) -> Vec<Event> {
    let mut events = Vec::new(alloc);
    let event = Event::Offered {
        tag: TAG,
        offer: failure(rt, alloc, "a.example."),
        evicted: None,
        outcome,
    };
    events.push(event).expect(rt, "no place");
    events
}

/// How many keys are held at the end of a chapter of that event alone, or why it is none.
fn held(
    rt: &impl Abort,
    alloc: Global,
    number: u64,
    outcome: Outcome,
) -> Result<usize, ChapterFault> {
    let snapshot = Snapshot::new(rules(rt, 8), 0, Vec::new(alloc)).expect(rt, "no snapshot");
    let snapshot = Shared::new(alloc, snapshot).expect(rt, "no owner");
    match restored_chapter(alloc, number, snapshot, offered(rt, alloc, outcome), SEED) {
        Ok(chapter) => Ok(chapter.closing().entries.len()),
        Err(refused) => Err(refused.fault),
    }
}

/// The number of a chapter, the outcome that its event tells, and what it is restored to.
static CASES: [(u64, Outcome, Result<usize, ChapterFault>); 3] = [
    (3, Outcome::Kept, Ok(1)),
    (0, Outcome::Kept, Err(ChapterFault::BadNumber)),
    (3, Outcome::LessTrusted, Err(ChapterFault::NotLegal(0))),
];

#[test]
fn chapter_is_restored_where_its_events_are_legal(rt: HostRuntime) {
    for (number, outcome, wanted) in &CASES {
        assert!(rt; held(&rt, rt.alloc(), *number, *outcome) == *wanted);
    }
}
