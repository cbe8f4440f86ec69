// SPDX-License-Identifier: MIT
use super::{AA, Held, TAG, failure, offer, question, rules};
use rrc_cache::{RecheckFault, recheck};
use rrc_history::{Event, FirstBad, Offer, Outcome, Reply, Snapshot, Trust, audit};
use std::alloc::Global;
use std::process::Abort;

fn offered(offer: Offer, outcome: Outcome) -> Event {
    Event::Offered {
        outcome,
        tag: TAG,
        offer,
        evicted: None,
    }
}

/// A question whose reply says from when on servers may be asked again.
fn asked(rt: &impl Abort, alloc: Global, retry_from: Option<u64>) -> Event {
    Event::Asked {
        tag: TAG,
        ask: question(rt, alloc, "a.example."),
        reply: Reply::Miss { retry_from },
    }
}

/// Whether events, from a snapshot of nothing, have this first one that is not right, by a recheck
/// and by an audit.
fn is_first_bad(rt: &impl Abort, alloc: Global, events: &[Event], first: Option<FirstBad>) -> bool {
    let snapshot = Snapshot::new(rules(rt, 1), 0, Vec::new(alloc)).expect(rt, "no snapshot");
    let found = recheck(alloc, &snapshot, events).err();
    found == first.map(RecheckFault::FirstBad) && audit(&snapshot, events).err() == first
}

/// A failure from 10 to 40, and a question after it with this reply.
fn question_behind(rt: &impl Abort, alloc: Global, retry_from: Option<u64>) -> [Event; 2] {
    let failure = offered(failure(rt, alloc, "a.example."), Outcome::Kept);
    [failure, asked(rt, alloc, retry_from)]
}

/// What the reply says, and the first event that is not right.
static SAID: [(Option<u64>, Option<FirstBad>); 3] = [
    (Some(40), None),
    (Some(39), Some(FirstBad(1))),
    (None, Some(FirstBad(1))),
];

#[test]
fn finds_an_answer_with_another_moment(rt: HostRuntime) {
    for (retry_from, first) in &SAID {
        let events = question_behind(&rt, rt.alloc(), *retry_from);
        assert!(rt;
            is_first_bad(&rt, rt.alloc(), &events, *first),
            "{retry_from:?}"
        );
    }
}

/// An address from an authoritative answer, and one from additional data before the first is
/// expired, which became this.
fn glue_behind(rt: &impl Abort, alloc: Global, outcome: Outcome) -> [Event; 2] {
    let answer = Held::Address(AA, 60, 1);
    let glue = Held::Address(Trust::Additional, 60, 2);
    let answer = offer(rt, alloc, (100, "a.example.", answer));
    let glue = offer(rt, alloc, (120, "a.example.", glue));
    [offered(answer, Outcome::Kept), offered(glue, outcome)]
}

/// What became of it, and the first event that is not right.
static BECAME: [(Outcome, Option<FirstBad>); 2] = [
    (Outcome::Kept, Some(FirstBad(1))),
    (Outcome::LessTrusted, None),
];

#[test]
fn finds_less_trusted_data_kept(rt: HostRuntime) {
    for (outcome, first) in &BECAME {
        let events = glue_behind(&rt, rt.alloc(), *outcome);
        assert!(rt;
            is_first_bad(&rt, rt.alloc(), &events, *first),
            "{outcome:?}"
        );
    }
}
