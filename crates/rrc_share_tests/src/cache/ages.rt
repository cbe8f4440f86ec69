// SPDX-License-Identifier: MIT
use super::{AA, Held, TAG, key, offer, question, rules};
use rrc_cache::LeanPart;
use rrc_name::{KeyRef, Slot};
use std::alloc::Global;
use std::process::Abort;

/// Keeps an address of a name.
fn keep(rt: &impl Abort, alloc: Global, part: &mut LeanPart, name: &str) {
    let offered = offer(rt, alloc, (10, name, Held::Address(AA, 60, 1)));
    part.offer(TAG, offered).expect(rt, "no outcome");
}

/// Asks for the addresses of a name.
fn ask(rt: &impl Abort, alloc: Global, part: &mut LeanPart, name: &str) {
    part.ask(TAG, &question(rt, alloc, name))
        .expect(rt, "no reply");
}

/// The ages of the addresses of three names.
type Ages = (Option<u64>, Option<u64>, Option<u64>);

fn age(rt: &impl Abort, alloc: Global, part: &LeanPart, name: &str) -> Option<u64> {
    let key = key(rt, alloc, name, Slot::Set(1));
    part.age(KeyRef::of(&key))
}

fn ages(rt: &impl Abort, alloc: Global, part: &LeanPart) -> Ages {
    (
        age(rt, alloc, part, "a.example."),
        age(rt, alloc, part, "b.example."),
        age(rt, alloc, part, "c.example."),
    )
}

/// The ages after each step: three names are offered, the first is asked for twice, of which the
/// second time is no touch, a name is asked for of which nothing is kept, the second is offered
/// anew.
fn told(rt: &impl Abort, alloc: Global) -> (Ages, Ages, Ages, Ages) {
    let mut part = LeanPart::new(alloc, rules(rt, 512)).expect(rt, "no part");
    keep(rt, alloc, &mut part, "a.example.");
    keep(rt, alloc, &mut part, "b.example.");
    let two = ages(rt, alloc, &part);
    keep(rt, alloc, &mut part, "c.example.");
    ask(rt, alloc, &mut part, "a.example.");
    ask(rt, alloc, &mut part, "a.example.");
    let asked = ages(rt, alloc, &part);
    ask(rt, alloc, &mut part, "d.example.");
    let missed = ages(rt, alloc, &part);
    keep(rt, alloc, &mut part, "b.example.");
    (two, asked, missed, ages(rt, alloc, &part))
}

#[test]
fn an_age_is_the_number_of_later_touches(rt: HostRuntime) {
    let asked = (Some(0), Some(2), Some(1));
    let wanted = (
        (Some(1), Some(0), None),
        asked,
        asked,
        (Some(1), Some(0), Some(2)),
    );
    assert!(rt; told(&rt, rt.alloc()) == wanted);
}
