// SPDX-License-Identifier: MIT
use super::calls::{Answer, Call, KEPT, Step, go, part};
use super::{AA, Held, key};
use rrc_history::Event;
use rrc_name::{Key, Slot};
use std::alloc::Global;
use std::process::Abort;

/// The name and the slot of a key.
type Gone = (&'static str, Slot);

fn are(rt: &impl Abort, alloc: Global, keys: &[Key], wanted: &[Gone]) -> bool {
    for (each, (text, slot)) in keys.iter().zip(wanted) {
        if *each != key(rt, alloc, text, *slot) {
            return false;
        }
    }
    keys.len() == wanted.len()
}

/// Whether an event is a sweep that removed these keys, in this order.
fn is_sweep(rt: &impl Abort, alloc: Global, event: Option<&Event>, wanted: &[Gone]) -> bool {
    match event {
        Some(Event::Swept { gone, .. }) => are(rt, alloc, gone.as_slice(), wanted),
        _ => false,
    }
}

/// An address for one second, which is stale until 86,411 where it is offered at 10.
const SHORT: Held = Held::Address(AA, 1, 1);

/// Calls, and the keys that the last one of them removes.
static SWEEPS: [(&[Step], &[Gone]); 2] = [
    // A failure of no seconds is over before its moment.
    (
        &[
            (Call::Offer((100, "a.example.", Held::Failure(0))), KEPT),
            (Call::Sweep(50), Ok(Answer::Removed(1))),
        ],
        &[("a.example.", Slot::Failed(1))],
    ),
    // In canonical order.
    (
        &[
            (Call::Offer((10, "Z.a.example.", SHORT)), KEPT),
            (Call::Offer((10, "example.", SHORT)), KEPT),
            (Call::Offer((10, "a.example.", SHORT)), KEPT),
            (Call::Sweep(86_410), Ok(Answer::Removed(0))),
            (Call::Sweep(86_411), Ok(Answer::Removed(3))),
        ],
        &[
            ("example.", Slot::Set(1)),
            ("a.example.", Slot::Set(1)),
            ("z.a.example.", Slot::Set(1)),
        ],
    ),
];

/// Whether these calls answer so, and the last one removes these keys.
fn is_swept(rt: &impl Abort, alloc: Global, steps: &[Step], gone: &[Gone]) -> bool {
    let mut part = part(rt, alloc, 16);
    go(rt, alloc, &mut part, steps);
    is_sweep(rt, alloc, part.events().last(), gone)
}

#[test]
fn a_sweep_tells_what_it_removes_in_canonical_order(rt: HostRuntime) {
    for (steps, gone) in &SWEEPS {
        assert!(rt;
            is_swept(&rt, rt.alloc(), steps, gone),
            "{} keys",
            gone.len()
        );
    }
}
