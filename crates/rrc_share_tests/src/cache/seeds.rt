// SPDX-License-Identifier: MIT
use super::{TAG, failure, rules};
use rrc_cache::Part;
use rrc_history::Offer;
use std::alloc::Global;
use std::process::Abort;

/// A key of SipHash whose octets count up, as in the vectors of its authors.
const COUNTED: [u8; 16] = [0, 1, 2, 3, 4, 5, 6, 7, 8, 9, 10, 11, 12, 13, 14, 15];

/// A number, and the lowest ten bits of SipHash-1-3 of the wire form of `NUMBER.example.`: under
/// the key of zeros, as CPython 3.11 hashes these octets with PYTHONHASHSEED=0, and under the
/// counted key, by a program that was held against CPython and the vector of the authors' paper.
static PLACES: [(u64, usize, usize); 8] = [
    (0, 763, 827),
    (1, 97, 358),
    (2, 684, 835),
    (3, 975, 231),
    (4, 971, 689),
    (5, 625, 285),
    (6, 706, 237),
    (7, 408, 228),
];

/// That asking for the addresses of the name of a number failed.
fn failure_of(rt: &impl Abort, alloc: Global, number: u64) -> Offer {
    let text = format!(in alloc; "{number}.example.").expect(rt, "no text");
    failure(rt, alloc, text.as_str())
}

/// Where the marks in a text begin to be true.
fn first_mark(text: &str) -> Option<usize> {
    let (_, marks) = text.split_once("marks: [")?;
    marks.find("true")
}

/// Where the text of a part shows its first mark. Each place before it takes the seven octets of
/// `false, `.
fn place_in(rt: &impl Abort, alloc: Global, part: &Part) -> usize {
    let text = format!(in alloc; "{part:?}").expect(rt, "no text");
    first_mark(text.as_str()).expect(rt, "no mark") / 7
}

/// The place, among 1,024, where a part under a seed marks the name of a number.
fn place_of(rt: &impl Abort, alloc: Global, seed: [u8; 16], number: u64) -> usize {
    let mut part = Part::seeded(alloc, rules(rt, 1), seed).expect(rt, "no part");
    let failure = failure_of(rt, alloc, number);
    part.offer(TAG, failure).expect(rt, "no outcome");
    place_in(rt, alloc, &part)
}

#[test]
fn names_are_hashed_by_siphash_1_3_under_the_seed(rt: HostRuntime) {
    for (number, zeros, counted) in &PLACES {
        assert!(rt; place_of(&rt, rt.alloc(), [0; 16], *number) == *zeros);
        assert!(rt; place_of(&rt, rt.alloc(), COUNTED, *number) == *counted);
    }
}
