// SPDX-License-Identifier: MIT
use super::calls::part;
use super::{AA, Held, TAG, failure, offer};
use rrc_cache::Part;
use rrc_history::{ChainFault, Chapter, chain};
use std::alloc::Global;
use std::process::Abort;

/// A part that kept a failure, and swept it at its end.
fn swept(rt: &impl Abort, alloc: Global) -> Part {
    let mut part = part(rt, alloc, 2);
    let failure = failure(rt, alloc, "a.example.");
    part.offer(TAG, failure).expect(rt, "no outcome");
    part.sweep(TAG, 40).expect(rt, "no sweep");
    part
}

/// Closes a part's chapter, and puts it behind others.
fn close(rt: &impl Abort, part: &mut Part, chapters: &mut Vec<Chapter>) {
    let chapter = part.checkpoint().expect(rt, "no chapter");
    chapters.push(chapter).expect(rt, "no place");
}

/// The next two chapters of a part.
fn two_chapters(rt: &impl Abort, alloc: Global, part: &mut Part) -> Vec<Chapter> {
    let mut chapters = Vec::new(alloc);
    close(rt, part, &mut chapters);
    close(rt, part, &mut chapters);
    chapters
}

/// How many events chapters have as one history.
fn events_of(rt: &impl Abort, chapters: Vec<Chapter>) -> usize {
    let whole = chain(chapters).expect(rt, "no chain");
    whole.events.len()
}

#[test]
fn chapters_of_one_part_chain(rt: HostRuntime) {
    let chapters = two_chapters(&rt, rt.alloc(), &mut swept(&rt, rt.alloc()));
    assert!(rt; events_of(&rt, chapters) == 2);
}

/// A chapter of a part that kept the address 192.0.2.`host`, and closed its chapters up to that
/// one: the host, and the chapter's number.
type Closed = (u8, u64);

fn closed(rt: &impl Abort, alloc: Global, (host, number): Closed) -> Chapter {
    let mut part = part(rt, alloc, 8);
    let address = Held::Address(AA, 60, host);
    let offer = offer(rt, alloc, (10, "a.example.", address));
    part.offer(TAG, offer).expect(rt, "no outcome");
    for _ in 1..number {
        let _earlier = part.checkpoint().expect(rt, "no chapter");
    }
    part.checkpoint().expect(rt, "no chapter")
}

/// Two chapters of parts that were called alike, but for the address.
fn pair(rt: &impl Abort, alloc: Global, first: Closed, second: Closed) -> Vec<Chapter> {
    let mut chapters = Vec::new(alloc);
    chapters
        .push(closed(rt, alloc, first))
        .expect(rt, "no place");
    chapters
        .push(closed(rt, alloc, second))
        .expect(rt, "no place");
    chapters
}

/// Two such chapters, and why they are no history.
static PAIRS: [(Closed, Closed, Option<ChainFault>); 3] = [
    ((1, 1), (1, 2), None),
    ((1, 1), (1, 3), Some(ChainFault::NumberGap(1))),
    ((1, 1), (2, 2), Some(ChainFault::NotTheSameContents(1))),
];

#[test]
fn chapters_chain_where_one_goes_on_from_the_other(rt: HostRuntime) {
    for (first, second, fault) in &PAIRS {
        let chapters = pair(&rt, rt.alloc(), *first, *second);
        assert!(rt; chain(chapters).err() == *fault, "{first:?} {second:?}");
    }
}
