// SPDX-License-Identifier: MIT
use rrc_cache::Part;
use rrc_history::{ChainFault, Chapter, Rules, chain};
use std::alloc::Global;
use std::process::Abort;

/// A chapter in which nothing is held and nothing happens: its number and the part's capacity.
type Quiet = (u64, u64);

fn quiet(rt: &impl Abort, alloc: Global, (number, capacity): Quiet) -> Chapter {
    let rules = Rules::new(capacity, 4096, 86_400).expect(rt, "no rules");
    let mut part = Part::new(alloc, rules).expect(rt, "no part");
    for _ in 1..number {
        let _earlier = part.checkpoint().expect(rt, "no chapter");
    }
    part.checkpoint().expect(rt, "no chapter")
}

/// Whether this is what is wrong with chapters.
fn is_wrong(rt: &impl Abort, alloc: Global, quiets: &[Quiet], fault: Option<ChainFault>) -> bool {
    let mut chapters = Vec::new(alloc);
    for each in quiets {
        chapters.push(quiet(rt, alloc, *each)).expect(rt, "a place");
    }
    chain(chapters).err() == fault
}

/// Chapters, and what is wrong with them, if they are no history.
static CHAINS: [(&[Quiet], Option<ChainFault>); 3] = [
    (&[], Some(ChainFault::NumberGap(0))),
    (&[(7, 2), (8, 1)], Some(ChainFault::NotTheSameContents(1))),
    (&[(7, 2), (8, 2), (9, 2)], None),
];

#[test]
fn chains_chapters(rt: HostRuntime) {
    for (quiets, fault) in &CHAINS {
        let is_wrong = is_wrong(&rt, rt.alloc(), quiets, *fault);
        assert!(rt; is_wrong, "{} chapters", quiets.len());
    }
}
