// SPDX-License-Identifier: MIT
use crate::cache::calls::{CALLS, Lent, go};
use crate::cache::{TAG, rules};
use rrc_cache::{Part, Refusal};
use rrc_history::{Ask, ChainFault, Chapter, Event, Offer, Outcome, Reply, Snapshot, Whole, chain};
use rrc_share::{Shelf, on_shelf_ask, on_shelf_checkpoint, on_shelf_offer, on_shelf_sweep};
use std::alloc::Global;
use std::process::Abort;

/// What the first of a shelf's chapters began with.
fn opening(shelf: &Shelf) -> &Snapshot {
    match shelf.closed().first() {
        Some(chapter) => chapter.snapshot(),
        None => shelf.part().snapshot(),
    }
}

/// Puts the text of each event behind others.
fn put_events(rt: &impl Abort, alloc: Global, text: &mut String, events: &[Event]) {
    for event in events {
        let event = format!(in alloc; " {event:?}").expect(rt, "no text");
        text.push_str(event.as_str()).expect(rt, "no room");
    }
}

impl Lent for Shelf {
    fn take(&mut self, offer: Offer) -> Result<Outcome, Refusal> {
        on_shelf_offer(self, TAG, offer)
    }

    fn reply(&mut self, ask: &Ask) -> Result<Reply, Refusal> {
        on_shelf_ask(self, TAG, ask)
    }

    fn clear(&mut self, moment: u64) -> Result<usize, Refusal> {
        on_shelf_sweep(self, TAG, moment)
    }

    fn close(&mut self) -> Result<(), Refusal> {
        on_shelf_checkpoint(self)
    }

    // A full chapter may stay closed where memory for the event was refused then. So the chapters
    // are not told apart.
    fn seen(&self, rt: &impl Abort, alloc: Global, ask: &Ask) -> String {
        let (snapshot, reply) = (opening(self), self.part().would_answer(ask.as_ref()));
        let mut text = format!(in alloc; "{snapshot:?} {reply:?}").expect(rt, "no text");
        for chapter in self.closed() {
            put_events(rt, alloc, &mut text, chapter.events());
        }
        put_events(rt, alloc, &mut text, self.part().events());
        text
    }
}

/// A shelf in chapters of one event.
fn shelf(rt: &impl Abort, alloc: Global) -> Shelf {
    Shelf::new(alloc, Part::new(alloc, rules(rt, 1)).expect(rt, "no part"))
}

/// Whether a chapter is the first, and has event 0 alone.
fn has_event_0(chapter: &Chapter) -> bool {
    chapter.number() == 1 && chapter.snapshot().first == 0 && chapter.events().len() == 1
}

/// Whether a snapshot is the one in front of event 1, with just the entry that event 0 stored.
fn is_of_event_0(snapshot: &Snapshot) -> bool {
    match snapshot.entries.get(0) {
        Some(entry) => snapshot.first == 1 && snapshot.entries.len() == 1 && entry.number == 0,
        None => false,
    }
}

/// Whether event 0 stands in chapter 1, and event 1 in chapter 2, which is open.
pub(super) fn is_in_chapter_2(shelf: &Shelf) -> bool {
    let part = shelf.part();
    let is_open = part.number() == 2 && part.events().len() == 1 && is_of_event_0(part.snapshot());
    match shelf.closed() {
        [first] => has_event_0(first) && is_open,
        _ => false,
    }
}

#[test]
fn a_shelf_that_was_refused_memory_has_the_same_history(rt: HostRuntime) {
    let mut shelf = shelf(&rt, rt.alloc());
    go(&rt, rt.alloc(), &mut shelf, &CALLS[..2]);
    assert!(rt; is_in_chapter_2(&shelf));
    go(&rt, rt.alloc(), &mut shelf, &CALLS[2..]);
}

/// The chapters that a shelf closed, of two offers.
fn chapters(rt: &impl Abort, alloc: Global) -> Vec<Chapter> {
    let mut shelf = shelf(rt, alloc);
    go(rt, alloc, &mut shelf, &CALLS[..2]);
    on_shelf_checkpoint(&mut shelf).expect(rt, "no chapter");
    shelf.take_chapters()
}

/// The same as one history, which is made once more where memory was refused.
fn chained(rt: &impl Abort, alloc: Global) -> Whole {
    match chain(chapters(rt, alloc)) {
        Err(ChainFault::Memory) => chain(chapters(rt, alloc)).expect(rt, "no history"),
        whole => whole.expect(rt, "no history"),
    }
}

fn events_chained(rt: &impl Abort, alloc: Global) -> usize {
    let whole = chained(rt, alloc);
    whole.events.len()
}

#[test]
fn chapters_of_a_shelf_chain(rt: HostRuntime) {
    assert!(rt; events_chained(&rt, rt.alloc()) == 2);
}
