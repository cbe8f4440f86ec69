// SPDX-License-Identifier: MIT
use super::lines::{Held, KeyText, body, folded, key};
use rrc_archive::{archive_line, write_archive_line, write_chapter};
use rrc_cache::Part;
use rrc_history::{Ask, Chapter, Mode, Offer, Purpose, Rules, Tag, Trust};
use rrc_name::Slot;
use rrc_share::{Shelf, on_shelf_ask, on_shelf_checkpoint, on_shelf_offer, on_shelf_sweep};
use std::alloc::Global;
use std::process::Abort;

/// A call on a part of two keys.
#[derive(Clone, Copy)]
enum Call {
    /// An offer of what a key is to hold, at a moment.
    Offer(KeyText, Held, u64),
    /// An ask for the addresses of a name, at a moment.
    Ask(&'static str, u64),
    /// A sweep, at a moment.
    Sweep(u64),
    Checkpoint,
}

static CALLS: [Call; 8] = [
    Call::Offer(
        ("A.example.", 1, Slot::Set(1)),
        Held::Set(
            Trust::AuthoritativeAnswer,
            60,
            "A.example.",
            &[&[192, 0, 2, 1]],
        ),
        10,
    ),
    Call::Offer(("b.example.", 1, Slot::Failed(1)), Held::Failure(30), 20),
    Call::Ask("a.example.", 25),
    Call::Checkpoint,
    // It evicts the key that was touched last longest ago.
    Call::Offer(("c.example.", 1, Slot::Failed(1)), Held::Failure(30), 30),
    Call::Ask("c.example.", 40),
    Call::Sweep(100),
    Call::Checkpoint,
];

/// The texts of the two chapters that these calls close. Each call has its place among them as the
/// line of its tag.
static TEXTS: [&str; 2] = [
    "chapter 1 0 2 64 86400\n\
     offer 0 0 10 a.example. 1 set 4 60 A.example. c0000201 kept\n\
     offer 1 0 20 b.example. failed1 failure 30 kept\n\
     ask 2 0 25 a.example. 1 answer none fresh 45 A.example. c0000201\n",
    "chapter 2 3 2 64 86400\n\
     entry 0 10 a.example. 1 set 4 60 A.example. c0000201\n\
     entry 1 20 b.example. failed1 failure 30\n\
     offer 4 0 30 c.example. failed1 failure 30 kept b.example. failed1\n\
     ask 5 0 40 c.example. 1 answer none miss 60\n\
     sweep 6 0 100 c.example. failed1\n",
];

fn question(rt: &impl Abort, alloc: Global, text: &'static str, moment: u64) -> Ask {
    Ask {
        name: folded(rt, alloc, text),
        class: 1,
        rtype: 1,
        moment,
        purpose: Purpose::Answer,
        mode: Mode::NoStale,
    }
}

fn offer(rt: &impl Abort, alloc: Global, of: KeyText, held: Held, moment: u64) -> Offer {
    let key = key(rt, alloc, of);
    Offer::new(key, body(rt, alloc, held), moment).expect(rt, "an offer")
}

fn make(rt: &impl Abort, alloc: Global, shelf: &mut Shelf, line: u64, call: Call) {
    let tag = Tag { line, place: 0 };
    match call {
        Call::Offer(of, held, moment) => {
            let offer = offer(rt, alloc, of, held, moment);
            let _outcome = on_shelf_offer(shelf, tag, offer).expect(rt, "an offer");
        }
        Call::Ask(text, moment) => {
            let ask = question(rt, alloc, text, moment);
            let _reply = on_shelf_ask(shelf, tag, &ask).expect(rt, "an ask");
        }
        Call::Sweep(moment) => {
            let _removed = on_shelf_sweep(shelf, tag, moment).expect(rt, "a sweep");
        }
        Call::Checkpoint => on_shelf_checkpoint(shelf).expect(rt, "a checkpoint"),
    }
}

/// Makes the calls, in order.
fn make_all(rt: &impl Abort, alloc: Global, shelf: &mut Shelf) {
    for (line, call) in CALLS.iter().enumerate() {
        make(rt, alloc, shelf, line as u64, *call);
    }
}

/// The shelf of a part of two keys on which the calls were made.
fn shelf(rt: &impl Abort, alloc: Global) -> Shelf {
    let rules = Rules::new(2, 64, 86_400).expect(rt, "rules");
    let part = Part::new(alloc, rules).expect(rt, "a part");
    let mut shelf = Shelf::new(alloc, part);
    make_all(rt, alloc, &mut shelf);
    shelf
}

/// The text of a chapter, written at once.
fn text_of(rt: &impl Abort, alloc: Global, chapter: &Chapter) -> Vec<u8> {
    let mut written = Vec::new(alloc);
    write_chapter(alloc, &mut written, chapter).expect(rt, "a chapter");
    written
}

/// The text of a chapter, written line by line.
fn text_by_lines(rt: &impl Abort, alloc: Global, chapter: &Chapter) -> Vec<u8> {
    let mut written = Vec::new(alloc);
    for place in 0..10 {
        if let Some(line) = archive_line(chapter, place) {
            write_archive_line(alloc, &mut written, line).expect(rt, "a line");
        }
    }
    written
}

fn is_told(rt: &impl Abort, alloc: Global, chapter: &Chapter, text: &str) -> bool {
    let wanted = text.as_bytes();
    text_of(rt, alloc, chapter).as_slice() == wanted
        && text_by_lines(rt, alloc, chapter).as_slice() == wanted
}

/// Whether a shelf closed two chapters of these texts.
fn are_told(rt: &impl Abort, alloc: Global, shelf: &Shelf) -> bool {
    let closed = shelf.closed();
    for (chapter, text) in closed.iter().zip(&TEXTS) {
        if !is_told(rt, alloc, chapter, text) {
            return false;
        }
    }
    closed.len() == TEXTS.len()
}

#[test]
fn chapters_have_a_text(rt: HostRuntime) {
    let shelf = shelf(&rt, rt.alloc());
    assert!(rt; are_told(&rt, rt.alloc(), &shelf));
}
