// SPDX-License-Identifier: MIT
// The calls that were made on parts, as of workers that do the lines of a trace.

use crate::sets::DENIED_ALIAS;
use rrc_cache::Part;
use rrc_history::{Ask, Mode, Offer, Purpose, Rules, Tag};
use rrc_name::Name;
use rrc_sets::{Limits, offers_in};
use rrc_share::{Shelf, on_shelf_ask, on_shelf_offer, on_shelf_sweep};
use std::alloc::Global;
use std::process::Abort;

/// An address of `a.example.` from a server of `example.`
const ONE_ADDRESS: &[u8] = b"\x12\x34\x84\0\0\x01\0\x01\0\0\0\0\
    \x01a\x07example\0\0\x01\0\x01\
    \xc0\x0c\0\x01\0\x01\0\0\0\x3c\0\x04\xc0\0\x02\x01";

/// A call on a part.
#[derive(Clone, Copy)]
pub(super) enum Call {
    /// A sweep at this moment.
    Sweep(u64),
    /// An ask for the address of `a.example.`, as of a fetch.
    Ask(Mode),
    /// The offer of ONE_ADDRESS.
    Address,
    /// The offer of DENIED_ALIAS at this place.
    Denied(usize),
}

/// A call that was made: its part, its line, its place in the line, and what it was.
pub(super) type Made = (usize, u64, u64, Call);

fn name(rt: &impl Abort, alloc: Global, text: &str) -> Name {
    Name::from_text(alloc, text).expect(rt, text)
}

/// The ask of a fetch for the address of `a.example.`
fn ask(rt: &impl Abort, alloc: Global, mode: Mode) -> Ask {
    let name = name(rt, alloc, "a.example.");
    Ask {
        name: name.folded().expect(rt, "a name"),
        class: 1,
        rtype: 1,
        moment: 100,
        purpose: Purpose::Answer,
        mode,
    }
}

/// The offer at a place among those of a message from a server of `example.`
fn offer(rt: &impl Abort, alloc: Global, octets: &[u8], place: usize) -> Offer {
    let zone = name(rt, alloc, "example.");
    let limits = Limits::new(604_800, 10_800, 30).expect(rt, "limits");
    let offers = offers_in(alloc, octets, &zone, 100, &limits).expect(rt, "a message");
    offers.into_iter().nth(place).expect(rt, "an offer")
}

fn offer_to(rt: &impl Abort, shelf: &mut Shelf, tag: Tag, offer: Offer) {
    let _outcome = on_shelf_offer(shelf, tag, offer).expect(rt, "an offer");
}

/// Makes a call on a shelf.
fn make(rt: &impl Abort, alloc: Global, shelf: &mut Shelf, tag: Tag, call: Call) {
    match call {
        Call::Sweep(moment) => {
            let _removed = on_shelf_sweep(shelf, tag, moment).expect(rt, "a sweep");
        }
        Call::Ask(mode) => {
            let _reply = on_shelf_ask(shelf, tag, &ask(rt, alloc, mode)).expect(rt, "an ask");
        }
        Call::Address => offer_to(rt, shelf, tag, offer(rt, alloc, ONE_ADDRESS, 0)),
        Call::Denied(place) => offer_to(rt, shelf, tag, offer(rt, alloc, DENIED_ALIAS, place)),
    }
}

/// The shelf of a new part on which those of the calls were made that are of this part.
fn shelf(rt: &impl Abort, alloc: Global, rules: Rules, part: usize, made: &[Made]) -> Shelf {
    let mut shelf = Shelf::new(alloc, Part::new(alloc, rules).expect(rt, "a part"));
    for &(own, line, place, call) in made {
        if own == part {
            make(rt, alloc, &mut shelf, Tag { line, place }, call);
        }
    }
    shelf
}

/// The shelves of so many new parts on which these calls were made.
pub(super) fn shelves(
    rt: &impl Abort,
    alloc: Global,
    rules: Rules,
    parts: usize,
    made: &[Made],
) -> Vec<Shelf> {
    let mut shelves = Vec::new(alloc);
    for part in 0..parts {
        shelves
            .push(shelf(rt, alloc, rules, part, made))
            .expect(rt, "a shelf");
    }
    shelves
}
