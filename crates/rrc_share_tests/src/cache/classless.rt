// SPDX-License-Identifier: MIT
use super::{AA, Held, TAG, body, folded, name, question_at, rules};
use rrc_cache::{ChapterFault, Part, classless_chapter, recheck};
use rrc_history::classless::{Ask, Chapter, Event, Key, Offer, Snapshot};
use rrc_history::name::{Octets, RdataList, Sequence, Shared, Slot};
use rrc_history::{
    Body, Chapter as NowChapter, Mode, Outcome, Purpose, Reply, Soa, Trust, audit, from_classless,
};
use std::alloc::Global;
use std::process::Abort;

fn key(rt: &impl Abort, alloc: Global, text: &str, slot: Slot) -> Key {
    Key::of(&name(rt, alloc, text), slot).expect(rt, "no key")
}

fn failed_key(rt: &impl Abort, alloc: Global) -> Key {
    key(rt, alloc, "a.example.", Slot::Failed(1))
}

/// An offer of a body at a moment, with its outcome.
fn offered(rt: &impl Abort, moment: u64, key: Key, body: Body, outcome: Outcome) -> Event {
    Event::Offered {
        tag: TAG,
        offer: Offer::new(key, body, moment).expect(rt, "no offer"),
        evicted: None,
        outcome,
    }
}

/// That asking for the addresses of `a.example.` failed, at moment 10, for 30 seconds.
fn failed(rt: &impl Abort, alloc: Global, outcome: Outcome) -> Event {
    let body = Body::Failure { ttl: 30 };
    offered(rt, 10, failed_key(rt, alloc), body, outcome)
}

/// A client's question for the addresses of `a.example.` at a moment, with its reply.
fn asked(rt: &impl Abort, alloc: Global, moment: u64, reply: Reply) -> Event {
    let ask = Ask {
        name: folded(rt, alloc, "a.example."),
        rtype: 1,
        moment,
        purpose: Purpose::Answer,
        mode: Mode::NoStale,
    };
    Event::Asked {
        tag: TAG,
        ask,
        reply,
    }
}

fn swept(rt: &impl Abort, alloc: Global) -> Event {
    let mut gone = Sequence::new(alloc);
    gone.push(failed_key(rt, alloc)).expect(rt, "no place");
    Event::Swept {
        tag: TAG,
        moment: 40,
        gone,
    }
}

/// Puts an event behind others.
fn put(rt: &impl Abort, events: &mut Vec<Event>, event: Event) {
    events.push(event).expect(rt, "no place");
}

/// An event of each kind. The first has this outcome.
fn events(rt: &impl Abort, alloc: Global, first: Outcome) -> Vec<Event> {
    let miss = Reply::Miss {
        retry_from: Some(40),
    };
    let mut events = Vec::with_capacity(alloc, 3).expect(rt, "no room");
    put(rt, &mut events, failed(rt, alloc, first));
    put(rt, &mut events, asked(rt, alloc, 12, miss));
    put(rt, &mut events, swept(rt, alloc));
    events
}

/// A chapter of events from a snapshot of nothing.
fn chapter_of(
    rt: &impl Abort,
    alloc: Global,
    number: u64,
    events: Vec<Event>,
) -> Result<Chapter, ChapterFault> {
    let snapshot = Snapshot::new(rules(rt, 4096), 0, Vec::new(alloc)).expect(rt, "no snapshot");
    classless_chapter(alloc, number, snapshot, events)
}

/// A chapter of an event of each kind.
fn chapter(
    rt: &impl Abort,
    alloc: Global,
    number: u64,
    first: Outcome,
) -> Result<Chapter, ChapterFault> {
    chapter_of(rt, alloc, number, events(rt, alloc, first))
}

/// What a chapter of events is now.
fn image(rt: &impl Abort, alloc: Global, events: Vec<Event>) -> NowChapter {
    let chapter = chapter_of(rt, alloc, 7, events).expect(rt, "no chapter");
    from_classless(alloc, &chapter).expect(rt, "no image")
}

/// The number of that, and how many events it has, which are legal.
fn legal(rt: &impl Abort, alloc: Global) -> (u64, usize) {
    let made = image(rt, alloc, events(rt, alloc, Outcome::Kept));
    recheck(alloc, made.snapshot(), made.events()).expect(rt, "not legal");
    (made.number(), made.events().len())
}

#[test]
fn image_of_a_classless_chapter_is_legal(rt: HostRuntime) {
    assert!(rt; legal(&rt, rt.alloc()) == (7, 3));
}

/// The number of a chapter, the outcome of its first event, and the number of the fault.
static FAULTS: [(u64, Outcome, u8); 2] = [(0, Outcome::Kept, 1), (1, Outcome::Cleared, 2)];

fn fault(rt: &impl Abort, alloc: Global, number: u64, first: Outcome) -> u8 {
    let fault = chapter(rt, alloc, number, first)
        .err()
        .expect(rt, "no fault");
    fault.number()
}

#[test]
fn tells_why_events_are_no_classless_chapter(rt: HostRuntime) {
    for (number, first, wanted) in &FAULTS {
        assert!(rt; fault(&rt, rt.alloc(), *number, *first) == *wanted);
    }
}

/// The data of the SOA record of `example.`, of which the minimum is 300.
const SOA: &[u8] =
    b"\x07example\0\x07example\0\0\0\0\x01\0\0\x0e\x10\0\0\x02\x58\0\x09\x3a\x80\0\0\x01\x2c";

fn soa_octets(rt: &impl Abort, alloc: Global) -> Octets {
    Octets::from_slice(alloc, SOA).expect(rt, "no octets")
}

fn soa(rt: &impl Abort, alloc: Global) -> Soa {
    Soa {
        owner: name(rt, alloc, "example."),
        octets: Shared::new(alloc, soa_octets(rt, alloc)).expect(rt, "no data"),
    }
}

/// The SOA record as an RRset of the authority section of an authoritative answer.
fn soa_set(rt: &impl Abort, alloc: Global) -> Body {
    let items = RdataList::one(soa_octets(rt, alloc));
    Body::Positive {
        owner: name(rt, alloc, "example."),
        items: Shared::new(alloc, items).expect(rt, "no data"),
        trust: Trust::Authority,
        ttl: 3600,
    }
}

/// That a name does not exist, as the SOA record says.
fn no_name(rt: &impl Abort, alloc: Global) -> Body {
    let Soa { owner, octets } = soa(rt, alloc);
    Body::Negative {
        soa_owner: owner,
        soa: octets,
        trust: AA,
        ttl: 300,
    }
}

/// That name's reply at moment 2299.
fn nxdomain(rt: &impl Abort, alloc: Global) -> Reply {
    Reply::NxDomain {
        soa: soa(rt, alloc),
        left: 1,
    }
}

/// That a name's address was offered, and kept for a week.
fn address(rt: &impl Abort, alloc: Global) -> Event {
    let body = body(rt, alloc, "a.example.", Held::Address(AA, 604_800, 1));
    let key = key(rt, alloc, "a.example.", Slot::Set(1));
    offered(rt, 1000, key, body, Outcome::Kept)
}

/// What is offered and asked in the row later-nxdomain-governs-an-unexpired-address, up to its
/// first question: an address, and the SOA record and the NXDOMAIN of a response.
fn row(rt: &impl Abort, alloc: Global) -> Vec<Event> {
    let soa_key = key(rt, alloc, "example.", Slot::Set(6));
    let soa = offered(rt, 2000, soa_key, soa_set(rt, alloc), Outcome::Kept);
    let nx_key = key(rt, alloc, "a.example.", Slot::Nx);
    let nx = offered(rt, 2000, nx_key, no_name(rt, alloc), Outcome::Kept);
    let mut events = Vec::new(alloc);
    put(rt, &mut events, address(rt, alloc));
    put(rt, &mut events, soa);
    put(rt, &mut events, nx);
    put(rt, &mut events, asked(rt, alloc, 2299, nxdomain(rt, alloc)));
    events
}

/// A part that begins with what an image ends with, of which an audit finds all events right.
fn restored(rt: &impl Abort, alloc: Global) -> Part {
    let made = image(rt, alloc, row(rt, alloc));
    audit(made.snapshot(), made.events()).expect(rt, "not legal");
    let closing = made.closing.clone().expect(rt, "no owner");
    Part::restored(alloc, closing, [7; 16]).expect(rt, "no part")
}

/// Whether the row's question in a class gets this reply.
fn is_answered(rt: &impl Abort, alloc: Global, part: &Part, class: u16, reply: &Reply) -> bool {
    let mut ask = question_at(rt, alloc, "a.example.", 2299);
    ask.class = class;
    part.would_answer(ask.as_ref()).is(reply)
}

#[test]
fn image_answers_in_class_in_alone(rt: HostRuntime) {
    let part = restored(&rt, rt.alloc());
    let nxdomain = nxdomain(&rt, rt.alloc());
    let miss = Reply::Miss { retry_from: None };
    assert!(rt; is_answered(&rt, rt.alloc(), &part, 1, &nxdomain));
    assert!(rt; is_answered(&rt, rt.alloc(), &part, 3, &miss));
}
