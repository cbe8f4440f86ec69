// SPDX-License-Identifier: MIT
ghost use Rattle.rrc_name.specs.Key.{IsFolded};

use rrc_archive::{ArchiveLine, write_archive_line};
use rrc_history::{
    Ask, Body, Entry, Event, Mode, Offer, Outcome, Purpose, Reply, RrSet, Rules, Soa, Tag, Trust,
};
use rrc_name::{Key, Name, Octets, RdataList, Sequence, Shared, Slot};
use std::alloc::Global;
use std::process::Abort;

/// The tag of each call, and its moment.
const TAG: Tag = Tag { line: 9, place: 2 };

const MOMENT: u64 = 60;

/// The text of a name, a class, and what of them is kept.
pub(super) type KeyText = (&'static str, u16, Slot);

/// What a key holds.
#[derive(Clone, Copy)]
pub(super) enum Held {
    /// Trust, time to live, owner and data.
    Set(Trust, u32, &'static str, &'static [&'static [u8]]),
    /// Trust, time to live, and the owner and the data of an SOA record.
    Negative(Trust, u32, &'static str, &'static [u8]),
    /// The time to live.
    Failure(u32),
}

/// An SOA record of the root, with numbers from 1 to 5 (RFC 1035 section 3.3.13).
const SOA: &[u8] = &[
    0, 0, 0, 0, 0, 1, 0, 0, 0, 2, 0, 0, 0, 3, 0, 0, 0, 4, 0, 0, 0, 5,
];

fn name(rt: &impl Abort, alloc: Global, text: &str) -> Name {
    Name::from_text(alloc, text).expect(rt, text)
}

pub(super) fn key(rt: &impl Abort, alloc: Global, key: KeyText) -> Key {
    Key::of(&name(rt, alloc, key.0), key.1, key.2).expect(rt, "a key")
}

fn items(rt: &impl Abort, alloc: Global, items: &[&[u8]]) -> Shared<RdataList> {
    let mut made = Vec::new(alloc);
    for item in items {
        let item = Octets::from_slice(alloc, item).expect(rt, "an item");
        made.push(item).expect(rt, "a place");
    }
    Shared::new(alloc, RdataList::from_vec(made)).expect(rt, "data")
}

fn octets(rt: &impl Abort, alloc: Global, octets: &[u8]) -> Shared<Octets> {
    let made = Octets::from_slice(alloc, octets).expect(rt, "octets");
    Shared::new(alloc, made).expect(rt, "data")
}

pub(super) fn body(rt: &impl Abort, alloc: Global, held: Held) -> Body {
    match held {
        Held::Set(trust, ttl, owner, data) => Body::Positive {
            owner: name(rt, alloc, owner),
            items: items(rt, alloc, data),
            trust,
            ttl,
        },
        Held::Negative(trust, ttl, owner, soa) => Body::Negative {
            soa_owner: name(rt, alloc, owner),
            soa: octets(rt, alloc, soa),
            trust,
            ttl,
        },
        Held::Failure(ttl) => Body::Failure { ttl },
    }
}

/// Whether this is the text of a line.
fn is_text(alloc: Global, line: ArchiveLine<'_>, text: &str) -> bool {
    let mut written = Vec::new(alloc);
    let ended = write_archive_line(alloc, &mut written, line);
    ended.is_ok() && written.as_slice() == text.as_bytes()
}

/// The text of a head, the number of the chapter and that of its first event, and the rules.
type Head = (&'static str, u64, u64, (u64, u64, u64));

static HEADS: [Head; 2] = [
    ("chapter 7 4096 512 64 86400\n", 7, 4_096, (512, 64, 86_400)),
    (
        "chapter 0 18446744073709551615 65536 1048576 0\n",
        0,
        18_446_744_073_709_551_615,
        (65_536, 1_048_576, 0),
    ),
];

fn is_head(rt: &impl Abort, alloc: Global, head: Head) -> bool {
    let (capacity, chapter, stale) = head.3;
    let line = ArchiveLine::Chapter {
        number: head.1,
        first: head.2,
        rules: Rules::new(capacity, chapter, stale).expect(rt, "rules"),
    };
    is_text(alloc, line, head.0)
}

#[test]
fn heads_have_a_text(rt: HostRuntime) {
    for head in &HEADS {
        assert!(rt; is_head(&rt, rt.alloc(), *head), "{}", head.0);
    }
}

/// What is behind number and moment in the text of an entry; its key, and what that held.
type Kept = (&'static str, KeyText, Held);

static ENTRIES: [Kept; 8] = [
    (
        "www.example. 1 set 4 3600 WWW.Example. c0000201,c0000202\n",
        ("WWW.example.", 1, Slot::Set(1)),
        Held::Set(
            Trust::AuthoritativeAnswer,
            3_600,
            "WWW.Example.",
            &[&[192, 0, 2, 1], &[192, 0, 2, 2]],
        ),
    ),
    // An item of no octets, and the root.
    (
        ". 65280 set 1 2147483647 . -\n",
        (".", 1, Slot::Set(65_280)),
        Held::Set(Trust::Additional, 2_147_483_647, ".", &[&[]]),
    ),
    // A dot and an octet 0 in a label.
    (
        "a\\.b\\000c.example. 16 set 2 1 a\\.B\\000c.example. 00\n",
        ("a\\.b\\000c.example.", 1, Slot::Set(16)),
        Held::Set(
            Trust::NonAuthoritativeAnswer,
            1,
            "a\\.B\\000c.example.",
            &[&[0]],
        ),
    ),
    (
        "example. nx negative 3 300 Example. 00000000000100000002000000030000000400000005\n",
        ("example.", 1, Slot::Nx),
        Held::Negative(Trust::Authority, 300, "Example.", SOA),
    ),
    (
        "version.bind. 16/3 negative 2 0 bind. 00000000000100000002000000030000000400000005\n",
        ("version.bind.", 3, Slot::Set(16)),
        Held::Negative(Trust::NonAuthoritativeAnswer, 0, "bind.", SOA),
    ),
    (
        "bind. nx/3 negative 3 5 . 00000000000100000002000000030000000400000005\n",
        ("bind.", 3, Slot::Nx),
        Held::Negative(Trust::Authority, 5, ".", SOA),
    ),
    (
        "b.example. failed28 failure 30\n",
        ("b.example.", 1, Slot::Failed(28)),
        Held::Failure(30),
    ),
    (
        "version.bind. failed16/3 failure 30\n",
        ("version.bind.", 3, Slot::Failed(16)),
        Held::Failure(30),
    ),
];

fn is_entry(rt: &impl Abort, alloc: Global, kept: Kept) -> bool {
    let entry = Entry {
        key: key(rt, alloc, kept.1),
        body: body(rt, alloc, kept.2),
        moment: MOMENT,
        number: 7,
    };
    let text = format!(in alloc; "entry 7 60 {}", kept.0).expect(rt, "a text");
    is_text(alloc, ArchiveLine::Entry(&entry), text.as_str())
}

#[test]
fn entries_have_a_text(rt: HostRuntime) {
    for kept in &ENTRIES {
        assert!(rt; is_entry(&rt, rt.alloc(), *kept), "{}", kept.0);
    }
}

/// What is behind the moment in the text of an offer; its key, what it offered, what became of
/// it, and the key that it evicted.
type Offered = (&'static str, KeyText, Held, Outcome, Option<KeyText>);

static OFFERS: [Offered; 4] = [
    (
        " a.example. 1 set 4 60 A.example. c0000201 kept b.example. failed1\n",
        ("a.example.", 1, Slot::Set(1)),
        Held::Set(
            Trust::AuthoritativeAnswer,
            60,
            "A.example.",
            &[&[192, 0, 2, 1]],
        ),
        Outcome::Kept,
        Some(("B.example.", 1, Slot::Failed(1))),
    ),
    (
        " b.example. failed1 failure 30 kept version.bind. 16/3\n",
        ("b.example.", 1, Slot::Failed(1)),
        Held::Failure(30),
        Outcome::Kept,
        Some(("version.bind.", 3, Slot::Set(16))),
    ),
    (
        " b.example. failed1 failure 0 cleared\n",
        ("b.example.", 1, Slot::Failed(1)),
        Held::Failure(0),
        Outcome::Cleared,
        None,
    ),
    (
        " version.bind. nx/3 negative 3 5 . 00000000000100000002000000030000000400000005 less\n",
        ("version.bind.", 3, Slot::Nx),
        Held::Negative(Trust::Authority, 5, ".", SOA),
        Outcome::LessTrusted,
        None,
    ),
];

/// Whether this word begins the text of an event, and this is what is behind its moment.
fn is_event(rt: &impl Abort, alloc: Global, event: &Event, word: &str, behind: &str) -> bool {
    let text = format!(in alloc; "{word} 9 2 60{behind}").expect(rt, "a text");
    is_text(alloc, ArchiveLine::Event(event), text.as_str())
}

fn offer(rt: &impl Abort, alloc: Global, offered: Offered) -> Offer {
    let key = key(rt, alloc, offered.1);
    Offer::new(key, body(rt, alloc, offered.2), MOMENT).expect(rt, "an offer")
}

fn evicted(rt: &impl Abort, alloc: Global, evicted: Option<KeyText>) -> Option<Key> {
    match evicted {
        None => None,
        Some(evicted) => Some(key(rt, alloc, evicted)),
    }
}

fn is_offer(rt: &impl Abort, alloc: Global, offered: Offered) -> bool {
    let event = Event::Offered {
        outcome: offered.3,
        tag: TAG,
        offer: offer(rt, alloc, offered),
        evicted: evicted(rt, alloc, offered.4),
    };
    is_event(rt, alloc, &event, "offer", offered.0)
}

#[test]
fn offers_have_a_text(rt: HostRuntime) {
    for offered in &OFFERS {
        assert!(rt; is_offer(&rt, rt.alloc(), *offered), "{}", offered.0);
    }
}

/// What an ask of `www.example.` got; a set of it is the address 192.0.2.1.
#[derive(Clone, Copy)]
enum Got {
    Fresh(u32),
    Stale(u32),
    NoData(u32),
    NxDomain(u32),
    Miss(Option<u64>),
}

/// What is behind the moment in the text of an ask; its class, type, purpose and mode, and what it
/// got.
type Asked = (&'static str, u16, u16, Purpose, Mode, Got);

static ASKS: [Asked; 6] = [
    (
        " www.example. 1 answer none fresh 45 WWW.Example. c0000201\n",
        1,
        1,
        Purpose::Answer,
        Mode::NoStale,
        Got::Fresh(45),
    ),
    (
        " www.example. 1 any now stale 30 WWW.Example. c0000201\n",
        1,
        1,
        Purpose::Any,
        Mode::Now,
        Got::Stale(30),
    ),
    (
        " www.example. 28 answer failed nodata 5 . 00000000000100000002000000030000000400000005\n",
        1,
        28,
        Purpose::Answer,
        Mode::Failed,
        Got::NoData(5),
    ),
    (
        " www.example. 16/3 any none nxdomain 300 . 00000000000100000002000000030000000400000005\n",
        3,
        16,
        Purpose::Any,
        Mode::NoStale,
        Got::NxDomain(300),
    ),
    (
        " www.example. 65535/65535 any none miss\n",
        65_535,
        65_535,
        Purpose::Any,
        Mode::NoStale,
        Got::Miss(None),
    ),
    (
        " www.example. 1 answer none miss 90\n",
        1,
        1,
        Purpose::Answer,
        Mode::NoStale,
        Got::Miss(Some(90)),
    ),
];

fn set(rt: &impl Abort, alloc: Global) -> RrSet {
    RrSet {
        owner: name(rt, alloc, "WWW.Example."),
        items: items(rt, alloc, &[&[192, 0, 2, 1]]),
    }
}

fn soa(rt: &impl Abort, alloc: Global) -> Soa {
    Soa {
        owner: name(rt, alloc, "."),
        octets: octets(rt, alloc, SOA),
    }
}

fn reply(rt: &impl Abort, alloc: Global, got: Got) -> Reply {
    match got {
        Got::Fresh(left) => {
            let set = set(rt, alloc);
            Reply::Fresh { set, left }
        }
        Got::Stale(left) => {
            let set = set(rt, alloc);
            Reply::Stale { set, left }
        }
        Got::NoData(left) => {
            let soa = soa(rt, alloc);
            Reply::NoData { soa, left }
        }
        Got::NxDomain(left) => {
            let soa = soa(rt, alloc);
            Reply::NxDomain { soa, left }
        }
        Got::Miss(retry_from) => Reply::Miss { retry_from },
    }
}

/// The name of a text, folded.
pub(super) fn folded(rt: &impl Abort, alloc: Global, text: &'static str) -> Name
    ensures { IsFolded result }
{
    let key = key(rt, alloc, (text, 1, Slot::Nx));
    key.name().clone().expect(rt, "a name")
}

fn is_ask(rt: &impl Abort, alloc: Global, asked: Asked) -> bool {
    let ask = Ask {
        name: folded(rt, alloc, "www.example."),
        class: asked.1,
        rtype: asked.2,
        moment: MOMENT,
        purpose: asked.3,
        mode: asked.4,
    };
    let event = Event::Asked {
        tag: TAG,
        ask,
        reply: reply(rt, alloc, asked.5),
    };
    is_event(rt, alloc, &event, "ask", asked.0)
}

#[test]
fn asks_have_a_text(rt: HostRuntime) {
    for asked in &ASKS {
        assert!(rt; is_ask(&rt, rt.alloc(), *asked), "{}", asked.0);
    }
}

/// What is behind the moment in the text of a sweep, and the keys that it removed.
type Swept = (&'static str, &'static [KeyText]);

static SWEEPS: [Swept; 2] = [
    ("\n", &[]),
    (
        " a.example. 1 b.example. failed28/3\n",
        &[
            ("a.example.", 1, Slot::Set(1)),
            ("B.example.", 3, Slot::Failed(28)),
        ],
    ),
];

fn keys(rt: &impl Abort, alloc: Global, keys: &[KeyText]) -> Sequence<Key> {
    let mut made = Sequence::new(alloc);
    for text in keys {
        made.push(key(rt, alloc, *text)).expect(rt, "a place");
    }
    made
}

fn is_sweep(rt: &impl Abort, alloc: Global, swept: Swept) -> bool {
    let event = Event::Swept {
        tag: TAG,
        moment: MOMENT,
        gone: keys(rt, alloc, swept.1),
    };
    is_event(rt, alloc, &event, "sweep", swept.0)
}

#[test]
fn sweeps_have_a_text(rt: HostRuntime) {
    for swept in &SWEEPS {
        assert!(rt; is_sweep(&rt, rt.alloc(), *swept), "{}", swept.0);
    }
}
