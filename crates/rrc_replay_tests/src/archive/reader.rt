// SPDX-License-Identifier: MIT
use rrc_archive::{ArchiveFault, WrittenChapter, read_archive};
use rrc_history::{Body, Entry, Event, Mode, Outcome, Purpose, Reply, Tag, Trust};
use rrc_name::{Key, Name, Slot};
use std::alloc::Global;
use std::process::Abort;

/// Two chapters, by docs/FORMATS.md: each kind of line, of body, of outcome and of reply, a class
/// that is not IN, a name with a dot and an octet 0 in a label, and the root.
static TWO_CHAPTERS: &str = "\
chapter 4 7 3 1024 86400
entry 6 90 www.example. nx negative 3 300 Example. 00ff
entry 2 50 www.example. failed28 failure 5
entry 5 80 . 16/3 set 1 4294967295 . -,aa,-
offer 11 0 100 www.example. 1 set 4 60 www.Example. c0000201,c0000202 kept . 16/3
offer 11 1 100 www.example. 1 set 1 60 www.Example. c0000203 less
offer 12 0 100 a\\.b\\000c.example. 28 negative 2 0 example. - cleared
offer 13 0 100 b.example. failed1/254 failure 30 kept
ask 14 2 159 www.example. 1 answer none fresh 1 www.Example. c0000201,c0000202
ask 15 0 170 www.example. 1 any failed stale 30 www.Example. c0000201
ask 16 0 171 www.example. 28/3 any now nodata 5 example. 00
ask 17 0 172 no.example. 1 answer now nxdomain 2147483647 example. ff
ask 18 0 173 no.example. 15 any none miss
ask 19 0 174 no.example. 16 any none miss 200
sweep 20 0 1000000
sweep 20 1 18446744073709551615 www.example. 1 b.example. failed1/254
chapter 5 18 3 1024 86400
";

/// Archives that are read, and how many chapters, entries and events they have.
static READ: [(&str, usize, usize, usize); 5] = [
    ("", 0, 0, 0),
    ("chapter 0 0 1 1 0\n", 1, 0, 0),
    (
        "chapter 18446744073709551615 18446744073709551615 65536 1048576 604800\n",
        1,
        0,
        0,
    ),
    (
        "chapter 0 1 1 1 0\nentry 7 9 a. 1 set 1 4294967295 b. -\n",
        1,
        1,
        0,
    ),
    (
        "chapter 3 1 1 1 0\nchapter 9 0 1 1 0\nsweep 0 0 0\nsweep 0 0 0\n",
        2,
        0,
        2,
    ),
];

/// Texts that are no archive, and the line at which each is none.
static BAD: [(&str, u64); 40] = [
    ("\n", 0),
    (" \n", 0),
    ("chapter 0 0 1 1 0", 0),
    ("chapter 0 0 1 1 0\nsweep 0 0 0", 1),
    ("chapter 0 0 1 1 0\r\n", 0),
    ("chapter 0 0 1 1 0\n\nchapter 1 0 1 1 0\n", 1),
    ("chapter 0 0 1 1 0 \n", 0),
    (" chapter 0 0 1 1 0\n", 0),
    ("chapter 0  0 1 1 0\n", 0),
    ("Chapter 0 0 1 1 0\n", 0),
    ("chapter 0 0 1 1\n", 0),
    ("chapter 0 0 1 1 0 0\n", 0),
    ("chapter 00 0 1 1 0\n", 0),
    ("chapter +0 0 1 1 0\n", 0),
    ("chapter 18446744073709551616 0 1 1 0\n", 0),
    ("chapter 0 0 0 1 0\n", 0),
    ("chapter 0 0 65537 1 0\n", 0),
    ("chapter 0 0 1 0 0\n", 0),
    ("chapter 0 0 1 1048577 0\n", 0),
    ("chapter 0 0 1 1 604801\n", 0),
    ("entry 0 0 a. 1 failure 5\n", 0),
    ("offer 0 0 0 a. failed1 failure 5 kept\n", 0),
    ("ask 0 0 0 a. 1 any none miss\n", 0),
    ("sweep 0 0 0\nchapter 0 0 1 1 0\n", 0),
    (
        "chapter 0 0 1 1 0\nsweep 0 0 0\nentry 0 0 a. failed1 failure 5\n",
        2,
    ),
    ("chapter 0 0 1 1 0\nentry 0 0 a failed1 failure 5\n", 1),
    ("chapter 0 0 1 1 0\nentry 0 0 A. failed1 failure 5\n", 1),
    ("chapter 0 0 1 1 0\nentry 0 0 \\097. failed1 failure 5\n", 1),
    ("chapter 0 0 1 1 0\nentry 0 0 a. 65536 failure 5\n", 1),
    ("chapter 0 0 1 1 0\nentry 0 0 a. failed1/1 failure 5\n", 1),
    (
        "chapter 0 0 1 1 0\nentry 0 0 a. failed1 failure 4294967296\n",
        1,
    ),
    ("chapter 0 0 1 1 0\nentry 0 0 a. 1 set 0 5 a. 00\n", 1),
    ("chapter 0 0 1 1 0\nentry 0 0 a. 1 set 1 5 a. AA\n", 1),
    ("chapter 0 0 1 1 0\nentry 0 0 a. 1 set 1 5 a. 00,\n", 1),
    (
        "chapter 0 0 1 1 0\noffer 0 0 0 a. 1 set 1 5 b. 00 kept\n",
        1,
    ),
    (
        "chapter 0 0 1 1 0\noffer 0 0 0 a. failed1 set 1 5 a. 00 kept\n",
        1,
    ),
    (
        "chapter 0 0 1 1 0\noffer 0 0 0 a. 1 set 1 2147483648 a. 00 kept\n",
        1,
    ),
    (
        "chapter 0 0 1 1 0\noffer 0 0 0 a. 1 set 1 5 a. 00 stored\n",
        1,
    ),
    ("chapter 0 0 1 1 0\nask 0 0 0 a. 1 any none miss \n", 1),
    ("chapter 0 0 1 1 0\nsweep 0 0 0 a. nx b.\n", 1),
];

fn entries_in(chapters: &[WrittenChapter]) -> usize {
    let mut count: usize = 0;
    for chapter in chapters {
        count = count.wrapping_add(chapter.entries.len());
    }
    count
}

fn events_in(chapters: &[WrittenChapter]) -> usize {
    let mut count: usize = 0;
    for chapter in chapters {
        count = count.wrapping_add(chapter.events.len());
    }
    count
}

/// How many chapters, entries and events an archive has.
fn counts_of(rt: &impl Abort, alloc: Global, text: &str) -> (usize, usize, usize) {
    let chapters = read_archive(alloc, text.as_bytes()).expect(rt, text);
    (
        chapters.len(),
        entries_in(chapters.as_slice()),
        events_in(chapters.as_slice()),
    )
}

#[test]
fn archives_are_read(rt: HostRuntime) {
    for (text, chapters, entries, events) in &READ {
        assert!(rt;
            counts_of(&rt, rt.alloc(), text) == (*chapters, *entries, *events),
            "{text}"
        );
    }
}

/// The line at which a text is no archive.
fn bad_line(alloc: Global, text: &str) -> Option<u64> {
    match read_archive(alloc, text.as_bytes()) {
        Err(ArchiveFault::BadLine(number)) => Some(number),
        _ => None,
    }
}

#[test]
fn bad_lines_of_archives(rt: HostRuntime) {
    for (text, number) in &BAD {
        assert!(rt; bad_line(rt.alloc(), text) == Some(*number), "{text}");
    }
}

fn is_text(rt: &impl Abort, alloc: Global, fault: ArchiveFault, wanted: &str) -> bool {
    let text = fault.to_string(alloc).expect(rt, wanted);
    text.as_str() == wanted
}

#[test]
fn texts_of_faults_of_archives(rt: HostRuntime) {
    let bad = "line 3 is not a line of an archive";
    assert!(rt; is_text(&rt, rt.alloc(), ArchiveFault::BadLine(3), bad));
    assert!(rt; is_text(&rt, rt.alloc(), ArchiveFault::Memory, "memory was refused"));
}

fn is_named(rt: &impl Abort, name: &Name, wanted: &str) -> bool {
    name.to_text().expect(rt, wanted).as_str() == wanted
}

fn is_key(rt: &impl Abort, key: &Key, name: &str, slot: Slot, class: u16) -> bool {
    is_named(rt, &key.name, name) && key.slot == slot && key.class == class
}

/// The body of a set: its trust, TTL and number of items, and whether this is its owner.
fn set_of(rt: &impl Abort, body: &Body, owner_wanted: &str) -> Option<(Trust, u32, usize)> {
    match body {
        Body::Positive {
            trust,
            ttl,
            owner,
            items,
        } if is_named(rt, owner, owner_wanted) => Some((*trust, *ttl, items.len())),
        _ => None,
    }
}

/// Whether an entry is the third one of the chapters above.
fn is_third_entry(rt: &impl Abort, entry: &Entry) -> bool {
    entry.number == 5
        && entry.moment == 80
        && is_key(rt, &entry.key, ".", Slot::Set(16), 3)
        && set_of(rt, &entry.body, ".") == Some((Trust::Additional, 4_294_967_295, 3))
}

/// Whether an event is the first one, which evicts a key.
fn is_first_event(rt: &impl Abort, event: &Event) -> bool {
    match event {
        Event::Offered {
            outcome: Outcome::Kept,
            tag,
            offer,
            evicted: Some(evicted),
        } => {
            *tag == Tag { line: 11, place: 0 }
                && offer.moment == 100
                && is_key(rt, &offer.key, "www.example.", Slot::Set(1), 1)
                && set_of(rt, &offer.body, "www.Example.")
                    == Some((Trust::AuthoritativeAnswer, 60, 2))
                && is_key(rt, evicted, ".", Slot::Set(16), 3)
        }
        _ => false,
    }
}

/// Whether an event is the fifth one, an ask with a fresh reply.
fn is_fifth_event(rt: &impl Abort, event: &Event) -> bool {
    match event {
        Event::Asked {
            tag,
            ask,
            reply: Reply::Fresh { set, left },
        } => {
            *tag == Tag { line: 14, place: 2 }
                && ask.moment == 159
                && is_named(rt, &ask.name, "www.example.")
                && (ask.rtype, ask.class) == (1, 1)
                && (ask.purpose, ask.mode) == (Purpose::Answer, Mode::NoStale)
                && is_named(rt, &set.owner, "www.Example.")
                && (set.items.len(), *left) == (2, 1)
        }
        _ => false,
    }
}

/// Whether an event is the last one, a sweep of two keys.
fn is_last_event(rt: &impl Abort, event: &Event) -> bool {
    match event {
        Event::Swept { tag, moment, gone } => {
            *tag == Tag { line: 20, place: 1 }
                && *moment == 18_446_744_073_709_551_615
                && gone.len() == 2
                && match gone.as_slice().last() {
                    Some(key) => is_key(rt, key, "b.example.", Slot::Failed(1), 254),
                    None => false,
                }
        }
        _ => false,
    }
}

fn is_first_chapter(rt: &impl Abort, chapter: &WrittenChapter) -> bool {
    let entries = chapter.entries.as_slice();
    let events = chapter.events.as_slice();
    (chapter.number, chapter.first) == (4, 7)
        && (chapter.rules.capacity, chapter.rules.chapter) == (3, 1_024)
        && chapter.rules.stale == 86_400
        && (entries.len(), events.len()) == (3, 12)
        && is_third_entry(rt, &entries[2])
        && is_first_event(rt, &events[0])
        && is_fifth_event(rt, &events[4])
        && is_last_event(rt, &events[11])
}

#[test]
fn chapters_of_an_archive_hold_what_it_tells(rt: HostRuntime) {
    let chapters = read_archive(rt.alloc(), TWO_CHAPTERS.as_bytes()).expect(&rt, "chapters");
    assert!(rt; chapters.len() == 2);
    assert!(rt; is_first_chapter(&rt, &chapters[0]));
    assert!(rt; (chapters[1].number, chapters[1].first) == (5, 18));
    assert!(rt; chapters[1].entries.is_empty() && chapters[1].events.is_empty());
}
