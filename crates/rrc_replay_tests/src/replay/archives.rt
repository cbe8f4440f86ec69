// SPDX-License-Identifier: MIT
use rrc_replay::{Finding, audit_archive, history_in};
use std::alloc::Global;
use std::process::Abort;

/// Two chapters of one part of two keys: a set is stored, asked for, defended against glue, and
/// swept once it is max-stale seconds past its TTL.
const LEGAL: &str =
    "chapter 1 0 2 4096 86400\noffer 0 0 100 www.example. 1 set 4 60 www.Example. c0000201,c0000202 kept\nask 1 0 159 www.example. 1 answer none fresh 1 www.Example. c0000201,c0000202\nchapter 2 2 2 4096 86400\nentry 0 100 www.example. 1 set 4 60 www.Example. c0000201,c0000202\noffer 2 0 120 www.example. 1 set 1 60 www.example. c0000203 less\nsweep 3 0 86560 www.example. 1\n";

/// Archives that tell no legal history, and what is told of each.
static REFUSED: [(&str, &str); 10] = [
    ("", "not legal: the archive has no chapters\n"),
    (
        "chapter 1 0 2 4096 86400\nask\n",
        "not legal: line 1 is not a line of an archive\n",
    ),
    (
        "chapter 0 0 2 4096 86400\n",
        "not legal: chapter 0 has a number that no closed chapter has\n",
    ),
    (
        "chapter 1 7 2 4096 86400\nentry 7 1 a.example. failed1 failure 9\n",
        "not legal: chapter 0 begins with entries that no part holds: an entry has the number of one before it, or one that is not below the first event's\n",
    ),
    (
        "chapter 1 0 2 4096 86400\nsweep 0 0 1\nchapter 2 2 2 4096 86400\n",
        "not legal: chapter 1 does not follow the one before it\n",
    ),
    (
        "chapter 1 0 2 4096 86400\nsweep 0 0 1\nchapter 2 1 3 4096 86400\n",
        "not legal: chapter 1 does not begin with what the one before it ends with\n",
    ),
    (
        "chapter 1 1 2 4096 86400\nentry 0 100 www.example. 1 set 4 60 www.Example. c0000201\nsweep 1 0 120\noffer 2 0 120 www.example. 1 set 1 60 www.example. c0000203 kept\n",
        "not legal: chapter 0 of the archive, event 1 (line 3)\nwritten: offer 2 0 120 www.example. 1 set 1 60 www.example. c0000203 kept\ndue: offer 2 0 120 www.example. 1 set 1 60 www.example. c0000203 less\nheld: entry 0 100 www.example. 1 set 4 60 www.Example. c0000201\n",
    ),
    (
        "chapter 1 2 2 4096 86400\nentry 1 100 a.example. 1 set 4 60 a.example. c0000201\nentry 0 90 a.example. failed1 failure 30\nask 1 0 101 a.example. 1 answer none miss\n",
        "not legal: chapter 0 of the archive, event 0 (line 3)\nwritten: ask 1 0 101 a.example. 1 answer none miss\ndue: ask 1 0 101 a.example. 1 answer none fresh 59 a.example. c0000201\nheld: entry 1 100 a.example. 1 set 4 60 a.example. c0000201\nheld: entry 0 90 a.example. failed1 failure 30\n",
    ),
    (
        "chapter 1 0 2 4096 86400\nsweep 0 0 1\nchapter 2 1 2 4096 86400\nsweep 0 0 2 a.example. 1\n",
        "not legal: chapter 1 of the archive, event 0 (line 3)\nwritten: sweep 0 0 2 a.example. 1\ndue: sweep 0 0 2\n",
    ),
    (
        "chapter 1 4611686018427387904 2 4096 86400\nsweep 0 0 1\n",
        "not legal: chapter 0 of the archive, event 0 (line 1)\nwritten: sweep 0 0 1\ndue: none, since the numbers are spent or the moment is above 2^40\n",
    ),
];

/// Whether an audit of an archive finds this, and tells it in this text.
fn is_told(rt: &impl Abort, alloc: Global, archive: &str, finding: Finding, text: &str) -> bool {
    let audited = audit_archive(alloc, archive.as_bytes(), [0; 16]).expect(
        rt,
        "memory was refused",
    );
    audited.finding == finding && audited.text.as_slice() == text.as_bytes()
}

#[test]
fn an_archive_of_two_chapters_is_legal(rt: HostRuntime) {
    let text = "legal: 2 chapters, 4 events from number 0 on\n";
    assert!(rt; is_told(&rt, rt.alloc(), LEGAL, Finding::Legal, text));
}

#[test]
fn archives_are_refused_for_their_first_fault(rt: HostRuntime) {
    for &(archive, text) in &REFUSED {
        assert!(rt;
            is_told(&rt, rt.alloc(), archive, Finding::NotLegal, text),
            "{text}"
        );
    }
}

#[test]
fn an_archive_tells_all_of_its_events(rt: HostRuntime) {
    let whole = history_in(rt.alloc(), LEGAL.as_bytes(), [0; 16]).expect(&rt, "no history");
    assert!(rt; whole.events.as_slice().len() == 4 && whole.closing.entries.is_empty());
}
