// SPDX-License-Identifier: MIT
use super::name;
use rrc_name::{Name, NameRef, WireNameFault};
use std::alloc::Global;
use std::cmp::Ordering;
use std::process::Abort;

/// Texts, the wire forms of the names that they spell, and what is printed of these (RFC 1035
/// section 5.1).
static NAMES: [(&str, &[u8], &str); 10] = [
    (".", b"\0", "."),
    ("a", b"\x01a\0", "a."),
    ("www.Example.", b"\x03www\x07Example\0", "www.Example."),
    (r"\.", b"\x01.\0", r"\.."),
    (r"a\.", b"\x02a.\0", r"a\.."),
    (r"\\.b", b"\x01\\\x01b\0", r"\\.b."),
    (r"a\.b\\.\097", b"\x04a.b\\\x01a\0", r"a\.b\\.a."),
    (r"\000\255.", b"\x02\x00\xff\0", r"\000\255."),
    (
        r"\009\032.\127",
        b"\x02\x09\x20\x01\x7f\0",
        r"\009\032.\127.",
    ),
    (r"\@\;\(!~", b"\x05@;(!~\0", "@;(!~."),
];

fn is_read(rt: &impl Abort, alloc: Global, text: &str, wire: &[u8]) -> bool {
    name(rt, alloc, text).as_slice() == wire
}

fn is_printed(rt: &impl Abort, alloc: Global, wire: &[u8], text: &str) -> bool {
    let name = Name::from_wire(alloc, wire).expect(rt, text);
    name.to_text().expect(rt, text).as_str() == text
}

#[test]
fn reads_and_prints_names(rt: HostRuntime) {
    for (text, wire, printed) in &NAMES {
        assert!(rt; is_read(&rt, rt.alloc(), text, wire), "{text}");
        assert!(rt; is_printed(&rt, rt.alloc(), wire, printed), "{printed}");
    }
}

/// The names of RFC 4034 section 6.1, each before the next, with the root before them.
static RISING: [&str; 10] = [
    ".",
    "example.",
    "a.example.",
    "yljkjljk.a.example.",
    "Z.a.example.",
    "zABC.a.EXAMPLE.",
    "z.example.",
    r"\001.z.example.",
    "*.z.example.",
    r"\200.z.example.",
];

/// How a name stands to another one.
fn order(rt: &impl Abort, alloc: Global, text: &str, other: &str) -> Ordering {
    name(rt, alloc, text).canonical_cmp(&name(rt, alloc, other))
}

#[test]
fn orders_names_canonically(rt: HostRuntime) {
    for (place, text) in RISING.iter().enumerate() {
        for (behind, other) in RISING.iter().enumerate() {
            let order = order(&rt, rt.alloc(), text, other);
            assert!(rt; order == place.cmp(&behind), "{text} and {other}");
        }
    }
}

/// Whether a name is one more owner of what it is folded to, and no copy.
fn is_shared(rt: &impl Abort, low: &Name) -> bool {
    let again = low.folded().expect(rt, "one more owner");
    again.wire.owners() == 2
}

/// Whether the name of a text is folded to the one of a wire form, which has no other owner.
fn is_folded(rt: &impl Abort, alloc: Global, text: &str, wire: &[u8]) -> bool {
    let low = name(rt, alloc, text).folded().expect(rt, text);
    let is_shared = is_shared(rt, &low);
    is_shared && low.wire.owners() == 1 && low.as_slice() == wire
}

/// The letters A to Z alone have a case (RFC 4343).
#[test]
fn a_folded_name_is_shared(rt: HostRuntime) {
    let wire = b"\x03www\x07example\x03z-9\x01[\0".as_slice();
    assert!(rt; is_folded(&rt, rt.alloc(), "wWw.EXAMPLE.Z-9.[", wire));
}

/// Whether octets are lent as the name of a wire form, and the name that is made of it is the same.
fn is_lent(rt: &impl Abort, alloc: Global, octets: &[u8]) -> bool {
    let lent = NameRef::from_wire(octets).expect(rt, "no name");
    let own = lent.to_owned(alloc).expect(rt, "no name of its own");
    lent.as_slice() == octets && own.as_ref() == lent
}

#[test]
fn a_wire_form_is_lent_as_a_name(rt: HostRuntime) {
    let octets = b"\x03wWw\x07EXAMPLE\x03Z-9\x01[\0".as_slice();
    assert!(rt; is_lent(&rt, rt.alloc(), octets));
    assert!(rt; is_lent(&rt, rt.alloc(), b"\0".as_slice()));
}

fn fault_of(octets: &[u8]) -> Option<WireNameFault> {
    match NameRef::from_wire(octets) {
        Ok(_name) => None,
        Err(fault) => Some(fault),
    }
}

/// Octets that are the wire form of no name, and why (RFC 1035 section 2.3.4).
static NO_NAMES: [(&[u8], WireNameFault); 3] = [
    (b"\x03ww", WireNameFault::Short),
    (b"\x40", WireNameFault::LabelTooLong),
    (b"\x01a\0\0", WireNameFault::LeftOver),
];

#[test]
fn what_is_no_name_is_not_lent(rt: HostRuntime) {
    for (octets, fault) in &NO_NAMES {
        assert!(rt; fault_of(octets) == Some(*fault), "{fault}");
    }
}
