// SPDX-License-Identifier: MIT
// Messages that are read: their headers, of which what a message offers shows little, and the
// example of the crate's page.

use rrc_wire::{Message, Octets, WireFault, read_message};
use std::alloc::Global;
use std::process::Abort;

/// The flags of a header (RFC 1035 section 4.1.1): their octets, the opcode, AA, TC, RD, RA, and
/// the RCODE.
type Flags = ([u8; 2], u8, bool, bool, bool, bool, u8);

static FLAGS: [Flags; 8] = [
    ([0x80, 0x00], 0, false, false, false, false, 0),
    ([0x84, 0x00], 0, true, false, false, false, 0),
    ([0x82, 0x00], 0, false, true, false, false, 0),
    ([0x81, 0x00], 0, false, false, true, false, 0),
    ([0x80, 0x80], 0, false, false, false, true, 0),
    ([0xc8, 0x05], 9, false, false, false, false, 5),
    ([0xb0, 0x0a], 6, false, false, false, false, 10),
    // The three bits Z are ignored.
    ([0x80, 0x70], 0, false, false, false, false, 0),
];

/// Whether a message has the identifier 0x1234, these flags, and the question `.` of type 2 and
/// class 1.
fn has_header(message: &Message, flags: &Flags) -> bool {
    let question = &message.question;
    message.id == 0x1234
        && message.opcode == flags.1
        && message.aa == flags.2
        && message.tc == flags.3
        && message.rd == flags.4
        && message.ra == flags.5
        && message.rcode == flags.6
        && question.qtype == 2
        && question.qclass == 1
        && question.name.wire.as_slice() == b"\0".as_slice()
}

/// Asserts that a message with these flags has them once it is read.
fn header_is_read(rt: &impl Abort, alloc: Global, flags: &Flags) {
    let [high, low] = flags.0;
    let octets = [0x12, 0x34, high, low, 0, 1, 0, 0, 0, 0, 0, 0, 0, 0, 2, 0, 1];
    let message = read_message(alloc, &octets).expect(rt, "a message");
    assert!(rt; has_header(&message, flags));
}

#[test]
fn headers_are_read(rt: HostRuntime) {
    for flags in &FLAGS {
        header_is_read(&rt, rt.alloc(), flags);
    }
}

/// Whether a message asks for `.` of type 1 and class 1.
fn asks_for_the_root(message: &Message) -> bool {
    let question = &message.question;
    question.qtype == 1 && question.qclass == 1 && question.name.wire.as_slice() == b"\0".as_slice()
}

/// A pointer leads to any octet before it, those of the header too (RFC 1035 section 4.1.4).
#[test]
fn a_question_in_the_header(rt: HostRuntime) {
    let octets = [0, 0, 0x84, 0, 0, 1, 0, 0, 0, 0, 0, 0, 0xc0, 0, 0, 1, 0, 1];
    let message = read_message(rt.alloc(), &octets).expect(&rt, "a message");
    assert!(rt; asks_for_the_root(&message));
}

/// A response to `a.example.` of type A: an alias for `b.example.` and the two addresses of that.
static RESPONSE: &[u8] = b"\x12\x34\x84\0\0\x01\0\x03\0\0\0\0\
    \x01a\x07example\0\0\x01\0\x01\
    \xc0\x0c\0\x05\0\x01\0\0\0\x3c\0\x04\x01b\xc0\x0e\
    \xc0\x27\0\x01\0\x01\0\0\0\x3c\0\x04\xc0\0\x02\x01\
    \xc0\x27\0\x01\0\x01\0\0\0\x3c\0\x04\xc0\0\x02\x02";

/// The addresses that a response has in its answer, as the crate's page shows it.
fn addresses_in(alloc: Global, response: &[u8]) -> Result<Vec<Octets>, WireFault> {
    let message = read_message(alloc, response)?;
    let mut addresses = Vec::new(alloc);
    for rr in &message.answer {
        if rr.rtype == 1 {
            addresses.push(rr.rdata.clone()?)?;
        }
    }
    Ok(addresses)
}

/// Whether there are two addresses, 192.0.2.1 and 192.0.2.2.
fn are_both(addresses: &[Octets]) -> bool {
    matches!(addresses, [first, second]
        if first.as_slice() == [192, 0, 2, 1].as_slice()
            && second.as_slice() == [192, 0, 2, 2].as_slice())
}

#[test]
fn addresses_of_a_response(rt: HostRuntime) {
    let addresses = addresses_in(rt.alloc(), RESPONSE).expect(&rt, "a response");
    assert!(rt; are_both(addresses.as_slice()));
}
