// SPDX-License-Identifier: MIT
// What a message offers comes to its end where memory is there. Rows show what messages offer.

use rrc_name::Name;
use rrc_sets::{Limits, offers_in};
use std::alloc::Global;
use std::process::Abort;

/// NXDOMAIN for `a.example.` of type A, which is an alias for `b.example.`, with the SOA record of
/// `example.`
pub(crate) static DENIED_ALIAS: &[u8] = b"\x12\x34\x84\x03\0\x01\0\x01\0\x01\0\0\
    \x01a\x07example\0\0\x01\0\x01\
    \xc0\x0c\0\x05\0\x01\0\0\0\x3c\0\x04\x01b\xc0\x0e\
    \xc0\x0e\0\x06\0\x01\0\0\x0e\x10\0\x18\xc0\x0e\xc0\x0e\
    \0\0\0\x01\0\0\x0e\x10\0\0\x02\x58\0\x09\x3a\x80\0\0\x01\x2c";

/// How many offers a message makes for a zone.
fn offered(rt: &impl Abort, alloc: Global, octets: &[u8], zone: &Name) -> usize {
    let limits = Limits::new(604_800, 10_800, 30).expect(rt, "limits");
    let offers = offers_in(alloc, octets, zone, 100, &limits).expect(rt, "a message");
    offers.len()
}

#[test]
fn a_message_is_offered(rt: HostRuntime) {
    let zone = Name::root(rt.alloc()).expect(&rt, "a zone");
    // The alias, the SOA record, and that the alias's target does not exist.
    assert!(rt; offered(&rt, rt.alloc(), DENIED_ALIAS, &zone) == 3);
}
