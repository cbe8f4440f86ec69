// SPDX-License-Identifier: MIT
use rrc_name::{Octets, RdataList};
use std::alloc::Global;
use std::process::Abort;

/// The rdata of A records, 192.0.2.1 and so on.
fn addresses(rt: &impl Abort, alloc: Global, records: u8) -> RdataList {
    let mut list = Vec::new(alloc);
    for record in 1..=records {
        let octets = Octets::from_slice(alloc, &[192, 0, 2, record]).expect(rt, "an address");
        list.push(octets).expect(rt, "a place");
    }
    RdataList::from_vec(list)
}

#[test]
fn lists_the_rdata_of_none_of_one_and_of_two_records(rt: HostRuntime) {
    let none = addresses(&rt, rt.alloc(), 0);
    assert!(rt; none.is_empty() && none.len() == 0);
    let one = addresses(&rt, rt.alloc(), 1);
    assert!(rt; !one.is_empty() && one.len() == 1);
    assert!(rt; one.as_slice()[0].as_slice() == [192u8, 0, 2, 1].as_slice());
    let two = addresses(&rt, rt.alloc(), 2);
    assert!(rt; two.len() == 2 && two.iter().count() == 2);
    assert!(rt; two.as_slice()[1].as_slice() == [192u8, 0, 2, 2].as_slice());
}

#[test]
fn compares_rdata_in_order(rt: HostRuntime) {
    let one = addresses(&rt, rt.alloc(), 1);
    let same = Octets::from_slice(rt.alloc(), &[192, 0, 2, 1]).expect(&rt, "an address");
    let other = Octets::from_slice(rt.alloc(), &[192, 0, 2, 2]).expect(&rt, "an address");
    assert!(rt; one == RdataList::one(same));
    assert!(rt; one != RdataList::one(other));
    assert!(rt; one != addresses(&rt, rt.alloc(), 2));
}
