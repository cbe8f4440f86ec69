// SPDX-License-Identifier: MIT
use rrc_name::Sequence;
use std::process::Abort;

fn is_cloned(rt: &impl Abort, values: &Sequence<u8>) -> bool {
    values.clone().expect(rt, "a clone") == *values
}

#[test]
fn clones_a_sequence(rt: HostRuntime) {
    let mut values = Sequence::new(rt.alloc());
    values.push(7u8).expect(&rt, "a place");
    assert!(rt; is_cloned(&rt, &values));
}
