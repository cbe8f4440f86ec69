// SPDX-License-Identifier: MIT
use super::name;
use rrc_name::part_of;
use std::alloc::Global;
use std::process::Abort;

/// The parts that a name lies in, of four and of one.
fn parts(rt: &impl Abort, alloc: Global, text: &str) -> (usize, usize) {
    let name = name(rt, alloc, text);
    (part_of(&name, 4), part_of(&name, 1))
}

/// Names, and the part of four that each lies in.
static PARTS: [(&str, usize); 3] = [("a.example.", 1), ("A.eXample.", 1), ("B.example.", 0)];

#[test]
fn a_name_lies_in_one_part(rt: HostRuntime) {
    for (text, wanted) in &PARTS {
        assert!(rt; parts(&rt, rt.alloc(), text) == (*wanted, 0), "{text}");
    }
}
