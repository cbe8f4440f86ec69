// SPDX-License-Identifier: MIT
use super::entry;
use rrc_history::{Entry, EntryList};
use std::alloc::Global;
use std::process::Abort;

fn entries(rt: &impl Abort, alloc: Global, numbers: &[u64]) -> Vec<Entry> {
    let mut entries = Vec::new(alloc);
    for number in numbers {
        let entry = entry(rt, alloc, *number);
        entries.push(entry).expect(rt, "a place");
    }
    entries
}

/// Whether the names of a list's entries have so many owners. A copy of an entry is one more, and a
/// list that shares the entry is none.
fn have_owners(list: &EntryList, wanted: &[usize]) -> bool {
    for (place, owners) in wanted.iter().enumerate() {
        let Some(entry) = list.get(place) else {
            return false;
        };
        if entry.key.name().wire.owners() != *owners {
            return false;
        }
    }
    list.len() == wanted.len()
}

/// A list without the entries of some numbers, and with new ones in front, whose entries' names
/// then have so many owners.
fn renewed(
    rt: &impl Abort,
    alloc: Global,
    list: &EntryList,
    front: &[u64],
    gone: &[u64],
    owners: &[usize],
) -> EntryList {
    let rest = list.without(alloc, gone).expect(rt, "what stays");
    let front = entries(rt, alloc, front);
    let list = rest.led_by(alloc, front).expect(rt, "a list");
    assert!(rt; have_owners(&list, owners), "{owners:?}");
    list
}

#[test]
fn renews_a_list(rt: HostRuntime) {
    let own = EntryList::from_vec(entries(&rt, rt.alloc(), &[4, 3, 2, 1]));
    // What no other list has is copied.
    let first = renewed(&rt, rt.alloc(), &own, &[5], &[3, 9], &[1, 2, 2, 2]);
    // 4 comes to the front and 1 is gone. 5 and 2 are shared.
    let _second = renewed(&rt, rt.alloc(), &first, &[4, 6], &[4, 1, 4], &[1, 1, 1, 2]);
}

/// The list has one batch, and a renewal adds one to those that it shares. Where there are 64 the
/// entries are copied, and two batches are left.
static COPIES: [u64; 3] = [63, 126, 189];

/// Puts each number in the place of the one before it, in a list of that and of 1000.
fn renew_often(rt: &impl Abort, alloc: Global, list: &mut EntryList) {
    for number in 0..200u64 {
        let owners = if COPIES.contains(&number) { 2 } else { 1 };
        *list = renewed(rt, alloc, list, &[number + 1], &[number], &[1, owners]);
    }
}

#[test]
fn renews_in_few_batches(rt: HostRuntime) {
    let none = EntryList::new(rt.alloc());
    let mut list = renewed(&rt, rt.alloc(), &none, &[0, 1000], &[], &[1, 1]);
    renew_often(&rt, rt.alloc(), &mut list);
}
