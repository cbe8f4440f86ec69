// SPDX-License-Identifier: MIT
mod chains;
mod entry_lists;

use crate::name::name;
use rrc_history::name::{Key, Slot};
use rrc_history::{Body, Entry};
use std::alloc::Global;
use std::process::Abort;

/// The failure of `a.example.` that the event of a number stored.
fn entry(rt: &impl Abort, alloc: Global, number: u64) -> Entry {
    let name = name(rt, alloc, "a.example.");
    Entry {
        key: Key::of(&name, 1, Slot::Failed(1)).expect(rt, "a key"),
        body: Body::Failure { ttl: 30 },
        moment: 10,
        number,
    }
}
