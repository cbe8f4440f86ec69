// SPDX-License-Identifier: MIT
ghost use Rattle.std.specs.Prelude.{◌<◌};

use super::switched::audited;
use super::{kept, told};
use crate::cache::{TAG, question};
use rrc_history::{Ask, Chapter};
use rrc_share::{CacheShelf, Recording, SharedCache};
use std::process::Abort;
use std::sync::Wait;

/// The chapters that part 1 records of an ask and a sweep.
fn recorded<R: Abort + Wait>(rt: &R, cache: &SharedCache, ask: &Ask) -> Vec<Chapter>
    requires { 1 < cache.now }
{
    cache.record_part(rt, 1).expect(rt, "no record");
    cache.ask(rt, TAG, ask).expect(rt, "no reply");
    cache.sweep_part(rt, 1, TAG, 40).expect(rt, "no sweep");
    cache.release_part(rt, 1).expect(rt, "no chapters")
}

/// How many chapters part 1 has where nothing is recorded, after a checkpoint, and how many it
/// hands out when it is to record nothing.
fn unrecorded<R: Abort + Wait>(rt: &R, cache: &SharedCache) -> (usize, usize)
    requires { 1 < cache.now }
{
    cache.checkpoint_part(rt, 1).expect(rt, "no checkpoint");
    let taken = cache.take_chapters(rt, 1).len();
    let released = cache.release_part(rt, 1).expect(rt, "no chapters");
    (taken, released.len())
}

/// Has parts 2 and 3 record, and part 3 no more.
fn switch<R: Abort + Wait>(rt: &R, cache: &SharedCache)
    requires { 3 < cache.now }
{
    cache.record_part(rt, 2).expect(rt, "no record");
    cache.record_part(rt, 3).expect(rt, "no record");
    cache.drop_record(rt, 3);
}

/// Whether each part records.
fn record_so(parts: &[CacheShelf], wanted: &[bool]) -> bool {
    for (part, wanted) in parts.iter().zip(wanted) {
        if part.is_recording() != *wanted {
            return false;
        }
    }
    parts.len() == wanted.len()
}

#[test]
fn part_records_from_one_call_to_another(rt: HostRuntime) {
    let alloc = rt.alloc();
    let ask = question(&rt, alloc, "a.example.");
    let cache = kept(&rt, alloc, 1, Recording::Off);
    assert!(rt; told(&rt, alloc, &cache, "a.example.") == [Some(40), Some(40)]);
    assert!(rt; unrecorded(&rt, &cache) == (0, 0));
    let chapters = recorded(&rt, &cache, &ask);
    assert!(rt; chapters.len() == 2 && audited(&rt, chapters) == (1, 2, true));
}

#[test]
fn only_parts_that_were_switched_record(rt: HostRuntime) {
    let cache = kept(&rt, rt.alloc(), 1, Recording::Off);
    switch(&rt, &cache);
    let parts = cache.into_parts();
    assert!(rt; record_so(parts.as_slice(), &[false, false, true, false]));
}
