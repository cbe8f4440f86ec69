// SPDX-License-Identifier: MIT
ghost use Rattle.std.specs.Prelude.{◌≡◌, ◌<◌};

mod parts;
mod shelf;
mod switched;

use crate::cache::{TAG, failure, question, rules};
use rrc_cache::Refusal;
use rrc_history::{Outcome, Reply};
use rrc_share::{CacheShelf, Recording, SharedCache};
use shelf::is_in_chapter_2;
use std::alloc::Global;
use std::process::Abort;
use std::sync::Wait;

/// From when on servers may be asked again, by a reply that has no answer.
fn retry_from(reply: &Reply) -> Option<u64> {
    match reply {
        Reply::Miss { retry_from } => *retry_from,
        _ => None,
    }
}

/// The same of a reply that was not refused.
fn retry_of(rt: &impl Abort, reply: Result<Reply, Refusal>) -> Option<u64> {
    let reply = reply.expect(rt, "no reply");
    retry_from(&reply)
}

/// The same of what `would_answer` and then `ask` answer, of the addresses of a name.
fn told<R: Abort + Wait>(
    rt: &R,
    alloc: Global,
    cache: &SharedCache,
    name: &str,
) -> [Option<u64>; 2] {
    let ask = question(rt, alloc, name);
    let would = retry_of(rt, cache.would_answer(rt, &ask));
    [would, retry_of(rt, cache.ask(rt, TAG, &ask))]
}

/// Sweeps part 1, closes the chapters of parts 0 and 1, and takes that of part 1. It answers how
/// many keys were removed, and how many chapters taken.
fn close<R: Abort + Wait>(rt: &R, cache: &SharedCache) -> (usize, usize)
    requires { 1 < cache.now }
{
    let removed = cache.sweep_part(rt, 1, TAG, 40).expect(rt, "no sweep");
    cache.checkpoint_part(rt, 0).expect(rt, "no chapter");
    cache.checkpoint_part(rt, 1).expect(rt, "no chapter");
    (removed, cache.take_chapters(rt, 1).len())
}

/// Of a part that records: how many chapters are closed, the number of the one that is open, and
/// how many events that has.
fn stand(part: &CacheShelf) -> Option<(usize, u64, usize)> {
    match part.recorded() {
        Some(shelf) => {
            let part = shelf.part();
            Some((shelf.closed().len(), part.number(), part.events().len()))
        }
        None => None,
    }
}

/// Whether the parts record and stand so, in order.
fn stand_so(parts: &[CacheShelf], wanted: &[(usize, u64, usize)]) -> bool {
    for (part, wanted) in parts.iter().zip(wanted) {
        if stand(part) != Some(*wanted) {
            return false;
        }
    }
    parts.len() == wanted.len()
}

/// The name that was offered is in part 1, in whatever case it is asked for, and the other one in
/// part 0. Both parts closed a chapter, and that of part 1 was taken.
static STANDS: [(usize, u64, usize); 4] = [(1, 2, 0), (0, 2, 0), (0, 1, 0), (0, 1, 0)];

/// A cache of four parts, in chapters for so many events where they record, that kept a failure.
fn kept<R: Abort + Wait>(rt: &R, alloc: Global, chapter: u64, recording: Recording) -> SharedCache
    ensures { result ≡ 4 }
{
    let rules = rules(rt, chapter);
    let cache = SharedCache::new(alloc, 4, rules, recording).expect(rt, "no cache");
    let failure = failure(rt, alloc, "a.example.");
    cache.offer(rt, TAG, failure).expect(rt, "no outcome");
    cache
}

#[test]
fn calls_are_made_on_the_part_of_the_name(rt: HostRuntime) {
    let alloc = rt.alloc();
    let cache = kept(&rt, alloc, 8, Recording::On);
    let own = told(&rt, alloc, &cache, "A.eXample.");
    let other = told(&rt, alloc, &cache, "b.example.");
    let closed = close(&rt, &cache);
    let is_so = stand_so(cache.into_parts().as_slice(), &STANDS);
    assert!(rt; own == [Some(40), Some(40)] && other == [None, None]);
    assert!(rt; closed == (1, 1) && is_so);
}

/// Whether a part records, and event 1 stands in chapter 2 of it.
fn is_recorded_in_chapter_2(part: Option<&CacheShelf>) -> bool {
    match part {
        Some(part) => match part.recorded() {
            Some(shelf) => is_in_chapter_2(shelf),
            None => false,
        },
        None => false,
    }
}

#[test]
fn a_full_chapter_is_closed_under_the_lock(rt: HostRuntime) {
    let alloc = rt.alloc();
    let cache = kept(&rt, alloc, 1, Recording::On);
    let offer = failure(&rt, alloc, "a.example.");
    let outcome = cache.offer(&rt, TAG, offer).expect(&rt, "no outcome");
    assert!(rt; outcome == Outcome::Kept);
    assert!(rt; is_recorded_in_chapter_2(cache.into_parts().as_slice().get(1)));
}
