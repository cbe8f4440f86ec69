// SPDX-License-Identifier: MIT
// Calls a shared cache by several threads at once, or parts that no lock guards by one.

use crate::cache::calls::{Counts, Done, NONE, answered};
use crate::cache::inputs::{CHAPTER, PickedAsk, TTL, add_each, add_parts, fill, numbered, offer};
use crate::cache::numbers::Numbers;
use crate::cache::part::{CachePart, TAG};
use crate::cache::task::{Kind, NAMES, Task};
use rrc_history::{Offer, Outcome, Rules};
use rrc_share::SharedCache;
use std::alloc::Global;
use std::sync::Wait;
use std::thread::{Threads, map_vec};
use std::time::{Clock, Instant};

const MOST_THREADS: u32 = 64;

/// A call that a thread is to make.
#[derive(Drop)]
enum Turn<'a> {
    Ask(&'a PickedAsk),
    Offer(Offer),
}

/// Makes the call on a shared cache, and answers whether it got an answer or was kept.
fn is_served<R: Wait>(rt: &R, cache: &SharedCache, turn: Turn<'_>) -> bool {
    match turn {
        Turn::Ask(picked) => answered(cache.ask(rt, TAG, &picked.ask)).unwrap_or(false),
        Turn::Offer(offer) => matches!(cache.offer(rt, TAG, offer), Ok(Outcome::Kept)),
    }
}

/// Makes the calls on a shared cache, and answers how many got an answer or were kept.
fn call_all<R: Wait>(rt: &R, cache: &SharedCache, turns: Vec<Turn<'_>>) -> u64 {
    let mut served = 0_u64;
    for turn in turns {
        served = served.wrapping_add(u64::from(is_served(rt, cache, turn)));
    }
    served
}

/// Asks a part that no lock guards, and answers whether it got an answer.
fn is_hit(parts: &mut [CachePart], picked: &PickedAsk) -> bool {
    match parts.get_mut(picked.part) {
        Some(part) => part.ask(&picked.ask).unwrap_or(false),
        None => false,
    }
}

/// Makes the asks on parts that no lock guards, and answers how many got an answer.
fn call_lent(parts: &mut [CachePart], turns: &[Turn<'_>]) -> u64 {
    let mut served = 0_u64;
    for turn in turns {
        if let Turn::Ask(picked) = turn {
            served = served.wrapping_add(u64::from(is_hit(parts, picked)));
        }
    }
    served
}

/// An ask, or a put of the name that is asked for.
fn next_turn<'a>(alloc: Global, picked: &'a PickedAsk, is_put: bool) -> Option<Turn<'a>> {
    if is_put {
        Some(Turn::Offer(offer(alloc, &picked.ask.name, 1, TTL)?))
    } else {
        Some(Turn::Ask(picked))
    }
}

/// Adds the calls of a thread, in no order that shows: so many of each ten are puts, and they are
/// of so many names.
fn add_turns<'a>(
    alloc: Global,
    task: &Task<'_>,
    thread: u32,
    asks: &'a [PickedAsk],
    turns: &mut Vec<Turn<'a>>,
) -> Option<()> {
    let (puts, names) = match task.kind {
        Kind::Shared(puts, names) => (puts, names),
        _ => (0, NAMES),
    };
    let mut numbers = Numbers::of(thread);
    for call in 0..task.calls {
        let picked = asks.get(numbers.below(u64::from(names)) as usize)?;
        let turn = next_turn(alloc, picked, call % 10 < puts)?;
        turns.push(turn).ok()?;
    }
    Some(())
}

/// The calls of a thread.
fn turns<'a>(
    alloc: Global,
    task: &Task<'_>,
    thread: u32,
    asks: &'a [PickedAsk],
) -> Option<Vec<Turn<'a>>> {
    let mut turns = Vec::new(alloc);
    add_turns(alloc, task, thread, asks, &mut turns)?;
    Some(turns)
}

/// Adds the calls of each thread.
fn add_jobs<'a>(
    alloc: Global,
    task: &Task<'_>,
    asks: &'a [PickedAsk],
    jobs: &mut Vec<Vec<Turn<'a>>>,
) -> Option<()> {
    for thread in 0..task.threads {
        let turns = turns(alloc, task, thread, asks)?;
        jobs.push(turns).ok()?;
    }
    Some(())
}

/// What so many calls came to, since a moment.
fn done<R: Clock>(rt: &R, before: &Instant, served: u64) -> Done {
    let time = before.elapsed(rt).ok();
    Done {
        counts: Counts {
            right: served,
            ..NONE
        },
        time,
    }
}

/// Makes the calls, those of each thread by a thread, and answers how many were served.
fn served_by_all<R: Threads + Wait + Sync>(
    rt: &R,
    cache: &SharedCache,
    jobs: Vec<Vec<Turn<'_>>>,
) -> Option<u64> {
    let served = map_vec(rt, jobs, &|turns| call_all(rt, cache, turns)).ok()?;
    let mut all = 0_u64;
    for one in &served {
        all = all.wrapping_add(*one);
    }
    Some(all)
}

/// Puts an address of each name.
fn fill_shared<R: Wait>(rt: &R, alloc: Global, cache: &SharedCache) -> Option<()> {
    for number in 0..u64::from(NAMES) {
        let offer = numbered(alloc, number, 0, TTL)?;
        cache.offer(rt, TAG, offer).ok()?;
    }
    Some(())
}

/// The calls by threads on a shared cache that holds nothing yet.
fn on_cache<R: Threads + Wait + Sync + Clock>(
    rt: &R,
    alloc: Global,
    task: &Task<'_>,
    asks: &[PickedAsk],
    cache: &SharedCache,
) -> Option<Done> {
    fill_shared(rt, alloc, cache)?;
    let mut jobs = Vec::new(alloc);
    add_jobs(alloc, task, asks, &mut jobs)?;
    let before = Instant::now(rt).ok()?;
    let served = served_by_all(rt, cache, jobs)?;
    Some(done(rt, &before, served))
}

/// The calls by threads on a shared cache. Each part has room for all names, and for as many events
/// as a chapter may have.
fn shared<R: Threads + Wait + Sync + Clock>(
    rt: &R,
    alloc: Global,
    task: &Task<'_>,
    asks: &[PickedAsk],
) -> Option<Done> {
    if !(1..=64).contains(&task.parts) || task.threads > MOST_THREADS {
        return None;
    }
    let rules = Rules::new(u64::from(NAMES), CHAPTER, 0)?;
    let cache = SharedCache::new(alloc, task.parts as usize, rules, task.recording).ok()?;
    on_cache(rt, alloc, task, asks, &cache)
}

/// The calls by one thread on parts that no lock guards, of which there are none yet.
fn on_lent<R: Clock>(
    rt: &R,
    alloc: Global,
    task: &Task<'_>,
    turns: &[Turn<'_>],
    parts: &mut Vec<CachePart>,
) -> Option<Done> {
    add_parts(alloc, task.parts, NAMES, task.recording, parts)?;
    fill(alloc, parts.as_mut_slice(), u64::from(NAMES))?;
    let before = Instant::now(rt).ok()?;
    let served = call_lent(parts.as_mut_slice(), turns);
    Some(done(rt, &before, served))
}

fn lent<R: Clock>(rt: &R, alloc: Global, task: &Task<'_>, asks: &[PickedAsk]) -> Option<Done> {
    let turns = turns(alloc, task, 0, asks)?;
    let mut parts = Vec::new(alloc);
    on_lent(rt, alloc, task, turns.as_slice(), &mut parts)
}

pub fn called<R: Threads + Wait + Sync + Clock>(
    rt: &R,
    alloc: Global,
    task: &Task<'_>,
) -> Option<Done> {
    let mut asks = Vec::new(alloc);
    add_each(alloc, NAMES, task.parts, &mut asks)?;
    match task.kind {
        Kind::Lent => lent(rt, alloc, task, asks.as_slice()),
        _ => shared(rt, alloc, task, asks.as_slice()),
    }
}
