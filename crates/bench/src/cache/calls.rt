// SPDX-License-Identifier: MIT
// The calls whose time is taken. A call that was refused counts as nothing, so what is printed
// shows it.

use crate::cache::inputs::{PickedAsk, PickedOffer, put_tenth};
use crate::cache::numbers::Numbers;
use crate::cache::part::{CachePart, TAG, is_answer};
use crate::cache::task::Kind;
use rrc_cache::{Part, Refusal, recheck};
use rrc_history::{Event, Outcome, Reply, audit};
use rrc_share::{Shelf, on_shelf_ask, on_shelf_checkpoint};
use std::alloc::Global;
use std::time::{CpuClock, Duration};

/// After how many asks a shelf's chapter is closed and let go.
const ASKS_OF_A_CHAPTER: u32 = 4096;

/// What came of the calls.
#[derive(Clone, Copy)]
pub struct Counts {
    pub hits: u64,
    pub misses: u64,
    pub kept: u64,
    pub evicted: u64,
    pub swept: u64,
    /// The events that were found right, or the calls that threads got an answer to.
    pub right: u64,
}

pub const NONE: Counts = Counts {
    hits: 0,
    misses: 0,
    kept: 0,
    evicted: 0,
    swept: 0,
    right: 0,
};

impl Counts {
    fn count(&mut self, is_hit: Option<bool>) {
        match is_hit {
            Some(true) => self.hits = self.hits.wrapping_add(1),
            Some(false) => self.misses = self.misses.wrapping_add(1),
            None => {}
        }
    }
}

/// What came of the calls, and the time that they took, if the system tells it.
#[derive(Clone, Copy)]
pub struct Done {
    pub counts: Counts,
    pub time: Option<Duration>,
}

/// The processor time that the thread took so far.
fn clock<R: CpuClock>(rt: &R) -> Option<Duration> {
    rt.thread_cpu_time().ok()
}

/// The processor time that the thread took since then.
fn since<R: CpuClock>(rt: &R, before: Option<Duration>) -> Option<Duration> {
    Some(clock(rt)?.saturating_sub(before?))
}

/// Whether a reply is an answer. `None` where the ask was refused.
pub fn answered(reply: Result<Reply, Refusal>) -> Option<bool> {
    match reply {
        Ok(reply) => Some(is_answer(&reply)),
        Err(_) => None,
    }
}

/// Whether a part answers a question, would answer it, or has room for the event.
fn is_hit(kind: Kind, parts: &mut [CachePart], picked: &PickedAsk) -> Option<bool> {
    let part = parts.get_mut(picked.part)?;
    match kind {
        Kind::Room => Some(part.has_room()),
        Kind::Would => Some(part.would_answer(&picked.ask)),
        Kind::Ask => part.ask(&picked.ask),
        _ => part.lend(&picked.ask),
    }
}

pub fn ask_all<R: CpuClock>(
    rt: &R,
    kind: Kind,
    parts: &mut [CachePart],
    asks: &[PickedAsk],
) -> Done {
    let mut counts = NONE;
    let before = clock(rt);
    for picked in asks {
        counts.count(is_hit(kind, parts, picked));
    }
    let time = since(rt, before);
    Done { counts, time }
}

/// Closes the shelf's chapter, and lets it go.
fn let_go(shelf: &mut Shelf) {
    if on_shelf_checkpoint(shelf).is_ok() {
        drop(shelf.take_chapters());
    }
}

/// Asks a shelf so often, in no order that shows, and lets each chapter go once it is closed.
pub fn ask_shelf<R: CpuClock>(rt: &R, shelf: &mut Shelf, asks: &[PickedAsk], calls: u32) -> Done {
    let mut counts = NONE;
    let mut numbers = Numbers::of(0);
    let before = clock(rt);
    for call in 0..calls {
        if let Some(picked) = asks.get(numbers.below(asks.len() as u64) as usize) {
            counts.count(answered(on_shelf_ask(shelf, TAG, &picked.ask)));
        }
        if call % ASKS_OF_A_CHAPTER == ASKS_OF_A_CHAPTER - 1 {
            let_go(shelf);
        }
    }
    let time = since(rt, before);
    Done { counts, time }
}

/// Whether a part keeps an offer.
fn is_kept(parts: &mut [CachePart], picked: PickedOffer) -> bool {
    match parts.get_mut(picked.part) {
        Some(part) => matches!(part.offer(picked.offer), Some(Outcome::Kept)),
        None => false,
    }
}

pub fn offer_all<R: CpuClock>(rt: &R, parts: &mut [CachePart], offers: Vec<PickedOffer>) -> Done {
    let mut counts = NONE;
    let before = clock(rt);
    for picked in offers {
        counts.kept = counts.kept.wrapping_add(u64::from(is_kept(parts, picked)));
    }
    let time = since(rt, before);
    for part in parts.iter() {
        if let Some(part) = part.recorded() {
            counts.evicted = counts.evicted.wrapping_add(evicted_in(part.events()));
        }
    }
    Done { counts, time }
}

/// How many keys these events evicted.
fn evicted_in(events: &[Event]) -> u64 {
    let mut evicted = 0u64;
    for event in events {
        let is_one = matches!(
            event,
            Event::Offered {
                evicted: Some(_),
                ..
            }
        );
        evicted = evicted.wrapping_add(u64::from(is_one));
    }
    evicted
}

/// Sweeps the only part, and answers how many keys that removed.
fn sweep(parts: &mut [CachePart], moment: u64) -> Option<usize> {
    parts.first_mut()?.sweep(moment)
}

/// So often puts a tenth of the part's keys for one second, and sweeps when they are fully expired.
/// The time is that of the sweeps.
pub fn sweep_all<R: CpuClock>(
    rt: &R,
    alloc: Global,
    parts: &mut [CachePart],
    keys: u32,
    calls: u32,
) -> Option<Done> {
    let mut counts = NONE;
    let mut time = Duration::ZERO;
    for call in 0..calls {
        let moment = u64::from(call).saturating_mul(2);
        put_tenth(alloc, parts, keys, moment)?;
        let before = clock(rt);
        let removed = sweep(parts, moment.saturating_add(1))?;
        time = time.saturating_add(since(rt, before)?);
        counts.swept = counts.swept.wrapping_add(removed as u64);
    }
    Some(Done {
        counts,
        time: Some(time),
    })
}

/// Follows places, each of which holds the next, so often: what a load from memory costs that no
/// other can begin before.
pub fn load_all<R: CpuClock>(rt: &R, places: &[u32], calls: u32) -> Option<Done> {
    let mut counts = NONE;
    let mut place = 0;
    let before = clock(rt);
    for _ in 0..calls {
        place = *places.get(place as usize)?;
        counts.count(Some((place as usize) < places.len()));
    }
    let time = since(rt, before);
    Some(Done { counts, time })
}

/// Whether the part's history is legal, by an audit or by a recheck.
fn is_legal(alloc: Global, kind: Kind, part: &Part) -> bool {
    match kind {
        Kind::Audit => audit(part.snapshot(), part.events()).is_ok(),
        _ => recheck(alloc, part.snapshot(), part.events()).is_ok(),
    }
}

/// Finds the only part's history legal.
pub fn audit_all<R: CpuClock>(
    rt: &R,
    alloc: Global,
    kind: Kind,
    parts: &[CachePart],
) -> Option<Done> {
    let part = parts.first()?.recorded()?;
    let before = clock(rt);
    if !is_legal(alloc, kind, part) {
        return None;
    }
    let time = since(rt, before);
    let right = part.events().len() as u64;
    Some(Done {
        counts: Counts { right, ..NONE },
        time,
    })
}
