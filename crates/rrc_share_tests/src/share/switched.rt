// SPDX-License-Identifier: MIT
ghost use Rattle.std.specs.Prelude.{◌≡◌, false};

use crate::cache::{TAG, failure, question, rules};
use rrc_cache::{LeanPart, NameHash, ReplyRef};
use rrc_history::{Ask, Chapter, audit, chain};
use rrc_share::CacheShelf;
use std::alloc::Global;
use std::process::Abort;

/// A seed that no shelf is under.
const SEED: [u8; 16] = [9; 16];

/// A shelf that kept a failure, by rules for chapters of one event, of which nothing is recorded.
fn kept(rt: &impl Abort, alloc: Global) -> CacheShelf
    ensures { result.records ≡ false }
{
    let part = LeanPart::new(alloc, rules(rt, 1)).expect(rt, "no part");
    let mut shelf = CacheShelf::new(alloc, part);
    let failure = failure(rt, alloc, "a.example.");
    shelf.offer(TAG, failure).expect(rt, "no outcome");
    shelf
}

/// From when on servers may be asked again.
fn retry_from(reply: ReplyRef<'_>) -> Option<u64> {
    match reply {
        ReplyRef::Miss { retry_from } => retry_from,
        _ => None,
    }
}

/// The same of an ask by two calls.
fn ask_by_two(rt: &impl Abort, shelf: &mut CacheShelf, ask: &Ask) -> Option<u64>
    requires { shelf.old.records ≡ false }
{
    let asked = ask.as_ref();
    let hash = NameHash::of(SEED, asked.name);
    let (lookup, pick) = shelf.judge(asked, hash).expect(rt, "no reply");
    let told = retry_from(lookup.reply);
    shelf.note_asked(TAG, asked, pick);
    told
}

/// The same of an ask that is looked up alone.
fn look_up(shelf: &CacheShelf, ask: &Ask) -> Option<u64> {
    let asked = ask.as_ref();
    retry_from(shelf.lookup(asked, NameHash::of(SEED, asked.name)).reply)
}

/// The chapters that are recorded of an ask and a sweep.
fn recorded(rt: &impl Abort, ask: &Ask, shelf: CacheShelf) -> Vec<Chapter> {
    let mut shelf = shelf.start_recording().expect(rt, "no record");
    shelf.ask(TAG, ask).expect(rt, "no reply");
    shelf.sweep(TAG, 40).expect(rt, "no sweep");
    shelf.stop_recording().expect(rt, "no chapters").1
}

/// How many entries a history begins with, how many events it has, and whether each is right.
pub(crate) fn audited(rt: &impl Abort, chapters: Vec<Chapter>) -> (usize, usize, bool) {
    let whole = chain(chapters).expect(rt, "no chain");
    let events = whole.events.as_slice();
    let is_right = audit(&whole.snapshot, events).is_ok();
    (whole.snapshot.entries.len(), events.len(), is_right)
}

#[test]
fn a_shelf_looks_up_the_same_whether_it_records_or_not(rt: HostRuntime) {
    let ask = question(&rt, rt.alloc(), "a.example.");
    let shelf = kept(&rt, rt.alloc());
    let lean = look_up(&shelf, &ask);
    let shelf = shelf.start_recording().expect(&rt, "no record");
    assert!(rt; (lean, look_up(&shelf, &ask)) == (Some(40), Some(40)));
}

#[test]
fn what_is_recorded_after_a_switch_chains_and_is_right(rt: HostRuntime) {
    let ask = question(&rt, rt.alloc(), "a.example.");
    let mut shelf = kept(&rt, rt.alloc());
    let told = ask_by_two(&rt, &mut shelf, &ask);
    let chapters = recorded(&rt, &ask, shelf);
    assert!(rt; told == Some(40) && chapters.len() == 2);
    assert!(rt; audited(&rt, chapters) == (1, 2, true));
}
