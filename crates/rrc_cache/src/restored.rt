// SPDX-License-Identifier: MIT
//! Chapters that left the process and are read again.
ghost use Rattle.std.specs.Prelude.{◌≡◌, ◌+◌, length, reverse, IfOk, IfErr, OnOk};
ghost use Rattle.rrc_history.specs.Chapters.{LeadTo};
ghost use Rattle.rrc_history.specs.Right.{IsLegal};
ghost use Rattle.rrc_cache.specs.Calls.{Leaves};
ghost use Rattle.rrc_cache.specs.Classless.{IsNumber};
ghost use Rattle.rrc_cache.specs.Rechecks.{IsFault};
ghost use Rattle.rrc_cache.specs.Restored.{HandsBack, IsWhyNotRestored};

use crate::classless::ChapterFault;
use crate::rechecks::{RecheckFault, replayed};
use crate::seeded::Seeded;
use rrc_history::{Chapter, Event, Snapshot};
use rrc_name::{Sequence, Shared};
use std::alloc::Global;
use thiserror::Error;

/// Why a snapshot and events are no chapter, and both, as they were.
#[derive(Debug, Drop, Error)]
#[error("{fault}")]
pub struct NotRestored {
    pub snapshot: Shared<Snapshot>,
    pub events: Vec<Event>,
    pub fault: ChapterFault,
}

/// The chapter of a number, of a snapshot, and of the events since, the oldest first, where these
/// are legal from it. The closing is what they lead to. `rrc_history::chain` then tells whether
/// chapters go on from one another.
///
/// It makes each call again, as `recheck_seeded` does, so its time is that of the calls and its
/// memory that of the keys. Keys are hashed behind the seed; no answer depends on it.
pub fn restored_chapter(
    alloc: Global,
    number: u64,
    snapshot: Shared<Snapshot>,
    events: Vec<Event>,
    seed: [u8; 16],
) -> Result<Chapter, NotRestored>
    ensures number { IfOk result (λ chapter. chapter.number ≡ number) }
    ensures snapshot { IfOk result (λ chapter. chapter.snapshot ≡ snapshot) }
    ensures events { IfOk result (λ chapter. chapter.events ≡ events.items) }
    ensures leads { IfOk result (λ chapter. LeadTo chapter.snapshot chapter.events chapter.closing) }
    ensures numbered { OnOk result (IsNumber number) }
    ensures err { IfErr result (λ refused. IsWhyNotRestored number snapshot events.items refused.fault) }
    ensures handed_back { IfErr result (HandsBack snapshot events.items) }
{
    if number == 0 || number >= 1 << 62 {
        return Err(NotRestored {
            snapshot,
            events,
            fault: ChapterFault::BadNumber,
        });
    }
    match closing_after(alloc, Seeded::new(seed), &snapshot, events.as_slice()) {
        Ok(closing) => Ok(Chapter {
            number,
            snapshot,
            events: Sequence::from_vec(events),
            closing,
        }),
        Err(fault) => Err(NotRestored {
            snapshot,
            events,
            fault: ChapterFault::from(fault),
        }),
    }
}

/// The snapshot that events lead to, or the first of them that is not right.
pub(crate) fn closing_after(
    alloc: Global,
    seeded: Seeded,
    snapshot: &Snapshot,
    events: &[Event],
) -> Result<Shared<Snapshot>, RecheckFault>
    ensures leaves { IfOk result (λ closing. Leaves snapshot.now (reverse events.now) closing.entries) }
    ensures rules { IfOk result (λ closing. closing.rules ≡ snapshot.now.rules) }
    ensures first { IfOk result (λ closing. closing.first ≡ snapshot.now.first + length events.now) }
    ensures leads { IfOk result (LeadTo snapshot.now events.now) }
    ensures err { IfErr result (IsFault snapshot.now events.now) }
{
    let mut store = replayed(alloc, seeded, snapshot, events)?;
    let first = number_after(snapshot, events);
    let closing = store.close(alloc, snapshot.rules(), first)?;
    Ok(closing)
}

/// The number of the event behind a history.
fn number_after(snapshot: &Snapshot, events: &[Event]) -> u64
    requires { IsLegal snapshot.now (reverse events.now) }
    ensures { result ≡ snapshot.now.first + length events.now }
{
    snapshot.first + events.len() as u64
}
