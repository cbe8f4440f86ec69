// SPDX-License-Identifier: MIT
//! Chapters that were made before keys had a class.
ghost use Rattle.std.specs.Prelude.{◌≡◌, IfOk, IfErr, OnOk};
ghost use Rattle.rrc_history.specs.classless.Chapters.{LeadTo};
ghost use Rattle.rrc_cache.specs.Classless.{IsNumber, IsWhyNoChapter, IsWhyNotLegal};

use crate::part::KNOWN_SEED;
use crate::rechecks::RecheckFault;
use crate::restored::closing_after;
use crate::seeded::Seeded;
use rrc_history::classless::{Chapter, Event, Snapshot};
use rrc_history::{events_from_classless, snapshot_from_classless, snapshot_without_class};
use rrc_name::Sequence;
use std::alloc::{AllocError, Global};
use thiserror::Error;

/// Why events are no chapter.
#[derive(Clone, Copy, Debug, PartialEq, Eq, Hash, Error)]
pub enum ChapterFault {
    #[error("the number of a chapter is from 1 to 2^62 - 1")]
    BadNumber,
    /// The place of the first event that is not right after those before it, counted from 0.
    #[error("event {0} is not right")]
    NotLegal(usize),
    #[error("memory was refused")]
    Memory,
}

impl ChapterFault {
    ghost use Rattle.std.specs.Prelude.{◌≡◌};
    ghost use Rattle.rrc_cache.specs.Classless.{number_of};

    /// The number of the fault, from 1 to 3. Of several faults the one of the lowest number is
    /// answered.
    pub fn number(&self) -> u8
        ensures value { result ≡ number_of self.now }
    {
        match self {
            ChapterFault::BadNumber => 1,
            ChapterFault::NotLegal(_) => 2,
            ChapterFault::Memory => 3,
        }
    }
}

impl From<AllocError> for ChapterFault {
    ghost use Rattle.std.specs.Prelude.{◌≡◌};
    ghost use Rattle.rrc_cache.specs.declared.classless.ChapterFault.TheVariants.{Memory};

    ghost from_gives = { λ _ fault. fault ≡ Memory };

    fn from(_refused: AllocError) -> ChapterFault {
        ChapterFault::Memory
    }
}

impl From<RecheckFault> for ChapterFault {
    ghost use Rattle.std.specs.Prelude.{◌≡◌};
    ghost use Rattle.rrc_cache.specs.Classless.{fault_of};

    ghost from_gives = { λ recheck fault. fault ≡ fault_of recheck };

    fn from(fault: RecheckFault) -> ChapterFault {
        match fault {
            RecheckFault::FirstBad(bad) => ChapterFault::NotLegal(bad.0),
            RecheckFault::Memory => ChapterFault::Memory,
        }
    }
}

/// A chapter as it was made before keys had a class: a number, a snapshot, and the events since,
/// the oldest first, where they are legal from it. The closing is what they lead to.
///
/// It makes each call again in class IN, as `recheck` does, so its time is that of the calls and
/// its memory that of the events and keys. Keys are hashed behind a known seed: for a history whose
/// names anyone may have picked, `classless_chapter_seeded` takes one that nobody knows.
pub fn classless_chapter(
    alloc: Global,
    number: u64,
    snapshot: Snapshot,
    events: Vec<Event>,
) -> Result<Chapter, ChapterFault>
    ensures number { IfOk result (λ chapter. chapter.number ≡ number) }
    ensures snapshot { IfOk result (λ chapter. chapter.snapshot ≡ snapshot) }
    ensures events { IfOk result (λ chapter. chapter.events ≡ events.items) }
    ensures leads { IfOk result (λ chapter. LeadTo chapter.snapshot chapter.events chapter.closing) }
    ensures numbered { OnOk result (IsNumber number) }
    ensures err { IfErr result (IsWhyNoChapter number snapshot events.items) }
{
    classless_chapter_seeded(alloc, number, snapshot, events, KNOWN_SEED)
}

/// What `classless_chapter` makes, with keys hashed behind a seed. No answer depends on it.
pub fn classless_chapter_seeded(
    alloc: Global,
    number: u64,
    snapshot: Snapshot,
    events: Vec<Event>,
    seed: [u8; 16],
) -> Result<Chapter, ChapterFault>
    ensures number { IfOk result (λ chapter. chapter.number ≡ number) }
    ensures snapshot { IfOk result (λ chapter. chapter.snapshot ≡ snapshot) }
    ensures events { IfOk result (λ chapter. chapter.events ≡ events.items) }
    ensures leads { IfOk result (λ chapter. LeadTo chapter.snapshot chapter.events chapter.closing) }
    ensures numbered { OnOk result (IsNumber number) }
    ensures err { IfErr result (IsWhyNoChapter number snapshot events.items) }
{
    if number == 0 || number >= 1 << 62 {
        return Err(ChapterFault::BadNumber);
    }
    let closing = closing_of(alloc, &snapshot, events.as_slice(), Seeded::new(seed))?;
    Ok(Chapter {
        number,
        snapshot,
        events: Sequence::from_vec(events),
        closing,
    })
}

/// The snapshot that events lead to, or the first of them that is not right.
fn closing_of(
    alloc: Global,
    snapshot: &Snapshot,
    events: &[Event],
    seeded: Seeded,
) -> Result<Snapshot, ChapterFault>
    ensures ok { IfOk result (λ closing. LeadTo snapshot.now events.now closing) }
    ensures err { IfErr result (IsWhyNotLegal snapshot.now events.now) }
{
    let image = snapshot_from_classless(alloc, snapshot)?;
    let images = events_from_classless(alloc, events)?;
    let closing = closing_after(alloc, seeded, &image, images.as_slice())?;
    Ok(snapshot_without_class(alloc, &closing)?)
}
