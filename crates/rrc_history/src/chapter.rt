// SPDX-License-Identifier: MIT
ghost use Rattle.std.specs.Prelude.{◌≡◌, ◌<◌, ◌^◌};
ghost use Rattle.rrc_history.specs.Chapters.{LeadTo};

use crate::event::Event;
use crate::snapshot::Snapshot;
use rrc_name::{Sequence, Shared};
use std::marker::Model;

/// A piece of a part's history that is closed: the snapshot that it began with, the events since,
/// the oldest first, and the snapshot that they lead to, which the next chapter begins with: both
/// share it. Its number is below 2^62.
#[derive(Debug, Drop)]
pub struct Chapter {
    pub number: u64,
    pub snapshot: Shared<Snapshot>,
    pub events: Sequence<Event>,
    pub closing: Shared<Snapshot>,
}

impl Model for Chapter {
    ghost use Rattle.rrc_history.specs.Chapters.{ChapterOf, IsChapter};

    ghost Value = { ChapterOf };

    ghost view = { λ c. record { number = c.number; snapshot = c.snapshot; events = c.events; closing = c.closing } };

    ghost invariant = { λ c. IsChapter (record { number = c.number; snapshot = c.snapshot; events = c.events; closing = c.closing }) };
}

impl Chapter {
    /// The chapter's number among those of its part.
    pub fn number(&self) -> u64
        ensures value { result ≡ self.now.number }
        ensures below { self.now.number < 2 ^ 62 }
    {
        self.number
    }

    /// What the part held when the chapter began.
    pub fn snapshot(&self) -> &Snapshot
        ensures { result.now ≡ self.now.snapshot }
    {
        &self.snapshot
    }

    /// The events of the chapter, the oldest first. They are legal from the snapshot, and lead to
    /// the closing.
    pub fn events(&self) -> &[Event]
        ensures value { result.now ≡ self.now.events }
        ensures leads { LeadTo self.now.snapshot self.now.events self.now.closing }
    {
        self.events.as_slice()
    }

    /// The snapshot that the events lead to: the rules of the first, the number of the event behind
    /// them, and what the keys held then, the key touched last first.
    pub fn closing(&self) -> &Snapshot
        ensures value { result.now ≡ self.now.closing }
        ensures leads { LeadTo self.now.snapshot self.now.events self.now.closing }
    {
        &self.closing
    }
}
