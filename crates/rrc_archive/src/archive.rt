// SPDX-License-Identifier: MIT
ghost use Rattle.std.specs.Prelude.{◌≡◌, slice_get};
ghost use Rattle.std.specs.Option.{option_map};
ghost use Rattle.rrc_archive.specs.Archive.{line_text, lines_of, written_of};

use rrc_history::{Chapter, Entry, Event, Rules};
use std::alloc::{AllocError, AllocFailed};
use std::marker::Model;
use thiserror::Error;

/// A line of an archive: what a chapter begins with, what a key held then, or an event.
#[derive(Clone, Copy, Debug)]
pub enum ArchiveLine<'a> {
    Chapter {
        number: u64,
        /// The number of its first event.
        first: u64,
        rules: Rules,
    },
    Entry(&'a Entry),
    Event(&'a Event),
}

/// A chapter as an archive tells it. Whether it is one, and what its events lead to, is not looked
/// at: `rrc_cache::restored_chapter` does that.
#[derive(Debug, Drop)]
pub struct WrittenChapter {
    pub number: u64,
    /// The number of its first event.
    pub first: u64,
    pub rules: Rules,
    /// What the keys held before the first event, the key touched last first.
    pub entries: Vec<Entry>,
    /// The oldest first.
    pub events: Vec<Event>,
}

impl Model for WrittenChapter {
    ghost use Rattle.rrc_archive.specs.Archive.{WrittenOf};

    ghost Value = { WrittenOf };

    ghost view = { λ w. record { number = w.number; rules = w.rules; first = w.first; entries = w.entries.items; events = w.events.items } };
}

/// Why octets are no archive. Lines are numbered from 0.
#[derive(Clone, Copy, Debug, PartialEq, Eq, Hash, Error)]
pub enum ArchiveFault {
    #[error("line {0} is not a line of an archive")]
    BadLine(u64),
    #[error("memory was refused")]
    Memory,
}

impl From<AllocError> for ArchiveFault {
    ghost use Rattle.std.specs.Prelude.{◌≡◌};
    ghost use Rattle.rrc_archive.specs.declared.archive.ArchiveFault.TheVariants.{Memory};

    ghost from_gives = { λ _ fault. fault ≡ Memory };

    fn from(_refused: AllocError) -> ArchiveFault {
        ArchiveFault::Memory
    }
}

impl<T: Drop> From<AllocFailed<T>> for ArchiveFault {
    ghost use Rattle.std.specs.Prelude.{◌≡◌};
    ghost use Rattle.rrc_archive.specs.declared.archive.ArchiveFault.TheVariants.{Memory};

    ghost from_gives = { λ _ fault. fault ≡ Memory };

    fn from(_refused: AllocFailed<T>) -> ArchiveFault {
        ArchiveFault::Memory
    }
}

/// The line of a chapter at a place, counted from 0, if it has so many: first what it begins with,
/// then an entry for each key that was held, the key touched last first, then the events, the
/// oldest first. It takes no memory.
pub fn archive_line(chapter: &Chapter, place: usize) -> Option<ArchiveLine<'_>>
    ensures { option_map line_text result ≡ slice_get (lines_of (written_of chapter.now)) place }
{
    let snapshot = chapter.snapshot();
    let Some(behind) = place.checked_sub(1) else {
        return Some(ArchiveLine::Chapter {
            number: chapter.number(),
            first: snapshot.first,
            rules: snapshot.rules(),
        });
    };
    match behind.checked_sub(snapshot.entries.len()) {
        None => Some(ArchiveLine::Entry(snapshot.entries.get(behind)?)),
        Some(event) => Some(ArchiveLine::Event(chapter.events().get(event)?)),
    }
}
