// SPDX-License-Identifier: MIT
ghost use Rattle.std.specs.Prelude.{◌≡◌, not, IfOk, IfErr, OnErr};
ghost use Rattle.rrc_shelf.specs.Upkeep.{StopDue, StopsRecord, TakesClosed};
ghost use Rattle.rrc_shelf.specs.Checks.{number_of, number_of_call, OutOfMemory};
ghost use Rattle.rrc_shelf.specs.Refusals.{RecordDueBy};

use crate::status::Status;
use core::mem::replace_with;
use rrc_history::Chapter;
use rrc_share::{CacheShelf, NotSwitched};
use std::alloc::Global;
use std::marker::Model;

/// Chapters that left a shelf, the oldest first.
#[derive(Drop)]
pub struct Taken {
    pub chapters: Vec<Chapter>,
}

impl Model for Taken {
    ghost use Rattle.std.specs.Prelude.{List};
    ghost use Rattle.rrc_history.specs.Chapters.{ChapterOf};

    ghost Value = { List ChapterOf };

    ghost view = { λ t. t.chapters.items };
}

/// Takes the closed chapters of a shelf. The box is made first, so that no chapter is lost where
/// memory for it is refused.
pub fn take_chapters(alloc: Global, shelf: &mut CacheShelf) -> Result<Box<Taken>, Status>
    ensures ok { IfOk result (λ taken. TakesClosed taken.value shelf.old shelf.new) }
    ensures err { OnErr result (shelf.new ≡ shelf.old) }
    ensures memory { IfErr result (λ status. OutOfMemory (number_of status)) }
{
    let _records = shelf.is_recording();
    let mut taken = empty(alloc)?;
    taken.chapters = shelf.take_chapters();
    Ok(taken)
}

/// A shelf that records nothing from here on, and the chapters that it recorded; or that shelf as
/// it was, and why.
fn stopped(shelf: CacheShelf, _nothing: ()) -> (CacheShelf, Result<Vec<Chapter>, Status>)
    ensures ok { IfOk result.1 (λ chapters. StopsRecord chapters.items shelf result.0) }
    ensures err { OnErr result.1 (result.0 ≡ shelf) }
    ensures due { RecordDueBy (not shelf.records) shelf.shelf.part (number_of_call result.1) }
{
    match shelf.stop_recording() {
        Ok((shelf, chapters)) => (shelf, Ok(chapters)),
        Err(NotSwitched { shelf, refusal }) => (shelf, Err(Status::from(refusal))),
    }
}

/// Records nothing from here on, and takes all that was recorded, the open chapter last. The box is
/// made first, as by `take_chapters`.
pub fn stop_recording(alloc: Global, shelf: &mut CacheShelf) -> Result<Box<Taken>, Status>
    ensures ok { IfOk result (λ taken. StopsRecord taken.value shelf.old shelf.new) }
    ensures err { OnErr result (shelf.new ≡ shelf.old) }
    ensures due { StopDue shelf.old (number_of_call result) }
{
    let mut taken = empty(alloc)?;
    taken.chapters = replace_with(shelf, (), stopped)?;
    Ok(taken)
}

/// No chapters.
fn empty(alloc: Global) -> Result<Box<Taken>, Status>
    ensures { IfErr result (λ status. OutOfMemory (number_of status)) }
{
    let chapters = Vec::new(alloc);
    Ok(Box::new(alloc, Taken { chapters })?)
}
