// SPDX-License-Identifier: MIT
ghost use Rattle.std.specs.Prelude.{◌≡◌, ◌↔◌, None, Some, IfNone, IfOk, OnErr, OnSome, length, IsSomeAnd, IfSome};
ghost use Rattle.rrc_shelf.specs.Upkeep.{LineDue, StopDue, StopsRecord, TakesClosed, TellsLine};
ghost use Rattle.rrc_c.specs.Handles.{BothHold};
ghost use Rattle.rrc_shelf.specs.Checks.{number_of_call, IsDoneOrMemory, OnDone, OnRefused};
ghost use Rattle.rrc_c.specs.declared.handle_status.TheConstants.{HAS_CHAPTERS, NO_CHAPTERS, NO_SHELF};

use crate::chapters::Chapters;
use crate::handle_status::{HAS_CHAPTERS, NO_CHAPTERS, NO_SHELF};
use crate::shelf_handle::ShelfHandle;
use rrc_shelf::{Line, LinePlace, Status, Taken, stop_recording, take_chapters, tell_line};
use std::alloc::Global;

/// Puts chapters that were taken into a handle, in the place of none, and tells how many they are.
fn hold(taken: Result<Box<Taken>, Status>, chapters: &mut Chapters, count: &mut u64) -> u32
    ensures value { result ≡ number_of_call taken }
    ensures shelf { result ≡ NO_SHELF → ⊥ }
    ensures held { IfOk taken (λ taken. chapters.new.seal.chapters ≡ Some taken.value) }
    ensures count { IfOk taken (λ taken. count.new ≡ length taken.value) }
    ensures kept { OnErr taken (chapters.new.seal.chapters ≡ chapters.old.seal.chapters) }
    ensures untold { OnErr taken (count.new ≡ count.old) }
{
    match taken {
        Err(status) => status.number(),
        Ok(taken) => {
            *count = taken.chapters.len() as u64;
            chapters.boxed().put(taken);
            0
        }
    }
}

/// Takes the closed chapters of a shelf into a handle that holds none, and tells how many they are.
#[unsafe(no_mangle)]
pub extern "C" fn rrc_take_chapters(
    alloc: Global,
    handle: &mut ShelfHandle,
    chapters: &mut Chapters,
    count: &mut u64,
) -> u32
    ensures none { (result ≡ NO_SHELF) ↔ (handle.old.held.seal.shelf ≡ None) }
    ensures has { OnSome handle.old.held.seal.shelf (OnSome chapters.old.seal.chapters (result ≡ HAS_CHAPTERS)) }
    ensures due { OnSome handle.old.held.seal.shelf (IfNone chapters.old.seal.chapters (IsDoneOrMemory result)) }
    ensures done { OnDone result (IsSomeAnd chapters.new.seal.chapters (λ held. BothHold handle.old.held.seal.shelf handle.new.held.seal.shelf (TakesClosed held))) }
    ensures count { OnDone result (IsSomeAnd chapters.new.seal.chapters (λ held. count.new ≡ length held)) }
    ensures refused { OnRefused result (handle.new.held.seal.shelf ≡ handle.old.held.seal.shelf) }
    ensures seed { handle.new.seed ≡ handle.old.seed }
    ensures kept { OnRefused result (chapters.new.seal.chapters ≡ chapters.old.seal.chapters) }
    ensures untold { OnRefused result (count.new ≡ count.old) }
{
    let Some(shelf) = handle.held.get_mut() else {
        return NO_SHELF;
    };
    if chapters.is_live() {
        return HAS_CHAPTERS;
    }
    let taken = take_chapters(alloc, shelf);
    hold(taken, chapters, count)
}

/// Records nothing from here on, and takes all chapters that were recorded, the open one last, into
/// a handle that holds none. It tells how many they are.
#[unsafe(no_mangle)]
pub extern "C" fn rrc_stop_recording(
    alloc: Global,
    handle: &mut ShelfHandle,
    chapters: &mut Chapters,
    count: &mut u64,
) -> u32
    ensures none { (result ≡ NO_SHELF) ↔ (handle.old.held.seal.shelf ≡ None) }
    ensures has { OnSome handle.old.held.seal.shelf (OnSome chapters.old.seal.chapters (result ≡ HAS_CHAPTERS)) }
    ensures due { IfSome handle.old.held.seal.shelf (λ shelf. IfNone chapters.old.seal.chapters (StopDue shelf result)) }
    ensures done { OnDone result (IsSomeAnd chapters.new.seal.chapters (λ held. BothHold handle.old.held.seal.shelf handle.new.held.seal.shelf (StopsRecord held))) }
    ensures count { OnDone result (IsSomeAnd chapters.new.seal.chapters (λ held. count.new ≡ length held)) }
    ensures refused { OnRefused result (handle.new.held.seal.shelf ≡ handle.old.held.seal.shelf) }
    ensures seed { handle.new.seed ≡ handle.old.seed }
    ensures kept { OnRefused result (chapters.new.seal.chapters ≡ chapters.old.seal.chapters) }
    ensures untold { OnRefused result (count.new ≡ count.old) }
{
    let Some(shelf) = handle.held.get_mut() else {
        return NO_SHELF;
    };
    let holds_chapters = chapters.is_live();
    if holds_chapters {
        return HAS_CHAPTERS;
    }
    let taken = stop_recording(alloc, shelf);
    hold(taken, chapters, count)
}

/// Tells of a line of a chapter in the text of an archive, with its LF, the octets from a place on,
/// as many as fit the buffer, and how many they are. Chapters and lines are counted from 0.
#[unsafe(no_mangle)]
pub extern "C" fn rrc_chapter_line(
    alloc: Global,
    chapters: &mut Chapters,
    place: &LinePlace,
    buffer: &mut [u8],
    told: &mut Line,
) -> u32
    ensures none { (result ≡ NO_CHAPTERS) ↔ (chapters.old.seal.chapters ≡ None) }
    ensures due { IfSome chapters.old.seal.chapters (λ held. LineDue held place.now result) }
    ensures done { OnDone result (IsSomeAnd chapters.old.seal.chapters (λ held. TellsLine held place.now told.new buffer.old buffer.new)) }
    ensures told { OnRefused result (told.new ≡ told.old) }
    ensures buffer { OnRefused result (buffer.new ≡ buffer.old) }
    ensures kept { chapters.new.seal.chapters ≡ chapters.old.seal.chapters }
{
    let Some(held) = chapters.get_mut() else {
        return NO_CHAPTERS;
    };
    tell_line(alloc, held.chapters.as_slice(), place, buffer, told)
}

/// Frees the chapters of a handle, which then holds none.
#[unsafe(no_mangle)]
pub extern "C" fn rrc_free_chapters(alloc: Global, chapters: &mut Chapters) -> u32
    ensures left { chapters.new.seal.chapters ≡ None }
    ensures none { (result ≡ NO_CHAPTERS) ↔ (chapters.old.seal.chapters ≡ None) }
    ensures status { OnRefused result (chapters.old.seal.chapters ≡ None) }
{
    match chapters.boxed().take(alloc) {
        None => NO_CHAPTERS,
        Some(taken) => {
            drop(taken);
            0
        }
    }
}
