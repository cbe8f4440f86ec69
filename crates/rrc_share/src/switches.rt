// SPDX-License-Identifier: MIT
ghost use Rattle.std.specs.Prelude.{◌≡◌, true, false, not, IfErr, IfOk, OnErr, OnOk};
ghost use Rattle.rrc_share.specs.CacheShelf.{lean_shelf};
ghost use Rattle.rrc_share.specs.Shared.{AreChained};
ghost use Rattle.rrc_share.specs.Switches.{IsSwitchDue, Starts, Stops};

use crate::cache_shelf::{CacheShelf, NotSwitched};
use core::mem::replace_with;
use rrc_cache::Refusal;
use rrc_history::Chapter;

/// A part that records from here on, or that part as it was, and why.
fn recording(shelf: CacheShelf, _nothing: ()) -> (CacheShelf, Result<(), Refusal>)
    ensures records { OnOk result.1 (result.0.records ≡ true) }
    ensures ok { OnOk result.1 (Starts shelf.records shelf.shelf result.0.shelf) }
    ensures err { OnErr result.1 (result.0 ≡ shelf) }
    ensures due { IsSwitchDue (not shelf.records) shelf.shelf.part result.1 }
{
    match shelf.start_recording() {
        Ok(shelf) => (shelf, Ok(())),
        Err(NotSwitched { shelf, refusal }) => (shelf, Err(refusal)),
    }
}

/// Has a part record from here on, where it lies (`CacheShelf::start_recording`).
pub(crate) fn record(shelf: &mut CacheShelf) -> Result<(), Refusal>
    ensures records { OnOk result (shelf.new.records ≡ true) }
    ensures ok { OnOk result (Starts shelf.old.records shelf.old.shelf shelf.new.shelf) }
    ensures err { OnErr result (shelf.new ≡ shelf.old) }
    ensures due { IsSwitchDue (not shelf.old.records) shelf.old.shelf.part result }
{
    replace_with(shelf, (), recording)
}

/// A part that records nothing from here on, with the chapters that it closed, or that part as it
/// was, and why.
fn released(shelf: CacheShelf, _nothing: ()) -> (CacheShelf, Result<Vec<Chapter>, Refusal>)
    ensures records { OnOk result.1 (result.0.records ≡ false) }
    ensures ok { IfOk result.1 (λ chapters. Stops shelf.records shelf.shelf result.0.shelf chapters.items) }
    ensures err { OnErr result.1 (result.0 ≡ shelf) }
    ensures due { IsSwitchDue shelf.records shelf.shelf.part result.1 }
{
    match shelf.stop_recording() {
        Ok((shelf, chapters)) => (shelf, Ok(chapters)),
        Err(NotSwitched { shelf, refusal }) => (shelf, Err(refusal)),
    }
}

/// Has a part record nothing from here on, where it lies, and hands out the chapters of its record
/// (`CacheShelf::stop_recording`).
pub(crate) fn release(shelf: &mut CacheShelf) -> Result<Vec<Chapter>, Refusal>
    ensures records { OnOk result (shelf.new.records ≡ false) }
    ensures ok { IfOk result (λ chapters. Stops shelf.old.records shelf.old.shelf shelf.new.shelf chapters.items) }
    ensures err { OnErr result (shelf.new ≡ shelf.old) }
    ensures due { IsSwitchDue shelf.old.records shelf.old.shelf.part result }
{
    replace_with(shelf, (), released)
}

/// A part that records nothing from here on.
fn unrecorded(shelf: CacheShelf, _nothing: ()) -> (CacheShelf, ())
    ensures { result.0 ≡ record { records = false; shelf = lean_shelf shelf.shelf.part } }
{
    (shelf.drop_record(), ())
}

/// Has a part record nothing from here on, where it lies, and drops its record
/// (`CacheShelf::drop_record`).
pub(crate) fn drop_record(shelf: &mut CacheShelf)
    ensures { shelf.new ≡ record { records = false; shelf = lean_shelf shelf.old.shelf.part } }
{
    replace_with(shelf, (), unrecorded);
}
