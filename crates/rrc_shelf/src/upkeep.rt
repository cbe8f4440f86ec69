// SPDX-License-Identifier: MIT
ghost use Rattle.std.specs.Prelude.{◌≡◌, IfOk, IfErr, OnOk, OnErr};
ghost use Rattle.rrc_shelf.specs.Upkeep.{DropsChapters, IsNextExpiry, TellsSizes};
ghost use Rattle.rrc_shelf.specs.Offers.{TellsFault};
ghost use Rattle.rrc_shelf.specs.Checks.{number_of, number_of_call, OutOfMemory};
ghost use Rattle.rrc_shelf.specs.Refusals.{RecordDue};
ghost use Rattle.rrc_shelf.specs.Shelves.{DropsRecord, StartsRecord, recorded_chapters, recorded_events};

use crate::sizes::Sizes;
use crate::status::Status;
use core::mem::replace_with;
use rrc_share::{CacheShelf, NotSwitched};
use rrc_wire::{WireFault, read_message};
use std::alloc::Global;

/// A shelf that records from here on, or that shelf as it was, and why.
fn recording(shelf: CacheShelf, _nothing: ()) -> (CacheShelf, Result<(), Status>)
    ensures ok { OnOk result.1 (StartsRecord shelf result.0) }
    ensures err { OnErr result.1 (result.0 ≡ shelf) }
    ensures due { RecordDue shelf (number_of_call result.1) }
{
    match shelf.start_recording() {
        Ok(shelf) => (shelf, Ok(())),
        Err(NotSwitched { shelf, refusal }) => (shelf, Err(Status::from(refusal))),
    }
}

/// Records from here on.
pub fn record(shelf: &mut CacheShelf) -> Result<(), Status>
    ensures ok { OnOk result (StartsRecord shelf.old shelf.new) }
    ensures err { OnErr result (shelf.new ≡ shelf.old) }
    ensures due { RecordDue shelf.old (number_of_call result) }
{
    replace_with(shelf, (), recording)
}

/// A shelf that records nothing from here on.
fn dropped(shelf: CacheShelf, _nothing: ()) -> (CacheShelf, ())
    ensures { DropsRecord shelf result.0 }
{
    (shelf.drop_record(), ())
}

/// Records nothing from here on, and drops what was recorded.
pub fn stop_and_drop(shelf: &mut CacheShelf)
    ensures { DropsRecord shelf.old shelf.new }
{
    replace_with(shelf, (), dropped);
}

/// How many events the open chapter has, if they are recorded.
fn events_of(shelf: &CacheShelf) -> u64
    ensures { result ≡ recorded_events shelf.now.records shelf.now.shelf }
{
    match shelf.recorded() {
        Some(shelf) => shelf.part().events().len() as u64,
        None => 0,
    }
}

/// How many chapters are closed, if they are recorded.
fn chapters_of(shelf: &CacheShelf) -> u64
    ensures { result ≡ recorded_chapters shelf.now.records shelf.now.shelf }
{
    match shelf.recorded() {
        Some(shelf) => shelf.closed().len() as u64,
        None => 0,
    }
}

/// How much a shelf holds.
pub fn sizes_of(shelf: &CacheShelf) -> Sizes
    ensures { TellsSizes result shelf.now }
{
    Sizes {
        keys: shelf.len() as u64,
        events: events_of(shelf),
        chapters: chapters_of(shelf),
        octets: shelf.octets(),
    }
}

/// Drops the closed chapters, and tells how many there were.
pub fn drop_chapters(shelf: &mut CacheShelf) -> u64
    ensures { DropsChapters result shelf.old shelf.new }
{
    let dropped = chapters_of(shelf);
    drop(shelf.take_chapters());
    dropped
}

/// The next expiry of a shelf (`CacheShelf::next_expiry`), or the greatest number exactly where no
/// key holds anything.
pub fn expiry_of(shelf: &CacheShelf) -> u64
    ensures { IsNextExpiry shelf.now.shelf.part result }
{
    match shelf.next_expiry() {
        Some(moment) => moment,
        None => u64::MAX,
    }
}

/// The number of the first fault of some octets, or 0 where they are a message.
pub fn fault_in(alloc: Global, octets: &[u8]) -> Result<u32, Status>
    ensures fault { IfOk result (TellsFault octets.now) }
    ensures memory { IfErr result (λ status. OutOfMemory (number_of status)) }
{
    match read_message(alloc, octets) {
        Ok(_message) => Ok(0),
        Err(WireFault::Memory) => Err(Status::Memory),
        Err(fault) => Ok(u32::from(fault.number())),
    }
}
