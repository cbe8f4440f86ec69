// SPDX-License-Identifier: MIT
ghost use Rattle.std.specs.Prelude.{◌≡◌, ◌↔◌, drop, None, IfSome, IsSomeAnd};
ghost use Rattle.rrc_shelf.specs.Checks.{number_of_call, OnDone, OnRefused, OutOfMemory};
ghost use Rattle.rrc_shelf.specs.Refusals.{FoldingDue, IsFoldedName, RecordDue, WriteDue};
ghost use Rattle.rrc_c.specs.Handles.{BothHold, BothOrNone};
ghost use Rattle.rrc_c.specs.declared.handle_status.TheConstants.{NO_SHELF};
ghost use Rattle.rrc_shelf.specs.Shelves.{DropsRecord, IsLeftAs, MakesSweep, StartsRecord};
ghost use Rattle.rrc_shelf.specs.Upkeep.{DropsChapters, IsNextExpiry, SweepsSome, SweepsUntil, TellsSizes, TrimsShelf, TrimsUntil};
ghost use Rattle.rrc_shelf.specs.Offers.{TellsFault};

use crate::handle_status::NO_SHELF;
use crate::look::ShelfLook;
use crate::shelf_handle::ShelfHandle;
use rrc_shelf::{
    Division, FoldedName, Sizes, SweepTerms, Swept, TrimTerms, Trimmed, drop_chapters, expiry_of,
    fault_in, fold_name, number_of_call, number_of_u32, number_of_u64, record, sizes_of,
    stop_and_drop, sweep, sweep_some, trim,
};
use std::alloc::Global;

/// Removes the keys that are fully expired at a moment, which is one event, and tells how many.
#[unsafe(no_mangle)]
pub extern "C" fn rrc_sweep(handle: &mut ShelfHandle, terms: &SweepTerms, removed: &mut u64) -> u32
    ensures none { (result ≡ NO_SHELF) ↔ (handle.old.held.seal.shelf ≡ None) }
    ensures done { OnDone result (BothHold handle.old.held.seal.shelf handle.new.held.seal.shelf (λ old new. MakesSweep old new (record { line = terms.now.line; place = 0 }) terms.now.moment removed.new)) }
    ensures refused { OnRefused result (BothOrNone handle.old.held.seal.shelf handle.new.held.seal.shelf IsLeftAs) }
    ensures removed { OnRefused result (removed.new ≡ removed.old) }
    ensures seed { handle.new.seed ≡ handle.old.seed }
    ensures due { IfSome handle.old.held.seal.shelf (λ shelf. WriteDue shelf terms.now.moment result) }
{
    let Some(shelf) = handle.held.get_mut() else {
        return NO_SHELF;
    };
    let done = sweep(shelf, terms.line, terms.moment);
    number_of_u64(done, removed)
}

/// Sweeps in steps, each of which is one event: at each moment up to that of the call at which a
/// key may be fully expired, the earliest first, until as many keys are removed or as many sweeps
/// made as are to be at most.
#[unsafe(no_mangle)]
pub extern "C" fn rrc_sweep_some(
    handle: &mut ShelfHandle,
    terms: &SweepTerms,
    swept: &mut Swept,
) -> u32
    ensures none { (result ≡ NO_SHELF) ↔ (handle.old.held.seal.shelf ≡ None) }
    ensures done { OnDone result (BothHold handle.old.held.seal.shelf handle.new.held.seal.shelf (SweepsSome terms.now swept.new)) }
    ensures refused { OnRefused result (BothOrNone handle.old.held.seal.shelf handle.new.held.seal.shelf (SweepsUntil result terms.now swept.new)) }
    ensures swept { result ≡ NO_SHELF → swept.new ≡ swept.old }
    ensures seed { handle.new.seed ≡ handle.old.seed }
{
    let Some(shelf) = handle.held.get_mut() else {
        return NO_SHELF;
    };
    let done = sweep_some(shelf, terms, swept);
    number_of_call(done)
}

/// Removes keys, the one touched least recently first, until the keys that are left take no more
/// octets than the limit, or as many went as are to go at most. Each is one event, and of a failure
/// two.
#[unsafe(no_mangle)]
pub extern "C" fn rrc_trim(
    handle: &mut ShelfHandle,
    terms: &TrimTerms,
    trimmed: &mut Trimmed,
) -> u32
    ensures none { (result ≡ NO_SHELF) ↔ (handle.old.held.seal.shelf ≡ None) }
    ensures done { OnDone result (BothHold handle.old.held.seal.shelf handle.new.held.seal.shelf (TrimsShelf terms.now trimmed.new)) }
    ensures refused { OnRefused result (BothOrNone handle.old.held.seal.shelf handle.new.held.seal.shelf (TrimsUntil result terms.now)) }
    ensures trimmed { OnRefused result (trimmed.new ≡ trimmed.old) }
    ensures seed { handle.new.seed ≡ handle.old.seed }
{
    let Some(shelf) = handle.held.get_mut() else {
        return NO_SHELF;
    };
    match trim(shelf, terms) {
        Ok(told) => {
            *trimmed = told;
            0
        }
        Err(status) => status.number(),
    }
}

/// Records the history of a shelf from here on, with no chapter closed. Where it is recorded
/// already nothing is done.
#[unsafe(no_mangle)]
pub extern "C" fn rrc_record(handle: &mut ShelfHandle) -> u32
    ensures none { (result ≡ NO_SHELF) ↔ (handle.old.held.seal.shelf ≡ None) }
    ensures done { OnDone result (BothHold handle.old.held.seal.shelf handle.new.held.seal.shelf StartsRecord) }
    ensures refused { OnRefused result (handle.new.held.seal.shelf ≡ handle.old.held.seal.shelf) }
    ensures seed { handle.new.seed ≡ handle.old.seed }
    ensures due { IfSome handle.old.held.seal.shelf (λ shelf. RecordDue shelf result) }
{
    let Some(shelf) = handle.held.get_mut() else {
        return NO_SHELF;
    };
    let done = record(shelf);
    number_of_call(done)
}

/// Records nothing from here on, and drops what was recorded. Where nothing is recorded nothing is
/// done.
#[unsafe(no_mangle)]
pub extern "C" fn rrc_stop_and_drop(handle: &mut ShelfHandle) -> u32
    ensures none { (result ≡ NO_SHELF) ↔ (handle.old.held.seal.shelf ≡ None) }
    ensures done { OnDone result (BothHold handle.old.held.seal.shelf handle.new.held.seal.shelf DropsRecord) }
    ensures refused { OnRefused result (handle.new.held.seal.shelf ≡ handle.old.held.seal.shelf) }
    ensures seed { handle.new.seed ≡ handle.old.seed }
    ensures due { OnRefused result (handle.old.held.seal.shelf ≡ None) }
{
    let Some(shelf) = handle.held.get_mut() else {
        return NO_SHELF;
    };
    stop_and_drop(shelf);
    0
}

/// Takes the closed chapters, drops them, and tells how many there were.
#[unsafe(no_mangle)]
pub extern "C" fn rrc_drop_chapters(handle: &mut ShelfHandle, dropped: &mut u64) -> u32
    ensures none { (result ≡ NO_SHELF) ↔ (handle.old.held.seal.shelf ≡ None) }
    ensures done { OnDone result (BothHold handle.old.held.seal.shelf handle.new.held.seal.shelf (DropsChapters dropped.new)) }
    ensures refused { OnRefused result (BothOrNone handle.old.held.seal.shelf handle.new.held.seal.shelf IsLeftAs) }
    ensures dropped { OnRefused result (dropped.new ≡ dropped.old) }
    ensures seed { handle.new.seed ≡ handle.old.seed }
    ensures due { OnRefused result (handle.old.held.seal.shelf ≡ None) }
{
    let Some(shelf) = handle.held.get_mut() else {
        return NO_SHELF;
    };
    *dropped = drop_chapters(shelf);
    0
}

/// Tells a moment before which no key of a shelf is fully expired: the earliest at which a sweep
/// may remove one, or 2^64 - 1 exactly where the shelf holds no key. After a sweep, until an offer
/// comes or the chapter ends, it is later than the sweep's moment.
#[unsafe(no_mangle)]
pub extern "C" fn rrc_next_expiry(look: &mut ShelfLook, moment: &mut u64) -> u32
    ensures kept { look.new.look.sight.shelf ≡ look.old.look.sight.shelf }
    ensures life { look.new.look.sight.life ≡ look.old.look.sight.life }
    ensures none { (result ≡ NO_SHELF) ↔ (look.old.look.sight.shelf ≡ None) }
    ensures done { OnDone result (IsSomeAnd look.old.look.sight.shelf (λ shelf. IsNextExpiry shelf.shelf.part moment.new)) }
    ensures moment { OnRefused result (moment.new ≡ moment.old) }
    ensures due { OnRefused result (look.old.look.sight.shelf ≡ None) }
{
    let Some(glance) = look.look.take() else {
        return NO_SHELF;
    };
    *moment = expiry_of(glance.get());
    look.look.put(glance);
    0
}

/// Tells how many keys a shelf holds, how many events the open chapter has and how many chapters
/// are closed, of which there are none where nothing is recorded, and how many octets the entries
/// of the keys have.
#[unsafe(no_mangle)]
pub extern "C" fn rrc_sizes(look: &mut ShelfLook, sizes: &mut Sizes) -> u32
    ensures kept { look.new.look.sight.shelf ≡ look.old.look.sight.shelf }
    ensures life { look.new.look.sight.life ≡ look.old.look.sight.life }
    ensures none { (result ≡ NO_SHELF) ↔ (look.old.look.sight.shelf ≡ None) }
    ensures done { OnDone result (IsSomeAnd look.old.look.sight.shelf (TellsSizes sizes.new)) }
    ensures sizes { OnRefused result (sizes.new ≡ sizes.old) }
    ensures due { OnRefused result (look.old.look.sight.shelf ≡ None) }
{
    let Some(glance) = look.look.take() else {
        return NO_SHELF;
    };
    *sizes = sizes_of(glance.get());
    look.look.put(glance);
    0
}

/// Tells the number of the first fault of some octets, or 0 where they are a message.
#[unsafe(no_mangle)]
pub extern "C" fn rrc_fault(alloc: Global, octets: &[u8], fault: &mut u32) -> u32
    ensures done { OnDone result (TellsFault octets.now fault.new) }
    ensures refused { OnRefused result (fault.new ≡ fault.old) }
    ensures memory { OnRefused result (OutOfMemory result) }
{
    number_of_u32(fault_in(alloc, octets), fault)
}

/// Folds a name and hashes it by the seed of a division, and tells the part that it lies in, for
/// all that is asked of it.
#[unsafe(no_mangle)]
pub extern "C" fn rrc_make_name(octets: &[u8], division: &Division, name: &mut FoldedName) -> u32
    ensures done { OnDone result (IsFoldedName octets.now division.now name.new) }
    ensures behind { drop name.new.size name.new.octets ≡ drop name.new.size name.old.octets }
    ensures refused { OnRefused result (name.new ≡ name.old) }
    ensures due { FoldingDue octets.now division.now result }
{
    match fold_name(octets, division, name) {
        Ok(()) => 0,
        Err(status) => status.number(),
    }
}
