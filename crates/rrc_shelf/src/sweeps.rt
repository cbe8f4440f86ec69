// SPDX-License-Identifier: MIT
ghost use Rattle.std.specs.Prelude.{◌≡◌, ◌+◌, ◌≤◌, IfErr, IfNone, IfOk, IfSome, OnErr, OnOk};
ghost use Rattle.rrc_cache.specs.Expiry.{NoneFullyExpiresBefore};
ghost use Rattle.rrc_shelf.specs.Checks.{number_of, number_of_call, Passes, Refuses};
ghost use Rattle.rrc_shelf.specs.Refusals.{WriteDue};
ghost use Rattle.rrc_shelf.specs.Shelves.{IsLeftAs, MakesSweep};
ghost use Rattle.rrc_shelf.specs.Upkeep.{step_checks, SweepsAll, SweepsSome, SweepsUntil, SweepsUpTo};

use crate::status::Status;
use crate::terms::SweepTerms;
use rrc_history::{LAST_MOMENT, Tag};
use rrc_share::CacheShelf;

/// What a sweep in steps came to.
#[repr(C)]
#[derive(Clone, Copy, Debug)]
pub struct Swept {
    /// How many keys it removed.
    pub removed: u64,
    /// 1 where no key is left that is fully expired at its moment, else 0.
    pub is_done: u32,
}

/// Sweeps a shelf, and tells how many keys were removed.
pub fn sweep(shelf: &mut CacheShelf, line: u64, moment: u64) -> Result<u64, Status>
    ensures ok { IfOk result (MakesSweep shelf.old shelf.new (record { line = line; place = 0 }) moment) }
    ensures left { OnErr result (IsLeftAs shelf.old shelf.new) }
    ensures due { WriteDue shelf.old moment (number_of_call result) }
{
    let removed = shelf.sweep(Tag { line, place: 0 }, moment)?;
    Ok(removed as u64)
}

/// The next moment, up to this one, at which a sweep may remove a key.
fn next_due(shelf: &CacheShelf, moment: u64) -> Option<u64>
    ensures some { IfSome result (λ next. next ≤ moment) }
    ensures none { IfNone result (NoneFullyExpiresBefore shelf.now.shelf.part (moment + 1)) }
{
    match shelf.next_expiry() {
        Some(next) if next <= moment => Some(next),
        _ => None,
    }
}

/// Whether a sweep in steps may be made.
fn check_steps(sweep: &SweepTerms) -> Result<(), Status>
    ensures fit { OnOk result (Passes (step_checks sweep.now)) }
    ensures refused { IfErr result (λ status. Refuses (step_checks sweep.now) (number_of status)) }
{
    if sweep.most == 0 {
        return Err(Status::BadRules);
    }
    if sweep.moment > LAST_MOMENT {
        return Err(Status::MomentTooLarge);
    }
    Ok(())
}

/// Makes sweeps in steps, and counts what they remove.
fn sweep_steps(shelf: &mut CacheShelf, terms: &SweepTerms, removed: &mut u64) -> Result<(), Status>
    requires none { removed.old ≡ 0 }
    requires fit { Passes (step_checks terms.now) }
    ensures ok { OnOk result (SweepsAll terms.now removed.new shelf.old shelf.new) }
    ensures err { IfErr result (λ status. SweepsUpTo (number_of status) terms.now removed.new shelf.old shelf.new) }
{
    for _ in 0..terms.most {
        if *removed >= terms.most {
            return Ok(());
        }
        let Some(next) = next_due(shelf, terms.moment) else {
            return Ok(());
        };
        let gone = sweep(shelf, terms.line, next)?;
        *removed = removed.saturating_add(gone);
    }
    Ok(())
}

/// Sweeps a shelf at each moment up to one at which a key may be fully expired, the earliest first,
/// until as many keys are removed, or as many sweeps made, as are to be at most.
pub fn sweep_some(
    shelf: &mut CacheShelf,
    terms: &SweepTerms,
    swept: &mut Swept,
) -> Result<(), Status>
    ensures ok { OnOk result (SweepsSome terms.now swept.new shelf.old shelf.new) }
    ensures err { IfErr result (λ status. SweepsUntil (number_of status) terms.now swept.new shelf.old shelf.new) }
{
    let mut removed = 0;
    *swept = Swept {
        removed,
        is_done: 0,
    };
    check_steps(terms)?;
    let done = sweep_steps(shelf, terms, &mut removed);
    swept.removed = removed;
    done?;
    if next_due(shelf, terms.moment).is_none() {
        swept.is_done = 1;
    }
    Ok(())
}
