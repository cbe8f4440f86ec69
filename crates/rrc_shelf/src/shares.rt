// SPDX-License-Identifier: MIT
ghost use Rattle.std.specs.Prelude.{◌≡◌, ◌≤◌, ◌<◌, IfOk, IfErr, OnOk};
ghost use Rattle.rrc_shelf.specs.Readings.{bit_of, has_part, parts_below, share_checks, share_of, ShareIsPart, RefusedShareIsPart, TakesShare, TakesSomeOfShare};
ghost use Rattle.rrc_shelf.specs.Checks.{number_of, OutOfMemory, Passes, Refuses};

use crate::counts::Counts;
use crate::intake::{NONE, take_each};
use crate::reading::{Placed, Reading};
use crate::status::Status;
use crate::terms::Share;
use rrc_history::Offer;
use rrc_share::CacheShelf;
use std::alloc::Global;

/// Whether offers lie in a part.
fn has_part(placed: &[Placed], part: u64) -> bool
    ensures { result ≡ has_part placed.now part }
{
    placed.iter().any(|one| one.part == part)
}

/// The bit of a part where offers lie in it, else 0.
fn bit_of(placed: &[Placed], part: u64) -> u64
    requires { part < 64 }
    ensures { result ≡ bit_of placed.now part }
{
    if has_part(placed, part) { 1 << part } else { 0 }
}

/// The parts, of so many, in which offers lie, as bits: 1 for part 0, 2 for part 1, and so on.
pub fn parts_concerned(placed: &[Placed], parts: u64) -> u64
    requires { parts ≤ 64 }
    ensures { result ≡ parts_below placed.now parts }
{
    let mut bits = 0;
    for part in 0..parts {
        bits += bit_of(placed, part);
    }
    bits
}

/// The offers that lie in a part.
fn share_of(alloc: Global, placed: &[Placed], part: u64) -> Result<Vec<Offer>, Status>
    ensures share { IfOk result (λ offers. offers.items ≡ share_of part placed.now) }
    ensures memory { IfErr result (λ status. OutOfMemory (number_of status)) }
{
    let mut offers = Vec::new(alloc);
    for one in placed {
        if one.part == part {
            offers.push(one.offer.clone()?)?;
        }
    }
    Ok(offers)
}

/// The offers of a reading by this seed that lie in a part, where there is such a part.
fn share_in(
    alloc: Global,
    reading: &Reading,
    part: u64,
    seed: &[u8; 16],
) -> Result<Vec<Offer>, Status>
    ensures share { IfOk result (λ offers. offers.items ≡ share_of part reading.now.placed.items) }
    ensures fit { OnOk result (Passes (share_checks part reading.now seed.now)) }
    ensures refused { IfErr result (λ status. Refuses (share_checks part reading.now seed.now) (number_of status)) }
{
    if part >= reading.parts {
        return Err(Status::BadRules);
    }
    if reading.seed != *seed {
        return Err(Status::OtherSeed);
    }
    share_of(alloc, reading.placed.as_slice(), part)
}

/// Offers a shelf, whose names are hashed under the seed, what a reading has for a part.
pub fn offer_share(
    alloc: Global,
    shelf: &mut CacheShelf,
    reading: &Reading,
    share: &Share,
    seed: &[u8; 16],
    counts: &mut Counts,
) -> Result<(), Status>
    ensures ok { OnOk result (TakesShare share.now counts.new reading.now shelf.old shelf.new) }
    ensures fit { OnOk result (Passes (share_checks share.now.part reading.now seed.now)) }
    ensures err { IfErr result (λ status. TakesSomeOfShare (number_of status) share.now seed.now counts.new reading.now shelf.old shelf.new) }
{
    *counts = NONE;
    let offers = share_in(alloc, reading, share.part, seed)?;
    take_each(shelf, share.line, offers, counts)
}

/// What a reading of a message offers by a part is what `rrc_offer_part_unchecked` offers of the
/// message to that part, each offer with the same tag. The function does nothing; its contract is
/// the law.
pub fn a_share_is_what_a_part_is_offered()
    ensures { ShareIsPart }
{}

/// A refusal of a share leaves what a refusal of `rrc_offer_part_unchecked` leaves. The function
/// does nothing; its contract is the law.
pub fn a_refused_share_leaves_what_a_part_leaves()
    ensures { RefusedShareIsPart }
{}
