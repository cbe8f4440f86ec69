// SPDX-License-Identifier: MIT
ghost use Rattle.std.specs.Prelude.{◌≡◌, ◌↔◌, None, IfSome};
ghost use Rattle.rrc_shelf.specs.Checks.{number_of_call, Due, OnDone, OnRefused, Passes};
ghost use Rattle.rrc_c.specs.Handles.{BothHold, BothOrNone};
ghost use Rattle.rrc_c.specs.declared.handle_status.TheConstants.{NO_SHELF};
ghost use Rattle.rrc_shelf.specs.Shelves.{IsLeftAs};
ghost use Rattle.rrc_shelf.specs.Offers.{denial_offer, failure_offer, own_share, part_checks, whole, TakesMessage, TakesOne, TakesSet, TakesSome};
ghost use Rattle.rrc_shelf.specs.Refusals.{denial_checks, failure_checks, message_checks, set_checks, WriteDue};

use crate::handle_status::NO_SHELF;
use crate::shelf_handle::ShelfHandle;
use rrc_shelf::{
    Counts, FailureTerms, NegativeTerms, ResponseTerms, SetTerms, number_of_call, number_of_u32,
    offer_message, offer_part, take_failure, take_negative, take_set,
};
use std::alloc::Global;

/// Offers all that a message offers, which it compares with no query, each offer as one event.
#[unsafe(no_mangle)]
pub extern "C" fn rrc_offer_message_unchecked(
    alloc: Global,
    handle: &mut ShelfHandle,
    octets: &[u8],
    zone: &[u8],
    terms: &ResponseTerms,
    counts: &mut Counts,
) -> u32
    ensures none { (result ≡ NO_SHELF) ↔ (handle.old.held.seal.shelf ≡ None) }
    ensures done { OnDone result (BothHold handle.old.held.seal.shelf handle.new.held.seal.shelf (TakesMessage whole octets.now zone.now terms.now counts.new)) }
    ensures refused { OnRefused result (BothOrNone handle.old.held.seal.shelf handle.new.held.seal.shelf (TakesSome (message_checks octets.now zone.now terms.now.limits) whole result octets.now zone.now terms.now counts.new)) }
    ensures counts { result ≡ NO_SHELF → counts.new ≡ counts.old }
    ensures seed { handle.new.seed ≡ handle.old.seed }
{
    let Some(shelf) = handle.held.get_mut() else {
        return NO_SHELF;
    };
    let done = offer_message(alloc, shelf, octets, zone, terms, counts);
    number_of_call(done)
}

/// Offers what a message offers of the names that lie in the part of the terms, each offer as one
/// event. It compares the message with no query.
#[unsafe(no_mangle)]
pub extern "C" fn rrc_offer_part_unchecked(
    alloc: Global,
    handle: &mut ShelfHandle,
    octets: &[u8],
    zone: &[u8],
    terms: &ResponseTerms,
    counts: &mut Counts,
) -> u32
    ensures none { (result ≡ NO_SHELF) ↔ (handle.old.held.seal.shelf ≡ None) }
    ensures done { OnDone result (BothHold handle.old.held.seal.shelf handle.new.held.seal.shelf (TakesMessage (own_share terms.now) octets.now zone.now terms.now counts.new)) }
    ensures fit { OnDone result (Passes (part_checks octets.now zone.now terms.now handle.old.seed)) }
    ensures refused { OnRefused result (BothOrNone handle.old.held.seal.shelf handle.new.held.seal.shelf (TakesSome (part_checks octets.now zone.now terms.now handle.old.seed) (own_share terms.now) result octets.now zone.now terms.now counts.new)) }
    ensures counts { result ≡ NO_SHELF → counts.new ≡ counts.old }
    ensures seed { handle.new.seed ≡ handle.old.seed }
{
    let seed = handle.seed;
    let Some(shelf) = handle.held.get_mut() else {
        return NO_SHELF;
    };
    let done = offer_part(alloc, shelf, octets, zone, terms, &seed, counts);
    number_of_call(done)
}

/// Offers one set, which is one event.
#[unsafe(no_mangle)]
pub extern "C" fn rrc_offer_set(
    alloc: Global,
    handle: &mut ShelfHandle,
    owner: &[u8],
    set: &SetTerms,
    octets: &[u8],
    outcome: &mut u32,
) -> u32
    ensures none { (result ≡ NO_SHELF) ↔ (handle.old.held.seal.shelf ≡ None) }
    ensures done { OnDone result (BothHold handle.old.held.seal.shelf handle.new.held.seal.shelf (TakesSet owner.now set.now octets.now outcome.new)) }
    ensures refused { OnRefused result (BothOrNone handle.old.held.seal.shelf handle.new.held.seal.shelf IsLeftAs) }
    ensures outcome { OnRefused result (outcome.new ≡ outcome.old) }
    ensures seed { handle.new.seed ≡ handle.old.seed }
    ensures fit { OnDone result (Passes (set_checks owner.now set.now octets.now)) }
    ensures due { IfSome handle.old.held.seal.shelf (λ shelf. Due (set_checks owner.now set.now octets.now) (WriteDue shelf set.now.moment) result) }
{
    let Some(shelf) = handle.held.get_mut() else {
        return NO_SHELF;
    };
    let done = take_set(alloc, shelf, owner, set, octets);
    number_of_u32(done, outcome)
}

/// Offers a negative answer, which is one event.
#[unsafe(no_mangle)]
pub extern "C" fn rrc_offer_negative(
    alloc: Global,
    handle: &mut ShelfHandle,
    name: &[u8],
    negative: &NegativeTerms,
    soa_owner: &[u8],
    soa: &[u8],
    outcome: &mut u32,
) -> u32
    ensures none { (result ≡ NO_SHELF) ↔ (handle.old.held.seal.shelf ≡ None) }
    ensures done { OnDone result (BothHold handle.old.held.seal.shelf handle.new.held.seal.shelf (TakesOne negative.now.line (denial_offer name.now negative.now soa_owner.now soa.now) outcome.new)) }
    ensures refused { OnRefused result (BothOrNone handle.old.held.seal.shelf handle.new.held.seal.shelf IsLeftAs) }
    ensures outcome { OnRefused result (outcome.new ≡ outcome.old) }
    ensures seed { handle.new.seed ≡ handle.old.seed }
    ensures fit { OnDone result (Passes (denial_checks name.now negative.now soa_owner.now soa.now)) }
    ensures due { IfSome handle.old.held.seal.shelf (λ shelf. Due (denial_checks name.now negative.now soa_owner.now soa.now) (WriteDue shelf negative.now.moment) result) }
{
    let Some(shelf) = handle.held.get_mut() else {
        return NO_SHELF;
    };
    let done = take_negative(alloc, shelf, name, negative, soa_owner, soa);
    number_of_u32(done, outcome)
}

/// Offers that asking failed, which is one event.
#[unsafe(no_mangle)]
pub extern "C" fn rrc_offer_failure(
    alloc: Global,
    handle: &mut ShelfHandle,
    name: &[u8],
    failure: &FailureTerms,
    outcome: &mut u32,
) -> u32
    ensures none { (result ≡ NO_SHELF) ↔ (handle.old.held.seal.shelf ≡ None) }
    ensures done { OnDone result (BothHold handle.old.held.seal.shelf handle.new.held.seal.shelf (TakesOne failure.now.line (failure_offer name.now failure.now) outcome.new)) }
    ensures refused { OnRefused result (BothOrNone handle.old.held.seal.shelf handle.new.held.seal.shelf IsLeftAs) }
    ensures outcome { OnRefused result (outcome.new ≡ outcome.old) }
    ensures seed { handle.new.seed ≡ handle.old.seed }
    ensures fit { OnDone result (Passes (failure_checks name.now failure.now)) }
    ensures due { IfSome handle.old.held.seal.shelf (λ shelf. Due (failure_checks name.now failure.now) (WriteDue shelf failure.now.moment) result) }
{
    let Some(shelf) = handle.held.get_mut() else {
        return NO_SHELF;
    };
    let done = take_failure(alloc, shelf, name, failure);
    number_of_u32(done, outcome)
}
