// SPDX-License-Identifier: MIT
ghost use Rattle.std.specs.Prelude.{◌≡◌, ◌≤◌, nat_le, length};
ghost use Rattle.std.specs.List.{list_all, sum_by};
ghost use Rattle.rrc_sets.specs.Relevant.{is_set_of, items_of, length_of, has_length, is_measured};

use crate::relevance::RelevanceLimits;
use rrc_history::{Body, Offer};
use rrc_name::class::IN;
use rrc_name::rtype::{A, AAAA};
use rrc_name::{Octets, Slot};

/// Whether an offer is one of an RRset of a type.
pub(crate) fn is_set_of(rtype: u16, offer: &Offer) -> bool
    ensures { result ≡ is_set_of rtype offer.now }
{
    Slot::Set(rtype) == offer.key.slot
}

/// The data of an RRset.
pub(crate) fn items_of(body: &Body) -> &[Octets]
    ensures { result.now ≡ items_of body.now }
{
    match body {
        Body::Positive { items, .. } => items.as_slice(),
        Body::Negative { .. } | Body::Failure { .. } => &[],
    }
}

/// How many octets the data of an RRset have: an address of class IN has 4 or 16, other data any
/// number.
fn length_of(offer: &Offer) -> Option<usize>
    ensures { result ≡ length_of offer.now }
{
    if offer.key.class != IN {
        None
    } else if is_set_of(A, offer) {
        Some(4)
    } else if is_set_of(AAAA, offer) {
        Some(16)
    } else {
        None
    }
}

/// Whether octets are as many as they are to be.
fn has_length(wanted: Option<usize>, octets: &Octets) -> bool
    ensures { result ≡ has_length wanted octets.now }
{
    match wanted {
        Some(wanted) => octets.len() == wanted,
        None => true,
    }
}

/// Whether all data are as long as they are to be.
fn have_length(wanted: Option<usize>, items: &[Octets]) -> bool
    ensures { result ≡ list_all (has_length wanted) items.now }
{
    items.iter().all(|item| has_length(wanted, item))
}

/// Whether the octets of some data are no more than a limit, all together.
fn are_within(items: &[Octets], most: usize) -> bool
    ensures { result ≡ nat_le (sum_by length items.now) most }
{
    let mut octets = 0;
    for item in items {
        if item.len() > most - octets {
            return false;
        }
        octets += item.len();
    }
    true
}

/// Whether an RRset has no more octets of rdata than the limit, and its addresses are as long as
/// addresses are.
#[tactic(auto, unfolding(crate::specs::Relevant::is_measured))]
pub(crate) fn is_measured(relevance: &RelevanceLimits, offer: &Offer) -> bool
    ensures { result ≡ is_measured relevance.now offer.now }
{
    let items = items_of(&offer.body);
    are_within(items, relevance.octets as usize) && have_length(length_of(offer), items)
}
