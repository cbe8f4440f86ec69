// SPDX-License-Identifier: MIT
ghost use Rattle.std.specs.Prelude.{◌≡◌, [], ◌∷◌, true, IfOk, IfErr};
ghost use Rattle.rrc_history.specs.Fits.{has_items};
ghost use Rattle.rrc_script.specs.Scripts.{offer_of, failure_of, failure_by, ask_of, Fetches};

use rrc_history::{Ask, Body, Mode, Offer, Purpose};
use rrc_name::{Key, Name, Slot};
use rrc_sets::{Limits, life, offers_in};
use rrc_trace::{Fetch, Put, ReplayFault};
use rrc_wire::WireFault;
use std::alloc::{AllocError, Global};

/// The offer of a put, which lives as long as a time to live that is written so (RFC 8767 section
/// 4).
pub fn offer_at(put: &Put, limits: &Limits) -> Result<Offer, AllocError>
    requires { has_items put.now.items ≡ true }
    ensures { IfOk result (λ offer. offer ≡ offer_of limits.now put.now) }
{
    let key = Key::of(&put.name, put.class, Slot::Set(put.rtype))?;
    let body = Body::Positive {
        owner: put.name.clone()?,
        items: put.items.clone()?,
        trust: put.trust,
        ttl: life(put.ttl, limits),
    };
    match Offer::new(key, body, put.moment) {
        Ok(offer) => Ok(offer),
        Err(_) => unreachable!(),
    }
}

/// The offer that a question could not be answered (RFC 8767 section 5).
pub fn failure_at(
    moment: u64,
    name: &Name,
    class: u16,
    rtype: u16,
    limits: &Limits,
) -> Result<Offer, AllocError>
    ensures { IfOk result (λ offer. offer ≡ failure_of limits.now moment name.now class rtype) }
{
    let key = Key::of(name, class, Slot::Failed(rtype))?;
    let body = Body::Failure {
        ttl: limits.recheck,
    };
    match Offer::new(key, body, moment) {
        Ok(offer) => Ok(offer),
        Err(_) => unreachable!(),
    }
}

/// The one offer of a fetch that got no message: that its question could not be answered.
fn failure_alone(alloc: Global, fetch: &Fetch, limits: &Limits) -> Result<Vec<Offer>, AllocError>
    ensures { IfOk result (λ offers. offers.items ≡ failure_by limits.now fetch.now ∷ []) }
{
    let mut offers = Vec::with_capacity(alloc, 1)?;
    let failure = failure_at(fetch.moment, &fetch.name, fetch.class, fetch.rtype, limits)?;
    offers.push(failure)?;
    Ok(offers)
}

/// What a fetch offers: what the message offers that was fetched, or where none was, that the
/// question could not be answered.
pub fn offers_fetched(
    alloc: Global,
    fetch: &Fetch,
    limits: &Limits,
) -> Result<Vec<Offer>, ReplayFault>
    ensures ok { IfOk result (λ offers. Fetches limits.now fetch.now offers.items) }
    ensures err { IfErr result (λ fault. fault ≡ ReplayFault.Memory) }
{
    let Some(octets) = &fetch.octets else {
        return Ok(failure_alone(alloc, fetch, limits)?);
    };
    match offers_in(alloc, octets.as_slice(), &fetch.zone, fetch.moment, limits) {
        Ok(offers) => Ok(offers),
        Err(WireFault::Memory) => Err(ReplayFault::Memory),
        Err(_) => Ok(failure_alone(alloc, fetch, limits)?),
    }
}

/// What a fetch asks for its question.
pub fn ask_at(fetch: &Fetch, mode: Mode) -> Result<Ask, AllocError>
    ensures { IfOk result (λ ask. ask ≡ ask_of fetch.now mode) }
{
    Ok(Ask {
        name: fetch.name.folded()?,
        class: fetch.class,
        rtype: fetch.rtype,
        moment: fetch.moment,
        purpose: Purpose::Answer,
        mode,
    })
}
