// SPDX-License-Identifier: MIT
ghost use Rattle.std.specs.Prelude.{IfOk, OnOk};
ghost use Rattle.std.specs.List.{AllByRecursion};
ghost use Rattle.rrc_archive.specs.ArchiveFields.{tag_at, outcome_of, offer_at, evicted_of, offered_of, asked_of, with_key, keys_of, swept_of};
ghost use Rattle.rrc_archive.specs.ArchiveLaw.{IsNumber, HoldsKey, HoldsTag, HoldsOffer, HoldsEvicted, HoldsEvent};
ghost use Rattle.rrc_text.specs.Fields.{said_at};
ghost use Rattle.rrc_text.specs.Gives.{Gives};

use crate::read::body::body_at;
use crate::read::number::{count_at, kind_at};
use crate::read::reply::reply_in;
use crate::read::slot::{key_at, owner_at};
use rrc_history::{Ask, Event, Offer, Outcome, Tag};
use rrc_name::{Key, Sequence};
use rrc_text::{LineFault, field_at, has_field, mode_at, purpose_at};
use std::alloc::Global;

/// What a caller calls a call by, and its moment, and the octets behind them.
#[tactic(auto, unfolding(crate::specs::ArchiveFields::tag_at))]
fn tag_at(octets: &[u8]) -> Result<(Tag, u64, &[u8]), LineFault>
    ensures held { IfOk result (λ found. HoldsTag found.0 × IsNumber found.1) }
    ensures exact { Gives (λ found. (found.0, found.1, found.2.now)) result (tag_at octets.now) }
{
    let (line, rest) = count_at(octets)?;
    let (place, rest) = count_at(rest)?;
    let (moment, rest) = count_at(rest)?;
    Ok((Tag { line, place }, moment, rest))
}

/// What became of an offer, and the octets behind it.
fn outcome_at(octets: &[u8]) -> Result<(Outcome, &[u8]), LineFault>
    ensures { Gives (λ found. (found.0, found.1.now)) result (said_at outcome_of octets.now) }
{
    let (word, rest) = field_at(octets)?;
    if word == b"kept".as_slice() {
        Ok((Outcome::Kept, rest))
    } else if word == b"cleared".as_slice() {
        Ok((Outcome::Cleared, rest))
    } else if word == b"less".as_slice() {
        Ok((Outcome::LessTrusted, rest))
    } else {
        Err(LineFault::NotOne)
    }
}

/// An offer, and the octets behind it.
#[tactic(auto, unfolding(crate::specs::ArchiveFields::offer_at))]
fn offer_at(alloc: Global, moment: u64, octets: &[u8]) -> Result<(Offer, &[u8]), LineFault>
    ensures held { IfOk result (λ found. HoldsOffer found.0) }
    ensures exact { Gives (λ found. (found.0, found.1.now)) result (offer_at moment octets.now) }
{
    let (key, rest) = key_at(alloc, octets)?;
    let (body, rest) = body_at(alloc, rest)?;
    match Offer::new(key, body, moment) {
        Ok(offer) => Ok((offer, rest)),
        Err(_) => Err(LineFault::NotOne),
    }
}

/// The key that was evicted, where the line does not end before it.
#[tactic(auto, unfolding(crate::specs::ArchiveFields::evicted_of))]
fn evicted_in(alloc: Global, octets: &[u8]) -> Result<Option<Key>, LineFault>
    ensures held { IfOk result HoldsEvicted }
    ensures exact { Gives (λ evicted. evicted) result (evicted_of octets.now) }
{
    if !has_field(octets) {
        return Ok(None);
    }
    let (key, _) = key_at(alloc, octets)?;
    Ok(Some(key))
}

/// The event of a line whose first word was `offer`.
#[tactic(auto, unfolding(crate::specs::ArchiveFields::offered_of))]
pub(crate) fn offered_in(alloc: Global, octets: &[u8]) -> Result<Event, LineFault>
    ensures held { IfOk result HoldsEvent }
    ensures exact { Gives (λ event. event) result (offered_of octets.now) }
{
    let (tag, moment, rest) = tag_at(octets)?;
    let (offer, rest) = offer_at(alloc, moment, rest)?;
    let (outcome, rest) = outcome_at(rest)?;
    let evicted = evicted_in(alloc, rest)?;
    Ok(Event::Offered {
        outcome,
        tag,
        offer,
        evicted,
    })
}

/// The event of a line whose first word was `ask`.
#[tactic(auto, unfolding(crate::specs::ArchiveFields::asked_of))]
pub(crate) fn asked_in(alloc: Global, octets: &[u8]) -> Result<Event, LineFault>
    ensures held { IfOk result HoldsEvent }
    ensures exact { Gives (λ event. event) result (asked_of octets.now) }
{
    let (tag, moment, rest) = tag_at(octets)?;
    let (name, rest) = owner_at(alloc, rest)?;
    let (kind, rest) = kind_at(rest)?;
    let (purpose, rest) = purpose_at(rest)?;
    let (mode, rest) = mode_at(rest)?;
    let name = name.folded()?;
    name.is_a_wire_form();
    let ask = Ask {
        name,
        class: kind.class,
        rtype: kind.rtype,
        moment,
        purpose,
        mode,
    };
    let reply = reply_in(alloc, rest)?;
    Ok(Event::Asked { tag, ask, reply })
}

/// Puts the first key behind the others. The octets behind it.
fn add_key<'a>(
    alloc: Global,
    keys: &mut Sequence<Key>,
    octets: &'a [u8],
) -> Result<&'a [u8], LineFault>
    requires { AllByRecursion HoldsKey keys.old }
    ensures held { OnOk result (AllByRecursion HoldsKey keys.new) }
    ensures exact { Gives (λ rest. (keys.new, rest.now)) result (with_key keys.old octets.now) }
{
    let (key, rest) = key_at(alloc, octets)?;
    keys.push(key)?;
    Ok(rest)
}

/// The keys to the end of a line.
fn keys_in(alloc: Global, octets: &[u8]) -> Result<Sequence<Key>, LineFault>
    ensures held { IfOk result (AllByRecursion HoldsKey) }
    ensures exact { Gives (λ keys. keys) result (keys_of octets.now) }
{
    let mut keys = Sequence::new(alloc);
    let mut rest = octets;
    for _seen in 0..octets.len() {
        if !has_field(rest) {
            return Ok(keys);
        }
        rest = add_key(alloc, &mut keys, rest)?;
    }
    Ok(keys)
}

/// The event of a line whose first word was `sweep`.
#[tactic(auto, unfolding(crate::specs::ArchiveFields::swept_of))]
pub(crate) fn swept_in(alloc: Global, octets: &[u8]) -> Result<Event, LineFault>
    ensures held { IfOk result HoldsEvent }
    ensures exact { Gives (λ event. event) result (swept_of octets.now) }
{
    let (tag, moment, rest) = tag_at(octets)?;
    let gone = keys_in(alloc, rest)?;
    Ok(Event::Swept { tag, moment, gone })
}
