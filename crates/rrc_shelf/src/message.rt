// SPDX-License-Identifier: MIT
ghost use Rattle.std.specs.Prelude.{◌≡◌, ◌≤◌, ◌∷◌, [], map, IfOk, IfErr};
ghost use Rattle.rrc_shelf.specs.Offers.{AreAt};
ghost use Rattle.rrc_shelf.specs.Readings.{placed_in, reading_checks, HoldsOffers, IsReading};
ghost use Rattle.rrc_shelf.specs.Checks.{memory, number_of, OutOfMemory, Passes, Refuses};
ghost use Rattle.rrc_shelf.specs.Refusals.{division_checks, message_check, AreLimits};
ghost use Rattle.rrc_sets.specs.Offers.{offers_of};
ghost use Rattle.rrc_wire.specs.Grammar.{MessageOf};

use crate::division::{check_division, keyed_part_of};
use crate::intake::limits_of;
use crate::names::name_of;
use crate::reading::{Placed, Reading};
use crate::status::Status;
use crate::summary::{Summary, relevance_of, summary_of};
use crate::terms::{Division, ResponseTerms};
use rrc_history::Offer;
use rrc_name::Name;
use rrc_sets::{Limits, offers};
use rrc_wire::{Message, WireFault, read_message};
use std::alloc::Global;

/// Each offer beside the part that its name lies in.
fn placed_in(alloc: Global, offers: Vec<Offer>, division: &Division) -> Result<Vec<Placed>, Status>
    requires { 1 ≤ division.now.count }
    ensures placed { IfOk result (λ placed. placed.items ≡ map (placed_in division.now) offers.items) }
    ensures memory { IfErr result (λ status. OutOfMemory (number_of status)) }
{
    let mut placed = Vec::with_capacity(alloc, offers.len())?;
    for offer in offers {
        let part = keyed_part_of(offer.key.name().as_ref(), division);
        placed.push(Placed { part, offer })?;
    }
    Ok(placed)
}

/// A reading of offers that are all of its moment, each beside the part of its name, and of what
/// their message says.
pub(crate) fn reading_of(
    alloc: Global,
    offers: Vec<Offer>,
    summary: Summary,
    terms: &ResponseTerms,
) -> Result<Box<Reading>, Status>
    requires division { Passes (division_checks terms.now.parts) }
    requires limits { AreLimits terms.now.limits }
    requires moments { AreAt terms.now.moment offers.items }
    ensures reading { IfOk result (λ reading. HoldsOffers terms.now offers.items reading.value) }
    ensures says { IfOk result (λ reading. reading.value.summary ≡ summary) }
    ensures memory { IfErr result (λ status. OutOfMemory (number_of status)) }
{
    let placed = placed_in(alloc, offers, &terms.parts)?;
    Ok(Box::new(
        alloc,
        Reading {
            parts: terms.parts.count,
            moment: terms.moment,
            seed: terms.parts.seed,
            summary,
            placed,
        },
    )?)
}

/// The message that some octets are.
fn message_in(alloc: Global, octets: &[u8]) -> Result<Message, Status>
    ensures message { IfOk result (λ message. MessageOf octets.now message) }
    ensures refused { IfErr result (λ status. Refuses (memory ∷ message_check octets.now ∷ []) (number_of status)) }
{
    match read_message(alloc, octets) {
        Ok(message) => Ok(message),
        Err(WireFault::Memory) => Err(Status::Memory),
        Err(_) => Err(Status::BadMessage),
    }
}

/// What a message offers.
fn offers_of(
    alloc: Global,
    message: &Message,
    zone: &Name,
    moment: u64,
    limits: &Limits,
) -> Result<Vec<Offer>, Status>
    ensures offers { IfOk result (λ made. made.items ≡ offers_of message.now zone.now moment limits.now) }
    ensures moments { IfOk result (λ made. AreAt moment made.items) }
    ensures memory { IfErr result (λ status. OutOfMemory (number_of status)) }
{
    match offers(alloc, message, zone, moment, limits) {
        Ok(made) => Ok(made),
        Err(_) => Err(Status::Memory),
    }
}

/// Reads a message that was received from a zone into what it says, and what it offers, each offer
/// beside the part that its name lies in.
pub fn read(
    alloc: Global,
    octets: &[u8],
    zone: &[u8],
    terms: &ResponseTerms,
) -> Result<Box<Reading>, Status>
    ensures reading { IfOk result (λ reading. IsReading octets.now zone.now terms.now reading.value) }
    ensures refused { IfErr result (λ status. Refuses (reading_checks octets.now zone.now terms.now) (number_of status)) }
{
    check_division(&terms.parts)?;
    let limits = limits_of(&terms.limits)?;
    let zone = name_of(alloc, zone)?;
    let message = message_in(alloc, octets)?;
    let made = offers_of(alloc, &message, &zone, terms.moment, &limits)?;
    let summary = summary_of(alloc, &message, &zone, &relevance_of(terms))?;
    let reading = reading_of(alloc, made, summary, terms)?;
    Ok(reading)
}
