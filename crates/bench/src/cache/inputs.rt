// SPDX-License-Identifier: MIT
// What is asked and offered, each made before the time is taken, for the addresses of
// `www{n % 7}.zone{n}.example.` for numbers n. `None` is that memory was refused, or a call.

use crate::cache::numbers::Numbers;
use crate::cache::part::CachePart;
use crate::cache::task::Task;
use rrc_history::{Ask, Body, Mode, Offer, Purpose, Rules, Trust};
use rrc_name::{Key, Name, Octets, RdataList, Shared, Slot};
use rrc_share::Recording;
use std::alloc::Global;

/// How many events the chapter has room for.
pub const CHAPTER: u64 = 1 << 20;

/// How long each set lives, in seconds, but for those that are to be swept. All is asked at the
/// second 1.
pub const TTL: u32 = 86_400;

/// How many places of four octets 8 MiB have.
const PLACES: u32 = 1 << 21;

/// A question, as a message that was just read brings it, and the part that it is asked.
#[derive(Drop)]
pub struct PickedAsk {
    pub part: usize,
    pub ask: Ask,
}

/// An offer, and the part that it is made to.
#[derive(Drop)]
pub struct PickedOffer {
    pub part: usize,
    pub offer: Offer,
}

fn name(alloc: Global, number: u64) -> Option<Name> {
    let text = format!(in alloc; "www{}.zone{}.example.", number % 7, number).ok()?;
    Name::from_text(alloc, text.as_str()).ok()
}

/// The data of a set of one address.
fn address(alloc: Global) -> Option<Shared<RdataList>> {
    let octets = Octets::from_slice(alloc, &[192, 0, 2, 1]).ok()?;
    Shared::new(alloc, RdataList::one(octets)).ok()
}

/// A set of one address.
fn body(alloc: Global, name: &Name, ttl: u32) -> Option<Body> {
    let items = address(alloc)?;
    let owner = name.clone().ok()?;
    Some(Body::Positive {
        owner,
        items,
        trust: Trust::AuthoritativeAnswer,
        ttl,
    })
}

/// An offer of the address of a name.
pub fn offer(alloc: Global, name: &Name, moment: u64, ttl: u32) -> Option<Offer> {
    let body = body(alloc, name, ttl)?;
    let key = Key::of(name, 1, Slot::Set(1)).ok()?;
    Offer::new(key, body, moment).ok()
}

/// An offer of the address of a number.
pub fn numbered(alloc: Global, number: u64, moment: u64, ttl: u32) -> Option<Offer> {
    let name = name(alloc, number)?;
    offer(alloc, &name, moment, ttl)
}

/// The key of the address of a number.
fn key(alloc: Global, number: u64) -> Option<Key> {
    let name = name(alloc, number)?;
    Key::of(&name, 1, Slot::Set(1)).ok()
}

/// A question for the address of a number.
fn ask(alloc: Global, number: u64) -> Option<Ask> {
    let key = key(alloc, number)?;
    Some(Ask {
        name: key.name().clone().ok()?,
        class: 1,
        rtype: 1,
        moment: 1,
        purpose: Purpose::Answer,
        mode: Mode::NoStale,
    })
}

/// The part of a number, of so many: they hold the numbers by turns.
fn part_of(number: u64, parts: u64) -> usize {
    number.checked_rem(parts).unwrap_or(0) as usize
}

/// Adds the question for a number.
pub fn add_ask(alloc: Global, number: u64, parts: u32, asks: &mut Vec<PickedAsk>) -> Option<()> {
    let part = part_of(number, u64::from(parts));
    let ask = ask(alloc, number)?;
    asks.push(PickedAsk { part, ask }).ok()
}

/// Adds the offer of a number.
fn add_offer(alloc: Global, number: u64, parts: u32, offers: &mut Vec<PickedOffer>) -> Option<()> {
    let part = part_of(number, u64::from(parts));
    let offer = numbered(alloc, number, 1, TTL)?;
    offers.push(PickedOffer { part, offer }).ok()
}

/// Adds the questions of a task, each with a name of its own.
pub fn add_asks(alloc: Global, task: &Task<'_>, asks: &mut Vec<PickedAsk>) -> Option<()> {
    let mut numbers = Numbers::of(0);
    for call in 0..task.calls {
        add_ask(alloc, task.number(call, &mut numbers), task.parts, asks)?;
    }
    Some(())
}

/// Adds the offers of a task, each with a name of its own.
pub fn add_offers(alloc: Global, task: &Task<'_>, offers: &mut Vec<PickedOffer>) -> Option<()> {
    let mut numbers = Numbers::of(0);
    for call in 0..task.calls {
        add_offer(alloc, task.number(call, &mut numbers), task.parts, offers)?;
    }
    Some(())
}

/// Adds the questions for the numbers below one, each once.
pub fn add_each(alloc: Global, below: u32, parts: u32, asks: &mut Vec<PickedAsk>) -> Option<()> {
    for number in 0..below {
        add_ask(alloc, u64::from(number), parts, asks)?;
    }
    Some(())
}

/// Adds parts that hold nothing, and have room for so many keys each.
pub fn add_parts(
    alloc: Global,
    count: u32,
    keys: u32,
    recording: Recording,
    parts: &mut Vec<CachePart>,
) -> Option<()> {
    let rules = Rules::new(u64::from(keys), CHAPTER, 0)?;
    for _ in 0..count {
        let part = CachePart::new(alloc, rules, recording)?;
        parts.push(part).ok()?;
    }
    Some(())
}

/// Puts the address of a number into its part.
fn put(alloc: Global, parts: &mut [CachePart], number: u64, moment: u64, ttl: u32) -> Option<()> {
    let count = parts.len() as u64;
    let part = parts.get_mut(part_of(number, count))?;
    let offer = numbered(alloc, number, moment, ttl)?;
    part.offer(offer)?;
    Some(())
}

/// Puts the addresses of the numbers below one.
pub fn fill(alloc: Global, parts: &mut [CachePart], below: u64) -> Option<()> {
    for number in 0..below {
        put(alloc, parts, number, 0, TTL)?;
    }
    Some(())
}

/// Puts each tenth of the only part's keys for one second.
pub fn put_tenth(alloc: Global, parts: &mut [CachePart], keys: u32, moment: u64) -> Option<()> {
    for tenth in 0..keys / 10 {
        put(alloc, parts, u64::from(tenth) * 10, moment, 1)?;
    }
    Some(())
}

/// Asks the only part for the address of a number.
fn ask_for(alloc: Global, parts: &mut [CachePart], number: u64) -> Option<bool> {
    let part = parts.first_mut()?;
    let ask = ask(alloc, number)?;
    part.ask(&ask)
}

/// So many events in the only part, of as many keys as it may hold and half as many more: a put,
/// then two asks, by turns.
pub fn write(alloc: Global, parts: &mut [CachePart], keys: u32, events: u32) -> Option<()> {
    let mut numbers = Numbers::of(0);
    let names = u64::from(keys) + u64::from(keys / 2);
    for place in 0..events {
        let number = numbers.below(names);
        if place % 3 == 0 {
            put(alloc, parts, number, 0, TTL)?;
        } else {
            let _is_hit = ask_for(alloc, parts, number)?;
        }
    }
    Some(())
}

/// 8 MiB of places, each of which holds the next one of a way through them all that shows no order.
pub fn places(alloc: Global) -> Option<Vec<u32>> {
    let mut places = (0..PLACES).collect::<Vec<u32>>(alloc).ok()?;
    mix(places.as_mut_slice());
    Some(places)
}

/// Each place changes with one before it, never with itself, so there is one way round (Sattolo).
fn mix(places: &mut [u32]) {
    let mut numbers = Numbers::of(0);
    for place in (1..places.len()).rev() {
        let other = numbers.below(place as u64) as usize;
        if other < place {
            places.swap(place, other);
        }
    }
}
