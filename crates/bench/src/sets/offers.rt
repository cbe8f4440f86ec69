// SPDX-License-Identifier: MIT
// The offers of messages, whose time is taken. They are `None` where octets are no message, or
// memory was refused.

use rrc_history::{Body, Offer};
use rrc_name::Name;
use rrc_sets::{Limits, offers};
use rrc_wire::{Message, read_message};
use std::alloc::Global;
use std::time::{CpuClock, Duration};

/// What was offered, in all passes.
#[derive(Clone, Copy)]
pub struct Counts {
    pub messages: u64,
    pub offers: u64,
    pub data: u64,
}

/// The messages that these octets are.
fn messages_in(alloc: Global, octets: &[Vec<u8>]) -> Option<Vec<Message>> {
    let mut messages = Vec::new(alloc);
    for octets in octets {
        let message = read_message(alloc, octets.as_slice()).ok()?;
        messages.push(message).ok()?;
    }
    Some(messages)
}

/// Adds to the counts what one message offered.
fn count(offers: &[Offer], counts: &mut Counts) {
    counts.messages = counts.messages.wrapping_add(1);
    counts.offers = counts.offers.wrapping_add(offers.len() as u64);
    for offer in offers {
        if let Body::Positive { items, .. } = &offer.body {
            counts.data = counts.data.wrapping_add(items.iter().count() as u64);
        }
    }
}

/// Makes the offers of each message once.
fn count_each(
    alloc: Global,
    messages: &[Message],
    zone: &Name,
    limits: &Limits,
    counts: &mut Counts,
) -> Option<()> {
    for message in messages {
        let made = offers(alloc, message, zone, 1000, limits).ok()?;
        count(made.as_slice(), counts);
    }
    Some(())
}

/// Makes the offers of each message so often, and answers the processor time that this took beside
/// the counts.
fn count_all<R: CpuClock>(
    rt: &R,
    alloc: Global,
    messages: &[Message],
    zone: &Name,
    passes: u32,
) -> Option<(Counts, Duration)> {
    let limits = Limits::new(604_800, 10_800, 30)?;
    let mut counts = Counts {
        messages: 0,
        offers: 0,
        data: 0,
    };
    let before = rt.thread_cpu_time().ok()?;
    for _ in 0..passes {
        count_each(alloc, messages, zone, &limits, &mut counts)?;
    }
    let after = rt.thread_cpu_time().ok()?;
    Some((counts, after.saturating_sub(before)))
}

/// Makes the offers of the messages so often, as of the zone of all names.
pub fn offer_all<R: CpuClock>(
    rt: &R,
    alloc: Global,
    octets: &[Vec<u8>],
    passes: u32,
) -> Option<(Counts, Duration)> {
    let messages = messages_in(alloc, octets)?;
    let zone = Name::root(alloc).ok()?;
    count_all(rt, alloc, messages.as_slice(), &zone, passes)
}
