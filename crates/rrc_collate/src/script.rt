// SPDX-License-Identifier: MIT
ghost use Rattle.std.specs.Prelude.{◌≡◌, ◌↔◌, IsTrue};
ghost use Rattle.rrc_collate.specs.Calls.{call_of, tag_of};
ghost use Rattle.rrc_collate.specs.SameCalls.{offer_eq, ask_eq, call_eq};

use rrc_history::{Ask, Event, Offer, Tag};

/// A call on a part of the cache.
#[derive(Debug, Drop)]
pub enum Call {
    Offer(Offer),
    Ask(Ask),
    /// The fully expired keys are to be removed, at this moment.
    Sweep(u64),
}

/// An operation of a line: its call, and the part that the call goes to. Its place is where it
/// stands among the operations of the line.
#[derive(Debug, Drop)]
pub struct Operation {
    pub part: usize,
    pub call: Call,
}

fn is_same_offer(offer: &Offer, other: &Offer) -> bool
    ensures { result ≡ offer_eq offer.now other.now }
{
    offer.moment == other.moment && offer.key == other.key && offer.body == other.body
}

fn is_same_ask(ask: &Ask, other: &Ask) -> bool
    ensures { result ≡ ask_eq ask.now other.now }
{
    ask.moment == other.moment
        && ask.class == other.class
        && ask.rtype == other.rtype
        && ask.purpose == other.purpose
        && ask.mode == other.mode
        && ask.name == other.name
}

fn is_same_call(event: &Event, call: &Call) -> bool
    ensures { result ≡ call_eq (call_of event.now) call.now }
{
    match (event, call) {
        (Event::Offered { offer, .. }, Call::Offer(wanted)) => is_same_offer(offer, wanted),
        (Event::Asked { ask, .. }, Call::Ask(wanted)) => is_same_ask(ask, wanted),
        (Event::Swept { moment, .. }, Call::Sweep(wanted)) => moment == wanted,
        _ => false,
    }
}

/// Where the call of an event stands in a trace.
pub(crate) fn tag_of(event: &Event) -> Tag
    ensures { result ≡ tag_of event.now }
{
    match event {
        Event::Offered { tag, .. } => *tag,
        Event::Asked { tag, .. } => *tag,
        Event::Swept { tag, .. } => *tag,
    }
}

/// Whether an event is of this call, octet for octet. What became of the call may be anything.
pub(crate) fn is_call_of(event: &Event, call: &Call) -> bool
    ensures { IsTrue result ↔ (call_of event.now ≡ call.now) }
{
    is_same_call(event, call)
}
