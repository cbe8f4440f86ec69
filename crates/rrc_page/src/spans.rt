// SPDX-License-Identifier: MIT
ghost use Rattle.std.specs.Prelude.{◌≡◌};
ghost use Rattle.rrc_history.specs.Past.{is_among, is_evicted};
ghost use Rattle.rrc_collate.specs.Calls.{tag_of};
ghost use Rattle.rrc_page.specs.Fitting.{Fit};
ghost use Rattle.rrc_page.specs.Spans.{SpansAreRight, ending_in, loss_by, loss_by_kept};

use rrc_history::{Event, Outcome, Tag};
use rrc_name::Key;

/// How a key lost what it held.
#[derive(Clone, Copy, Debug)]
pub(crate) enum Loss {
    /// The key holds another body now.
    Replaced,
    /// An offer of TTL 0 cleared the key.
    Cleared,
    /// The part was full, and an offer of another key took the place.
    Evicted,
    /// A sweep removed the key.
    Swept,
}

/// Which event took from a key what it held, and how.
#[derive(Clone, Copy, Debug)]
pub(crate) struct Ending {
    pub(crate) loss: Loss,
    pub(crate) number: u64,
    pub(crate) tag: Tag,
    pub(crate) moment: u64,
}

fn is_among(key: &Key, keys: &[Key]) -> bool
    ensures { result ≡ is_among key.now keys.now }
{
    keys.iter().any(|other| key == other)
}

fn is_evicted(key: &Key, evicted: &Option<Key>) -> bool
    ensures { result ≡ is_evicted key.now evicted.now }
{
    match evicted {
        None => false,
        Some(evicted) => key == evicted,
    }
}

/// How a kept offer takes from a key what it holds, if it does.
fn loss_by_kept(key: &Key, offered: &Key, evicted: &Option<Key>) -> Option<Loss>
    ensures { result ≡ loss_by_kept key.now offered.now evicted.now }
{
    if key == offered {
        Some(Loss::Replaced)
    } else if is_evicted(key, evicted) {
        Some(Loss::Evicted)
    } else {
        None
    }
}

/// How an event takes from a key what it holds, if it does.
fn loss_by(key: &Key, event: &Event) -> Option<Loss>
    ensures { result ≡ loss_by key.now event.now }
{
    match event {
        Event::Offered {
            outcome: Outcome::Kept,
            offer,
            evicted,
            ..
        } => loss_by_kept(key, &offer.key, evicted),
        Event::Offered {
            outcome: Outcome::Cleared,
            offer,
            ..
        } => (*key == offer.key).then_some(Loss::Cleared),
        Event::Swept { gone, .. } => is_among(key, gone.as_slice()).then_some(Loss::Swept),
        Event::Offered { .. } | Event::Asked { .. } => None,
    }
}

fn tag_of(event: &Event) -> Tag
    ensures { result ≡ tag_of event.now }
{
    match event {
        Event::Offered { tag, .. } | Event::Asked { tag, .. } | Event::Swept { tag, .. } => *tag,
    }
}

/// The first of these events that takes from a key what it holds. The first of them has this
/// number.
pub(crate) fn ending_in(key: &Key, number: u64, events: &[Event]) -> Option<Ending>
    requires { Fit number events.now }
    ensures { result ≡ ending_in key.now number events.now }
{
    let mut number = number;
    let mut rest = events;
    while let Some((event, behind)) = rest.split_first() {
        if let Some(loss) = loss_by(key, event) {
            return Some(Ending {
                loss,
                number,
                tag: tag_of(event),
                moment: event.moment(),
            });
        }
        number += 1;
        rest = behind;
    }
    None
}

/// The spans of each history say what its keys hold. The function does nothing; its contract is the
/// law.
pub(crate) fn spans_are_right()
    ensures { SpansAreRight }
{}
