// SPDX-License-Identifier: MIT
ghost use Rattle.std.specs.Prelude.{◌≡◌, ◌+◌, ◌≤◌, ◌^◌, length, reverse};
ghost use Rattle.std.specs.Option.{option_map};
ghost use Rattle.rrc_name.specs.KeyRef.{key_of};
ghost use Rattle.rrc_history.specs.Past.{held, touch, touched, entry_at, entry_of, place_of, is_among, is_evicted, found};
ghost use Rattle.rrc_history.specs.Auditing.{held_after_event};
ghost use Rattle.rrc_history.specs.Views.{ask_in, held_in, found_in};

use crate::ask_ref::AskRef;
use crate::entry_list::EntryList;
use crate::event::{Event, Outcome};
use crate::judge::{self, Found, Held};
use crate::offer::Offer;
use crate::snapshot::Snapshot;
use rrc_name::{Key, KeyRef, Slot};

fn entry_at<'a>(key: KeyRef<'_>, entries: &'a EntryList) -> Option<Held<'a>>
    ensures { option_map held_in result ≡ entry_at (key_of key.entry) entries.now }
{
    for entry in entries {
        if key == KeyRef::of(&entry.key) {
            return Some(Held::of(entry));
        }
    }
    None
}

pub(crate) fn is_among(key: KeyRef<'_>, keys: &[Key]) -> bool
    ensures { result ≡ is_among (key_of key.entry) keys.now }
{
    keys.iter().any(|other| key == KeyRef::of(other))
}

fn is_evicted(key: KeyRef<'_>, evicted: &Option<Key>) -> bool
    ensures { result ≡ is_evicted (key_of key.entry) evicted.now }
{
    match evicted {
        None => false,
        Some(evicted) => key == KeyRef::of(evicted),
    }
}

/// What an offer of a number stores where it is kept.
fn held_by(offer: &Offer, number: u64) -> Held<'_>
    ensures { held_in result ≡ entry_of offer.now number }
{
    Held {
        key: &offer.key,
        body: &offer.body,
        moment: offer.moment,
        number,
    }
}

/// What a key holds after an event of a number, where it held this before.
fn held_after<'a>(
    event: &'a Event,
    number: u64,
    key: KeyRef<'_>,
    before: Option<Held<'a>>,
) -> Option<Held<'a>>
    ensures { option_map held_in result ≡ held_after_event number event.now (key_of key.entry) (option_map held_in before.entry) }
{
    let is_gone = match event {
        Event::Asked { .. } => false,
        Event::Swept { gone, .. } => is_among(key, gone.as_slice()),
        Event::Offered {
            outcome: Outcome::LessTrusted,
            ..
        } => false,
        Event::Offered {
            outcome: Outcome::Cleared,
            offer,
            ..
        } => key == KeyRef::of(&offer.key),
        Event::Offered {
            outcome: Outcome::Kept,
            offer,
            evicted,
            ..
        } => {
            if key == KeyRef::of(&offer.key) {
                return Some(held_by(offer, number));
            }
            is_evicted(key, evicted)
        }
    };
    if is_gone { None } else { before }
}

/// What a key holds after events from a snapshot.
pub(crate) fn held<'a>(
    snapshot: &'a Snapshot,
    past: &'a [Event],
    key: KeyRef<'_>,
) -> Option<Held<'a>>
    requires { snapshot.now.first + length past.now ≤ 2 ^ 62 }
    ensures { option_map held_in result ≡ held snapshot.now (reverse past.now) (key_of key.entry) }
{
    let mut held = entry_at(key, &snapshot.entries);
    for (place, event) in past.iter().enumerate() {
        held = held_after(event, snapshot.first + place as u64, key, held);
    }
    held
}

/// What the keys of an ask hold.
pub(crate) fn found<'a>(snapshot: &'a Snapshot, past: &'a [Event], ask: AskRef<'_>) -> Found<'a>
    requires { snapshot.now.first + length past.now ≤ 2 ^ 62 }
    ensures { found_in result ≡ found snapshot.now (reverse past.now) (ask_in ask.entry) }
{
    Found {
        set: held(snapshot, past, ask.key_at(Slot::Set(ask.rtype))),
        nx: held(snapshot, past, ask.key_at(Slot::Nx)),
        failed: held(snapshot, past, ask.key_at(Slot::Failed(ask.rtype))),
    }
}

/// Whether an event behind others touches a key.
fn is_touched(snapshot: &Snapshot, past: &[Event], event: &Event, key: &Key) -> bool
    requires { snapshot.now.first + length past.now ≤ 2 ^ 62 }
    ensures { result ≡ is_evicted key.now (touched snapshot.now (reverse past.now) event.now) }
{
    match event {
        Event::Offered {
            outcome: Outcome::Kept,
            offer,
            ..
        } => *key == offer.key,
        Event::Offered { .. } | Event::Swept { .. } => false,
        Event::Asked { ask, reply, .. } => {
            let ask = ask.as_ref();
            judge::is_answering(found(snapshot, past, ask), ask, reply, key)
        }
    }
}

/// The place of a key among entries, counted from the last one.
fn place_of(key: &Key, entries: &EntryList) -> u64
    ensures { result ≡ place_of key.now entries.now }
{
    let mut behind = entries.len();
    for entry in entries {
        behind -= 1;
        if *key == entry.key {
            return behind as u64;
        }
    }
    0
}

/// When a key was touched last: the number of that event, or else its place in the snapshot.
pub(crate) fn touch(snapshot: &Snapshot, past: &[Event], key: &Key) -> u64
    requires { snapshot.now.first + length past.now ≤ 2 ^ 62 }
    ensures { result ≡ touch snapshot.now (reverse past.now) key.now }
{
    let mut touch = place_of(key, &snapshot.entries);
    for (place, event) in past.iter().enumerate() {
        if is_touched(snapshot, &past[..place], event, key) {
            touch = snapshot.first + place as u64;
        }
    }
    touch
}
