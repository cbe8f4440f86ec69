// SPDX-License-Identifier: MIT
ghost use Rattle.std.specs.Prelude.{◌≡◌, ◌+◌, ◌≤◌, ◌^◌, length, reverse, OnOk, IfErr};
ghost use Rattle.std.specs.List.{list_any, list_all};
ghost use Rattle.rrc_history.specs.Past.{held};
ghost use Rattle.rrc_history.specs.Right.{IsLegal, is_swept};
ghost use Rattle.rrc_history.specs.Audits.{IsFirstBad};
ghost use Rattle.rrc_history.specs.Auditing.{is_there, is_lower, is_least, is_victim, has_to_evict, is_rightly_evicted, is_left_out, are_fully_expired, are_ordered, are_in_order, outcome_eq, is_right_offer, is_right_ask, is_right_sweep, is_right_then, is_right, present_after_offer, present_after, is_somewhere, is_offered};

use crate::ask::Ask;
use crate::event::{Event, Outcome, Reply};
use crate::offer::Offer;
use crate::rules::LAST_MOMENT;
use crate::snapshot::Snapshot;
use crate::{judge, past};
use rrc_name::{Key, KeyRef};
use std::cmp::Ordering;
use thiserror::Error;

/// The place of the first event of a history that is not right after those before it, counted from
/// 0.
#[derive(Clone, Copy, Debug, PartialEq, Eq, Hash, Error)]
#[error("event {0} is not right")]
pub struct FirstBad(pub usize);

/// Whether events, the oldest first, are a legal history from a snapshot: each has a number below
/// 2^62, a moment of at most 2^40, and became, evicted, answered or removed just what it had to
/// after those before it. Else the first that is not right is answered.
///
/// It is given no allocator. What a key held and when it was touched is looked up in what was
/// written, so the time goes with the square of the number of events, and each eviction and each
/// sweep looks up every key that was ever offered.
pub fn audit(snapshot: &Snapshot, events: &[Event]) -> Result<(), FirstBad>
    ensures ok { OnOk result (IsLegal snapshot.now (reverse events.now)) }
    ensures err { IfErr result (λ bad. IsFirstBad snapshot.now events.now bad.0) }
{
    let mut present = snapshot.entries.len() as u64;
    for (place, event) in events.iter().enumerate() {
        if !is_right(snapshot, &events[..place], present, event) {
            return Err(FirstBad(place));
        }
        present = present_after(snapshot, &events[..place], event, present);
    }
    Ok(())
}

/// Whether an event is right behind others that leave so many keys held.
fn is_right(snapshot: &Snapshot, past: &[Event], present: u64, event: &Event) -> bool
    ensures { result ≡ is_right snapshot.now (reverse past.now) past.now present event.now }
{
    if u128::from(snapshot.first) + past.len() as u128 >= 1 << 62 {
        return false;
    }
    match event {
        Event::Offered {
            offer,
            outcome,
            evicted,
            ..
        } => is_right_offer(snapshot, past, present, offer, *outcome, evicted),
        Event::Asked { ask, reply, .. } => is_right_ask(snapshot, past, ask, reply),
        Event::Swept { moment, gone, .. } => {
            is_right_sweep(snapshot, past, *moment, gone.as_slice())
        }
    }
}

fn is_right_offer(
    snapshot: &Snapshot,
    past: &[Event],
    present: u64,
    offer: &Offer,
    outcome: Outcome,
    evicted: &Option<Key>,
) -> bool
    requires { snapshot.now.first + length past.now ≤ 2 ^ 62 }
    ensures { result ≡ is_right_offer snapshot.now (reverse past.now) past.now present offer.now outcome evicted.now }
{
    if offer.moment > LAST_MOMENT {
        return false;
    }
    let held = past::held(snapshot, past, KeyRef::of(&offer.key));
    outcome == judge::verdict(held, offer)
        && is_rightly_evicted(snapshot, past, present, outcome, held.is_some(), evicted)
}

fn is_right_ask(snapshot: &Snapshot, past: &[Event], ask: &Ask, reply: &Reply) -> bool
    requires { snapshot.now.first + length past.now ≤ 2 ^ 62 }
    ensures { result ≡ is_right_ask snapshot.now (reverse past.now) ask.now reply.now }
{
    if ask.moment > LAST_MOMENT {
        return false;
    }
    let rules = snapshot.rules;
    let ask = ask.as_ref();
    judge::is_reply(past::found(snapshot, past, ask), ask, rules.stale, reply)
}

fn is_right_sweep(snapshot: &Snapshot, past: &[Event], moment: u64, gone: &[Key]) -> bool
    requires { snapshot.now.first + length past.now ≤ 2 ^ 62 }
    ensures { result ≡ is_right_sweep snapshot.now (reverse past.now) past.now moment gone.now }
{
    moment <= LAST_MOMENT && are_in_order(gone) && are_fully_expired(snapshot, past, moment, gone)
}

/// Whether an offer evicted what it had to: where it is kept under a new key and as many keys are
/// held as may be, the one that was touched least recently, and else none.
fn is_rightly_evicted(
    snapshot: &Snapshot,
    past: &[Event],
    present: u64,
    outcome: Outcome,
    held: bool,
    evicted: &Option<Key>,
) -> bool
    requires { snapshot.now.first + length past.now ≤ 2 ^ 62 }
    ensures { result ≡ is_rightly_evicted snapshot.now (reverse past.now) past.now present outcome held evicted.now }
{
    let rules = snapshot.rules;
    match evicted {
        None => !has_to_evict(outcome, held, present == rules.capacity),
        Some(key) => {
            has_to_evict(outcome, held, present == rules.capacity) && is_least(snapshot, past, key)
        }
    }
}

fn has_to_evict(outcome: Outcome, held: bool, full: bool) -> bool
    ensures { result ≡ has_to_evict outcome held full }
{
    match outcome {
        Outcome::Kept => !held && full,
        Outcome::Cleared | Outcome::LessTrusted => false,
    }
}

/// Whether a key is held and was touched before a number.
fn is_lower(snapshot: &Snapshot, past: &[Event], number: u64, key: &Key) -> bool
    requires { snapshot.now.first + length past.now ≤ 2 ^ 62 }
    ensures { result ≡ is_lower snapshot.now (reverse past.now) number key.now }
{
    past::held(snapshot, past, KeyRef::of(key)).is_some()
        && past::touch(snapshot, past, key) < number
}

/// Whether a key of the snapshot is held and was touched before a number.
fn is_lower_entry(snapshot: &Snapshot, past: &[Event], number: u64) -> bool
    requires { snapshot.now.first + length past.now ≤ 2 ^ 62 }
    ensures { result ≡ list_any (λ entry. is_lower snapshot.now (reverse past.now) number entry.key) snapshot.now.entries }
{
    for entry in &snapshot.entries {
        if is_lower(snapshot, past, number, &entry.key) {
            return true;
        }
    }
    false
}

/// Whether the key that an event offers a body under is held and was touched before a number.
fn is_lower_offer(snapshot: &Snapshot, past: &[Event], number: u64, event: &Event) -> bool
    requires { snapshot.now.first + length past.now ≤ 2 ^ 62 }
    ensures { result ≡ is_offered (is_lower snapshot.now (reverse past.now) number) event.now }
{
    match event {
        Event::Offered { offer, .. } => is_lower(snapshot, past, number, &offer.key),
        Event::Asked { .. } | Event::Swept { .. } => false,
    }
}

/// Whether a key that one of the events offers a body under is held and was touched before a
/// number.
fn is_lower_offered(snapshot: &Snapshot, past: &[Event], number: u64) -> bool
    requires { snapshot.now.first + length past.now ≤ 2 ^ 62 }
    ensures { result ≡ list_any (is_offered (is_lower snapshot.now (reverse past.now) number)) past.now }
{
    for event in past {
        if is_lower_offer(snapshot, past, number, event) {
            return true;
        }
    }
    false
}

/// Whether some key is held and was touched before a number. Each key that is held is one of the
/// snapshot's or of an offer's.
fn is_lower_somewhere(snapshot: &Snapshot, past: &[Event], number: u64) -> bool
    requires { snapshot.now.first + length past.now ≤ 2 ^ 62 }
    ensures { result ≡ is_somewhere (is_lower snapshot.now (reverse past.now) number) snapshot.now past.now }
{
    is_lower_entry(snapshot, past, number) || is_lower_offered(snapshot, past, number)
}

/// Whether a key is held, and no key that is held was touched before it.
fn is_least(snapshot: &Snapshot, past: &[Event], key: &Key) -> bool
    requires { snapshot.now.first + length past.now ≤ 2 ^ 62 }
    ensures { result ≡ is_least snapshot.now (reverse past.now) past.now key.now }
{
    past::held(snapshot, past, KeyRef::of(key)).is_some()
        && !is_lower_somewhere(snapshot, past, past::touch(snapshot, past, key))
}

/// Whether a key is fully expired at a moment.
fn is_swept(snapshot: &Snapshot, past: &[Event], moment: u64, key: &Key) -> bool
    requires { snapshot.now.first + length past.now ≤ 2 ^ 62 }
    ensures { result ≡ is_swept snapshot.now.rules.stale (held snapshot.now (reverse past.now) key.now) moment }
{
    let rules = snapshot.rules;
    match past::held(snapshot, past, KeyRef::of(key)) {
        None => false,
        Some(held) => judge::is_fully_expired(held, rules.stale, moment),
    }
}

/// Whether a key is fully expired at a moment and not among the keys.
fn is_left_out(snapshot: &Snapshot, past: &[Event], moment: u64, gone: &[Key], key: &Key) -> bool
    requires { snapshot.now.first + length past.now ≤ 2 ^ 62 }
    ensures { result ≡ is_left_out snapshot.now (reverse past.now) moment gone.now key.now }
{
    is_swept(snapshot, past, moment, key) && !past::is_among(KeyRef::of(key), gone)
}

/// Whether a key of the snapshot is fully expired and not listed.
fn is_left_out_entry(snapshot: &Snapshot, past: &[Event], moment: u64, gone: &[Key]) -> bool
    requires { snapshot.now.first + length past.now ≤ 2 ^ 62 }
    ensures { result ≡ list_any (λ entry. is_left_out snapshot.now (reverse past.now) moment gone.now entry.key) snapshot.now.entries }
{
    for entry in &snapshot.entries {
        if is_left_out(snapshot, past, moment, gone, &entry.key) {
            return true;
        }
    }
    false
}

/// Whether the key that an event offers a body under is fully expired and not listed.
fn is_left_out_offer(
    snapshot: &Snapshot,
    past: &[Event],
    moment: u64,
    gone: &[Key],
    event: &Event,
) -> bool
    requires { snapshot.now.first + length past.now ≤ 2 ^ 62 }
    ensures { result ≡ is_offered (is_left_out snapshot.now (reverse past.now) moment gone.now) event.now }
{
    match event {
        Event::Offered { offer, .. } => is_left_out(snapshot, past, moment, gone, &offer.key),
        Event::Asked { .. } | Event::Swept { .. } => false,
    }
}

/// Whether a key that one of the events offers a body under is fully expired and not listed.
fn is_left_out_offered(snapshot: &Snapshot, past: &[Event], moment: u64, gone: &[Key]) -> bool
    requires { snapshot.now.first + length past.now ≤ 2 ^ 62 }
    ensures { result ≡ list_any (is_offered (is_left_out snapshot.now (reverse past.now) moment gone.now)) past.now }
{
    for event in past {
        if is_left_out_offer(snapshot, past, moment, gone, event) {
            return true;
        }
    }
    false
}

/// Whether some key is fully expired and not listed.
fn is_left_out_somewhere(snapshot: &Snapshot, past: &[Event], moment: u64, gone: &[Key]) -> bool
    requires { snapshot.now.first + length past.now ≤ 2 ^ 62 }
    ensures { result ≡ is_somewhere (is_left_out snapshot.now (reverse past.now) moment gone.now) snapshot.now past.now }
{
    is_left_out_entry(snapshot, past, moment, gone)
        || is_left_out_offered(snapshot, past, moment, gone)
}

fn are_swept(snapshot: &Snapshot, past: &[Event], moment: u64, gone: &[Key]) -> bool
    requires { snapshot.now.first + length past.now ≤ 2 ^ 62 }
    ensures { result ≡ list_all (λ key. is_swept snapshot.now.rules.stale (held snapshot.now (reverse past.now) key) moment) gone.now }
{
    for key in gone {
        if !is_swept(snapshot, past, moment, key) {
            return false;
        }
    }
    true
}

/// Whether keys are the fully expired ones: each of them is fully expired, and none is left out.
fn are_fully_expired(snapshot: &Snapshot, past: &[Event], moment: u64, gone: &[Key]) -> bool
    requires { snapshot.now.first + length past.now ≤ 2 ^ 62 }
    ensures { result ≡ are_fully_expired snapshot.now (reverse past.now) past.now moment gone.now }
{
    are_swept(snapshot, past, moment, gone) && !is_left_out_somewhere(snapshot, past, moment, gone)
}

/// Whether keys are in their order, each once.
fn are_in_order(keys: &[Key]) -> bool
    ensures { result ≡ are_in_order keys.now }
{
    match keys.split_first() {
        None => true,
        Some((first, behind)) => are_ordered(first, behind),
    }
}

fn are_ordered(first: &Key, behind: &[Key]) -> bool
    ensures { result ≡ are_ordered first.now behind.now }
{
    let mut before = first;
    for (passed, key) in behind.iter().enumerate() {
        match before.cmp(key) {
            Ordering::Less => {}
            Ordering::Equal | Ordering::Greater => return false,
        }
        before = key;
    }
    true
}

/// How many keys are held after an offer, of so many before it.
fn present_after_offer(outcome: Outcome, held: bool, evicts: bool, present: u64) -> u64
    requires { present ≤ 65536 }
    ensures { result ≡ present_after_offer outcome held evicts present }
{
    match outcome {
        Outcome::Kept if held || evicts => present,
        Outcome::Kept => present + 1,
        Outcome::Cleared if held => present.saturating_sub(1),
        Outcome::Cleared | Outcome::LessTrusted => present,
    }
}

/// How many keys are held after an event, of so many before it.
fn present_after(snapshot: &Snapshot, past: &[Event], event: &Event, present: u64) -> u64
    requires numbers { snapshot.now.first + length past.now ≤ 2 ^ 62 }
    requires few { present ≤ 65536 }
    ensures { result ≡ present_after snapshot.now (reverse past.now) event.now present }
{
    match event {
        Event::Offered {
            offer,
            outcome,
            evicted,
            ..
        } => {
            let held = past::held(snapshot, past, KeyRef::of(&offer.key));
            present_after_offer(*outcome, held.is_some(), evicted.is_some(), present)
        }
        Event::Asked { .. } => present,
        Event::Swept { gone, .. } => present.saturating_sub(gone.len() as u64),
    }
}
