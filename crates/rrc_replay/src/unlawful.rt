// SPDX-License-Identifier: MIT
//! Why an event of a chapter is not right.
ghost use Rattle.std.specs.Prelude.{◌≡◌, ◌++◌, ◌∷◌, [], ◌+◌, ◌<◌, ◌≤◌, ◌^◌, length, take, reverse, IfOk, IfErr, OnOk, OnErr, Err, option_to_list};
ghost use Rattle.std.specs.Option.{option_map};
ghost use Rattle.rrc_history.specs.Audits.{IsFirstBad};
ghost use Rattle.rrc_history.specs.Chapters.{LeadTo};
ghost use Rattle.rrc_history.specs.Past.{moment_of};
ghost use Rattle.rrc_history.specs.Right.{IsLegal};
ghost use Rattle.rrc_history.specs.Views.{held_in};
ghost use Rattle.rrc_cache.specs.Lean.{begun_with};
ghost use Rattle.rrc_cache.specs.Part.{IsOpen, past_of};
ghost use Rattle.rrc_replay.specs.Unlawful.{EndsIn, IsDueEvent, IsDueThere, IsWhyUnlawful, Repeats, held_under};

use rrc_cache::{ChapterFault, Part, Refusal, restored_chapter};
use rrc_history::{Entry, Event, Held, LAST_MOMENT, NUMBER_LIMIT, Snapshot};
use rrc_name::{KeyRef, Shared, Slot};
use std::alloc::{AllocError, Global};

/// The event that is due in the place of one that is not right, and what its keys held before it.
#[derive(Debug, Drop)]
pub struct Due {
    pub event: Event,
    /// Of an offer its key, of an ask the set, the denial and the failure of its name.
    pub held: Vec<Entry>,
}

/// The events of a chapter up to one that is not right.
#[derive(Debug, Drop)]
pub(crate) struct Cut {
    before: Vec<Event>,
    bad: Event,
}

/// The events before a place, and the one there.
fn cut_at(events: Vec<Event>, place: usize) -> Cut
    requires { place < length events.items }
    ensures { take (place + 1) events.items ≡ result.before.items ++ result.bad ∷ [] }
{
    let mut before = events;
    before.truncate(place + 1);
    match before.pop() {
        Some(bad) => Cut { before, bad },
        None => unreachable!(),
    }
}

/// What legal events lead to.
fn closing_of(
    alloc: Global,
    snapshot: Shared<Snapshot>,
    events: Vec<Event>,
    seed: [u8; 16],
) -> Result<Shared<Snapshot>, AllocError>
    requires { IsLegal snapshot (reverse events.items) }
    ensures { IfOk result (λ closing. LeadTo snapshot events.items closing) }
{
    match restored_chapter(alloc, 1, snapshot, events, seed) {
        Ok(chapter) => Ok(chapter.closing),
        Err(refused) => match refused.fault {
            ChapterFault::Memory => Err(AllocError),
            ChapterFault::BadNumber | ChapterFault::NotLegal(_) => unreachable!(),
        },
    }
}

/// Puts what a key holds, if it holds something, behind other entries.
fn push_held(entries: &mut Vec<Entry>, held: Option<Held<'_>>) -> Result<(), AllocError>
    ensures { OnOk result (entries.new.items ≡ entries.old.items ++ option_to_list (option_map held_in held.entry)) }
{
    match held {
        None => {}
        Some(held) => entries.push(Entry {
            key: held.key.clone()?,
            body: held.body.clone()?,
            moment: held.moment,
            number: held.number,
        })?,
    }
    Ok(())
}

/// What a part holds under the keys of an event's call.
fn held_by(alloc: Global, part: &Part, event: &Event) -> Result<Vec<Entry>, AllocError>
    ensures { IfOk result (λ entries. entries.items ≡ held_under part.now.snapshot (past_of part.now) event.now) }
{
    let mut entries = Vec::new(alloc);
    match event {
        Event::Offered { offer, .. } => {
            push_held(&mut entries, part.held(KeyRef::of(&offer.key)))?;
        }
        Event::Asked { ask, .. } => {
            push_held(
                &mut entries,
                part.held(ask.as_ref().key_at(Slot::Set(ask.rtype))),
            )?;
            push_held(&mut entries, part.held(ask.as_ref().key_at(Slot::Nx)))?;
            push_held(
                &mut entries,
                part.held(ask.as_ref().key_at(Slot::Failed(ask.rtype))),
            )?;
        }
        Event::Swept { .. } => {}
    }
    Ok(entries)
}

/// Makes an event's call on a part.
fn call_again(part: &mut Part, event: &Event) -> Result<(), Refusal>
    requires { IsOpen part.old (moment_of event.now) }
    ensures ok { OnOk result (Repeats part.old part.new event.now) }
    ensures err { OnErr result (result ≡ Err Refusal.Memory) }
{
    match event {
        Event::Offered { tag, offer, .. } => {
            let _ = part.offer(*tag, offer.clone()?)?;
        }
        Event::Asked { tag, ask, .. } => drop(part.ask(*tag, ask)?),
        Event::Swept { tag, moment, .. } => {
            let _ = part.sweep(*tag, *moment)?;
        }
    }
    Ok(())
}

/// The last event of a part that has one.
fn last_event(part: Part) -> Result<Event, AllocError>
    requires some { 0 < length part.events }
    requires number { part.number < 2 ^ 62 }
    ensures { IfOk result (EndsIn part.events) }
{
    let mut part = part;
    match part.checkpoint() {
        Ok(chapter) => match chapter.events.into_vec().pop() {
            Some(event) => Ok(event),
            None => unreachable!(),
        },
        Err(Refusal::Memory) => Err(AllocError),
        Err(Refusal::HistoryFull | Refusal::MomentTooLarge) => unreachable!(),
    }
}

/// A part that holds what a chapter led to.
fn part_of(alloc: Global, closing: Shared<Snapshot>, seed: [u8; 16]) -> Result<Part, AllocError>
    requires { closing.first < 2 ^ 62 }
    ensures { IfOk result (λ part. part ≡ begun_with closing) }
{
    match Part::restored(alloc, closing, seed) {
        Ok(part) => Ok(part),
        Err(Refusal::Memory) => Err(AllocError),
        Err(Refusal::HistoryFull | Refusal::MomentTooLarge) => unreachable!(),
    }
}

/// What is due on a part in the place of an event.
fn due_on(alloc: Global, part: Part, bad: &Event) -> Result<Due, AllocError>
    requires open { IsOpen part (moment_of bad.now) }
    requires empty { part.events ≡ [] }
    requires number { part.number < 2 ^ 62 }
    ensures { IfOk result (IsDueEvent part.snapshot [] bad.now) }
{
    let mut part = part;
    let held = held_by(alloc, &part, bad)?;
    match call_again(&mut part, bad) {
        Ok(()) => Ok(Due {
            event: last_event(part)?,
            held,
        }),
        Err(_) => Err(AllocError),
    }
}

/// What is due in the place of an event behind a closing.
fn due_after(
    alloc: Global,
    closing: Shared<Snapshot>,
    bad: &Event,
    seed: [u8; 16],
) -> Result<Option<Due>, AllocError>
    ensures { IfOk result (IsDueThere closing [] bad.now) }
{
    if closing.first >= NUMBER_LIMIT || bad.moment() > LAST_MOMENT {
        return Ok(None);
    }
    let part = part_of(alloc, closing, seed)?;
    Ok(Some(due_on(alloc, part, bad)?))
}

/// An event that is not right, and what is due in its place: none where the numbers are spent or
/// its moment is above 2^40.
#[derive(Debug, Drop)]
pub struct Reason {
    pub written: Event,
    pub due: Option<Due>,
}

/// Why the event at a place of a chapter is not right. What the part held there is what the events
/// before it lead to; the call is made on a part that holds that.
pub(crate) fn why_unlawful(
    alloc: Global,
    opening: Shared<Snapshot>,
    events: Vec<Event>,
    place: usize,
    seed: [u8; 16],
) -> Result<Reason, AllocError>
    requires { IsFirstBad opening events.items place }
    ensures { IfOk result (IsWhyUnlawful opening events.items place) }
{
    let Cut { before, bad } = cut_at(events, place);
    let closing = closing_of(alloc, opening, before, seed)?;
    let due = due_after(alloc, closing, &bad, seed)?;
    Ok(Reason { written: bad, due })
}
