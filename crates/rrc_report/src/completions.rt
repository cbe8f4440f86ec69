// SPDX-License-Identifier: MIT
ghost use Rattle.std.specs.Prelude.{◌≡◌, ◌&&◌, ◌==◌, map, length, Some, None, IfOk, IfSome, IfNone, if◌then◌else◌};
ghost use Rattle.rrc_trace.specs.declared.answer.Answer.{Answer};
ghost use Rattle.rrc_report.specs.Answers.{Completes, OneCompletion};
ghost use Rattle.rrc_report.specs.Completions.{told_by, replies, counts, is_hit, all_told_by, all_count, is_empty, replies_alone, one_told_by, told_before, fetch_told_by, only_where, complete};
ghost use Rattle.rrc_history.specs.declared.event.Reply.TheVariants.{Miss};
ghost use Rattle.rrc_trace.specs.declared.answer.Answer.TheVariants as answers;

use rrc_history::{Event, Reply};
use rrc_name::Sequence;
use rrc_trace::{Answer, Told};
use std::alloc::{AllocError, Global};

/// Whether an event tells a reply.
fn replies(reply: &Reply, event: &Event) -> bool
    ensures { result ≡ replies reply.now event.now }
{
    match event {
        Event::Asked { reply: other, .. } => reply == other,
        Event::Offered { .. } | Event::Swept { .. } => false,
    }
}

/// Whether an event tells that a sweep removed so many keys.
fn counts(count: usize, event: &Event) -> bool
    ensures { result ≡ counts count event.now }
{
    match event {
        Event::Swept { gone, .. } => count == gone.len(),
        Event::Offered { .. } | Event::Asked { .. } => false,
    }
}

fn is_hit(reply: &Reply) -> bool
    ensures { result ≡ is_hit reply.now }
{
    match reply {
        Reply::Fresh { .. } | Reply::Stale { .. } | Reply::NoData { .. } | Reply::NxDomain { .. } =>
            true,
        Reply::Miss { .. } => false,
    }
}

/// What became of an offer, with whom its event says that it evicted. `None` where that event tells
/// another outcome or is of another call, or where an evicted key was told already.
fn told_by(told: &Told, event: &Event) -> Result<Option<Told>, AllocError>
    ensures { IfOk result (λ found. found ≡ told_by told.now event.now) }
{
    let (outcome, evicted) = match event {
        Event::Offered {
            outcome,
            evicted,
            ..
        } => (*outcome, evicted),
        Event::Asked { .. } | Event::Swept { .. } => return Ok(None),
    };
    if told.outcome != outcome || told.evicted.is_some() {
        return Ok(None);
    }
    let evicted = match evicted {
        None => None,
        Some(key) => Some(key.clone()?),
    };
    Ok(Some(Told { outcome, evicted }))
}

/// Whether the events are one, and it tells a reply.
fn replies_alone(reply: &Reply, events: &[&Event]) -> bool
    ensures { result ≡ replies_alone reply.now (map (λ event. event.now) events.now) }
{
    if events.len() != 1 {
        return false;
    }
    replies(reply, events[0])
}

/// What became of an offer, where the events are one and tell it.
fn one_told_by(told: &Told, events: &[&Event]) -> Result<Option<Told>, AllocError>
    ensures { IfOk result (λ found. found ≡ one_told_by told.now (map (λ event. event.now) events.now)) }
{
    if events.len() != 1 {
        return Ok(None);
    }
    told_by(told, events[0])
}

/// What became of offers, each by its event.
fn all_told_by(
    alloc: Global,
    told: &[Told],
    events: &[&Event],
) -> Result<Option<Sequence<Told>>, AllocError>
    ensures { IfOk result (λ found. found ≡ all_told_by told.now (map (λ event. event.now) events.now)) }
{
    if told.len() != events.len() {
        return Ok(None);
    }
    let mut all = Vec::with_capacity(alloc, told.len())?;
    for (place, one) in told.iter().enumerate() {
        match told_by(one, events[place])? {
            None => return Ok(None),
            Some(told) => all.push(told)?,
        }
    }
    Ok(Some(Sequence::from_vec(all)))
}

/// Whether each event tells that a sweep removed so many keys, in order.
fn all_count(removed: &[usize], events: &[&Event]) -> bool
    ensures { result ≡ all_count removed.now (map (λ event. event.now) events.now) }
{
    if removed.len() != events.len() {
        return false;
    }
    for (place, count) in removed.iter().enumerate() {
        if !counts(*count, events[place]) {
            return false;
        }
    }
    true
}

/// What became of offers, each by its event, behind which the last one tells a reply.
fn told_before(
    alloc: Global,
    told: &[Told],
    reply: &Reply,
    events: &[&Event],
) -> Result<Option<Sequence<Told>>, AllocError>
    ensures { IfOk result (λ found. found ≡ told_before told.now reply.now (map (λ event. event.now) events.now)) }
{
    match events.split_last() {
        None => Ok(None),
        Some((last, before)) => {
            if !replies(reply, last) {
                return Ok(None);
            }
            all_told_by(alloc, told, before)
        }
    }
}

/// What became of the offers of a fetch: it missed first, then offered, and then was told a reply.
fn fetch_told_by(
    alloc: Global,
    told: &[Told],
    reply: &Reply,
    events: &[&Event],
) -> Result<Option<Sequence<Told>>, AllocError>
    ensures { IfOk result (λ found. found ≡ fetch_told_by told.now reply.now (map (λ event. event.now) events.now)) }
{
    match events.split_first() {
        None => Ok(None),
        Some((first, behind)) => {
            if !replies(&Reply::Miss { retry_from: None }, first) {
                return Ok(None);
            }
            told_before(alloc, told, reply, behind)
        }
    }
}

/// An answer, where the events tell it.
fn only_where(told: bool, answer: Answer) -> Option<Answer>
    ensures { result ≡ only_where told answer }
{
    if told { Some(answer) } else { None }
}

/// Whether the events are one, and it tells that nothing was found.
fn misses_alone(retry_from: Option<u64>, events: &[&Event]) -> bool
    ensures { result ≡ replies_alone (Miss retry_from) (map (λ event. event.now) events.now) }
{
    replies_alone(&Reply::Miss { retry_from }, events)
}

/// The answer of a fetch that was made, where events complete it.
fn complete_fetch(
    alloc: Global,
    told: Sequence<Told>,
    reply: Reply,
    events: &[&Event],
) -> Result<Option<Answer>, AllocError>
    ensures { IfOk result (λ found. found ≡ complete (answers.Fetched told reply) (map (λ event. event.now) events.now)) }
{
    match fetch_told_by(alloc, told.as_slice(), &reply, events)? {
        None => Ok(None),
        Some(told) => Ok(Some(Answer::Fetched { told, reply })),
    }
}

/// The answer that events complete.
fn complete(alloc: Global, given: Answer, events: &[&Event]) -> Result<Option<Answer>, AllocError>
    ensures { IfOk result (λ found. found ≡ complete given (map (λ event. event.now) events.now)) }
{
    match given {
        Answer::Put(told) => Ok(one_told_by(&told, events)?.map(Answer::Put)),
        Answer::Fail(told) => Ok(one_told_by(&told, events)?.map(Answer::Fail)),
        Answer::Response(told) => {
            Ok(all_told_by(alloc, told.as_slice(), events)?.map(Answer::Response))
        }
        Answer::Fetched { told, reply } => complete_fetch(alloc, told, reply, events),
        Answer::Ask(reply) => {
            let told = replies_alone(&reply, events);
            Ok(only_where(told, Answer::Ask(reply)))
        }
        Answer::Hit(reply) => {
            let told = is_hit(&reply) && replies_alone(&reply, events);
            Ok(only_where(told, Answer::Hit(reply)))
        }
        Answer::Held(moment) => Ok(only_where(misses_alone(Some(moment), events), given)),
        Answer::Joined => Ok(only_where(misses_alone(None, events), Answer::Joined)),
        Answer::Swept(counts) => {
            let told = all_count(counts.as_slice(), events);
            Ok(only_where(told, Answer::Swept(counts)))
        }
        Answer::Refused(_) | Answer::Closed => Ok(only_where(events.is_empty(), given)),
    }
}

/// The answer that events complete, with whom its offers evicted, or `None` where they tell another
/// one.
pub(crate) fn completed(
    alloc: Global,
    given: Answer,
    events: &[&Event],
) -> Result<Option<Answer>, AllocError>
    ensures some { IfOk result (λ found. IfSome found (λ answer. Completes given answer (map (λ event. event.now) events.now))) }
    ensures none { IfOk result (λ found. IfNone found ((answer : Answer) → Completes given answer (map (λ event. event.now) events.now) → ⊥)) }
{
    complete(alloc, given, events)
}

/// Events complete an answer in one way. The function does nothing; its contract is the law.
pub fn one_completion()
    ensures { OneCompletion }
{}
