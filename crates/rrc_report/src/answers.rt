// SPDX-License-Identifier: MIT
ghost use Rattle.std.specs.Prelude.{◌≤◌, IfOk, OnOk};
ghost use Rattle.std.specs.List.{All};
ghost use Rattle.rrc_history.specs.Lives.{LAST_MOMENT};
ghost use Rattle.rrc_trace.specs.Lawful.{IsLawful};
ghost use Rattle.rrc_script.specs.Scripts.{failure_of};
ghost use Rattle.rrc_report.specs.Called.{IsOffered, AreOffered, IsResponded, IsFirstLook, IsFetched, IsFetchAnswer, AreSwept, AreClosed, IsCalled};

use crate::calls::{Calls, Refused};
use rrc_history::{Mode, Offer, Reply, Tag};
use rrc_name::Sequence;
use rrc_script::{ask_at, failure_at, offer_at, offers_fetched};
use rrc_sets::{Limits, offers_in};
use rrc_trace::{Answer, Failed, Fetch, Line, Response, Told};
use rrc_wire::WireFault;
use std::alloc::Global;

/// Makes an offer, and tells what became of it. Whom it evicted no call answers.
fn tell<C: Calls>(cache: &mut C, tag: Tag, offer: Offer) -> Result<Told, Refused>
    requires { offer.moment ≤ LAST_MOMENT }
    ensures { IfOk result (IsOffered C.makes tag offer cache.old cache.new) }
{
    Ok(Told {
        outcome: cache.offer(tag, offer)?,
        evicted: None,
    })
}

/// Makes a line's offers, in order, the first of them at this place, and tells what became of each.
fn tell_all<C: Calls>(
    alloc: Global,
    cache: &mut C,
    first: Tag,
    offers: Vec<Offer>,
) -> Result<Sequence<Told>, Refused>
    requires first { first.place ≤ 1 }
    requires timely { All (λ offer. offer.moment ≤ LAST_MOMENT) offers.items }
    ensures { IfOk result (AreOffered C.makes first.line first.place offers.items cache.old cache.new) }
{
    // No room to spare: a trace may have as many of these lists as lines.
    let mut told = Sequence::from_vec(Vec::with_capacity(alloc, offers.len())?);
    for offer in offers {
        let tag = Tag {
            line: first.line,
            place: first.place + told.as_slice().len() as u64,
        };
        told.push(tell(cache, tag, offer)?)?;
    }
    Ok(told)
}

/// Offers that a question could not be answered.
fn fail<C: Calls>(
    cache: &mut C,
    limits: &Limits,
    first: Tag,
    failed: &Failed,
) -> Result<Told, Refused>
    requires { failed.now.moment ≤ LAST_MOMENT }
    ensures { IfOk result (IsOffered C.makes first (failure_of limits.now failed.now.moment failed.now.name failed.now.class failed.now.rtype) cache.old cache.new) }
{
    let offer = failure_at(
        failed.moment,
        &failed.name,
        failed.class,
        failed.rtype,
        limits,
    )?;
    tell(cache, first, offer)
}

/// Offers what a response offers, or tells the first fault of its octets.
#[tactic(auto, using(crate::proofs::OfferMoments::brought))]
fn respond<C: Calls>(
    alloc: Global,
    cache: &mut C,
    limits: &Limits,
    line: u64,
    response: &Response,
) -> Result<Answer, Refused>
    requires { response.now.moment ≤ LAST_MOMENT }
    ensures { IfOk result (IsResponded C.makes limits.now line response.now cache.old cache.new) }
{
    let first = Tag { line, place: 0 };
    let octets = response.octets.as_slice();
    match offers_in(alloc, octets, &response.zone, response.moment, limits) {
        Ok(offers) => Ok(Answer::Response(tell_all(alloc, cache, first, offers)?)),
        Err(WireFault::Memory) => Err(Refused::Memory),
        Err(fault) => Ok(Answer::Refused(fault.number())),
    }
}

/// Sweeps each part, in order, and counts the keys that went from each.
fn sweep<C: Calls>(
    alloc: Global,
    cache: &mut C,
    line: u64,
    moment: u64,
) -> Result<Sequence<usize>, Refused>
    requires { moment ≤ LAST_MOMENT }
    ensures { IfOk result (AreSwept C.makes line moment 0 (C.count cache.old) cache.old cache.new) }
{
    let parts = cache.parts();
    let mut counts = Sequence::from_vec(Vec::with_capacity(alloc, parts)?);
    for part in 0..parts {
        let tag = Tag {
            line,
            place: part as u64,
        };
        counts.push(cache.sweep_part(part, tag, moment)?)?;
    }
    Ok(counts)
}

/// Closes the chapter of each part.
fn close<C: Calls>(cache: &mut C) -> Result<(), Refused>
    ensures { OnOk result (AreClosed C.makes (C.count cache.old) cache.old cache.new) }
{
    let parts = cache.parts();
    for part in 0..parts {
        cache.close_part(part)?;
    }
    Ok(())
}

/// What the cache has for a fetch, or when to try again. `None` where it is to be fetched.
///
/// `Spent` where the numbers of the part are spent, and `Memory` where memory is refused.
pub fn first_look<C: Calls>(
    cache: &mut C,
    line: u64,
    fetch: &Fetch,
) -> Result<Option<Answer>, Refused>
    requires { fetch.now.moment ≤ LAST_MOMENT }
    ensures { IfOk result (IsFirstLook C.makes line fetch.now cache.old cache.new) }
{
    match cache.ask(Tag { line, place: 0 }, &ask_at(fetch, Mode::Failed)?)? {
        Reply::Miss {
            retry_from: Some(moment),
        } => Ok(Some(Answer::Held(moment))),
        Reply::Miss { retry_from: None } => Ok(None),
        found => Ok(Some(Answer::Hit(found))),
    }
}

/// Offers what a fetch got, and asks again.
///
/// `Spent` where the numbers of a part are spent, and `Memory` where memory is refused. The calls
/// before that were made.
#[tactic(auto, using(crate::proofs::OfferMoments::fetched))]
pub fn fetched<C: Calls>(
    alloc: Global,
    cache: &mut C,
    limits: &Limits,
    line: u64,
    fetch: &Fetch,
) -> Result<Answer, Refused>
    requires { fetch.now.moment ≤ LAST_MOMENT }
    ensures { IfOk result (IsFetched C.makes limits.now line fetch.now cache.old cache.new) }
{
    let Ok(offers) = offers_fetched(alloc, fetch, limits) else {
        return Err(Refused::Memory);
    };
    let told = tell_all(alloc, cache, Tag { line, place: 1 }, offers)?;
    let place = 1 + told.as_slice().len() as u64;
    let reply = cache.ask(Tag { line, place }, &ask_at(fetch, Mode::Now)?)?;
    Ok(Answer::Fetched { told, reply })
}

/// Answers a fetch beside which no other worker fetches: what the cache has, or when to try again,
/// or what was fetched.
fn answer_fetch<C: Calls>(
    alloc: Global,
    cache: &mut C,
    limits: &Limits,
    line: u64,
    fetch: &Fetch,
) -> Result<Answer, Refused>
    requires { fetch.now.moment ≤ LAST_MOMENT }
    ensures { IfOk result (IsFetchAnswer C.makes limits.now line fetch.now cache.old cache.new) }
{
    match first_look(cache, line, fetch)? {
        Some(answer) => Ok(answer),
        None => fetched(alloc, cache, limits, line, fetch),
    }
}

/// Makes the calls of a line, and tells what they got. Beside a fetch no other worker fetches.
///
/// `Spent` where the numbers of a part are spent, and `Memory` where memory is refused. The calls
/// before that were made.
pub fn answer_line<C: Calls>(
    alloc: Global,
    cache: &mut C,
    limits: &Limits,
    number: u64,
    line: &Line,
) -> Result<Answer, Refused>
    requires { IsLawful line.now }
    ensures { IfOk result (IsCalled C.makes limits.now (C.count cache.old) number line.now cache.old cache.new) }
{
    let first = Tag {
        line: number,
        place: 0,
    };
    match line {
        Line::Put(put) => Ok(Answer::Put(tell(cache, first, offer_at(put, limits)?)?)),
        Line::Ask(ask) => Ok(Answer::Ask(cache.ask(first, ask)?)),
        Line::Fail(failed) => Ok(Answer::Fail(fail(cache, limits, first, failed)?)),
        Line::Response(response) => respond(alloc, cache, limits, number, response),
        Line::Fetch(fetch) => answer_fetch(alloc, cache, limits, number, fetch),
        Line::Sweep(moment) => Ok(Answer::Swept(sweep(alloc, cache, number, *moment)?)),
        Line::Checkpoint => {
            close(cache)?;
            Ok(Answer::Closed)
        }
    }
}
