// SPDX-License-Identifier: MIT
ghost use Rattle.std.specs.Prelude.{◌≡◌, option_map, IfOk, IfErr};
ghost use Rattle.rrc_text.specs.Gives.{Gives};
ghost use Rattle.rrc_trace.specs.Lines.{question_at, kept_of, put_of, manner_of, ask_of, fail_of, response_of, sent_of, fetch_of, sweep_of, ended, line_of, before_last, without_cr, bounded, line_of_piece};

use crate::line::{Failed, Fetch, Line, Put, Response};
use crate::read::form::{Form, form_at};
use crate::read::item::items_at;
use crate::read::message::{fetched_at, message_at};
use crate::read::names::{Names, name_at};
use crate::read::number::{moment_at, rtype_at};
use rrc_history::{Ask, Mode, Purpose, Trust};
use rrc_name::{Name, Octets, RdataList, Sequence, Shared};
use rrc_text::{Kind, LineFault, has_field, mode_at, purpose_at, trust_at, ttl_at};
use std::alloc::Global;

/// The most octets of a line, its LF not counted.
pub(crate) const MOST_OCTETS: usize = 140_000;

/// The moment, the name, and the type and class of a question, and the octets behind them.
#[tactic(auto, unfolding(crate::specs::Lines::question_at))]
fn question_at<'a>(
    alloc: Global,
    names: &mut Names,
    octets: &'a [u8],
) -> Result<(u64, Name, Kind, &'a [u8]), LineFault>
    ensures { Gives (λ found. (found.0, found.1, found.2, found.3.now)) result (question_at octets.now) }
{
    let (moment, rest) = moment_at(octets)?;
    let (name, rest) = name_at(alloc, names, rest)?;
    let (kind, rest) = rtype_at(rest)?;
    Ok((moment, name, kind, rest))
}

/// The rdata of a put, for all who keep them.
fn shared(alloc: Global, items: Sequence<Octets>) -> Result<Shared<RdataList>, LineFault>
    ensures ok { IfOk result (λ shared. shared ≡ items) }
    ensures memory { IfErr result (λ fault. fault ≡ LineFault.Memory) }
{
    let items = RdataList::from_vec(items.into_vec());
    Ok(Shared::new(alloc, items)?)
}

/// What a put says behind its type, to its end: its trust, its time to live and its data.
#[tactic(auto, unfolding(crate::specs::Lines::kept_of))]
fn kept_in(
    alloc: Global,
    rtype: u16,
    octets: &[u8],
) -> Result<(Trust, u32, Shared<RdataList>), LineFault>
    ensures { Gives (λ kept. (kept.0, kept.1, kept.2)) result (kept_of rtype octets.now) }
{
    let (trust, rest) = trust_at(octets)?;
    let (ttl, rest) = ttl_at(rest)?;
    let (items, rest) = items_at(alloc, rtype, rest)?;
    if has_field(rest) {
        return Err(LineFault::NotOne);
    }
    Ok((trust, ttl, shared(alloc, items)?))
}

/// The line whose first word was `put`.
#[tactic(auto, unfolding(crate::specs::Lines::put_of))]
fn put_in(alloc: Global, names: &mut Names, octets: &[u8]) -> Result<Line, LineFault>
    ensures { Gives (λ line. line) result (put_of octets.now) }
{
    let (moment, name, kind, rest) = question_at(alloc, names, octets)?;
    let (trust, ttl, items) = kept_in(alloc, kind.rtype, rest)?;
    Ok(Line::Put(Put {
        moment,
        name,
        class: kind.class,
        rtype: kind.rtype,
        trust,
        ttl,
        items,
    }))
}

/// What an ask says behind its type, to its end: its purpose and its mode.
#[tactic(auto, unfolding(crate::specs::Lines::manner_of))]
fn manner_in(octets: &[u8]) -> Result<(Purpose, Mode), LineFault>
    ensures { Gives (λ manner. (manner.0, manner.1)) result (manner_of octets.now) }
{
    let (purpose, rest) = purpose_at(octets)?;
    let (mode, rest) = mode_at(rest)?;
    if has_field(rest) {
        return Err(LineFault::NotOne);
    }
    Ok((purpose, mode))
}

/// The line whose first word was `ask`.
#[tactic(auto, unfolding(crate::specs::Lines::ask_of))]
fn ask_in(alloc: Global, names: &mut Names, octets: &[u8]) -> Result<Line, LineFault>
    ensures { Gives (λ line. line) result (ask_of octets.now) }
{
    let (moment, name, kind, rest) = question_at(alloc, names, octets)?;
    let (purpose, mode) = manner_in(rest)?;
    Ok(Line::Ask(Ask {
        name: name.folded()?,
        class: kind.class,
        rtype: kind.rtype,
        moment,
        purpose,
        mode,
    }))
}

/// The line whose first word was `fail`.
#[tactic(auto, unfolding(crate::specs::Lines::fail_of))]
fn fail_in(alloc: Global, names: &mut Names, octets: &[u8]) -> Result<Line, LineFault>
    ensures { Gives (λ line. line) result (fail_of octets.now) }
{
    let (moment, name, kind, rest) = question_at(alloc, names, octets)?;
    if has_field(rest) {
        return Err(LineFault::NotOne);
    }
    Ok(Line::Fail(Failed {
        moment,
        name,
        class: kind.class,
        rtype: kind.rtype,
    }))
}

/// The line whose first word was `response`.
#[tactic(auto, unfolding(crate::specs::Lines::response_of))]
fn response_in(alloc: Global, names: &mut Names, octets: &[u8]) -> Result<Line, LineFault>
    ensures { Gives (λ line. line) result (response_of octets.now) }
{
    let (moment, rest) = moment_at(octets)?;
    let (zone, rest) = name_at(alloc, names, rest)?;
    let (octets, rest) = message_at(alloc, rest)?;
    if has_field(rest) {
        return Err(LineFault::NotOne);
    }
    Ok(Line::Response(Response {
        moment,
        zone,
        octets,
    }))
}

/// What a fetch says behind its type, to its end: the zone, and the message that its servers send.
#[tactic(auto, unfolding(crate::specs::Lines::sent_of))]
fn sent_in(
    alloc: Global,
    names: &mut Names,
    octets: &[u8],
) -> Result<(Name, Option<Octets>), LineFault>
    ensures { Gives (λ sent. (sent.0, sent.1)) result (sent_of octets.now) }
{
    let (zone, rest) = name_at(alloc, names, octets)?;
    let (octets, rest) = fetched_at(alloc, rest)?;
    if has_field(rest) {
        return Err(LineFault::NotOne);
    }
    Ok((zone, octets))
}

/// The line whose first word was `fetch`.
#[tactic(auto, unfolding(crate::specs::Lines::fetch_of))]
fn fetch_in(alloc: Global, names: &mut Names, octets: &[u8]) -> Result<Line, LineFault>
    ensures { Gives (λ line. line) result (fetch_of octets.now) }
{
    let (moment, name, kind, rest) = question_at(alloc, names, octets)?;
    let (zone, octets) = sent_in(alloc, names, rest)?;
    Ok(Line::Fetch(Fetch {
        moment,
        name,
        class: kind.class,
        rtype: kind.rtype,
        zone,
        octets,
    }))
}

/// The line whose first word was `sweep`.
#[tactic(auto, unfolding(crate::specs::Lines::sweep_of))]
fn sweep_in(octets: &[u8]) -> Result<Line, LineFault>
    ensures { Gives (λ line. line) result (sweep_of octets.now) }
{
    let (moment, rest) = moment_at(octets)?;
    if has_field(rest) {
        return Err(LineFault::NotOne);
    }
    Ok(Line::Sweep(moment))
}

/// The line whose only word was `checkpoint`.
fn checkpoint_in(octets: &[u8]) -> Result<Line, LineFault>
    ensures { Gives (λ line. line) result (ended octets.now Line.Checkpoint) }
{
    if has_field(octets) {
        return Err(LineFault::NotOne);
    }
    Ok(Line::Checkpoint)
}

/// The line that octets without its end spell.
fn line_in(alloc: Global, names: &mut Names, octets: &[u8]) -> Result<Line, LineFault>
    ensures { Gives (λ line. line) result (line_of octets.now) }
{
    let (form, rest) = form_at(octets)?;
    match form {
        Form::Put => put_in(alloc, names, rest),
        Form::Ask => ask_in(alloc, names, rest),
        Form::Fail => fail_in(alloc, names, rest),
        Form::Response => response_in(alloc, names, rest),
        Form::Fetch => fetch_in(alloc, names, rest),
        Form::Sweep => sweep_in(rest),
        Form::Checkpoint => checkpoint_in(rest),
    }
}

/// The octets before the last one, where that is this one.
fn before_last(octets: &[u8], last: u8) -> Option<&[u8]>
    ensures { option_map (λ front. front.now) result ≡ before_last octets.now last }
{
    if octets.is_empty() {
        return None;
    }
    let end = octets.len() - 1;
    if octets[end] == last {
        Some(&octets[..end])
    } else {
        None
    }
}

fn without_cr(octets: &[u8]) -> &[u8]
    ensures { result.now ≡ without_cr octets.now }
{
    match before_last(octets, b'\r') {
        Some(front) => front,
        None => octets,
    }
}

fn bounded(octets: &[u8]) -> Result<&[u8], LineFault>
    ensures { Gives (λ octets. octets.now) result (bounded octets.now) }
{
    if octets.len() <= MOST_OCTETS {
        Ok(octets)
    } else {
        Err(LineFault::NotOne)
    }
}

/// The line of a piece of a trace, which ends with its LF or with the trace. A CR before an LF is
/// dropped.
pub(crate) fn line_of_piece(
    alloc: Global,
    names: &mut Names,
    piece: &[u8],
) -> Result<Line, LineFault>
    ensures { Gives (λ line. line) result (line_of_piece piece.now) }
{
    match before_last(piece, b'\n') {
        Some(octets) => line_in(alloc, names, without_cr(bounded(octets)?)),
        None => line_in(alloc, names, bounded(piece)?),
    }
}
