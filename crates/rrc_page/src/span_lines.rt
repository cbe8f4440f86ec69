// SPDX-License-Identifier: MIT
ghost use Rattle.std.specs.Prelude.{◌≡◌, ◌≤◌, ◌<◌, ◌+◌, ◌^◌, ◌∷◌, OnOk, IfOk};
ghost use Rattle.std.specs.Io.KnownBytes.{Appends};
ghost use Rattle.rrc_history.specs.Lives.{LAST_MOMENT, span};
ghost use Rattle.rrc_history.specs.Past.{entry_of};
ghost use Rattle.rrc_archive.specs.Archive.{key_fields, tag_fields};
ghost use Rattle.rrc_text.specs.Output.{Puts};
ghost use Rattle.rrc_page.specs.Fitting.{Fit};
ghost use Rattle.rrc_page.specs.SpanLines.{all_spans_text, ending_fields, event_fields, kind_text, limits_fields, loss_text, span_line, span_text, spans_text, stored_fields};
ghost use Rattle.rrc_page.specs.Spans.{span_at, span_ending, span_of, spans_from, spans_of};

use crate::spans::{Ending, Loss, ending_in};
use rrc_history::{Body, Event, Offer, Outcome, Tag, Whole, span};
use rrc_name::{Key, Slot};
use rrc_text::{Buffer, Output, ReplayFault, put_class, put_name, put_number, put_slot, put_word};
use std::alloc::{AllocError, Global};
use std::io::Write;

/// What is held, in a word.
fn kind_word(body: &Body, slot: Slot) -> &'static str
    ensures { result.now ≡ kind_text body.now slot }
{
    match (body, slot) {
        (Body::Positive { .. }, _) => "set",
        (Body::Negative { .. }, Slot::Nx) => "nxdomain",
        (Body::Negative { .. }, _) => "nodata",
        (Body::Failure { .. }, _) => "failed",
    }
}

fn loss_word(loss: Loss) -> &'static str
    ensures { result.now ≡ loss_text loss }
{
    match loss {
        Loss::Replaced => "replaced",
        Loss::Cleared => "cleared",
        Loss::Evicted => "evicted",
        Loss::Swept => "swept",
    }
}

/// Where a call stands in the trace.
fn put_tag<W: Write>(output: &mut Output<'_, W>, tag: Tag)
    ensures { Puts W.contents output.old output.new (tag_fields tag) }
{
    put_number(output, tag.line);
    put_word(output, " ");
    put_number(output, tag.place);
}

/// An event: its number, where its call stands in the trace, and its moment.
fn put_event<W: Write>(output: &mut Output<'_, W>, number: u64, tag: Tag, moment: u64)
    ensures { Puts W.contents output.old output.new (event_fields number tag moment) }
{
    put_number(output, number);
    put_word(output, " ");
    put_tag(output, tag);
    put_word(output, " ");
    put_number(output, moment);
}

/// A key: its name, and behind a space its slot and its class.
fn put_key<W: Write>(output: &mut Output<'_, W>, key: &Key)
    ensures { Puts W.contents output.old output.new (key_fields key.now) }
{
    put_name(output, &key.name);
    put_word(output, " ");
    put_slot(output, key.slot);
    put_class(output, key.class);
}

/// What took from a key what it held, if anything did.
fn put_ending<W: Write>(output: &mut Output<'_, W>, ending: Option<Ending>)
    ensures { Puts W.contents output.old output.new (ending_fields ending) }
{
    let Some(ending) = ending else {
        return;
    };
    put_word(output, " ");
    put_word(output, loss_word(ending.loss));
    put_word(output, " ");
    put_event(output, ending.number, ending.tag, ending.moment);
}

/// The moment from which on what an offer stored has passed its time to live and so many seconds
/// more, if it may answer for these.
fn limit_of(offer: &Offer, stale: u64) -> u64
    requires stale { stale ≤ 604800 }
    requires moment { offer.now.moment ≤ LAST_MOMENT }
    ensures { result ≡ offer.now.moment + span stale offer.now.body }
{
    offer.moment + span(&offer.body, stale)
}

/// Until when a span is fresh, until when it may answer, and how it ended.
fn put_limits<W: Write>(output: &mut Output<'_, W>, fresh: u64, until: u64, ending: Option<Ending>)
    ensures { Puts W.contents output.old output.new (limits_fields fresh until ending) }
{
    put_number(output, fresh);
    put_word(output, " ");
    put_number(output, until);
    put_ending(output, ending);
}

/// What a key holds, in a word.
fn put_kind<W: Write>(output: &mut Output<'_, W>, body: &Body, key: &Key)
    ensures { Puts W.contents output.old output.new (kind_text body.now key.now.slot) }
{
    put_word(output, kind_word(body, key.slot));
}

/// What a kept offer of this number stored.
fn put_stored<W: Write>(output: &mut Output<'_, W>, number: u64, tag: Tag, offer: &Offer)
    ensures { Puts W.contents output.old output.new (stored_fields (entry_of offer.now number) tag) }
{
    put_word(output, "span ");
    put_kind(output, &offer.body, &offer.key);
    put_word(output, " ");
    put_event(output, number, tag, offer.moment);
    put_word(output, " ");
    put_key(output, &offer.key);
}

/// The span of a kept offer of this number, which ended like this, if it did.
fn put_span<W: Write>(
    output: &mut Output<'_, W>,
    stale: u64,
    number: u64,
    tag: Tag,
    offer: &Offer,
    ending: Option<Ending>,
)
    requires stale { stale ≤ 604800 }
    requires moment { offer.now.moment ≤ LAST_MOMENT }
    ensures { Puts W.contents output.old output.new (span_text (span_ending stale number tag offer.now ending)) }
{
    let fresh = limit_of(offer, 0);
    let until = limit_of(offer, stale);
    put_stored(output, number, tag, offer);
    put_word(output, " ");
    put_limits(output, fresh, until, ending);
}

/// A line for what a kept offer of this number stored.
fn put_span_line<W: Write>(
    output: &mut Output<'_, W>,
    stale: u64,
    number: u64,
    tag: Tag,
    offer: &Offer,
    behind: &[Event],
)
    requires stale { stale ≤ 604800 }
    requires moment { offer.now.moment ≤ LAST_MOMENT }
    requires number { number < 2 ^ 62 }
    requires behind { Fit (number + 1) behind.now }
    ensures { Puts W.contents output.old output.new (span_line (span_of stale number tag offer.now behind.now)) }
{
    let ending = ending_in(&offer.key, number + 1, behind);
    put_span(output, stale, number, tag, offer, ending);
    put_word(output, "\n");
}

/// A line for what an event of this number stored, if it stored anything.
fn put_span_at<W: Write>(
    output: &mut Output<'_, W>,
    stale: u64,
    number: u64,
    event: &Event,
    behind: &[Event],
)
    requires stale { stale ≤ 604800 }
    requires events { Fit number (event.now ∷ behind.now) }
    ensures { Puts W.contents output.old output.new (spans_text (span_at stale number event.now behind.now)) }
{
    match event {
        Event::Offered {
            outcome: Outcome::Kept,
            tag,
            offer,
            ..
        } => put_span_line(output, stale, number, *tag, offer, behind),
        _ => {}
    }
}

/// A line for each span of these events, the first of which has this number.
fn put_spans_from<W: Write>(output: &mut Output<'_, W>, stale: u64, first: u64, events: &[Event])
    requires stale { stale ≤ 604800 }
    requires events { Fit first events.now }
    ensures { Puts W.contents output.old output.new (spans_text (spans_from stale first events.now)) }
{
    let mut number = first;
    let mut rest = events;
    while let Some((event, behind)) = rest.split_first() {
        put_span_at(output, stale, number, event, behind);
        number += 1;
        rest = behind;
    }
}

/// A line for each span of a history.
fn put_spans<W: Write>(output: &mut Output<'_, W>, whole: &Whole)
    ensures { Puts W.contents output.old output.new (spans_text (spans_of whole.now)) }
{
    let stale = whole.snapshot.rules().stale;
    put_spans_from(output, stale, whole.snapshot.first, whole.events.as_slice());
}

/// A line for each span of histories, one behind another.
fn put_all_spans<W: Write>(output: &mut Output<'_, W>, wholes: &[Whole])
    ensures { Puts W.contents output.old output.new (all_spans_text wholes.now) }
{
    for whole in wholes {
        put_spans(output, whole);
    }
}

/// Writes the spans of histories, and flushes.
fn write_spans<W: Write>(alloc: Global, writer: &mut W, wholes: &[Whole]) -> Result<(), ReplayFault>
    ensures { OnOk result (Appends (W.contents writer.old) (W.contents writer.new) (all_spans_text wholes.now)) }
{
    let mut buffer = Buffer::reserved(alloc)?;
    let mut output = Output {
        writer,
        buffer: &mut buffer,
        failed: false,
    };
    put_all_spans(&mut output, wholes);
    output.finish()
}

/// The text of the spans of histories. An error is that memory was refused.
pub(crate) fn spans_text(alloc: Global, wholes: &[Whole]) -> Result<Vec<u8>, AllocError>
    ensures { IfOk result (λ text. text.items ≡ all_spans_text wholes.now) }
{
    let mut text = Vec::new(alloc);
    match write_spans(alloc, &mut text, wholes) {
        Ok(()) => Ok(text),
        Err(_) => Err(AllocError),
    }
}
