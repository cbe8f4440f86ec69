// SPDX-License-Identifier: MIT
ghost use Rattle.std.specs.Prelude.{◌≡◌, IfOk, IfErr};
ghost use Rattle.rrc_page.specs.Options.{MayBeOptions};
ghost use Rattle.rrc_page.specs.Replay.{IsFaultOf};
ghost use Rattle.rrc_page.specs.Spans.{SpansAreRight};
ghost use Rattle.rrc_page.specs.Texts.{IsTextOf, histories_told, lines_told, spans_told};
ghost use Rattle.rrc_page.specs.Told.{OnBadOptions, OnDone, OnFault, OnRefused, OnSmall, TellsFault, TellsSize, TellsText};

use crate::histories::histories_text;
use crate::options::{Options, config_of};
use crate::replay::report_of;
use crate::span_lines::spans_text;
use crate::spans::spans_are_right;
use crate::told::{BAD_OPTIONS, Told, tell_fault, tell_text};
use rrc_script::Config;
use rrc_trace::{ReplayFault, write_report};
use std::alloc::Global;

/// The text of the report of a trace.
fn lines_of(alloc: Global, octets: &[u8], config: &Config) -> Result<Vec<u8>, ReplayFault>
    requires { config.now.workers ≡ 1 }
    ensures ok { IfOk result (λ text. IsTextOf lines_told config.now octets.now text.items) }
    ensures err { IfErr result (IsFaultOf octets.now) }
{
    let report = report_of(alloc, octets, config)?;
    let mut text = Vec::new(alloc);
    match write_report(alloc, &mut text, report.lines.as_slice()) {
        Ok(()) => Ok(text),
        Err(_) => Err(ReplayFault::Memory),
    }
}

/// The histories behind the report of a trace.
fn histories_of(alloc: Global, octets: &[u8], config: &Config) -> Result<Vec<u8>, ReplayFault>
    requires { config.now.workers ≡ 1 }
    ensures ok { IfOk result (λ text. IsTextOf histories_told config.now octets.now text.items) }
    ensures err { IfErr result (IsFaultOf octets.now) }
{
    let report = report_of(alloc, octets, config)?;
    Ok(histories_text(alloc, report.wholes.as_slice())?)
}

/// The spans of what keys held behind the report of a trace.
fn spans_of(alloc: Global, octets: &[u8], config: &Config) -> Result<Vec<u8>, ReplayFault>
    requires { config.now.workers ≡ 1 }
    ensures ok { IfOk result (λ text. IsTextOf spans_told config.now octets.now text.items) }
    ensures err { IfErr result (IsFaultOf octets.now) }
{
    let report = report_of(alloc, octets, config)?;
    Ok(spans_text(alloc, report.wholes.as_slice())?)
}

/// Writes the report of a trace to a buffer.
///
/// 0: the octets are a trace, the buffer begins with the text of its report by one worker, and its
/// size is told. 10: the buffer is too small for it, and its size is told. 11: an option is not in
/// its range, and nothing is told. Another number is that of a fault (`ReplayFault::number`), and
/// the line is told that it is at; a fault of the text is its first one.
#[unsafe(no_mangle)]
pub extern "C" fn rrc_page_report(
    alloc: Global,
    trace: &[u8],
    options: &Options,
    buffer: &mut [u8],
    told: &mut Told,
) -> u32
    ensures done { OnDone result (TellsText lines_told options.now trace.now buffer.old buffer.new told.new) }
    ensures small { OnSmall result (TellsSize lines_told options.now trace.now buffer.old told.new) }
    ensures options { OnBadOptions result (MayBeOptions options.now → ⊥) }
    ensures fault { OnFault result (TellsFault trace.now result told.new) }
    ensures kept { OnRefused result (buffer.new ≡ buffer.old) }
{
    let Some(config) = config_of(options) else {
        return BAD_OPTIONS;
    };
    match lines_of(alloc, trace, &config) {
        Ok(text) => tell_text(text.as_slice(), buffer, told),
        Err(fault) => tell_fault(fault, told),
    }
}

/// Writes the histories of the parts to a buffer that are behind the report of a trace: which
/// events each line of it made. Statuses are those of `rrc_page_report`.
#[unsafe(no_mangle)]
pub extern "C" fn rrc_page_histories(
    alloc: Global,
    trace: &[u8],
    options: &Options,
    buffer: &mut [u8],
    told: &mut Told,
) -> u32
    ensures done { OnDone result (TellsText histories_told options.now trace.now buffer.old buffer.new told.new) }
    ensures small { OnSmall result (TellsSize histories_told options.now trace.now buffer.old told.new) }
    ensures options { OnBadOptions result (MayBeOptions options.now → ⊥) }
    ensures fault { OnFault result (TellsFault trace.now result told.new) }
    ensures kept { OnRefused result (buffer.new ≡ buffer.old) }
{
    let Some(config) = config_of(options) else {
        return BAD_OPTIONS;
    };
    match histories_of(alloc, trace, &config) {
        Ok(text) => tell_text(text.as_slice(), buffer, told),
        Err(fault) => tell_fault(fault, told),
    }
}

/// Writes to a buffer what the keys held behind the report of a trace, as lines of text: a line for
/// each event of the histories that stored something, part by part, in the order of the histories.
///
/// ```text
/// span KIND NUMBER LINE PLACE MOMENT NAME SLOT FRESH UNTIL
/// span KIND NUMBER LINE PLACE MOMENT NAME SLOT FRESH UNTIL LOSS NUMBER LINE PLACE MOMENT
/// ```
///
/// KIND is what is held: `set`, an RRset; `nodata`, that the name has none of the type (RFC 2308
/// section 2.2); `nxdomain`, that there is no such name (RFC 2308 section 2.1); or `failed`, that
/// asking failed (RFC 8767 section 5). NUMBER, LINE, PLACE and MOMENT are those of the event in the
/// history of its part, and NAME and SLOT those of the key, as in archives. It is fresh before
/// FRESH, and may answer, stale, before UNTIL (RFC 8767 section 4); only a set is ever stale. LOSS
/// is how a later event took it from the key: `replaced` by what was stored next, `cleared` by an
/// offer of TTL 0, `evicted` for the key of another offer, or `swept`; then come the NUMBER, LINE,
/// PLACE and MOMENT of that event. Without a LOSS the key still holds it at the end of the trace.
///
/// Statuses are those of `rrc_page_report`. The time grows with the events times the keys held.
#[unsafe(no_mangle)]
pub extern "C" fn rrc_page_spans(
    alloc: Global,
    trace: &[u8],
    options: &Options,
    buffer: &mut [u8],
    told: &mut Told,
) -> u32
    ensures done { OnDone result (TellsText spans_told options.now trace.now buffer.old buffer.new told.new) }
    ensures small { OnSmall result (TellsSize spans_told options.now trace.now buffer.old told.new) }
    ensures options { OnBadOptions result (MayBeOptions options.now → ⊥) }
    ensures fault { OnFault result (TellsFault trace.now result told.new) }
    ensures kept { OnRefused result (buffer.new ≡ buffer.old) }
    ensures meaning { SpansAreRight }
{
    spans_are_right();
    let Some(config) = config_of(options) else {
        return BAD_OPTIONS;
    };
    match spans_of(alloc, trace, &config) {
        Ok(text) => tell_text(text.as_slice(), buffer, told),
        Err(fault) => tell_fault(fault, told),
    }
}
