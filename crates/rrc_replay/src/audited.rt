// SPDX-License-Identifier: MIT
//! What an audit of an archive tells.
ghost use Rattle.std.specs.Prelude.{◌≡◌, ◌++◌, ◌∷◌, [], length, IfOk, OnOk};
ghost use Rattle.std.specs.List.{flat_map};
ghost use Rattle.rrc_archive.specs.Archive.{line_text};
ghost use Rattle.rrc_replay.specs.Audited.{IsAudit, IsToldLegal, due_text, held_line, legal_text, place_text, reason_text, refusal_text, why_text};

use crate::history::{Counted, HistoryFault, counted_in};
use crate::unlawful::{Due, Reason};
use rrc_archive::{ArchiveLine, write_archive_line};
use rrc_history::Entry;
use std::alloc::{AllocError, Global};

/// What an audit found of an archive.
#[derive(Clone, Copy, Debug, PartialEq, Eq)]
pub enum Finding {
    /// It tells a legal history.
    Legal,
    /// It tells none.
    NotLegal,
}

/// What an audit found, and a text of some lines that tells it.
#[derive(Debug, Drop)]
pub struct Audited {
    pub finding: Finding,
    pub text: Vec<u8>,
}

/// Audits the history that an archive tells, and tells what was found: `legal: N chapters, M events
/// from number F on`, or else `not legal: ` and why; of an event that is not right what was
/// written, what is due in its place, and what its keys held. An error is that memory was refused.
///
/// Keys are hashed behind the seed; nothing that is told depends on it.
pub fn audit_archive(alloc: Global, octets: &[u8], seed: [u8; 16]) -> Result<Audited, AllocError>
    ensures { IfOk result (λ audited. IsAudit octets.now audited.finding audited.text.items) }
{
    match counted_in(alloc, octets, seed) {
        Ok(counted) => Ok(Audited {
            finding: Finding::Legal,
            text: length_text(alloc, &counted)?,
        }),
        Err(HistoryFault::Memory) => Err(AllocError),
        Err(fault) => Ok(Audited {
            finding: Finding::NotLegal,
            text: refusal(alloc, &fault)?,
        }),
    }
}

/// How long a legal history is.
fn length_text(alloc: Global, counted: &Counted) -> Result<Vec<u8>, AllocError>
    ensures { IfOk result (λ text. text.items ≡ legal_text counted.now.chapters (length counted.now.whole.events) counted.now.whole.snapshot.first) }
{
    let events = counted.whole.events.as_slice().len();
    let first = counted.whole.snapshot.first;
    legal_text(alloc, counted.chapters, events, first)
}

fn legal_text(
    alloc: Global,
    chapters: usize,
    events: usize,
    first: u64,
) -> Result<Vec<u8>, AllocError>
    ensures { IfOk result (λ text. text.items ≡ legal_text chapters events first) }
{
    let text = format!(in alloc;
        "legal: {chapters} chapters, {events} events from number {first} on\n"
    )?;
    Ok(text.into_bytes())
}

/// That a history is not legal, and why.
fn refusal(alloc: Global, fault: &HistoryFault) -> Result<Vec<u8>, AllocError>
    ensures { IfOk result (λ text. text.items ≡ refusal_text fault.now) }
{
    match fault {
        HistoryFault::NotLegal {
            chapter,
            event,
            line,
            reason,
        } => unlawful_text(alloc, *chapter, *event, *line, reason),
        HistoryFault::Empty => why_text(alloc, fault),
        HistoryFault::BadLine(_) => why_text(alloc, fault),
        HistoryFault::BadEntry { .. } => why_text(alloc, fault),
        HistoryFault::BadNumber(_) => why_text(alloc, fault),
        HistoryFault::Broken(_) => why_text(alloc, fault),
        HistoryFault::Memory => why_text(alloc, fault),
    }
}

fn why_text(alloc: Global, fault: &HistoryFault) -> Result<Vec<u8>, AllocError>
    ensures { IfOk result (λ text. text.items ≡ why_text fault.now) }
{
    let text = format!(in alloc; "not legal: {fault}\n")?;
    Ok(text.into_bytes())
}

/// Which event is not right, and what is due in its place.
fn unlawful_text(
    alloc: Global,
    chapter: usize,
    event: usize,
    line: u64,
    reason: &Reason,
) -> Result<Vec<u8>, AllocError>
    ensures { IfOk result (λ text. text.items ≡ place_text chapter event line ++ reason_text reason.now) }
{
    let mut text = place_text(alloc, chapter, event, line)?;
    put_line(
        alloc,
        &mut text,
        "written: ",
        ArchiveLine::Event(&reason.written),
    )?;
    put_due(alloc, &mut text, &reason.due)?;
    Ok(text)
}

fn place_text(alloc: Global, chapter: usize, event: usize, line: u64) -> Result<Vec<u8>, AllocError>
    ensures { IfOk result (λ text. text.items ≡ place_text chapter event line) }
{
    let text = format!(in alloc;
        "not legal: chapter {chapter} of the archive, event {event} (line {line})\n"
    )?;
    Ok(text.into_bytes())
}

/// Puts a word and a line as an archive has it behind a text.
fn put_line(
    alloc: Global,
    text: &mut Vec<u8>,
    word: &str,
    line: ArchiveLine<'_>,
) -> Result<(), AllocError>
    ensures { OnOk result (text.new.items ≡ text.old.items ++ (word.entry.now ++ (line_text line.entry ++ 10 ∷ []))) }
{
    text.extend_from_slice(word.as_bytes())?;
    match write_archive_line(alloc, text, line) {
        Ok(()) => Ok(()),
        Err(_) => Err(AllocError),
    }
}

/// Puts what is due behind a text.
fn put_due(alloc: Global, text: &mut Vec<u8>, due: &Option<Due>) -> Result<(), AllocError>
    ensures { OnOk result (text.new.items ≡ text.old.items ++ due_text due.now) }
{
    match due {
        None => text.extend_from_slice(
            "due: none, since the numbers are spent or the moment is above 2^40\n".as_bytes(),
        ),
        Some(due) => {
            put_line(alloc, text, "due: ", ArchiveLine::Event(&due.event))?;
            put_held(alloc, text, due.held.as_slice())
        }
    }
}

/// Puts what keys held behind a text.
fn put_held(alloc: Global, text: &mut Vec<u8>, entries: &[Entry]) -> Result<(), AllocError>
    ensures { OnOk result (text.new.items ≡ text.old.items ++ flat_map held_line entries.now) }
{
    for entry in entries {
        put_line(alloc, text, "held: ", ArchiveLine::Entry(entry))?;
    }
    Ok(())
}
