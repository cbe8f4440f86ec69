// SPDX-License-Identifier: MIT
//! The history that an archive tells.
ghost use Rattle.std.specs.Prelude.{◌≡◌, ◌<◌, ◌^◌, length, map, reverse, None, IfOk, IfErr, IfSome, IsTrue, OnOk};
ghost use Rattle.std.specs.List.{AllByRecursion, flat_map};
ghost use Rattle.rrc_history.specs.Chains.{IsWhole, chain_fault};
ghost use Rattle.rrc_history.specs.Chapters.{IsChapter, LeadTo};
ghost use Rattle.rrc_history.specs.Equality.{rules_eq};
ghost use Rattle.rrc_history.specs.WholeLaws.{AllKeepLaws};
ghost use Rattle.rrc_archive.specs.Archive.{archive_text, lines_of, written_of};
ghost use Rattle.rrc_replay.specs.Archives.{AreChapters, AreLinesFew, IsArchiveOf, TellsHistory, TellsCounted, IsWhyNoHistory, IsFaultBehind, IsNoOpening, IsToldBehind, IsWhyBroken, HasWhy, line_of};

use crate::unlawful::{Reason, why_unlawful};
use rrc_archive::{ArchiveFault, WrittenChapter, read_archive};
use rrc_cache::{ChapterFault, NotRestored, restored_chapter};
use rrc_history::{
    ChainFault, Chapter, Entry, EntryList, NoSnapshot, Rules, Snapshot, SnapshotFault, Whole, chain,
};
use rrc_name::Shared;
use std::alloc::{AllocError, AllocFailed, Global};
use std::error::Error;
use std::fmt::{self, Display, Formatter, Write};

/// Why octets are no archive of a history. Chapters of an archive, events of a chapter and lines
/// are counted from 0.
#[derive(Debug, Drop)]
pub enum HistoryFault {
    /// There are no octets.
    Empty,
    /// The octets are an archive up to this line, and with it none.
    BadLine(u64),
    /// The chapter begins with entries that no part holds.
    BadEntry {
        chapter: usize,
        fault: SnapshotFault,
    },
    /// The chapter has a number that no closed chapter has.
    BadNumber(usize),
    /// The event is not right after those before it.
    NotLegal {
        chapter: usize,
        event: usize,
        /// Of the archive.
        line: u64,
        reason: Reason,
    },
    /// Of this chapter or one before it each event is right, and it does not go on from the last.
    Broken(ChainFault),
    Memory,
}

impl Display for HistoryFault {
    ghost use Rattle.std.specs.Prelude.{Some};
    ghost use Rattle.rrc_replay.specs.Archives.{fault_text};

    ghost output = { λ fault. Some (fault_text fault) };

    fn fmt<W: Write>(&self, f: &mut Formatter<W>) -> fmt::Result {
        match self {
            HistoryFault::Empty => f.write_str("the archive has no chapters"),
            HistoryFault::BadLine(line) => write!(f, "line {line} is not a line of an archive"),
            HistoryFault::BadEntry { chapter, fault } => write!(
                f,
                "chapter {chapter} begins with entries that no part holds: {fault}"
            ),
            HistoryFault::BadNumber(chapter) => write!(
                f,
                "chapter {chapter} has a number that no closed chapter has"
            ),
            HistoryFault::NotLegal { chapter, event, .. } => write!(
                f,
                "event {event} of chapter {chapter} is not right after those before it"
            ),
            HistoryFault::Broken(fault) => write!(f, "{fault}"),
            HistoryFault::Memory => f.write_str("memory was refused"),
        }
    }
}

impl Error for HistoryFault {}

impl From<AllocError> for HistoryFault {
    ghost use Rattle.std.specs.Prelude.{◌≡◌};
    ghost use Rattle.rrc_replay.specs.declared.history.HistoryFault.TheVariants.{Memory};

    ghost from_gives = { λ _ fault. fault ≡ Memory };

    fn from(_refused: AllocError) -> HistoryFault {
        HistoryFault::Memory
    }
}

impl<T: Drop> From<AllocFailed<T>> for HistoryFault {
    ghost use Rattle.std.specs.Prelude.{◌≡◌};
    ghost use Rattle.rrc_replay.specs.declared.history.HistoryFault.TheVariants.{Memory};

    ghost from_gives = { λ _ fault. fault ≡ Memory };

    fn from(_refused: AllocFailed<T>) -> HistoryFault {
        HistoryFault::Memory
    }
}

/// The history that an archive tells, where it is one: its chapters go on from one another, and all
/// of its events are legal. It makes each call again.
///
/// The first fault is told: of the text, then of a chapter (its entries, its number, its events),
/// one chapter after another, then of how they go on from one another. Keys are hashed behind the
/// seed; no answer depends on it.
pub fn history_in(alloc: Global, octets: &[u8], seed: [u8; 16]) -> Result<Whole, HistoryFault>
    ensures ok { IfOk result (TellsHistory octets.now) }
    ensures leads { IfOk result (λ whole. LeadTo whole.snapshot whole.events whole.closing) }
    ensures laws { IfOk result (λ whole. AllKeepLaws whole.snapshot (reverse whole.events)) }
    ensures err { IfErr result (IsWhyNoHistory octets.now) }
{
    Ok(counted_in(alloc, octets, seed)?.whole)
}

/// A history, and of how many chapters it was joined.
#[derive(Debug, Drop)]
pub(crate) struct Counted {
    pub(crate) chapters: usize,
    pub(crate) whole: Whole,
}

/// The history that an archive tells, and how many chapters tell it.
pub(crate) fn counted_in(
    alloc: Global,
    octets: &[u8],
    seed: [u8; 16],
) -> Result<Counted, HistoryFault>
    ensures ok { IfOk result (TellsCounted octets.now) }
    ensures leads { IfOk result (λ counted. LeadTo counted.whole.snapshot counted.whole.events counted.whole.closing) }
    ensures laws { IfOk result (λ counted. AllKeepLaws counted.whole.snapshot (reverse counted.whole.events)) }
    ensures err { IfErr result (IsWhyNoHistory octets.now) }
{
    let chapters = chapters_in(alloc, octets, seed)?;
    Ok(Counted {
        chapters: chapters.as_slice().len(),
        whole: whole_of(chapters)?,
    })
}

/// The chapters that an archive tells, each of them legal from what it begins with.
fn chapters_in(alloc: Global, octets: &[u8], seed: [u8; 16]) -> Result<Vec<Chapter>, HistoryFault>
    ensures ok { IfOk result (λ chapters. AreChapters octets.now chapters.items) }
    ensures err { IfErr result (IsWhyNoHistory octets.now) }
{
    // A number that `usize` has, so that each line of the archive has one too.
    let size = octets.len();
    if size == 0 {
        return Err(HistoryFault::Empty);
    }
    match read_archive(alloc, octets) {
        Ok(written) => restored(alloc, written, seed),
        Err(ArchiveFault::BadLine(line)) => Err(HistoryFault::BadLine(line)),
        Err(ArchiveFault::Memory) => Err(HistoryFault::Memory),
    }
}

/// The chapters that are told.
fn restored(
    alloc: Global,
    written: Vec<WrittenChapter>,
    seed: [u8; 16],
) -> Result<Vec<Chapter>, HistoryFault>
    requires archive { IsArchiveOf (archive_text written.items) written.items }
    requires few { length (flat_map lines_of written.items) < 2 ^ 64 }
    ensures ok { IfOk result (λ chapters. map written_of chapters.items ≡ written.items) }
    ensures legal { IfOk result (λ chapters. AllByRecursion IsChapter chapters.items) }
    ensures err { IfErr result (IsWhyNoHistory (archive_text written.items)) }
{
    let mut chapters = Vec::with_capacity(alloc, written.len())?;
    for one in written {
        let chapter = restored_one(alloc, chapters.as_slice(), one, seed)?;
        chapters.push(chapter)?;
    }
    Ok(chapters)
}

/// The chapter that is told behind others.
fn restored_one(
    alloc: Global,
    before: &[Chapter],
    written: WrittenChapter,
    seed: [u8; 16],
) -> Result<Chapter, HistoryFault>
    requires { AreLinesFew before.now written.entries written.events }
    ensures ok { IfOk result (λ chapter. written_of chapter ≡ written) }
    ensures legal { IfOk result IsChapter }
    ensures err { IfErr result (IsFaultBehind before.now written) }
{
    let WrittenChapter {
        number,
        first,
        rules,
        entries,
        events,
    } = written;
    let snapshot = opening(alloc, before, rules, first, entries)?;
    match restored_chapter(alloc, number, snapshot, events, seed) {
        Ok(chapter) => Ok(chapter),
        Err(refused) => Err(told_behind(alloc, before, refused, seed)),
    }
}

/// What a chapter behind others begins with. It shares the closing of the one before it where that
/// is the same, so that of a legal history the entries of the first chapter alone are tested as a
/// snapshot's.
fn opening(
    alloc: Global,
    before: &[Chapter],
    rules: Rules,
    first: u64,
    entries: Vec<Entry>,
) -> Result<Shared<Snapshot>, HistoryFault>
    ensures ok { IfOk result (λ snapshot. snapshot ≡ record { rules = rules; first = first; entries = entries.items }) }
    ensures err { IfErr result (IsNoOpening (length before.now) rules first entries.items) }
{
    match closing_before(before, rules, first, entries.as_slice())? {
        Some(closing) => Ok(closing),
        None => new_opening(alloc, before.len(), rules, first, entries),
    }
}

/// The closing of the last of some chapters, where it has these rules, this first number and these
/// entries.
fn closing_before(
    before: &[Chapter],
    rules: Rules,
    first: u64,
    entries: &[Entry],
) -> Result<Option<Shared<Snapshot>>, AllocError>
    ensures { IfOk result (λ closing. IfSome closing (λ s. s ≡ record { rules = rules; first = first; entries = entries.now })) }
{
    let Some(chapter) = before.last() else {
        return Ok(None);
    };
    if !is_snapshot(&chapter.closing, rules, first, entries) {
        return Ok(None);
    }
    Ok(Some(chapter.closing.clone()?))
}

/// Whether a snapshot has these rules, this first number and these entries.
fn is_snapshot(snapshot: &Snapshot, rules: Rules, first: u64, entries: &[Entry]) -> bool
    ensures { IsTrue result → snapshot.now ≡ record { rules = rules; first = first; entries = entries.now } }
{
    if !has_same_numbers(snapshot.rules, rules) {
        return false;
    }
    if snapshot.first != first {
        return false;
    }
    has_entries(&snapshot.entries, entries)
}

fn has_same_numbers(rules: Rules, other: Rules) -> bool
    ensures { result ≡ rules_eq rules other }
{
    rules.capacity == other.capacity && rules.chapter == other.chapter && rules.stale == other.stale
}

/// Whether a list has these entries in this order.
fn has_entries(list: &EntryList, entries: &[Entry]) -> bool
    ensures { IsTrue result → list.now ≡ entries.now }
{
    if list.len() != entries.len() {
        return false;
    }
    for place in 0..entries.len() {
        if *list.entry(place) != entries[place] {
            return false;
        }
    }
    true
}

/// What a chapter at a place begins with, which is tested anew.
fn new_opening(
    alloc: Global,
    place: usize,
    rules: Rules,
    first: u64,
    entries: Vec<Entry>,
) -> Result<Shared<Snapshot>, HistoryFault>
    ensures ok { IfOk result (λ snapshot. snapshot ≡ record { rules = rules; first = first; entries = entries.items }) }
    ensures err { IfErr result (IsNoOpening place rules first entries.items) }
{
    match Snapshot::new_by_trees(alloc, rules, first, entries) {
        Ok(snapshot) => Ok(Shared::new(alloc, snapshot)?),
        Err(NoSnapshot::Fault(fault)) => Err(HistoryFault::BadEntry {
            chapter: place,
            fault,
        }),
        Err(NoSnapshot::Memory) => Err(HistoryFault::Memory),
    }
}

/// Why there is no chapter behind others.
fn told_behind(
    alloc: Global,
    before: &[Chapter],
    refused: NotRestored,
    seed: [u8; 16],
) -> HistoryFault
    requires why { HasWhy refused }
    requires few { AreLinesFew before.now refused.snapshot.entries refused.events.items }
    ensures { IsToldBehind before.now refused result }
{
    let NotRestored {
        snapshot,
        events,
        fault,
    } = refused;
    let chapter = before.len();
    match fault {
        ChapterFault::BadNumber => HistoryFault::BadNumber(chapter),
        ChapterFault::NotLegal(event) => {
            let line = line_of(before, &snapshot, event);
            match why_unlawful(alloc, snapshot, events, event, seed) {
                Ok(reason) => HistoryFault::NotLegal {
                    chapter,
                    event,
                    line,
                    reason,
                },
                Err(_) => HistoryFault::Memory,
            }
        }
        ChapterFault::Memory => HistoryFault::Memory,
    }
}

/// The line of an event in a chapter that begins with a snapshot, behind other chapters.
fn line_of(before: &[Chapter], snapshot: &Snapshot, event: usize) -> u64
    requires { line_of (map written_of before.now) snapshot.now.entries event < 2 ^ 64 }
    ensures { result ≡ line_of (map written_of before.now) snapshot.now.entries event }
{
    let mut line = 1 + snapshot.entries.len() as u64 + event as u64;
    for chapter in before {
        line += lines_in(chapter);
    }
    line
}

/// How many lines a chapter has.
fn lines_in(chapter: &Chapter) -> u64
    requires { length (lines_of (written_of chapter.now)) < 2 ^ 64 }
    ensures { result ≡ length (lines_of (written_of chapter.now)) }
{
    1 + chapter.snapshot().entries.len() as u64 + chapter.events().len() as u64
}

/// The history that chapters are, where each goes on from the one before it.
fn whole_of(chapters: Vec<Chapter>) -> Result<Whole, HistoryFault>
    ensures whole { IfOk result (λ whole. IsWhole chapters.items whole) }
    ensures chained { OnOk result (chain_fault chapters.items ≡ None) }
    ensures leads { IfOk result (λ whole. LeadTo whole.snapshot whole.events whole.closing) }
    ensures laws { IfOk result (λ whole. AllKeepLaws whole.snapshot (reverse whole.events)) }
    ensures err { IfErr result (IsWhyBroken chapters.items) }
{
    match chain(chapters) {
        Ok(whole) => Ok(whole),
        Err(ChainFault::Memory) => Err(HistoryFault::Memory),
        Err(fault) => Err(HistoryFault::Broken(fault)),
    }
}
