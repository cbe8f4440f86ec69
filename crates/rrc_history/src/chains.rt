// SPDX-License-Identifier: MIT
ghost use Rattle.std.specs.Prelude.{◌≡◌, ◌++◌, [], ◌∷◌, reverse, Some, None, IfOk, IfErr, OnOk};
ghost use Rattle.std.specs.Vec.Iter.{into_iter_items};
ghost use Rattle.rrc_history.specs.Chapters.{LeadTo};
ghost use Rattle.rrc_history.specs.Chains.{IsWhole, IsWhyNot, chain_fault, fault_from, link_fault, follows};
ghost use Rattle.rrc_history.specs.WholeLaws.{AllKeepLaws};

use crate::chapter::Chapter;
use crate::event::Event;
use crate::snapshot::Snapshot;
use rrc_name::{Sequence, Shared};
use std::alloc::AllocError;
use std::error::Error;
use std::fmt::{self, Display, Formatter, Write};
use std::marker::Model;
use std::vec::IntoIter;

/// A history of a part's: the snapshot that it began with, the events since, the oldest first, and
/// the snapshot that they lead to.
#[derive(Debug, Drop)]
pub struct Whole {
    pub snapshot: Shared<Snapshot>,
    pub events: Sequence<Event>,
    pub closing: Shared<Snapshot>,
}

impl Model for Whole {
    ghost use Rattle.rrc_history.specs.Chapters.{LeadTo};
    ghost use Rattle.rrc_history.specs.Chains.{WholeOf};

    ghost Value = { WholeOf };

    ghost view = { λ w. record { snapshot = w.snapshot; events = w.events; closing = w.closing } };

    ghost invariant = { λ w. LeadTo w.snapshot w.events w.closing };
}

/// Why chapters are no history: at which place of the list the first is that does not go on from
/// the one before it.
#[derive(Clone, Copy, Debug, PartialEq, Eq, Hash)]
pub enum ChainFault {
    /// The chapter does not follow the one before it.
    NumberGap(usize),
    /// The chapter does not begin with what the one before it ends with.
    NotTheSameContents(usize),
    Memory,
}

impl Display for ChainFault {
    ghost use Rattle.std.specs.Prelude.{Some};
    ghost use Rattle.rrc_history.specs.Faults.{chain_fault_text};

    ghost output = { λ fault. Some (chain_fault_text fault) };

    fn fmt<W: Write>(&self, f: &mut Formatter<W>) -> fmt::Result {
        match self {
            ChainFault::NumberGap(place) => {
                write!(f, "chapter {place} does not follow the one before it")
            }
            ChainFault::NotTheSameContents(place) => write!(
                f,
                "chapter {place} does not begin with what the one before it ends with"
            ),
            ChainFault::Memory => f.write_str("memory was refused"),
        }
    }
}

impl Error for ChainFault {}

impl ChainFault {
    ghost use Rattle.rrc_history.specs.Faults.{chain_fault_number};

    /// The number of the fault, from 1 to 3.
    pub fn number(&self) -> u8
        ensures value { result ≡ chain_fault_number self.now }
    {
        match self {
            ChainFault::NumberGap(_) => 1,
            ChainFault::NotTheSameContents(_) => 2,
            ChainFault::Memory => 3,
        }
    }
}

impl From<AllocError> for ChainFault {
    ghost use Rattle.std.specs.Prelude.{◌≡◌};
    ghost use Rattle.rrc_history.specs.declared.chains.ChainFault.TheVariants.{Memory};

    ghost from_gives = { λ _ fault. fault ≡ Memory };

    fn from(_refused: AllocError) -> ChainFault {
        ChainFault::Memory
    }
}

/// The history that chapters are, one after another: the first snapshot, all events in order, and
/// the last closing.
///
/// The first chapter that does not go on from the one before it is answered for, by its place in
/// the list: `NumberGap` where its number or that of its first event is not the next, else
/// `NotTheSameContents` where its snapshot is not the closing before it, octet for octet, rules
/// counted. No chapters at all are `NumberGap(0)`. `Memory` comes only where nothing is wrong with
/// the chapters.
pub fn chain(chapters: Vec<Chapter>) -> Result<Whole, ChainFault>
    ensures whole { IfOk result (λ whole. IsWhole chapters.items whole) }
    ensures leads { IfOk result (λ whole. LeadTo whole.snapshot whole.events whole.closing) }
    ensures laws { IfOk result (λ whole. AllKeepLaws whole.snapshot (reverse whole.events)) }
    ensures chained { OnOk result (chain_fault chapters.items ≡ None) }
    ensures err { IfErr result (IsWhyNot chapters.items) }
{
    if let Some(fault) = first_fault(chapters.as_slice()) {
        return Err(fault);
    }
    Ok(join_chained(chapters)?)
}

/// The history that chapters are of which each goes on from the one before it, as `chain` answers
/// it: such are the chapters that a shelf closed. It compares nothing: its time is in proportion to
/// the events, and to what the snapshots between hold where nothing else holds them, since these
/// are let go. An error is that memory was refused.
pub fn join_chained(chapters: Vec<Chapter>) -> Result<Whole, AllocError>
    requires { chain_fault chapters.items ≡ None }
    ensures whole { IfOk result (λ whole. IsWhole chapters.items whole) }
    ensures leads { IfOk result (λ whole. LeadTo whole.snapshot whole.events whole.closing) }
    ensures laws { IfOk result (λ whole. AllKeepLaws whole.snapshot (reverse whole.events)) }
{
    let mut behind = chapters.into_iter();
    match behind.next() {
        None => unreachable!(),
        Some(first) => join(first, behind),
    }
}

pub(crate) fn first_fault(chapters: &[Chapter]) -> Option<ChainFault>
    ensures { result ≡ chain_fault chapters.now }
{
    match chapters.split_first() {
        None => Some(ChainFault::NumberGap(0)),
        Some((first, behind)) => fault_behind(first, behind),
    }
}

/// The first fault of chapters behind the first of a list.
fn fault_behind(first: &Chapter, behind: &[Chapter]) -> Option<ChainFault>
    ensures { result ≡ fault_from 1 first.now behind.now }
{
    let mut before = first;
    for (passed, chapter) in behind.iter().enumerate() {
        let fault = link_fault(passed + 1, before, chapter);
        if fault.is_some() {
            return fault;
        }
        before = chapter;
    }
    None
}

/// What is wrong with a chapter at a place behind another.
fn link_fault(place: usize, before: &Chapter, chapter: &Chapter) -> Option<ChainFault>
    ensures { result ≡ link_fault place before.now chapter.now }
{
    if !follows(before, chapter) {
        return Some(ChainFault::NumberGap(place));
    }
    if before.closing != chapter.snapshot {
        return Some(ChainFault::NotTheSameContents(place));
    }
    None
}

fn follows(before: &Chapter, chapter: &Chapter) -> bool
    ensures { result ≡ follows before.now chapter.now }
{
    chapter.number() == before.number() + 1 && chapter.snapshot().first == before.closing().first
}

/// The history of a chapter and those behind it, of which each goes on from the one before it.
fn join(first: Chapter, behind: IntoIter<Chapter>) -> Result<Whole, AllocError>
    requires { fault_from 1 first (into_iter_items behind) ≡ None }
    ensures whole { IfOk result (λ whole. IsWhole (first ∷ into_iter_items behind) whole) }
    ensures leads { IfOk result (λ whole. LeadTo whole.snapshot whole.events whole.closing) }
{
    let mut whole = Whole::open(first);
    for chapter in behind {
        whole = whole.extended(chapter)?;
    }
    Ok(whole)
}

impl Whole {
    /// The history of one chapter, whose events are moved nowhere.
    fn open(chapter: Chapter) -> Whole
        ensures value { result ≡ record { snapshot = chapter.snapshot; events = chapter.events; closing = chapter.closing } }
        ensures leads { LeadTo result.snapshot result.events result.closing }
    {
        Whole {
            snapshot: chapter.snapshot,
            events: chapter.events,
            closing: chapter.closing,
        }
    }

    /// The history with a chapter that goes on from it.
    fn extended(self, chapter: Chapter) -> Result<Whole, AllocError>
        requires { chapter.snapshot ≡ self.closing }
        ensures ok { IfOk result (λ whole. whole ≡ record { snapshot = self.snapshot; events = self.events ++ chapter.events; closing = chapter.closing }) }
        ensures leads { IfOk result (λ whole. LeadTo whole.snapshot whole.events whole.closing) }
    {
        let mut events = self.events.into_vec();
        events.append(&mut chapter.events.into_vec())?;
        Ok(Whole {
            snapshot: self.snapshot,
            events: Sequence::from_vec(events),
            closing: chapter.closing,
        })
    }
}
