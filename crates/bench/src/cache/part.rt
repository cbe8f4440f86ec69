// SPDX-License-Identifier: MIT
// A part of the cache that records its history or not. A call that was refused answers `None`.

use rrc_cache::{LeanPart, NameHash, Part, ReplyRef};
use rrc_history::{Ask, Offer, Outcome, Reply, Rules, Tag};
use rrc_share::Recording;
use std::alloc::Global;

/// The tag of each event, which tells nothing here.
pub const TAG: Tag = Tag { line: 0, place: 0 };

/// The seed of a part that is given none.
const SEED: [u8; 16] = [0; 16];

#[derive(Drop)]
pub enum CachePart {
    Recording(Part),
    Lean(LeanPart),
}

/// Asks a part that records nothing, in two halves, which take no memory.
fn judge_and_note(part: &mut LeanPart, ask: &Ask) -> Option<bool> {
    let asked = ask.as_ref();
    let (lookup, pick) = part.judge(asked, NameHash::of(SEED, asked.name)).ok()?;
    let is_answer = !matches!(lookup.reply, ReplyRef::Miss { .. });
    part.note_asked(TAG, asked, pick);
    Some(is_answer)
}

/// Whether a reply is an answer.
pub fn is_answer(reply: &Reply) -> bool {
    !matches!(reply, Reply::Miss { .. })
}

impl CachePart {
    /// A part that holds nothing.
    pub fn new(alloc: Global, rules: Rules, recording: Recording) -> Option<CachePart> {
        match recording {
            Recording::On => Some(CachePart::Recording(Part::new(alloc, rules).ok()?)),
            Recording::Off => Some(CachePart::Lean(LeanPart::new(alloc, rules).ok()?)),
        }
    }

    /// The part, if it records.
    pub fn recorded(&self) -> Option<&Part> {
        match self {
            CachePart::Recording(part) => Some(part),
            CachePart::Lean(_) => None,
        }
    }

    /// Asks, with a reply that the caller owns, and answers whether that is an answer.
    pub fn ask(&mut self, ask: &Ask) -> Option<bool> {
        let reply = match self {
            CachePart::Recording(part) => part.ask(TAG, ask).ok()?,
            CachePart::Lean(part) => part.ask(TAG, ask).ok()?,
        };
        Some(is_answer(&reply))
    }

    /// Asks, with a reply that is lent where nothing is recorded.
    pub fn lend(&mut self, ask: &Ask) -> Option<bool> {
        match self {
            CachePart::Recording(_) => self.ask(ask),
            CachePart::Lean(part) => judge_and_note(part, ask),
        }
    }

    /// Whether the part would answer.
    pub fn would_answer(&self, ask: &Ask) -> bool {
        let reply = match self {
            CachePart::Recording(part) => part.would_answer(ask.as_ref()),
            CachePart::Lean(part) => part.would_answer(ask.as_ref()),
        };
        !matches!(reply, ReplyRef::Miss { .. })
    }

    pub fn has_room(&self) -> bool {
        match self {
            CachePart::Recording(part) => part.has_room(),
            CachePart::Lean(part) => part.has_room(),
        }
    }

    pub fn offer(&mut self, offer: Offer) -> Option<Outcome> {
        match self {
            CachePart::Recording(part) => part.offer(TAG, offer).ok(),
            CachePart::Lean(part) => part.offer(TAG, offer).ok(),
        }
    }

    /// Sweeps, and answers how many keys that removed.
    pub fn sweep(&mut self, moment: u64) -> Option<usize> {
        match self {
            CachePart::Recording(part) => part.sweep(TAG, moment).ok(),
            CachePart::Lean(part) => part.sweep(TAG, moment).ok(),
        }
    }
}
