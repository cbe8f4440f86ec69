// SPDX-License-Identifier: MIT
ghost use Rattle.std.specs.Prelude.{◌≡◌};
ghost use Rattle.std.specs.Borrow.{ftrue};
ghost use Rattle.rrc_cache.specs.Part.{PartOf};

use rrc_history::{AskRef, Held, Offer, Outcome, Rules, Snapshot, Tag};
use rrc_name::Key;
use std::marker::Model;

/// A history that only proofs read: the chapter that is open, as contracts see a part. It takes no
/// memory, and nothing is left of it in a program. What a clause says of it is so by the two
/// functions that make one, and by nothing else.
#[derive(Drop)]
pub(crate) struct History {
    ghost part: { PartOf },
}

impl Model for History {
    ghost also_owns = { λ _. ftrue };
}

// It owns nothing.
unsafe impl Send for History {}

unsafe impl Sync for History {}

/// A step of a history, lent: a call that was made, and what became of it, or that a chapter ends.
/// What an ask is answered follows from the history.
#[derive(Clone, Copy, Drop)]
pub(crate) enum StepRef<'a> {
    Offered {
        tag: Tag,
        offer: &'a Offer,
        outcome: Outcome,
        evicted: &'a Option<Key>,
    },
    Asked {
        tag: Tag,
        ask: AskRef<'a>,
    },
    Swept {
        tag: Tag,
        moment: u64,
        gone: &'a [Key],
    },
    /// What a key held ended at once: it was offered with a TTL of 0.
    Ended {
        tag: Tag,
        held: Held<'a>,
        moment: u64,
        outcome: Outcome,
    },
    /// The chapter ends, and the next one begins with this.
    Closed {
        opening: &'a Snapshot,
    },
}

impl History {
    ghost use Rattle.rrc_cache.specs.Lean.{first_chapter};
    ghost use Rattle.rrc_cache.specs.GhostHistory.{after_step};

    /// The first chapter, with no events.
    #[inline(always)]
    pub(crate) fn new(_rules: &Rules) -> History
        ensures { result.part ≡ first_chapter _rules.now }
    {
        History {}
    }

    /// The history with the event of a call, or in its next chapter.
    #[inline(always)]
    pub(crate) fn then(&self, _step: &StepRef<'_>) -> History
        ensures { result.part ≡ after_step self.now.part _step.now }
    {
        History {}
    }
}
