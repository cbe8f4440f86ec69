// SPDX-License-Identifier: MIT
ghost use Rattle.rrc_history.specs.Chapters.{SoundLeadsToItself};
ghost use Rattle.rrc_history.specs.Equality.{SameAreOne};
ghost use Rattle.rrc_history.specs.Sound.{SoundWithNoFault};
ghost use Rattle.rrc_history.specs.WholeLaws.{CallsDetermineHistory, LegalKeepsLaws};

/// Every legal history keeps the laws of trust and of life, event by event: no unexpired data give
/// way to less trusted ones, and no answer outlives its time and the stale limit. The function does
/// nothing; its contract is the law.
pub fn legal_histories_keep_the_laws()
    ensures { LegalKeepsLaws }
{}

/// The calls determine the history: two legal histories from one snapshot with the same calls in
/// the same order, each with its tag, are one. So what became of each call, each answer and each
/// eviction, is right in one way alone. The function does nothing; its contract is the law.
pub fn calls_determine_the_history()
    ensures { CallsDetermineHistory }
{}

/// Snapshots that are the same, octet for octet, are one, and no others are. The function does
/// nothing; its contract is the law.
pub fn same_snapshots_are_one()
    ensures { SameAreOne }
{}

/// A snapshot's entries have no fault exactly where they are sound: no more than the capacity, no
/// key and no number twice, each number below the first event's, each body fitting its key, no
/// moment above the last. The function does nothing; its contract is the law.
pub fn sound_entries_have_no_fault()
    ensures { SoundWithNoFault }
{}

/// A snapshot leads to itself where nothing happens: it is what its keys hold, in the order of
/// touch. The function does nothing; its contract is the law.
pub fn snapshots_lead_to_themselves()
    ensures { SoundLeadsToItself }
{}
