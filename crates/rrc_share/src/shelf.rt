// SPDX-License-Identifier: MIT
ghost use Rattle.std.specs.Prelude.{◌≡◌, [], Err, IfOk, OnErr};
ghost use Rattle.rrc_history.specs.Sound.{AreSound};

use rrc_cache::{Part, Refusal};
use rrc_history::{Ask, Chapter, Reply};
use std::alloc::Global;
use std::marker::Model;
use std::mem;

/// A part of the cache and the chapters of its history that are closed, the oldest first. They
/// chain, the part's snapshot is the last closing, and its number is the next; where none is closed
/// this asks nothing. Contracts see both.
#[derive(Debug, Drop)]
pub struct Shelf {
    pub closed: Vec<Chapter>,
    pub part: Part,
}

impl Model for Shelf {
    ghost use Rattle.rrc_share.specs.Shelf.{ShelfOf, IsShelf};

    ghost Value = { ShelfOf };

    ghost view = { λ s. record { closed = s.closed.items; part = s.part } };

    ghost invariant = { λ s. IsShelf (record { closed = s.closed.items; part = s.part }) };
}

impl Shelf {
    ghost use Rattle.rrc_history.specs.Past.{reply_to};
    ghost use Rattle.rrc_cache.specs.Part.{past_of};
    ghost use Rattle.rrc_share.specs.Shelf.{AreBefore, IsShelf};

    /// A part, with no chapter closed. It takes no memory.
    pub fn new(alloc: Global, part: Part) -> Shelf
        ensures { result ≡ record { closed = []; part = part } }
    {
        has_sound_snapshot(&part);
        Shelf {
            closed: Vec::new(alloc),
            part,
        }
    }

    /// The chapters that are closed, the oldest first.
    pub fn closed(&self) -> &[Chapter]
        ensures value { result.now ≡ self.now.closed }
        ensures sound { IsShelf self.now }
    {
        self.closed.as_slice()
    }

    /// The part, in the chapter that is open.
    pub fn part(&self) -> &Part
        ensures value { result.now ≡ self.now.part }
        ensures sound { IsShelf self.now }
    {
        &self.part
    }

    /// The reply that the part would give (`Part::would_answer`), as an owner of its data, so that
    /// it stays when the part goes on. It copies no name and no data. `Memory` comes only where
    /// these have as many owners as can be counted.
    pub fn would_answer(&self, ask: &Ask) -> Result<Reply, Refusal>
        ensures ok { IfOk result (λ reply. reply ≡ reply_to self.now.part.snapshot (past_of self.now.part) ask.now) }
        ensures memory { OnErr result (result ≡ Err Refusal.Memory) }
    {
        Ok(self.part.would_answer(ask.as_ref()).to_owned()?)
    }

    /// Hands out the closed chapters, the oldest first, and leaves none. The part goes on from the
    /// last of them. It takes no memory.
    pub fn take_chapters(&mut self) -> Vec<Chapter>
        ensures chapters { result.items ≡ self.old.closed }
        ensures before { AreBefore result.items self.old.part }
        ensures left { self.new ≡ record { closed = []; part = self.old.part } }
    {
        has_sound_snapshot(&self.part);
        let alloc = *self.closed.allocator();
        mem::replace(&mut self.closed, Vec::new(alloc))
    }
}

/// That the entries of the part's snapshot are sound, for proofs; it does nothing.
pub(crate) fn has_sound_snapshot(part: &Part)
    ensures { AreSound part.now.snapshot.rules.capacity part.now.snapshot.first part.now.snapshot.entries }
{
    // The contract of `Snapshot::rules` tells it.
    let _ = part.snapshot().rules();
}
