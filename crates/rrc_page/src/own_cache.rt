// SPDX-License-Identifier: MIT
ghost use Rattle.std.specs.Prelude.{◌≤◌};

use rrc_cache::{Part, Refusal};
use rrc_history::{Ask, Offer, Outcome, Reply, Rules, Tag};
use rrc_name::part_of;
use rrc_report::{Calls, Refused, called};
use rrc_share::{Shelf, on_shelf_ask, on_shelf_checkpoint, on_shelf_offer, on_shelf_sweep};
use std::alloc::Global;
use std::marker::Model;

/// The cache of one worker: 1 to 64 parts that record their histories, with no lock, since nobody
/// else has them.
#[derive(Debug, Drop)]
pub(crate) struct OwnCache {
    shelves: Vec<Shelf>,
}

impl Model for OwnCache {
    ghost use Rattle.std.specs.Prelude.{ℕ, vec_len};
    ghost use Rattle.rrc_script.specs.Configs.{MayBeConfig};

    ghost Value = { ℕ };

    ghost view = { λ c. vec_len c.shelves };

    ghost invariant = { λ c. MayBeConfig 1 (vec_len c.shelves) };
}

/// The seed of the hashes of names. Whoever writes a trace into a page slows down none but itself.
const SEED: [u8; 16] = [7; 16];

impl OwnCache {
    /// As many empty parts, by the same rules.
    pub(crate) fn new(alloc: Global, parts: usize, rules: Rules) -> Result<OwnCache, Refusal>
        requires some { 1 ≤ parts }
        requires few { parts ≤ 64 }
    {
        let mut shelves = Vec::with_capacity(alloc, parts)?;
        for _ in 0..parts {
            let part = Part::seeded(alloc, rules, SEED)?;
            shelves.push(Shelf::new(alloc, part))?;
        }
        Ok(OwnCache { shelves })
    }

    /// The parts, with their histories.
    pub(crate) fn into_shelves(self) -> Vec<Shelf> {
        self.shelves
    }
}

impl Calls for OwnCache {
    ghost count = { λ c. c };

    // Any answer: the report holds the answers against the histories of the parts.
    ghost makes = { λ old call new. Unit {0} };

    fn parts(&self) -> usize {
        self.shelves.len()
    }

    fn offer(&mut self, tag: Tag, offer: Offer) -> Result<Outcome, Refused> {
        let home = part_of(offer.key.name(), self.shelves.len());
        called(on_shelf_offer(&mut self.shelves[home], tag, offer))
    }

    fn ask(&mut self, tag: Tag, ask: &Ask) -> Result<Reply, Refused> {
        let home = part_of(&ask.name, self.shelves.len());
        called(on_shelf_ask(&mut self.shelves[home], tag, ask))
    }

    fn sweep_part(&mut self, part: usize, tag: Tag, moment: u64) -> Result<usize, Refused> {
        called(on_shelf_sweep(&mut self.shelves[part], tag, moment))
    }

    fn close_part(&mut self, part: usize) -> Result<(), Refused> {
        called(on_shelf_checkpoint(&mut self.shelves[part]))
    }
}
