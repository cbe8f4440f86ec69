// SPDX-License-Identifier: MIT
ghost use Rattle.std.specs.Prelude.{◌≡◌, ◌<◌, ℕ, length, true, false};
ghost use Rattle.rrc_cache.specs.NegativeFilter.{is_negative_slot, is_marked, place_of};

use rrc_name::{Key, Slot};
use std::alloc::{AllocError, Global};
use std::marker::Model;

/// Of which names NXDOMAIN or a failure may be cached (RFC 2308, RFC 9520), each of which has a
/// slot of its own. NODATA is in the slot of its type. Most names have neither, and an ask about
/// one of those looks up its RRset alone, in place of three keys.
///
/// A name has a place in a table, by its hash behind the seed, so that nobody can pick names that
/// share a place. The place of a name is marked with the first such entry that is put, and stays
/// marked when that goes, and two names may share a place: a mark says only that looking is worth
/// while. It costs an octet for each place, of which there are two to four for each key that may be
/// kept. Once a quarter of the places were newly marked the table is made anew from what is kept
/// then.
///
/// Contracts see the marks.
#[derive(Debug, Drop)]
pub(crate) struct NegativeFilter {
    /// Whether NXDOMAIN or a failure may be cached of the names that have this place.
    marks: Vec<bool>,
    /// How many places were marked since the table was last made.
    marked: usize,
}

impl Model for NegativeFilter {
    ghost use Rattle.std.specs.Prelude.{◌<◌, Bool, List, length};

    ghost Value = { List Bool };

    ghost view = { λ b. b.marks.items };

    ghost invariant = { λ b. 0 < length b.marks.items };
}

impl NegativeFilter {
    /// A table of so many places, of which none is marked. Where they are a power of two, each name
    /// may have any of them.
    pub(crate) fn new(alloc: Global, places: usize) -> Result<NegativeFilter, AllocError>
        requires { 0 < places }
    {
        Ok(NegativeFilter {
            marks: vec![in alloc; false; places]?,
            marked: 0,
        })
    }

    /// Whether NXDOMAIN or a failure may be cached of the names that have a hash.
    pub(crate) fn may_hold(&self, hash: u64) -> bool
        ensures { result ≡ is_marked self.now hash }
    {
        self.marks[place_of(self.marks.len(), hash)]
    }

    /// Marks the names that have a hash, where a key of such a name is of a negative slot.
    pub(crate) fn note(&mut self, hash: u64, key: &Key)
        ensures own { is_negative_slot key.now.slot ≡ true → is_marked self.new hash ≡ true }
        ensures others { (other : ℕ) → is_marked self.old other ≡ true → is_marked self.new other ≡ true }
    {
        if is_negative_slot(key.slot) {
            self.mark(hash);
        }
    }

    /// Marks the names that have a hash.
    fn mark(&mut self, hash: u64)
        ensures own { is_marked self.new hash ≡ true }
        ensures others { (other : ℕ) → is_marked self.old other ≡ true → is_marked self.new other ≡ true }
    {
        let place = place_of(self.marks.len(), hash);
        if !self.marks[place] {
            self.marks[place] = true;
            self.marked = self.marked.saturating_add(1);
        }
    }

    /// Whether so many places were marked that it is time to make the table anew.
    pub(crate) fn is_worn(&self) -> bool {
        self.marked > self.marks.len() / 4
    }

    /// Takes all marks away.
    pub(crate) fn clear(&mut self)
        ensures { (hash : ℕ) → is_marked self.new hash ≡ false }
    {
        self.marks.fill(false);
    }

    /// Counts the marks that are made from now on.
    pub(crate) fn count_anew(&mut self)
        ensures { self.new ≡ self.old }
    {
        self.marked = 0;
    }
}

/// Whether a slot is for NXDOMAIN or a failure, and not for an RRset or NODATA.
pub(crate) fn is_negative_slot(slot: Slot) -> bool
    ensures { result ≡ is_negative_slot slot }
{
    match slot {
        Slot::Set(_) => false,
        Slot::Nx | Slot::Failed(_) => true,
    }
}

/// The place of a hash among so many: its lowest bits.
fn place_of(places: usize, hash: u64) -> usize
    requires { 0 < places }
    ensures value { result ≡ place_of places hash }
    ensures within { result < places }
{
    (hash & (places as u64 - 1)) as usize
}
