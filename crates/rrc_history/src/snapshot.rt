// SPDX-License-Identifier: MIT
ghost use Rattle.std.specs.Prelude.{◌≡◌, Some, None, IfOk, IfErr, OnOk};
ghost use Rattle.rrc_history.specs.Snapshots.{entry_fault, snapshot_fault, IsWhyNoSnapshot};
ghost use Rattle.rrc_history.specs.Repeats.{repeats_of};
ghost use Rattle.rrc_history.specs.Equality.{rules_eq};

use crate::body::Body;
use crate::entry_list::EntryList;
use crate::offer;
use crate::repeats::{Repeats, Trees, repeats_among};
use crate::rules::{LAST_MOMENT, Rules};
use rrc_name::Key;
use std::alloc::{AllocError, Global};
use std::fmt::{self, Display, Formatter, Write};
use std::marker::Model;
use thiserror::Error;

/// What a key holds: a body, the moment of its offer, and the number of the event that stored it.
#[derive(Debug, Drop)]
pub struct Entry {
    pub key: Key,
    pub body: Body,
    pub moment: u64,
    pub number: u64,
}

/// What a part held when a chapter of its history began, the key touched last first. The chapter's
/// first event has the number `first`. The entries are no more than the capacity, each has a key of
/// its own, which its body fits, a number of its own below `first`, and a moment of at most 2^40
/// seconds.
#[derive(Debug, Drop)]
pub struct Snapshot {
    pub rules: Rules,
    pub first: u64,
    pub entries: EntryList,
}

impl Model for Snapshot {
    ghost use Rattle.std.specs.Prelude.{◌≡◌, None};
    ghost use Rattle.rrc_history.specs.Snapshots.{SnapshotOf, snapshot_fault};

    ghost Value = { SnapshotOf };

    ghost view = { λ s. record { rules = s.rules; first = s.first; entries = s.entries } };

    ghost invariant = { λ s. snapshot_fault s.rules s.first s.entries ≡ None };
}

/// Why entries are no snapshot: what is wrong with the first of them that is wrong.
#[derive(Clone, Copy, Debug, PartialEq, Eq, Hash)]
pub enum SnapshotFault {
    /// As many entries as the capacity stand before an entry.
    TooMany = 1,
    /// An entry has the key of one before it.
    RepeatedKey = 2,
    /// An entry has the number of one before it, or one that is not below the first event's.
    BadNumber = 3,
    /// The body of an entry does not fit its key.
    WrongBody = 4,
    /// The moment of an entry is above 2^40 seconds.
    BadMoment = 5,
}

impl Display for SnapshotFault {
    ghost use Rattle.std.specs.Prelude.{Some};
    ghost use Rattle.rrc_history.specs.Faults.{snapshot_fault_text};

    ghost output = { λ fault. Some (snapshot_fault_text fault) };

    fn fmt<W: Write>(&self, f: &mut Formatter<W>) -> fmt::Result {
        match self {
            SnapshotFault::TooMany => {
                f.write_str("as many entries as the capacity stand before an entry")
            }
            SnapshotFault::RepeatedKey => f.write_str("an entry has the key of one before it"),
            SnapshotFault::BadNumber => f.write_str(
                "an entry has the number of one before it, or one that is not below the first event's",
            ),
            SnapshotFault::WrongBody => f.write_str("the body of an entry does not fit its key"),
            SnapshotFault::BadMoment => {
                f.write_str("the moment of an entry is above 2^40 seconds")
            }
        }
    }
}

impl std::error::Error for SnapshotFault {}

impl SnapshotFault {
    ghost use Rattle.rrc_history.specs.Faults.{snapshot_fault_number};

    /// The number of the fault, from 1 to 5. Of several faults of an entry the one of the lowest
    /// number is answered.
    pub fn number(&self) -> u8
        ensures value { result ≡ snapshot_fault_number self.now }
    {
        *self as u8
    }
}

/// Why no snapshot was made of entries.
#[derive(Clone, Copy, Debug, PartialEq, Eq, Hash, Error)]
pub enum NoSnapshot {
    #[error(transparent)]
    Fault(SnapshotFault),
    #[error("memory was refused")]
    Memory,
}

impl From<AllocError> for NoSnapshot {
    ghost use Rattle.std.specs.Prelude.{◌≡◌};
    ghost use Rattle.rrc_history.specs.declared.snapshot.NoSnapshot.TheVariants.{Memory};

    ghost from_gives = { λ _ refused. refused ≡ Memory };

    fn from(_refused: AllocError) -> NoSnapshot {
        NoSnapshot::Memory
    }
}

impl Snapshot {
    ghost use Rattle.rrc_history.specs.Sound.{AreSound};

    /// A snapshot of entries, the key touched last first, in front of the event of the number
    /// `first`. The first entry that is wrong is answered for: `TooMany` where `rules.capacity`
    /// entries stand before it, then `RepeatedKey`, `BadNumber` (not below `first`, or that of an
    /// entry before it), `WrongBody` (as of `Offer::new`), and `BadMoment` (above 2^40 seconds).
    ///
    /// It takes no memory, and so compares each entry with all before it. For entries from outside,
    /// which may be many, take `new_by_trees`.
    pub fn new(rules: Rules, first: u64, entries: Vec<Entry>) -> Result<Snapshot, SnapshotFault>
        ensures ok { IfOk result (λ snapshot. snapshot ≡ record { rules = rules; first = first; entries = entries.items }) }
        ensures sound { OnOk result (snapshot_fault rules first entries.items ≡ None) }
        ensures err { IfErr result (λ fault. snapshot_fault rules first entries.items ≡ Some fault) }
    {
        match first_fault(rules, first, entries.as_slice()) {
            Some(fault) => Err(fault),
            None => Ok(Snapshot {
                rules,
                first,
                entries: EntryList::from_vec(entries),
            }),
        }
    }

    /// What `new` answers, or `Memory`, in a time that grows little faster than the entries:
    /// ordered trees of their keys and of their numbers find the repeats.
    pub fn new_by_trees(
        alloc: Global,
        rules: Rules,
        first: u64,
        entries: Vec<Entry>,
    ) -> Result<Snapshot, NoSnapshot>
        ensures ok { IfOk result (λ snapshot. snapshot ≡ record { rules = rules; first = first; entries = entries.items }) }
        ensures sound { OnOk result (snapshot_fault rules first entries.items ≡ None) }
        ensures err { IfErr result (IsWhyNoSnapshot rules first entries.items) }
    {
        match first_fault_by_trees(alloc, rules, first, entries.as_slice())? {
            Some(fault) => Err(NoSnapshot::Fault(fault)),
            None => Ok(Snapshot {
                rules,
                first,
                entries: EntryList::from_vec(entries),
            }),
        }
    }

    /// The rules of the part. By them the entries of every snapshot are sound.
    pub fn rules(&self) -> Rules
        ensures value { result ≡ self.now.rules }
        ensures sound { AreSound self.now.rules.capacity self.now.first self.now.entries }
    {
        self.rules
    }
}

fn first_fault(rules: Rules, first: u64, entries: &[Entry]) -> Option<SnapshotFault>
    ensures { result ≡ snapshot_fault rules first entries.now }
{
    for (place, entry) in entries.iter().enumerate() {
        let before = &entries[..place];
        let repeats = repeats_among(before, entry);
        let fault = entry_fault(rules.capacity, first, before, entry, repeats);
        if fault.is_some() {
            return fault;
        }
    }
    None
}

fn first_fault_by_trees(
    alloc: Global,
    rules: Rules,
    first: u64,
    entries: &[Entry],
) -> Result<Option<SnapshotFault>, AllocError>
    ensures { IfOk result (λ fault. fault ≡ snapshot_fault rules first entries.now) }
{
    let mut trees = Trees::new(alloc);
    for (place, entry) in entries.iter().enumerate() {
        let before = &entries[..place];
        let repeats = trees.add(before, entry)?;
        let fault = entry_fault(rules.capacity, first, before, entry, repeats);
        if fault.is_some() {
            return Ok(fault);
        }
    }
    Ok(None)
}

/// What is wrong with an entry behind others.
fn entry_fault(
    capacity: u64,
    first: u64,
    before: &[Entry],
    entry: &Entry,
    repeats: Repeats,
) -> Option<SnapshotFault>
    requires { repeats ≡ repeats_of before.now entry.now }
    ensures { result ≡ entry_fault capacity first before.now entry.now }
{
    if before.len() as u64 >= capacity {
        return Some(SnapshotFault::TooMany);
    }
    if repeats.key {
        return Some(SnapshotFault::RepeatedKey);
    }
    if entry.number >= first || repeats.number {
        return Some(SnapshotFault::BadNumber);
    }
    if !offer::is_fit(&entry.key, &entry.body) {
        return Some(SnapshotFault::WrongBody);
    }
    if entry.moment > LAST_MOMENT {
        return Some(SnapshotFault::BadMoment);
    }
    None
}

impl Clone for Entry {
    ghost use Rattle.std.specs.Prelude.{◌≡◌};

    ghost is_clone = { λ a b. b ≡ a };

    fn clone(&self) -> Result<Entry, AllocError> {
        Ok(Entry {
            key: self.key.clone()?,
            body: self.body.clone()?,
            moment: self.moment,
            number: self.number,
        })
    }
}

impl PartialEq for Entry {
    ghost use Rattle.rrc_history.specs.Equality.{entry_eq};
    ghost use Rattle.rrc_history.specs.lemmas.EqualityLaws.{entry_eq-laws};
    ghost use Rattle.std.specs.Cmp.{partial_equiv_from_equiv};

    ghost eq = { entry_eq };

    ghost laws = { partial_equiv_from_equiv entry_eq-laws };

    fn eq(&self, other: &Entry) -> bool {
        self.key == other.key
            && self.body == other.body
            && self.moment == other.moment
            && self.number == other.number
    }
}

impl Eq for Entry {
    ghost use Rattle.rrc_history.specs.lemmas.EqualityLaws.{entry_eq-laws};

    ghost laws = { entry_eq-laws };
}

impl PartialEq for Snapshot {
    ghost use Rattle.rrc_history.specs.Equality.{snapshot_eq};
    ghost use Rattle.rrc_history.specs.lemmas.EqualityLaws.{snapshot_eq-laws};
    ghost use Rattle.std.specs.Cmp.{partial_equiv_from_equiv};

    ghost eq = { snapshot_eq };

    ghost laws = { partial_equiv_from_equiv snapshot_eq-laws };

    fn eq(&self, other: &Snapshot) -> bool {
        has_same_numbers(self.rules, other.rules)
            && self.first == other.first
            && self.entries == other.entries
    }
}

impl Eq for Snapshot {
    ghost use Rattle.rrc_history.specs.lemmas.EqualityLaws.{snapshot_eq-laws};

    ghost laws = { snapshot_eq-laws };
}

fn has_same_numbers(rules: Rules, other: Rules) -> bool
    ensures { result ≡ rules_eq rules other }
{
    rules.capacity == other.capacity && rules.chapter == other.chapter && rules.stale == other.stale
}
