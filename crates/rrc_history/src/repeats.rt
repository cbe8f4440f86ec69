// SPDX-License-Identifier: MIT
ghost use Rattle.std.specs.Prelude.{◌≡◌, ◌++◌, ◌∷◌, [], IfOk, OnOk};
ghost use Rattle.rrc_history.specs.Snapshots.{has_key, has_number};
ghost use Rattle.rrc_history.specs.Repeats.{repeats_of, Finds};

use crate::snapshot::Entry;
use rrc_name::Key;
use std::alloc::{AllocError, Global};
use std::collections::BTreeSet;

/// Of an entry behind others, whether one of them has its key, and whether one has its number.
#[derive(Clone, Copy, Debug)]
pub(crate) struct Repeats {
    pub(crate) key: bool,
    pub(crate) number: bool,
}

/// What an entry repeats of those before it. It takes no memory.
pub(crate) fn repeats_among(before: &[Entry], entry: &Entry) -> Repeats
    ensures { result ≡ repeats_of before.now entry.now }
{
    Repeats {
        key: has_key(&entry.key, before),
        number: has_number(entry.number, before),
    }
}

fn has_key(key: &Key, entries: &[Entry]) -> bool
    ensures { result ≡ has_key key.now entries.now }
{
    entries.iter().any(|entry| *key == entry.key)
}

fn has_number(number: u64, entries: &[Entry]) -> bool
    ensures { result ≡ has_number number entries.now }
{
    entries.iter().any(|entry| entry.number == number)
}

/// Ordered trees of the keys and of the numbers of entries.
#[derive(Debug, Drop)]
pub(crate) struct Trees {
    pub(crate) keys: BTreeSet<Key>,
    pub(crate) numbers: BTreeSet<u64>,
}

impl Trees {
    /// Trees of no entries.
    pub(crate) fn new(alloc: Global) -> Trees
        ensures { Finds result [] }
    {
        Trees {
            keys: BTreeSet::new(alloc),
            numbers: BTreeSet::new(alloc),
        }
    }

    /// What an entry repeats of those that the trees are of. They are then of this one too.
    pub(crate) fn add(&mut self, before: &[Entry], entry: &Entry) -> Result<Repeats, AllocError>
        requires { Finds self.old before.now }
        ensures repeats { IfOk result (λ repeats. repeats ≡ repeats_of before.now entry.now) }
        ensures finds { OnOk result (Finds self.new (before.now ++ entry.now ∷ [])) }
    {
        let is_new_key = self.keys.insert(entry.key.clone()?)?;
        let is_new_number = self.numbers.insert(entry.number)?;
        Ok(Repeats {
            key: !is_new_key,
            number: !is_new_number,
        })
    }
}
