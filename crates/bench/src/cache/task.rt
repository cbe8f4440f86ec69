// SPDX-License-Identifier: MIT
// What is called, and how often.

use crate::cache::numbers::Numbers;
use rrc_share::Recording;

/// How many names a shared cache holds an address of.
pub const NAMES: u32 = 65_536;

/// What is called.
#[derive(Clone, Copy)]
pub enum Kind {
    Hit,
    Ask,
    Shelf,
    Miss,
    Would,
    Room,
    Replace,
    Evict,
    Sweep,
    Load,
    Audit,
    Recheck,
    /// A shared cache: how many of each ten calls are puts, and of how many names all are.
    Shared(u32, u32),
    /// Parts that no lock guards, by the asks that a shared cache is asked.
    Lent,
}

impl Kind {
    /// Whether its name stands behind the word `shared`.
    pub fn is_shared(self) -> bool {
        matches!(self, Kind::Shared(..) | Kind::Lent)
    }
}

/// Each kind by its name, and how often it is called where no argument tells.
pub static KINDS: [(&str, Kind, u32); 17] = [
    ("hit", Kind::Hit, 1000),
    ("ask", Kind::Ask, 1000),
    ("shelf", Kind::Shelf, 1000),
    ("miss", Kind::Miss, 1000),
    ("would", Kind::Would, 1000),
    ("room", Kind::Room, 1000),
    ("replace", Kind::Replace, 1000),
    ("evict", Kind::Evict, 1000),
    ("sweep", Kind::Sweep, 1000),
    ("load", Kind::Load, 1000),
    ("audit", Kind::Audit, 64),
    ("recheck", Kind::Recheck, 1000),
    ("hit", Kind::Shared(0, NAMES), 100),
    ("put", Kind::Shared(10, NAMES), 100),
    ("mix", Kind::Shared(1, NAMES), 100),
    ("hot", Kind::Shared(0, 1), 100),
    ("lent", Kind::Lent, 100),
];

/// The kind of that name.
pub fn kind_of(wanted: &str, is_shared: bool) -> Option<Kind> {
    for &(name, kind, _) in &KINDS {
        if kind.is_shared() == is_shared && name == wanted {
            return Some(kind);
        }
    }
    None
}

/// What is called, how often by each thread, and on how many parts that hold so many keys each.
#[derive(Clone, Copy)]
pub struct Task<'a> {
    pub name: &'a str,
    pub kind: Kind,
    /// Whether the parts record their histories.
    pub recording: Recording,
    pub keys: u32,
    pub threads: u32,
    pub parts: u32,
    pub calls: u32,
}

impl Task<'_> {
    /// How many parts are called, where they are not shared.
    pub fn parts_called(&self) -> u32 {
        match self.kind {
            Kind::Shelf | Kind::Sweep | Kind::Audit | Kind::Recheck => 1,
            _ => self.parts,
        }
    }

    /// The keys of all parts that are called.
    pub fn held(&self) -> u64 {
        u64::from(self.keys) * u64::from(self.parts_called())
    }

    /// The number that a call is about: one that is held, one of as many others, or each of these
    /// once.
    pub fn number(&self, call: u32, numbers: &mut Numbers) -> u64 {
        let held = self.held();
        match self.kind {
            Kind::Miss => held.saturating_add(numbers.below(held)),
            Kind::Evict => held.saturating_add(u64::from(call)),
            _ => numbers.below(held),
        }
    }
}
