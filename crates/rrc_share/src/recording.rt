// SPDX-License-Identifier: MIT
ghost use Rattle.std.specs.Prelude.{◌≡◌, Err, IfOk, OnErr};
ghost use Rattle.rrc_share.specs.Empty.{empty_part};

use crate::cache_shelf::CacheShelf;
use crate::shelf::Shelf;
use rrc_cache::{LeanPart, Part, Refusal};
use rrc_history::Rules;
use std::alloc::Global;

/// Whether the parts of a new cache record their histories. It is switched part by part later, and
/// no reply depends on it.
#[derive(Clone, Copy, Debug)]
pub enum Recording {
    /// Each part records its history from its first event on, in chapters.
    On,
    /// No part records anything, and calls take less time and memory.
    Off,
}

/// An empty part that records, on its shelf.
fn recorded(alloc: Global, rules: Rules, seed: Option<[u8; 16]>) -> Result<CacheShelf, Refusal>
    ensures ok { IfOk result (λ shelf. shelf ≡ empty_part Recording.On rules) }
    ensures memory { OnErr result (result ≡ Err Refusal.Memory) }
{
    let part = match seed {
        Some(seed) => Part::seeded(alloc, rules, seed)?,
        None => Part::new(alloc, rules)?,
    };
    Ok(CacheShelf::recording(alloc, Shelf::new(alloc, part)))
}

/// An empty part that records nothing.
fn unrecorded(alloc: Global, rules: Rules, seed: Option<[u8; 16]>) -> Result<CacheShelf, Refusal>
    ensures ok { IfOk result (λ shelf. shelf ≡ empty_part Recording.Off rules) }
    ensures memory { OnErr result (result ≡ Err Refusal.Memory) }
{
    let part = match seed {
        Some(seed) => LeanPart::seeded(alloc, rules, seed)?,
        None => LeanPart::new(alloc, rules)?,
    };
    Ok(CacheShelf::new(alloc, part))
}

/// An empty part that records its history, or does not, its keys hashed behind a seed where there
/// is one.
pub(crate) fn empty_part(
    alloc: Global,
    rules: Rules,
    seed: Option<[u8; 16]>,
    recording: Recording,
) -> Result<CacheShelf, Refusal>
    ensures ok { IfOk result (λ shelf. shelf ≡ empty_part recording rules) }
    ensures memory { OnErr result (result ≡ Err Refusal.Memory) }
{
    match recording {
        Recording::On => recorded(alloc, rules, seed),
        Recording::Off => unrecorded(alloc, rules, seed),
    }
}
