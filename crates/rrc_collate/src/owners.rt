// SPDX-License-Identifier: MIT
ghost use Rattle.std.specs.Prelude.{◌≡◌, ◌↔◌, IfOk, IfSome, IsTrue, is_some, map, Some, None};
ghost use Rattle.std.specs.Option.{MatchOption};
ghost use Rattle.std.specs.List.{Contains};
ghost use Rattle.rrc_collate.specs.Words.{AreApart, AreClasses, AreSharedOut, AreOwners};

use crate::valued::Valued;
use std::alloc::{AllocError, Global};

/// The class in which each value below `count` stands, where no value stands twice and no other
/// does.
fn classes_of(
    alloc: Global,
    count: usize,
    taken: &[Valued],
) -> Result<Option<Vec<Option<usize>>>, AllocError>
    ensures apart { IfOk result (λ found. IsTrue (is_some found) ↔ AreApart count taken.now) }
    ensures classes { IfOk result (λ found. IfSome found (λ classes. AreClasses count taken.now classes.items)) }
{
    let mut classes = vec![in alloc; None; count]?;
    for valued in taken {
        if valued.value >= count {
            return Ok(None);
        }
        if classes[valued.value].is_some() {
            return Ok(None);
        }
        classes[valued.value] = Some(valued.class);
    }
    Ok(Some(classes))
}

/// What is there, where all of it is.
fn all_of(alloc: Global, found: &[Option<usize>]) -> Result<Option<Vec<usize>>, AllocError>
    ensures { IfOk result (λ all. MatchOption all (Contains found.now None) (λ values. map Some values.items ≡ found.now)) }
{
    let mut values = Vec::with_capacity(alloc, found.len())?;
    for one in found {
        match one {
            None => return Ok(None),
            Some(value) => values.push(*value)?,
        }
    }
    Ok(Some(values))
}

/// The worker that took each line, where each of so many lines was taken once and no other line
/// was. In `taken` the class is the worker, and the value is the line.
pub(crate) fn owners(
    alloc: Global,
    lines: usize,
    taken: &[Valued],
) -> Result<Option<Vec<usize>>, AllocError>
    ensures shared_out { IfOk result (λ found. IsTrue (is_some found) ↔ AreSharedOut lines taken.now) }
    ensures owners { IfOk result (λ found. IfSome found (λ owners. AreOwners lines taken.now owners.items)) }
{
    match classes_of(alloc, lines, taken)? {
        None => Ok(None),
        Some(classes) => all_of(alloc, classes.as_slice()),
    }
}
