// SPDX-License-Identifier: MIT
ghost use Rattle.std.specs.Prelude.{◌<◌, ◌↔◌, IfOk, IsTrue};
ghost use Rattle.std.specs.List.{All};
ghost use Rattle.rrc_collate.specs.Words.{NeverFalls};

use crate::valued::Valued;
use std::alloc::{AllocError, Global};

/// Whether within no class a value is lower than one before it. The classes are numbered from 0,
/// and there are `classes` of them.
pub(crate) fn never_falls(
    alloc: Global,
    classes: usize,
    values: &[Valued],
) -> Result<bool, AllocError>
    requires { All (λ valued. valued.class < classes) values.now }
    ensures { IfOk result (λ holds. IsTrue holds ↔ NeverFalls values.now) }
{
    // The last value of each class.
    let mut lasts = vec![in alloc; 0; classes]?;
    for next in values {
        if next.value < lasts[next.class] {
            return Ok(false);
        }
        lasts[next.class] = next.value;
    }
    Ok(true)
}
