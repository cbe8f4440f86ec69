// SPDX-License-Identifier: MIT
ghost use Rattle.std.specs.Prelude.{◌≡◌, ◌++◌, IfOk};

use std::alloc::AllocError;

/// What is first, and behind it what comes next. Where nothing is first, nothing is moved and no
/// memory is asked for.
pub(crate) fn joined<T: Drop>(first: Vec<T>, next: Vec<T>) -> Result<Vec<T>, AllocError>
    ensures { IfOk result (λ all. all.items ≡ first.items ++ next.items) }
{
    if first.is_empty() {
        return Ok(next);
    }
    let mut all = first;
    let mut next = next;
    all.append(&mut next)?;
    Ok(all)
}
