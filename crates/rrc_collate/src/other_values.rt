// SPDX-License-Identifier: MIT
ghost use Rattle.std.specs.Prelude.{◌≡◌, ◌<◌, ◌↔◌, length, slice_index_or, IfOk, IsTrue};
ghost use Rattle.std.specs.List.{All};
ghost use Rattle.rrc_collate.specs.OtherValues.{HasOther, AreSeen, after, has_other};

use crate::valued::Valued;
use std::alloc::{AllocError, Global};

/// Which values stand in a class.
#[derive(Clone, Copy, Debug, PartialEq, Eq, Hash)]
pub(crate) enum Seen {
    Nothing,
    /// One value, once or more often.
    One(usize),
    /// Two different values at least.
    Many,
}

/// What stands in a class with one value more.
fn after(seen: Seen, value: usize) -> Seen
    ensures { result ≡ after seen value }
{
    match seen {
        Seen::Nothing => Seen::One(value),
        Seen::One(first) => { if first == value { seen } else { Seen::Many } }
        Seen::Many => Seen::Many,
    }
}

/// Whether another value than this one stands there.
fn has_other(seen: Seen, value: usize) -> bool
    ensures { result ≡ has_other seen value }
{
    match seen {
        Seen::Nothing => false,
        Seen::One(first) => first != value,
        Seen::Many => true,
    }
}

/// Which values stand in each of so many classes.
fn seen_in(alloc: Global, classes: usize, present: &[Valued]) -> Result<Vec<Seen>, AllocError>
    requires { All (λ valued. valued.class < classes) present.now }
    ensures { IfOk result (λ seen. AreSeen classes present.now seen.items) }
{
    let mut seen = vec![in alloc; Seen::Nothing; classes]?;
    for valued in present {
        seen[valued.class] = after(seen[valued.class], valued.value);
    }
    Ok(seen)
}

/// Whether beside each wanted value its class has another one: beside each worker that joined a
/// fetch another one that fetched the question. The classes are numbered from 0, and there are
/// `classes` of them.
pub(crate) fn have_others(
    alloc: Global,
    classes: usize,
    present: &[Valued],
    wanted: &[Valued],
) -> Result<bool, AllocError>
    requires present { All (λ valued. valued.class < classes) present.now }
    requires wanted { All (λ valued. valued.class < classes) wanted.now }
    ensures { IfOk result (λ all. IsTrue all ↔ All (λ valued. HasOther present.now valued) wanted.now) }
{
    let seen = seen_in(alloc, classes, present)?;
    for valued in wanted {
        if !has_other(seen[valued.class], valued.value) {
            return Ok(false);
        }
    }
    Ok(true)
}
