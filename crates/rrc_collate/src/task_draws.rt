// SPDX-License-Identifier: MIT
ghost use Rattle.std.specs.Prelude.{◌<◌, ◌≡◌, length, map, IfOk, IfSome, IfNone};
ghost use Rattle.std.specs.List.{All};
ghost use Rattle.rrc_collate.specs.Tasks.{AreDone, AreOnlyDone, CanNotBeDone};

use crate::drawn::Drawn;
use crate::draws::draw;
use crate::hands::Hands;
use crate::task::Task;
use std::alloc::{AllocError, Global};

/// The events of tasks, in order: each task takes those of its operations from its worker's hands.
/// `None` where a hand has other events than its worker's tasks call for, or fewer.
pub(crate) fn draw_all<'a>(
    alloc: Global,
    parts: &mut [Hands<'a>],
    workers: usize,
    tasks: &[Task],
) -> Result<Option<Vec<Drawn<'a>>>, AllocError>
    requires hands { All (λ hands. length hands ≡ workers) parts.old }
    requires workers { All (λ task. task.worker < workers) tasks.now }
    requires parts { All (λ task. All (λ operation. operation.part < length parts.old) task.operations) tasks.now }
    ensures done { IfOk result (λ found. IfSome found (λ events. AreDone parts.old tasks.now (map (λ own. map (λ event. event.now) own.items) events.items) parts.new)) }
    ensures only { IfOk result (λ found. IfSome found (λ events. AreOnlyDone parts.old tasks.now (map (λ own. map (λ event. event.now) own.items) events.items) parts.new)) }
    ensures none { IfOk result (λ found. IfNone found (CanNotBeDone parts.old tasks.now)) }
{
    let mut events = Vec::with_capacity(alloc, tasks.len())?;
    for task in tasks {
        match draw(
            alloc,
            parts,
            task.worker,
            task.line as u64,
            &task.operations,
        )? {
            None => return Ok(None),
            Some(own) => events.push(own)?,
        }
    }
    Ok(Some(events))
}
