// SPDX-License-Identifier: MIT
ghost use Rattle.std.specs.Prelude.{◌≡◌, List, ◌<◌, length, map, IfOk, IfSome, IfNone};
ghost use Rattle.std.specs.List.{All};
ghost use Rattle.rrc_history.specs.declared.event.Event.{Event};
ghost use Rattle.rrc_collate.specs.Fetches.{IsNumbered};
ghost use Rattle.rrc_collate.specs.Collated.{histories_of, FitsHistories};

use crate::drawn::Drawn;
use crate::fetches::are_joined;
use crate::order::order;
use crate::task::Task;
use crate::turns::are_in_turn;
use rrc_history::Whole;
use std::alloc::{AllocError, Global};

/// The events of each task, as `order` answers them, where what the workers did fits the parts'
/// histories: they are just what the workers wrote, who joined a fetch had another worker's fetch
/// of that question to join, and in every part the fetches of a question stand one behind the
/// other, never mixed, and in the same order in all parts. `None` where one of these is not so.
///
/// Its time is linear in lines, tasks, operations, events, and questions for each part, and so is
/// its memory.
pub fn collate<'a>(
    alloc: Global,
    lines: usize,
    workers: usize,
    questions: usize,
    wholes: &'a [Whole],
    tasks: &[Task],
) -> Result<Option<Vec<Drawn<'a>>>, AllocError>
    requires workers { All (λ task. task.worker < workers) tasks.now }
    requires parts { All (λ task. All (λ operation. operation.part < length wholes.now) task.operations) tasks.now }
    requires questions { All (λ task. IsNumbered questions task.fate) tasks.now }
    ensures collated { IfOk result (λ found. IfSome found (λ events. FitsHistories lines workers tasks.now (histories_of wholes.now) (map (λ own. map (λ event. event.now) own.items) events.items))) }
    ensures only { IfOk result (λ found. IfSome found (λ events. (others : List (List Event)) → FitsHistories lines workers tasks.now (histories_of wholes.now) others → others ≡ map (λ own. map (λ event. event.now) own.items) events.items)) }
    ensures strayed { IfOk result (λ found. IfNone found ((others : List (List Event)) → FitsHistories lines workers tasks.now (histories_of wholes.now) others → ⊥)) }
{
    let events = match order(alloc, lines, workers, wholes, tasks)? {
        None => return Ok(None),
        Some(events) => events,
    };
    if !are_joined(alloc, questions, tasks)? {
        return Ok(None);
    }
    if !are_in_turn(alloc, lines, questions, wholes, tasks)? {
        return Ok(None);
    }
    Ok(Some(events))
}
