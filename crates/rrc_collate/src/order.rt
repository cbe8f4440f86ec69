// SPDX-License-Identifier: MIT
ghost use Rattle.std.specs.Prelude.{◌≡◌, List, ◌<◌, ◌↔◌, [], length, map, is_some, IfOk, IfSome, IfNone, IsTrue};
ghost use Rattle.std.specs.List.{All, AllZip};
ghost use Rattle.rrc_history.specs.declared.event.Event.{Event};
ghost use Rattle.rrc_collate.specs.Hands.{AreNamed, AreDealt};
ghost use Rattle.rrc_collate.specs.Collated.{taken_by, histories_of, AreWritten, AreInOrder};

use crate::drawn::Drawn;
use crate::falls::never_falls;
use crate::hands::{Hands, deal};
use crate::owners::owners;
use crate::task::Task;
use crate::task_draws::draw_all;
use crate::valued::Valued;
use rrc_history::Whole;
use std::alloc::{AllocError, Global};

/// Which worker took which line.
fn taken_by(alloc: Global, tasks: &[Task]) -> Result<Vec<Valued>, AllocError>
    ensures { IfOk result (λ taken. taken.items ≡ taken_by tasks.now) }
{
    let mut taken = Vec::with_capacity(alloc, tasks.len())?;
    for task in tasks {
        taken.push(Valued {
            class: task.worker,
            value: task.line,
        })?;
    }
    Ok(taken)
}

/// The events of all parts, dealt. `None` where one of them names a line that no worker took.
fn deal_all<'a>(
    alloc: Global,
    workers: usize,
    owners: &[usize],
    wholes: &'a [Whole],
) -> Result<Option<Vec<Hands<'a>>>, AllocError>
    requires { All (λ owner. owner < workers) owners.now }
    ensures named { IfOk result (λ dealt. IsTrue (is_some dealt) ↔ All (λ whole. AreNamed (length owners.now) whole.events) wholes.now) }
    ensures dealt { IfOk result (λ dealt. IfSome dealt (λ parts. AllZip (λ whole hands. AreDealt workers owners.now whole.events hands) wholes.now parts.items)) }
{
    let mut parts = Vec::with_capacity(alloc, wholes.len())?;
    for whole in wholes {
        match deal(alloc, workers, owners, whole.events.as_slice())? {
            None => return Ok(None),
            Some(hands) => parts.push(hands)?,
        }
    }
    Ok(Some(parts))
}

/// Whether no hand holds anything.
fn are_empty(parts: &[Hands]) -> bool
    ensures { IsTrue result ↔ All (λ hands. All (λ hand. hand ≡ []) hands) parts.now }
{
    for hands in parts {
        if !hands.is_empty() {
            return false;
        }
    }
    true
}

/// The events of tasks, where the parts' histories are just what the workers wrote with their
/// tasks. `owners` has the worker that took each line.
fn events_in<'a>(
    alloc: Global,
    workers: usize,
    owners: &[usize],
    wholes: &'a [Whole],
    tasks: &[Task],
) -> Result<Option<Vec<Drawn<'a>>>, AllocError>
    requires owners { All (λ owner. owner < workers) owners.now }
    requires workers { All (λ task. task.worker < workers) tasks.now }
    requires parts { All (λ task. All (λ operation. operation.part < length wholes.now) task.operations) tasks.now }
    ensures written { IfOk result (λ found. IfSome found (λ events. AreWritten workers owners.now tasks.now (histories_of wholes.now) (map (λ own. map (λ event. event.now) own.items) events.items))) }
    ensures only { IfOk result (λ found. IfSome found (λ events. (others : List (List Event)) → AreWritten workers owners.now tasks.now (histories_of wholes.now) others → others ≡ map (λ own. map (λ event. event.now) own.items) events.items)) }
    ensures strayed { IfOk result (λ found. IfNone found ((others : List (List Event)) → AreWritten workers owners.now tasks.now (histories_of wholes.now) others → ⊥)) }
{
    let mut parts = match deal_all(alloc, workers, owners, wholes)? {
        None => return Ok(None),
        Some(parts) => parts,
    };
    let events = match draw_all(alloc, parts.as_mut_slice(), workers, tasks)? {
        None => return Ok(None),
        Some(events) => events,
    };
    if are_empty(parts.as_slice()) {
        Ok(Some(events))
    } else {
        Ok(None)
    }
}

/// The events of each task, in the order of the tasks and of their operations, where the parts'
/// histories are just what the workers wrote with their tasks: each line below `lines` was taken
/// once, no worker did a line behind a greater one, and in each part the events of a worker's lines
/// are those of its tasks' operations that go there, one each, task by task. `None` where they are
/// not.
///
/// Its time is linear in tasks, operations and events, and so is its memory.
pub(crate) fn order<'a>(
    alloc: Global,
    lines: usize,
    workers: usize,
    wholes: &'a [Whole],
    tasks: &[Task],
) -> Result<Option<Vec<Drawn<'a>>>, AllocError>
    requires workers { All (λ task. task.worker < workers) tasks.now }
    requires parts { All (λ task. All (λ operation. operation.part < length wholes.now) task.operations) tasks.now }
    ensures ordered { IfOk result (λ found. IfSome found (λ events. AreInOrder lines workers tasks.now (histories_of wholes.now) (map (λ own. map (λ event. event.now) own.items) events.items))) }
    ensures only { IfOk result (λ found. IfSome found (λ events. (others : List (List Event)) → AreInOrder lines workers tasks.now (histories_of wholes.now) others → others ≡ map (λ own. map (λ event. event.now) own.items) events.items)) }
    ensures strayed { IfOk result (λ found. IfNone found ((others : List (List Event)) → AreInOrder lines workers tasks.now (histories_of wholes.now) others → ⊥)) }
{
    let taken = taken_by(alloc, tasks)?;
    if !never_falls(alloc, workers, taken.as_slice())? {
        return Ok(None);
    }
    match owners(alloc, lines, taken.as_slice())? {
        None => Ok(None),
        Some(owners) => events_in(alloc, workers, owners.as_slice(), wholes, tasks),
    }
}
