// SPDX-License-Identifier: MIT
ghost use Rattle.std.specs.Prelude.{◌≡◌, ◌++◌, ◌↔◌, IfOk, OnOk, IsTrue};
ghost use Rattle.std.specs.List.{All};
ghost use Rattle.rrc_collate.specs.Collated.{IsJoinedTo};
ghost use Rattle.rrc_collate.specs.Fetches.{fetch_by, join_by, listed, picked, IsNumbered};

use crate::other_values::have_others;
use crate::task::{Fate, Task};
use crate::valued::Valued;
use std::alloc::{AllocError, Global};

/// The question that a task fetched, with its worker.
fn fetch_of(task: &Task) -> Option<Valued>
    ensures { result ≡ fetch_by task.now.worker task.now.fate }
{
    match task.fate {
        Fate::Plain => None,
        Fate::Joined { .. } => None,
        Fate::Fetched { question, .. } => Some(Valued {
            class: question,
            value: task.worker,
        }),
    }
}

/// The question of which a task joined a fetch, with its worker.
fn join_of(task: &Task) -> Option<Valued>
    ensures { result ≡ join_by task.now.worker task.now.fate }
{
    match task.fate {
        Fate::Plain => None,
        Fate::Joined { question } => Some(Valued {
            class: question,
            value: task.worker,
        }),
        Fate::Fetched { .. } => None,
    }
}

/// Puts a value behind others, if there is one.
pub(crate) fn put(values: &mut Vec<Valued>, value: Option<Valued>) -> Result<(), AllocError>
    ensures { OnOk result (values.new.items ≡ values.old.items ++ listed value) }
{
    match value {
        None => Ok(()),
        Some(valued) => {
            values.push(valued)?;
            Ok(())
        }
    }
}

fn fetches_in(alloc: Global, tasks: &[Task]) -> Result<Vec<Valued>, AllocError>
    ensures { IfOk result (λ fetches. fetches.items ≡ picked fetch_by tasks.now) }
{
    let mut fetches = Vec::new(alloc);
    for task in tasks {
        put(&mut fetches, fetch_of(task))?;
    }
    Ok(fetches)
}

fn joins_in(alloc: Global, tasks: &[Task]) -> Result<Vec<Valued>, AllocError>
    ensures { IfOk result (λ joins. joins.items ≡ picked join_by tasks.now) }
{
    let mut joins = Vec::new(alloc);
    for task in tasks {
        put(&mut joins, join_of(task))?;
    }
    Ok(joins)
}

/// Whether each worker that joined a fetch had another worker's fetch of that question to join. The
/// questions are numbered from 0, and there are `questions` of them. Where there is none, it looks
/// at no task.
pub(crate) fn are_joined(
    alloc: Global,
    questions: usize,
    tasks: &[Task],
) -> Result<bool, AllocError>
    requires { All (λ task. IsNumbered questions task.fate) tasks.now }
    ensures { IfOk result (λ all. IsTrue all ↔ All (λ task. IsJoinedTo tasks.now task.worker task.fate) tasks.now) }
{
    if questions == 0 {
        return Ok(true);
    }
    let fetches = fetches_in(alloc, tasks)?;
    let joins = joins_in(alloc, tasks)?;
    have_others(alloc, questions, fetches.as_slice(), joins.as_slice())
}
