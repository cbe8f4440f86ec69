// SPDX-License-Identifier: MIT
ghost use Rattle.std.specs.Prelude.{◌≡◌, List, map, IfOk, IfErr, IfSome, IfNone};
ghost use Rattle.rrc_text.specs.declared.fault.ReplayFault.TheVariants as faults;
ghost use Rattle.rrc_collate.specs.declared.task.Task.{Task};
ghost use Rattle.rrc_report.specs.Steps.{given_by, given_from, IsTaskOfLine, AreTasks};

use crate::done::{Answered, Done};
use crate::joined::joined;
use rrc_collate::Task;
use rrc_script::{Config, script_of};
use rrc_trace::{Questions, ReplayFault, Trace};
use std::alloc::Global;

/// The task of a line that a worker says it did, or `None` where the line is not one of the trace
/// or can't have got such an answer.
fn task_of(
    alloc: Global,
    trace: &Trace,
    config: &Config,
    questions: &Questions,
    worker: usize,
    answered: &Answered,
) -> Result<Option<Task>, ReplayFault>
    ensures some { IfOk result (λ found. IfSome found (IsTaskOfLine config.now trace.now questions.now (given_by worker answered.now))) }
    ensures none { IfOk result (λ found. IfNone found ((task : Task) → IsTaskOfLine config.now trace.now questions.now (given_by worker answered.now) task → ⊥)) }
    ensures err { IfErr result (λ fault. fault ≡ faults.Memory) }
{
    let Some(line) = trace.lines.as_slice().get(answered.line) else {
        return Ok(None);
    };
    let Some(script) = script_of(alloc, config, questions, line, &answered.answer)? else {
        return Ok(None);
    };
    Ok(Some(Task {
        worker,
        line: answered.line,
        fate: script.fate,
        operations: script.operations,
    }))
}

/// The tasks of what a worker says that it did, or `None` where one of its lines has none.
fn tasks_by(
    alloc: Global,
    trace: &Trace,
    config: &Config,
    questions: &Questions,
    worker: usize,
    done: &Done,
) -> Result<Option<Vec<Task>>, ReplayFault>
    ensures some { IfOk result (λ found. IfSome found (λ tasks. AreTasks config.now trace.now questions.now (map (given_by worker) done.now.answers) tasks.items)) }
    ensures none { IfOk result (λ found. IfNone found ((tasks : List Task) → AreTasks config.now trace.now questions.now (map (given_by worker) done.now.answers) tasks → ⊥)) }
    ensures err { IfErr result (λ fault. fault ≡ faults.Memory) }
{
    let mut tasks = Vec::with_capacity(alloc, done.answers.len())?;
    for answered in done.answers.as_slice() {
        match task_of(alloc, trace, config, questions, worker, answered)? {
            Some(task) => tasks.push(task)?,
            None => return Ok(None),
        }
    }
    Ok(Some(tasks))
}

/// The tasks of what workers say that they did, worker by worker, or `None` where a line is not one
/// of the trace or can't have got such an answer.
pub(crate) fn tasks_of(
    alloc: Global,
    trace: &Trace,
    config: &Config,
    questions: &Questions,
    done: &[Done],
) -> Result<Option<Vec<Task>>, ReplayFault>
    ensures some { IfOk result (λ found. IfSome found (λ tasks. AreTasks config.now trace.now questions.now (given_from 0 done.now) tasks.items)) }
    ensures none { IfOk result (λ found. IfNone found ((tasks : List Task) → AreTasks config.now trace.now questions.now (given_from 0 done.now) tasks → ⊥)) }
    ensures err { IfErr result (λ fault. fault ≡ faults.Memory) }
{
    let mut tasks = Vec::new(alloc);
    for (worker, one) in done.iter().enumerate() {
        match tasks_by(alloc, trace, config, questions, worker, one)? {
            Some(own) => tasks = joined(tasks, own)?,
            None => return Ok(None),
        }
    }
    Ok(Some(tasks))
}
