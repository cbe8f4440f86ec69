// SPDX-License-Identifier: MIT
ghost use Rattle.std.specs.Prelude.{◌≡◌, ◌≢◌, ◌<◌, List, length, map, IfOk, IfSome, IfNone, true, false};
ghost use Rattle.std.specs.List.{All, AllPairs};
ghost use Rattle.rrc_trace.specs.declared.answer.Answer.{Answer};
ghost use Rattle.rrc_collate.specs.Words.{AreSharedOut};
ghost use Rattle.rrc_report.specs.AnswerTable.{answered_by, AreIn, IsMissed};
ghost use Rattle.rrc_report.specs.Steps.{given_from, as_taken, AreComplete};

use crate::completions::completed;
use crate::done::{Answered, Done};
use crate::joined::joined;
use rrc_collate::Drawn;
use rrc_name::Sequence;
use rrc_trace::Answer;
use std::alloc::{AllocError, Global};

/// What workers say that they did, worker by worker.
fn answered_by(alloc: Global, done: Vec<Done>) -> Result<Vec<Answered>, AllocError>
    ensures { IfOk result (λ all. all.items ≡ answered_by done.items) }
{
    let mut all = Vec::new(alloc);
    for one in done {
        all = joined(all, one.answers.into_vec())?;
    }
    Ok(all)
}

/// A table with so many places. What stands in them tells nothing yet.
fn blank_table(alloc: Global, count: usize) -> Result<Vec<Answer>, AllocError>
    ensures { IfOk result (λ table. length table.items ≡ count) }
{
    let mut table = Vec::with_capacity(alloc, count)?;
    for _ in 0..count {
        table.push(Answer::Closed)?;
    }
    Ok(table)
}

/// Puts the answer of each line into its place, completed by the line's events. `false` where the
/// events tell another answer.
fn fill(
    alloc: Global,
    table: &mut [Answer],
    given: Vec<Answered>,
    events: &[Drawn<'_>],
) -> Result<bool, AllocError>
    requires below { All (λ one. one.line < length table.old) given.items }
    requires once { AllPairs (λ earlier later. earlier.line ≢ later.line) given.items }
    requires size { length events.now ≡ length given.items }
    ensures filled { IfOk result (λ is. is ≡ true → AreIn table.new given.items (map (λ own. map (λ event. event.now) own.items) events.now)) }
    ensures missed { IfOk result (λ is. is ≡ false → IsMissed given.items (map (λ own. map (λ event. event.now) own.items) events.now)) }
{
    let mut place = 0;
    for one in given {
        match completed(alloc, one.answer, events[place].as_slice())? {
            None => return Ok(false),
            Some(answer) => table[one.line] = answer,
        }
        place += 1;
    }
    Ok(true)
}

/// What each of so many lines got, in order, completed by their events; or `None` where the events
/// tell other answers. As each line was taken, each place of the table is written. Its time is
/// linear in lines and events.
pub(crate) fn lines_of(
    alloc: Global,
    count: usize,
    done: Vec<Done>,
    events: &[Drawn<'_>],
) -> Result<Option<Sequence<Answer>>, AllocError>
    requires shared_out { AreSharedOut count (map as_taken (given_from 0 done.items)) }
    requires size { length events.now ≡ length (given_from 0 done.items) }
    ensures some { IfOk result (λ found. IfSome found (AreComplete count (given_from 0 done.items) (map (λ own. map (λ event. event.now) own.items) events.now))) }
    ensures none { IfOk result (λ found. IfNone found ((answers : List Answer) → AreComplete count (given_from 0 done.items) (map (λ own. map (λ event. event.now) own.items) events.now) answers → ⊥)) }
{
    let given = answered_by(alloc, done)?;
    let mut table = blank_table(alloc, count)?;
    if !fill(alloc, table.as_mut_slice(), given, events)? {
        return Ok(None);
    }
    Ok(Some(Sequence::from_vec(table)))
}
