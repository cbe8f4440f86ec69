// SPDX-License-Identifier: MIT
ghost use Rattle.std.specs.Prelude.{◌≡◌, ◌<◌, ◌↔◌, ℕ, length, slice_index_or, None, false, if◌then◌else◌, IfOk, IfSome, IsTrue};
ghost use Rattle.std.specs.List.{All};
ghost use Rattle.rrc_collate.specs.Words.{NeverFalls};
ghost use Rattle.rrc_collate.specs.Hands.{AreNamed};
ghost use Rattle.rrc_collate.specs.Collated.{histories_of, turns_in};
ghost use Rattle.rrc_collate.specs.Fetches.{IsNumbered};
ghost use Rattle.rrc_collate.specs.Turns.{first_fate, AreFates, is_fetched, is_home, last_from, AreTurns, turn_told, turns_told};

use crate::falls::never_falls;
use crate::fetches::put;
use crate::script::tag_of;
use crate::task::{Fate, Task};
use crate::valued::Valued;
use rrc_history::{Event, Tag, Whole};
use std::alloc::{AllocError, Global};

fn first_fate(known: Option<Fate>, fate: Fate) -> Option<Fate>
    ensures { result ≡ first_fate known fate }
{
    match known {
        None => Some(fate),
        Some(first) => Some(first),
    }
}

/// What became of each of so many lines.
fn fates_in(alloc: Global, lines: usize, tasks: &[Task]) -> Result<Vec<Option<Fate>>, AllocError>
    requires { All (λ task. task.line < lines) tasks.now }
    ensures { IfOk result (λ fates. AreFates lines tasks.now fates.items) }
{
    let mut fates = vec![in alloc; None; lines]?;
    for task in tasks {
        fates[task.line] = first_fate(fates[task.line], task.fate);
    }
    Ok(fates)
}

/// Whether a line fetched a question of a name in this part.
fn is_home(part: usize, fate: Option<Fate>) -> bool
    ensures { result ≡ is_home part fate }
{
    match fate {
        None => false,
        Some(Fate::Plain) => false,
        Some(Fate::Joined { .. }) => false,
        Some(Fate::Fetched { home, .. }) => home == part,
    }
}

/// Notes the number of each line's last event in a part, counted from 1, for the lines that fetched
/// a question of a name in it.
fn note_turns(turns: &mut Vec<usize>, fates: &[Option<Fate>], part: usize, events: &[Event])
    requires size { length turns.old.items ≡ length fates.now }
    requires named { AreNamed (length fates.now) events.now }
    ensures size { length turns.new.items ≡ length turns.old.items }
    ensures each { (line : ℕ) → line < length fates.now → slice_index_or turns.new.items line 0 ≡ (if is_home part (slice_index_or fates.now line None) then last_from 0 (slice_index_or turns.old.items line 0) line events.now else slice_index_or turns.old.items line 0) }
{
    for (passed, event) in events.iter().enumerate() {
        let line = tag_of(event).line as usize;
        if is_home(part, fates[line]) {
            turns[line] = passed + 1;
        }
    }
}

/// The turn of each line that fetched a question: the number of its last event in the part of the
/// question's name.
fn turns_in(
    alloc: Global,
    fates: &[Option<Fate>],
    wholes: &[Whole],
) -> Result<Vec<usize>, AllocError>
    requires { All (λ whole. AreNamed (length fates.now) whole.events) wholes.now }
    ensures { IfOk result (λ turns. AreTurns fates.now (histories_of wholes.now) turns.items) }
{
    let mut turns = vec![in alloc; 0; fates.len()]?;
    for (part, whole) in wholes.iter().enumerate() {
        note_turns(&mut turns, fates, part, whole.events.as_slice());
    }
    Ok(turns)
}

/// The question that an event fetches, with the turn of this fetch.
fn turn_at(fates: &[Option<Fate>], turns: &[usize], tag: Tag) -> Option<Valued>
    requires fates { tag.line < length fates.now }
    requires turns { tag.line < length turns.now }
    ensures { result ≡ turn_told fates.now turns.now tag }
{
    if tag.place == 0 {
        return None;
    }
    let line = tag.line as usize;
    match fates[line] {
        None => None,
        Some(Fate::Plain) => None,
        Some(Fate::Joined { .. }) => None,
        Some(Fate::Fetched { question, .. }) => Some(Valued {
            class: question,
            value: turns[line],
        }),
    }
}

/// The questions that events fetch, with the turns of these fetches.
fn turns_of(
    alloc: Global,
    fates: &[Option<Fate>],
    turns: &[usize],
    events: &[Event],
) -> Result<Vec<Valued>, AllocError>
    requires size { length turns.now ≡ length fates.now }
    requires named { AreNamed (length fates.now) events.now }
    ensures { IfOk result (λ found. found.items ≡ turns_told fates.now turns.now events.now) }
{
    let mut found = Vec::new(alloc);
    for event in events {
        put(&mut found, turn_at(fates, turns, tag_of(event)))?;
    }
    Ok(found)
}

/// Whether in no part a fetch stands behind one of its question that has a greater turn.
fn all_rise(
    alloc: Global,
    questions: usize,
    fates: &[Option<Fate>],
    turns: &[usize],
    wholes: &[Whole],
) -> Result<bool, AllocError>
    requires numbered { All (λ fate. IfSome fate (λ known. IsNumbered questions known)) fates.now }
    requires size { length turns.now ≡ length fates.now }
    requires named { All (λ whole. AreNamed (length fates.now) whole.events) wholes.now }
    ensures { IfOk result (λ all. IsTrue all ↔ All (λ whole. NeverFalls (turns_told fates.now turns.now whole.events)) wholes.now) }
{
    for whole in wholes {
        let found = turns_of(alloc, fates, turns, whole.events.as_slice())?;
        if !never_falls(alloc, questions, found.as_slice())? {
            return Ok(false);
        }
    }
    Ok(true)
}

fn is_fetched(fate: Fate) -> bool
    ensures { result ≡ is_fetched fate }
{
    match fate {
        Fate::Plain => false,
        Fate::Joined { .. } => false,
        Fate::Fetched { .. } => true,
    }
}

/// Whether no task fetched one of so many questions.
fn none_fetched(questions: usize, tasks: &[Task]) -> bool
    requires { All (λ task. IsNumbered questions task.fate) tasks.now }
    ensures { IsTrue result ↔ All (λ task. is_fetched task.fate ≡ false) tasks.now }
{
    if questions == 0 {
        return true;
    }
    for task in tasks {
        if is_fetched(task.fate) {
            return false;
        }
    }
    true
}

/// Whether in every part the fetches of a question stand one behind the other, never mixed, and in
/// the same order in all parts: in the order of their turns. The lines are numbered from 0, and
/// there are `lines` of them, and so are the questions.
///
/// Its time is linear in lines, tasks, questions for each part, and events, and so is its memory.
/// Where nothing was fetched, as in most traces, it looks at the tasks at most and takes no memory.
pub(crate) fn are_in_turn(
    alloc: Global,
    lines: usize,
    questions: usize,
    wholes: &[Whole],
    tasks: &[Task],
) -> Result<bool, AllocError>
    requires lines { All (λ task. task.line < lines) tasks.now }
    requires questions { All (λ task. IsNumbered questions task.fate) tasks.now }
    requires named { All (λ whole. AreNamed lines whole.events) wholes.now }
    ensures { IfOk result (λ all. IsTrue all ↔ All (λ history. NeverFalls (turns_in tasks.now (histories_of wholes.now) history)) (histories_of wholes.now)) }
{
    if none_fetched(questions, tasks) {
        return Ok(true);
    }
    let fates = fates_in(alloc, lines, tasks)?;
    let turns = turns_in(alloc, fates.as_slice(), wholes)?;
    all_rise(alloc, questions, fates.as_slice(), turns.as_slice(), wholes)
}
