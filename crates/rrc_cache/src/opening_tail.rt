// SPDX-License-Identifier: MIT
ghost use Rattle.std.specs.Prelude.{◌≡◌, [], true, IfOk};
ghost use Rattle.rrc_cache.specs.OpeningTail.{left_of, HasCome, HasGivenWay, HasMoved, IsPut};

use rrc_history::{EntryList, Snapshot};
use rrc_name::Shared;
use std::alloc::{AllocError, Global};

/// The entries with which a chapter began, less those that moved since: they stand behind all
/// others, in the order in which the chapter began with them.
#[derive(Debug, Drop)]
pub(crate) struct OpeningTail {
    opening: Shared<Snapshot>,
    /// The numbers of those that were touched or removed since, and of others that were.
    moved: Vec<u64>,
    /// Those that came since have this number or greater ones.
    next: u64,
}

impl OpeningTail {
    /// Nothing has moved.
    pub(crate) fn new(alloc: Global, opening: Shared<Snapshot>) -> OpeningTail
        ensures opening { result.opening ≡ opening }
        ensures moved { result.moved.items ≡ [] }
        ensures next { result.next ≡ opening.first }
    {
        let next = opening.first;
        OpeningTail {
            opening,
            moved: Vec::new(alloc),
            next,
        }
    }
}

/// The entries that stand behind all that moved, in the order in which the chapter began with them.
pub(crate) fn left(alloc: Global, tail: &Option<OpeningTail>) -> Result<EntryList, AllocError>
    ensures { IfOk result (λ entries. entries ≡ left_of tail.now) }
{
    match tail {
        Some(it) => it.opening.entries.without(alloc, it.moved.as_slice()),
        None => Ok(EntryList::new(alloc)),
    }
}

/// Notes that the entry of a number was touched or removed. Where as many moved as the chapter
/// began with, or memory is refused, there is no tail any more: then a closing costs no more than
/// what moved.
pub(crate) fn note_move(tail: &mut Option<OpeningTail>, number: u64)
    ensures { HasMoved number tail.old tail.new }
{
    if !add_move(tail, number) {
        *tail = None;
    }
}

/// Adds a number to those that moved, and answers whether there was room for it.
fn add_move(tail: &mut Option<OpeningTail>, number: u64) -> bool
    ensures { result ≡ true → HasMoved number tail.old tail.new }
{
    match tail {
        Some(it) if it.moved.len() < it.opening.entries.len() => it.moved.push(number).is_ok(),
        Some(_) => false,
        None => true,
    }
}

/// Notes that an entry of a number came, which was greater than all others.
fn note_new(tail: &mut Option<OpeningTail>, number: u64)
    ensures { HasCome number tail.old tail.new }
{
    if !step_over(tail, number) {
        *tail = None;
    }
}

/// Makes the number behind one the next, and answers whether none was greater.
fn step_over(tail: &mut Option<OpeningTail>, number: u64) -> bool
    ensures { result ≡ true → HasCome number tail.old tail.new }
{
    match tail {
        Some(it) if it.next <= number && number < u64::MAX => {
            it.next = number + 1;
            true
        }
        Some(_) => false,
        None => true,
    }
}

/// Notes that the entry of a number, if there is one, was touched or removed.
pub(crate) fn note_gone(tail: &mut Option<OpeningTail>, number: Option<u64>)
    ensures { HasGivenWay number tail.old tail.new }
{
    if let Some(number) = number {
        note_move(tail, number);
    }
}

/// Notes that an entry of a number came in the place of that of another, if its key held one.
pub(crate) fn note_put(tail: &mut Option<OpeningTail>, held: Option<u64>, number: u64)
    ensures { IsPut held number tail.old tail.new }
{
    note_gone(tail, held);
    note_new(tail, number);
}
