// SPDX-License-Identifier: MIT
// Calls parts of the cache many times and prints what it counted, and on standard error the
// nanoseconds of processor time that the calls took, for a script that compares: `bench cache TASK
// KEYS CALLS [PARTS]`, where TASK is `hit`, `ask`, `shelf`, `miss`, `would`, `room`, `replace`,
// `evict`, `sweep`, `load`, `audit` or `recheck`. KEYS is how many each part holds. A call of `ask`
// is one that hits, whose reply the caller owns; of `shelf`, an ask of a shelf that lets a chapter
// go after each 4,096; of `sweep`, one of one part, after a tenth of its keys expired; of `load`,
// one load from a random place of 8 MiB. `audit` and `recheck` find each once that the history of
// CALLS puts and asks of a part that may hold KEYS keys is legal.
//
// `bench cache shared TASK THREADS PARTS CALLS` calls a shared cache by several threads at once,
// each of which makes CALLS, and prints on standard error the nanoseconds that passed. TASK is
// `hit`, which asks for names that are held, `put`, which replaces what is held, `mix`, which is
// nine asks to one put, `hot`, which asks for one name alone, or `lent`, which is `hit` by one
// thread on parts with no lock. Without these words it does a few of each.
//
// With `lean` before these words the parts record nothing: then `hit` and `miss` are asks in two
// halves, which take no memory, what is evicted is not counted, and there is no `shelf`, no `audit`
// and no `recheck`.

mod calls;
mod inputs;
mod numbers;
mod part;
mod shared;
mod task;

use crate::cache::calls::{
    Counts, Done, ask_all, ask_shelf, audit_all, load_all, offer_all, sweep_all,
};
use crate::cache::inputs::{
    PickedAsk, add_asks, add_each, add_offers, add_parts, fill, places, write,
};
use crate::cache::part::CachePart;
use crate::cache::task::{KINDS, Kind, Task, kind_of};
use crate::words::{number, word};
use rrc_share::{Recording, Shelf};
use std::alloc::Global;
use std::sync::Wait;
use std::thread::Threads;
use std::time::{Clock, CpuClock};

pub const FAILED: &str =
    "it takes [lean] TASK KEYS CALLS [PARTS], [lean] shared TASK THREADS PARTS CALLS, and memory";

fn asked<R: CpuClock>(
    rt: &R,
    alloc: Global,
    task: &Task<'_>,
    parts: &mut [CachePart],
) -> Option<Done> {
    let mut asks = Vec::new(alloc);
    add_asks(alloc, task, &mut asks)?;
    Some(ask_all(rt, task.kind, parts, asks.as_slice()))
}

/// Asks a shelf of the last part.
fn on_shelf<R: CpuClock>(
    rt: &R,
    alloc: Global,
    asks: &[PickedAsk],
    parts: &mut Vec<CachePart>,
    calls: u32,
) -> Option<Done> {
    let CachePart::Recording(part) = parts.pop()? else {
        return None;
    };
    let mut shelf = Shelf::new(alloc, part);
    Some(ask_shelf(rt, &mut shelf, asks, calls))
}

fn shelved<R: CpuClock>(
    rt: &R,
    alloc: Global,
    task: &Task<'_>,
    parts: &mut Vec<CachePart>,
) -> Option<Done> {
    let mut asks = Vec::new(alloc);
    add_each(alloc, task.keys, 1, &mut asks)?;
    on_shelf(rt, alloc, asks.as_slice(), parts, task.calls)
}

/// Offers so often, to parts that have room for no other key. The offers are made beforehand.
fn offered<R: CpuClock>(
    rt: &R,
    alloc: Global,
    task: &Task<'_>,
    parts: &mut [CachePart],
) -> Option<Done> {
    let mut offers = Vec::new(alloc);
    add_offers(alloc, task, &mut offers)?;
    Some(offer_all(rt, parts, offers))
}

/// Makes the calls of a task on parts, of which there are none yet.
fn on_parts<R: CpuClock>(
    rt: &R,
    alloc: Global,
    task: &Task<'_>,
    parts: &mut Vec<CachePart>,
) -> Option<Done> {
    add_parts(alloc, task.parts_called(), task.keys, task.recording, parts)?;
    match task.kind {
        Kind::Audit | Kind::Recheck => write(alloc, parts.as_mut_slice(), task.keys, task.calls)?,
        _ => fill(alloc, parts.as_mut_slice(), task.held())?,
    }
    match task.kind {
        Kind::Shelf => shelved(rt, alloc, task, parts),
        Kind::Replace | Kind::Evict => offered(rt, alloc, task, parts.as_mut_slice()),
        Kind::Sweep => sweep_all(rt, alloc, parts.as_mut_slice(), task.keys, task.calls),
        Kind::Audit | Kind::Recheck => audit_all(rt, alloc, task.kind, parts.as_slice()),
        _ => asked(rt, alloc, task, parts.as_mut_slice()),
    }
}

fn on_new_parts<R: CpuClock>(rt: &R, alloc: Global, task: &Task<'_>) -> Option<Done> {
    let mut parts = Vec::new(alloc);
    on_parts(rt, alloc, task, &mut parts)
}

fn loaded<R: CpuClock>(rt: &R, alloc: Global, task: &Task<'_>) -> Option<Done> {
    let places = places(alloc)?;
    load_all(rt, places.as_slice(), task.calls)
}

/// Prints what came of the calls.
fn print_counts<R: Print>(rt: &R, task: &Task<'_>, counts: &Counts) -> Option<()> {
    let name = task.name;
    let right = counts.right;
    match task.kind {
        Kind::Audit | Kind::Recheck => println!(rt; "{name}: {right} events, all right").ok(),
        Kind::Shared(..) | Kind::Lent => println!(rt; "{name}: {right} served").ok(),
        _ => println!(rt;
            "{name}: {} hits, {} misses, {} kept, {} evicted, {} swept",
            counts.hits, counts.misses, counts.kept, counts.evicted, counts.swept
        )
        .ok(),
    }
}

/// Makes the calls, and prints what came of them, and the nanoseconds that they took.
fn report<R>(rt: &R, task: &Task<'_>) -> Option<()>
where
    R: Print + Eprint + AllocGlobal + CpuClock + Clock + Threads + Wait + Sync,
{
    let done = match task.kind {
        Kind::Load => loaded(rt, rt.alloc(), task)?,
        Kind::Shared(..) | Kind::Lent => shared::called(rt, rt.alloc(), task)?,
        _ => on_new_parts(rt, rt.alloc(), task)?,
    };
    print_counts(rt, task, &done.counts)?;
    eprintln!(rt; "{}", done.time?.as_nanos()).ok()
}

/// A few of each.
pub fn report_each<R>(rt: &R) -> Option<()>
where
    R: Print + Eprint + AllocGlobal + CpuClock + Clock + Threads + Wait + Sync,
{
    for &(name, kind, calls) in &KINDS {
        let task = Task {
            name,
            kind,
            recording: Recording::On,
            keys: 16,
            threads: 2,
            parts: 2,
            calls,
        };
        report(rt, &task)?;
    }
    Some(())
}

/// The task of the words `TASK KEYS CALLS [PARTS]`.
fn lone_task(words: &[String], recording: Recording) -> Option<Task<'_>> {
    let name = word(words, 0);
    Some(Task {
        name,
        kind: kind_of(name, false)?,
        recording,
        keys: number(words, 1)?,
        threads: 1,
        parts: if words.len() > 3 {
            number(words, 3)?
        } else {
            1
        },
        calls: number(words, 2)?,
    })
}

/// The task of the words `shared TASK THREADS PARTS CALLS`.
fn shared_task(words: &[String], recording: Recording) -> Option<Task<'_>> {
    let name = word(words, 1);
    Some(Task {
        name,
        kind: kind_of(name, true)?,
        recording,
        keys: 0,
        threads: number(words, 2)?,
        parts: number(words, 3)?,
        calls: number(words, 4)?,
    })
}

/// The task of the words behind `lean`, or of all.
fn task_of(words: &[String], recording: Recording) -> Option<Task<'_>> {
    match word(words, 0) {
        "shared" => shared_task(words, recording),
        _ => lone_task(words, recording),
    }
}

/// Does what the words tell.
pub fn report_told<R>(rt: &R, words: &[String]) -> Option<()>
where
    R: Print + Eprint + AllocGlobal + CpuClock + Clock + Threads + Wait + Sync,
{
    match word(words, 0) {
        "" => report_each(rt),
        "lean" => report(rt, &task_of(words.get(1..)?, Recording::Off)?),
        _ => report(rt, &task_of(words, Recording::On)?),
    }
}
