// SPDX-License-Identifier: MIT
ghost use Rattle.std.specs.Prelude.{◌≡◌, ◌<◌, ◌+◌, ◌*◌, length, None, IfOk, IfErr, OnOk};
ghost use Rattle.rrc_marks.specs.Seen.{IsPassOf};
ghost use Rattle.rrc_marks.specs.Views.{opening_view};
ghost use Rattle.rrc_report.specs.Reports.{IsCollated};
ghost use Rattle.rrc_report.specs.Faults.{IsOfReplay};
ghost use Rattle.rrc_replay.specs.Stops.{TellsFirstFault, first_fault, lower, fault_of};

use crate::gate::Gate;
use crate::worker::{Common, Stop, Worked, Worker, work};
use rrc_marks::{Marks, MarksFault, Pass};
use rrc_report::{Done, Refused, Report, collate};
use rrc_script::Config;
use rrc_share::{CacheShelf, Recording, SharedCache, Shelf};
use rrc_trace::{ReplayFault, Trace};
use std::alloc::{AllocError, Global};
use std::sync::Wait;
use std::thread;
use std::thread::Threads;

/// The workers, each with so many turns from a pass that has those of one worker more.
fn hired<'a, G>(
    alloc: Global,
    common: &'a Common<'a, G>,
    turns: u64,
    pass: Pass,
) -> Result<Vec<Worker<'a, G>>, AllocError>
    requires some { 0 < turns }
    requires own { IsPassOf common.now.marks.now pass }
    requires view { pass.view ≡ opening_view ((common.now.config.now.workers + 1) * turns) }
{
    let mut pass = pass;
    let mut workers = Vec::with_capacity(alloc, common.config.workers)?;
    for _ in 0..common.config.workers {
        let own = common.marks.split(&mut pass, turns);
        workers.push(Worker { common, pass: own })?;
    }
    Ok(workers)
}

/// Has each worker work in a thread of its own, and waits for all of them. Where a thread is
/// refused none is made behind it.
fn all_worked<R: Threads + Wait + Sync, G: Gate + Sync>(
    rt: &R,
    alloc: Global,
    workers: Vec<Worker<'_, G>>,
) -> Result<Vec<Worked>, AllocError> {
    let count = workers.len();
    let mut handles = Vec::with_capacity(alloc, count)?;
    let mut worked = Vec::with_capacity(alloc, count)?;
    thread::scope(
        thread::scope_env(),
        rt,
        move |scope| -> Result<Vec<Worked>, AllocError> {
            let mut made = true;
            for worker in workers {
                if !made {
                    break;
                }
                match scope.spawn(move || work(rt, alloc, worker)) {
                    Ok(handle) => handles.push(handle)?,
                    Err(_) => made = false,
                }
            }
            for handle in handles {
                worked.push(handle.join(rt))?;
            }
            if made { Ok(worked) } else { Err(AllocError) }
        },
    )
}

/// Of two stops, where there are two, the one at the lower line.
fn lower(stop: Option<Stop>, other: Option<Stop>) -> Option<Stop>
    ensures { result ≡ lower stop other }
{
    match (stop, other) {
        (Some(stop), Some(other)) if other.line < stop.line => Some(other),
        (Some(stop), _) => Some(stop),
        (None, other) => other,
    }
}

/// As what a stop is told, of so many lines. A line that is none of them no worker takes.
fn fault_of(lines: usize, stop: Stop) -> ReplayFault
    ensures { result ≡ fault_of lines stop }
{
    match stop.why {
        Refused::Spent if stop.line < lines => ReplayFault::Spent(stop.line as u64),
        Refused::Spent => ReplayFault::Strayed,
        Refused::Memory => ReplayFault::Memory,
    }
}

/// The fault of the lowest line that was refused, if one was.
fn first_fault(lines: usize, worked: &[Worked]) -> Option<ReplayFault>
    ensures { result ≡ first_fault lines worked.now }
{
    let mut first: Option<Stop> = None;
    for one in worked {
        first = lower(first, one.stop);
    }
    first.map(|stop| fault_of(lines, stop))
}

/// What each worker did, or the fault of the lowest line that was refused, of so many lines.
#[tactic(auto, using(crate::proofs::StopLemmas::told))]
fn done_by(alloc: Global, lines: usize, worked: Vec<Worked>) -> Result<Vec<Done>, ReplayFault>
    ensures none { OnOk result (first_fault lines worked.items ≡ None) }
    ensures tells { IfErr result (TellsFirstFault lines worked.items) }
    ensures err { IfErr result (IsOfReplay lines) }
{
    if let Some(fault) = first_fault(lines, worked.as_slice()) {
        return Err(fault);
    }
    let mut done = Vec::with_capacity(alloc, worked.len())?;
    for one in worked {
        done.push(one.done)?;
    }
    Ok(done)
}

/// Has so many workers do the lines of a trace on a cache that they share.
fn all_done<R: Threads + Wait + Sync, G: Gate + Sync>(
    rt: &R,
    alloc: Global,
    trace: &Trace,
    config: &Config,
    cache: &SharedCache,
    gate: &G,
) -> Result<Vec<Done>, ReplayFault>
    ensures { IfErr result (IsOfReplay (length trace.now)) }
{
    let marks = trace.questions().len().max(1);
    let lines = trace.lines.len() as u64;
    let turns = lines + 1;
    let all_turns = (config.workers as u64 + 1) * turns;
    let (marks, pass) = match Marks::new(alloc, marks, lines, all_turns) {
        Ok(made) => made,
        Err(MarksFault::BadNumber) => unreachable!(),
        Err(MarksFault::Memory) => return Err(ReplayFault::Memory),
    };
    let common = Common {
        trace,
        config,
        cache,
        marks: &marks,
        gate,
    };
    let workers = hired(alloc, &common, turns, pass)?;
    done_by(alloc, trace.lines.len(), all_worked(rt, alloc, workers)?)
}

/// The shelves of parts that record, as those of a replay do, or `None` where one records nothing.
fn recorded(alloc: Global, parts: Vec<CacheShelf>) -> Result<Option<Vec<Shelf>>, AllocError> {
    let mut shelves = Vec::with_capacity(alloc, parts.len())?;
    for part in parts {
        let Ok(shelf) = part.into_shelf() else {
            return Ok(None);
        };
        shelves.push(shelf)?;
    }
    Ok(Some(shelves))
}

/// Replays a trace by many workers, each in a thread of its own, on a cache that they share, and
/// tells what each line got. A worker draws one line after another, so a line that takes long holds
/// up no other one, and makes the line's calls, each under the lock of one part. What the workers
/// did is then held against the histories of the parts (`rrc_report::collate`). Keys are hashed
/// behind the seed: under one that nobody can foresee no names make the replay slow. The gate is
/// called at some places of each line.
///
/// `Strayed` where the workers did not do just what the trace calls for; `Spent` of the lowest line
/// that met a part whose numbers are spent, or of the number of lines where a part's last chapter
/// can't be closed; `Memory` where memory or a thread was refused. No other fault comes.
pub fn replay<R: Threads + Wait + Sync, G: Gate + Sync>(
    rt: &R,
    alloc: Global,
    trace: &Trace,
    config: &Config,
    seed: [u8; 16],
    gate: &G,
) -> Result<Report, ReplayFault>
    ensures collated { IfOk result (IsCollated config.now trace.now) }
    ensures err { IfErr result (IsOfReplay (length trace.now)) }
{
    let Ok(cache) = SharedCache::seeded(alloc, config.parts, config.rules, seed, Recording::On)
    else {
        return Err(ReplayFault::Memory);
    };
    let done = all_done(rt, alloc, trace, config, &cache, gate)?;
    let Some(shelves) = recorded(alloc, cache.into_parts())? else {
        return Err(ReplayFault::Strayed);
    };
    collate(alloc, trace, config, shelves, done)
}
