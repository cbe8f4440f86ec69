// SPDX-License-Identifier: MIT
// Draws and marks by one, two or four threads at once, counted, for a script that times them:
// `bench marks WHAT THREADS COUNT`, where WHAT is `draws`, `pairs` or `shares` and each thread does
// COUNT. Without these words it does a few of each.

mod work;

use crate::marks::work::{Task, by_four, by_one, by_two};
use crate::words::word;
use rrc_marks::Marks;
use std::alloc::Global;
use std::sync::atomic::AtomicU64;
use std::sync::atomic::Ordering::SeqCst;
use std::thread::Threads;

const MOST_COUNT: u64 = 1 << 32;

pub const FAILED: &str =
    "it takes draws, pairs or shares, 1, 2 or 4 threads, and a count of 1 to 2^32";

/// What is done without words.
const TASKS: &[&str] = &["draws", "pairs", "shares"];

/// How many numbers the threads drew, or how often they began a mark or gave a turn away.
fn counted<R: Threads + Sync>(
    rt: &R,
    alloc: Global,
    task: Task,
    threads: u64,
    turns: u64,
) -> Option<u64> {
    let counted = AtomicU64::new(0);
    let (marks, pass) = Marks::new(alloc, 4, 0, turns).ok()?;
    let pass = match threads {
        4 if turns >= 4 => by_four(rt, &marks, pass, task, &counted),
        2 if turns >= 2 => by_two(rt, &marks, pass, task, 0, &counted),
        _ => by_one(&marks, pass, task, 0, &counted),
    };
    let drawn = marks.close(pass);
    match task {
        Task::Draws => Some(drawn),
        Task::Pairs(_) | Task::Shares(_) => Some(counted.load(SeqCst)),
    }
}

/// What each thread does, and the turns that they need together.
fn task(what: &str, threads: u64, count: u64) -> Option<(Task, u64)> {
    if !matches!(threads, 1 | 2 | 4) || count == 0 || count > MOST_COUNT {
        return None;
    }
    match what {
        "draws" => Some((Task::Draws, threads * count)),
        "pairs" => Some((Task::Pairs(count), threads)),
        "shares" => Some((Task::Shares(count), 2 * threads)),
        _ => None,
    }
}

fn report<R: Print + AllocGlobal + Threads + Sync>(
    rt: &R,
    what: &str,
    threads: u64,
    count: u64,
) -> Option<()> {
    let (task, turns) = task(what, threads, count)?;
    let counted = counted(rt, rt.alloc(), task, threads, turns)?;
    println!(rt; "{what}: {counted} by {threads} threads").ok()
}

/// A few of each.
pub fn report_each<R: Print + AllocGlobal + Threads + Sync>(rt: &R) -> Option<()> {
    for &what in TASKS {
        report(rt, what, 4, 1000)?;
    }
    Some(())
}

/// The number that the word at a place tells.
fn number(words: &[String], place: usize) -> Option<u64> {
    word(words, place).parse::<u64>().ok()
}

/// Does what the words tell.
pub fn report_told<R: Print + AllocGlobal + Threads + Sync>(
    rt: &R,
    words: &[String],
) -> Option<()> {
    match word(words, 0) {
        "" => report_each(rt),
        what => report(rt, what, number(words, 1)?, number(words, 2)?),
    }
}
