// SPDX-License-Identifier: MIT
// What each thread does, and how the work is spread over one, two or four threads.
ghost use Rattle.std.specs.Prelude.{◌≡◌, ◌+◌, ◌*◌, ◌^◌, ◌<◌, ◌≤◌, [], length};
ghost use Rattle.std.specs.Thread.{IsSync};
ghost use Rattle.rrc_marks.specs.Seen.{IsPassOf, KeepsShare};

use rrc_marks::{Began, Marks, Pass};
use std::sync::atomic::AtomicU64;
use std::sync::atomic::Ordering::SeqCst;
use std::thread::{Threads, join};

/// What a thread does: it uses all turns of its pass, begins and finishes a mark of its own so
/// often, or gives a turn away and takes it back so often.
#[derive(Clone, Copy)]
pub enum Task {
    Draws,
    Pairs(u64),
    Shares(u64),
}

/// Uses all turns of the pass.
fn draw_all(marks: &Marks, mut pass: Pass) -> Pass
    requires { IsPassOf marks.now pass }
    ensures { KeepsShare pass result }
{
    while pass.turns() > 0 {
        let _number = marks.draw(&mut pass);
    }
    pass
}

/// Begins and finishes one mark, again and again, and adds how often it was begun.
fn begin_often(marks: &Marks, mut pass: Pass, mark: usize, count: u64, begun: &AtomicU64) -> Pass
    requires own { IsPassOf marks.now pass }
    requires mark { mark < marks.now.marks }
    requires free { pass.view.held ≡ [] }
    ensures { KeepsShare pass result }
{
    let mut mine = 0;
    for _ in 0..count {
        if marks.begin(&mut pass, mark) == Began::Mine {
            marks.finish(&mut pass, mark);
            mine += 1;
        }
    }
    begun.fetch_add(mine, SeqCst);
    pass
}

/// Gives one turn of several to another pass and takes that in, again and again, and adds how often
/// it did.
fn share_often(marks: &Marks, mut pass: Pass, count: u64, shared: &AtomicU64) -> Pass
    requires own { IsPassOf marks.now pass }
    requires free { pass.view.held ≡ [] }
    ensures { KeepsShare pass result }
{
    let mut mine = 0;
    for _ in 0..count {
        if pass.turns() > 1 {
            let given = marks.split(&mut pass, 1);
            marks.join(&mut pass, given);
            mine += 1;
        }
    }
    shared.fetch_add(mine, SeqCst);
    pass
}

/// One thread's work.
pub fn by_one(marks: &Marks, pass: Pass, task: Task, mark: usize, done: &AtomicU64) -> Pass
    requires own { IsPassOf marks.now pass }
    requires mark { mark < marks.now.marks }
    requires free { pass.view.held ≡ [] }
    ensures { KeepsShare pass result }
{
    match task {
        Task::Draws => draw_all(marks, pass),
        Task::Pairs(count) => begin_often(marks, pass, mark, count, done),
        Task::Shares(count) => share_often(marks, pass, count, done),
    }
}

/// Two threads' work, each with half of the turns and a mark of its own.
pub fn by_two<R: Threads + Sync>(
    rt: &R,
    marks: &Marks,
    mut pass: Pass,
    task: Task,
    mark: usize,
    done: &AtomicU64,
) -> Pass
    requires own { IsPassOf marks.now pass }
    requires mark { (mark < 3) × (4 ≤ marks.now.marks) }
    requires free { pass.view.held ≡ [] }
    requires turns { 2 ≤ pass.view.turns }
    ensures { KeepsShare pass result }
{
    let half = pass.turns() / 2;
    let other = marks.split(&mut pass, half);
    let next = mark + 1;
    let (mut pass, other) = join(
        rt,
        move || -> Pass
            requires { IsPassOf marks.now pass × (mark < marks.now.marks) × (pass.view.held ≡ []) }
            ensures { KeepsShare pass result }
        { by_one(marks, pass, task, mark, done) },
        move || -> Pass
            requires { IsPassOf marks.now other × (next < marks.now.marks) × (other.view.held ≡ []) }
            ensures { KeepsShare other result }
        { by_one(marks, other, task, next, done) },
    );
    marks.join(&mut pass, other);
    pass
}

/// Four threads' work.
pub fn by_four<R: Threads + Sync>(
    rt: &R,
    marks: &Marks,
    mut pass: Pass,
    task: Task,
    done: &AtomicU64,
) -> Pass
    requires own { IsPassOf marks.now pass }
    requires mark { 4 ≤ marks.now.marks }
    requires free { pass.view.held ≡ [] }
    requires turns { 4 ≤ pass.view.turns }
    ensures { KeepsShare pass result }
{
    let half = pass.turns() / 2;
    let rest = marks.split(&mut pass, half);
    let (mut pass, rest) = join(
        rt,
        move || -> Pass
            requires { IsSync R.row × IsPassOf marks.now pass × (4 ≤ marks.now.marks) × (pass.view.held ≡ []) × (2 ≤ pass.view.turns) }
            ensures { KeepsShare pass result }
        { by_two(rt, marks, pass, task, 0, done) },
        move || -> Pass
            requires { IsSync R.row × IsPassOf marks.now rest × (4 ≤ marks.now.marks) × (rest.view.held ≡ []) × (2 ≤ rest.view.turns) }
            ensures { KeepsShare rest result }
        { by_two(rt, marks, rest, task, 2, done) },
    );
    marks.join(&mut pass, rest);
    pass
}
