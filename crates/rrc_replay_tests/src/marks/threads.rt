// SPDX-License-Identifier: MIT
ghost use Rattle.std.specs.Prelude.{◌≡◌, ◌<◌, ◌≤◌, [], length, vec_len};
ghost use Rattle.std.specs.Thread.{IsSync};
ghost use Rattle.rrc_marks.specs.Seen.{IsPassOf, KeepsShare};

use rrc_marks::{Began, Marks, Pass};
use std::alloc::Global;
use std::process::Abort;
use std::sync::atomic::Ordering::SeqCst;
use std::sync::atomic::{AtomicBool, AtomicU64};
use std::thread::Threads;
use std::{hint, thread};

/// Draws until no number is answered or no turn is left, and counts each answer.
fn draw_on(marks: &Marks, mut pass: Pass, answers: &[AtomicU64]) -> Pass
    requires own { IsPassOf marks.now pass }
    requires places { marks.now.lines ≤ length answers.now }
    ensures { KeepsShare pass result }
{
    while pass.turns() > 0 {
        let Some(number) = marks.draw(&mut pass) else {
            break;
        };
        answers[number as usize].fetch_add(1, SeqCst);
    }
    pass
}

fn two_draw<R: Threads + Sync>(
    rt: &R,
    marks: &Marks,
    p: Pass,
    q: Pass,
    answers: &[AtomicU64],
) -> (Pass, Pass)
    requires first { IsPassOf marks.now p }
    requires second { IsPassOf marks.now q }
    requires places { marks.now.lines ≤ length answers.now }
    ensures first { KeepsShare p result.0 }
    ensures second { KeepsShare q result.1 }
{
    thread::join(
        rt,
        move || -> Pass
            requires { IsPassOf marks.now p × (marks.now.lines ≤ length answers.now) }
            ensures { KeepsShare p result }
        { draw_on(marks, p, answers) },
        move || -> Pass
            requires { IsPassOf marks.now q × (marks.now.lines ≤ length answers.now) }
            ensures { KeepsShare q result }
        { draw_on(marks, q, answers) },
    )
}

/// Four threads draw, each with a pass of its own, and the first pass takes in the others.
fn four_draw<R: Threads + Sync>(rt: &R, marks: &Marks, mut p: Pass, answers: &[AtomicU64]) -> Pass
    requires own { IsPassOf marks.now p }
    requires turns { (p.view.turns ≡ 104) × (p.view.drawn ≡ []) }
    requires places { marks.now.lines ≤ length answers.now }
    ensures { KeepsShare p result }
{
    let a = marks.split(&mut p, 26);
    let b = marks.split(&mut p, 26);
    let c = marks.split(&mut p, 26);
    let ((mut p, a), (b, c)) = thread::join(
        rt,
        move || -> (Pass, Pass)
            requires { IsSync R.row × IsPassOf marks.now p × IsPassOf marks.now a × (marks.now.lines ≤ length answers.now) }
            ensures { KeepsShare p result.0 × KeepsShare a result.1 }
        { two_draw(rt, marks, p, a, answers) },
        move || -> (Pass, Pass)
            requires { IsSync R.row × IsPassOf marks.now b × IsPassOf marks.now c × (marks.now.lines ≤ length answers.now) }
            ensures { KeepsShare b result.0 × KeepsShare c result.1 }
        { two_draw(rt, marks, b, c, answers) },
    );
    marks.join(&mut p, a);
    marks.join(&mut p, b);
    marks.join(&mut p, c);
    p
}

/// As many counts, all 0.
fn counts(rt: &impl Abort, alloc: Global, many: usize) -> Vec<AtomicU64>
    ensures { vec_len result ≡ many }
{
    let mut counts = Vec::new(alloc);
    for _ in 0..many {
        counts.push(AtomicU64::new(0)).expect(rt, "a count");
    }
    counts
}

fn assert_each_is_one(rt: &impl Abort, answers: &[AtomicU64]) {
    for (number, answer) in answers.iter().enumerate() {
        assert!(rt; answer.load(SeqCst) == 1, "answers of {number}");
    }
}

/// Uses the turns that are left, once every line is drawn.
fn draw_none(rt: &impl Abort, marks: &Marks, mut pass: Pass) -> Pass
    requires { IsPassOf marks.now pass }
    ensures { KeepsShare pass result }
{
    while pass.turns() > 0 {
        assert!(rt; marks.draw(&mut pass).is_none());
    }
    pass
}

#[test]
fn four_threads_draw_each_line_once(rt: HostRuntime) {
    let answers = counts(&rt, rt.alloc(), 100);
    let made = Marks::new(rt.alloc(), 1, 100, 104);
    let (marks, p) = made.expect(&rt, "no marks");
    let p = four_draw(&rt, &marks, p, answers.as_slice());
    assert_each_is_one(&rt, answers.as_slice());
    let p = draw_none(&rt, &marks, p);
    assert!(rt; marks.close(p) == 104);
}

/// What a thread met that tried to begin the mark.
#[derive(Clone, Copy, PartialEq, Eq)]
enum Met {
    /// It held the mark until the other thread was answered.
    Mine,
    /// It held the mark, and waited in vain for the other.
    RanOut,
    Taken,
}

/// Whether the flag was raised within so many turns, which are some tenths of a second of a
/// processor. No turn yields: how long that takes depends on what else runs there.
fn wait_for(flag: &AtomicBool) -> bool {
    for _ in 0..10_000_000 {
        if flag.load(SeqCst) {
            return true;
        }
        hint::spin_loop();
    }
    false
}

/// Begins the one mark. Who gets it holds it until the other was answered, for a bounded time.
fn begin_beside(marks: &Marks, mut pass: Pass, is_taken: &AtomicBool) -> (Pass, Met)
    requires own { IsPassOf marks.now pass }
    requires mark { 0 < marks.now.marks }
    requires free { pass.view.held ≡ [] }
    ensures { KeepsShare pass result.0 }
{
    match marks.begin(&mut pass, 0) {
        Began::Mine => {
            let was_taken = wait_for(is_taken);
            marks.finish(&mut pass, 0);
            (pass, if was_taken { Met::Mine } else { Met::RanOut })
        }
        Began::Taken => {
            is_taken.store(true, SeqCst);
            (pass, Met::Taken)
        }
    }
}

/// Two threads begin the one mark, each with a pass of its own.
fn two_begin<R: Threads + Sync>(
    rt: &R,
    marks: &Marks,
    p: Pass,
    q: Pass,
) -> ((Pass, Met), (Pass, Met))
    requires first { IsPassOf marks.now p × (p.view.held ≡ []) }
    requires second { IsPassOf marks.now q × (q.view.held ≡ []) }
    requires mark { 0 < marks.now.marks }
    ensures first { KeepsShare p result.0.0 }
    ensures second { KeepsShare q result.1.0 }
{
    let flag = AtomicBool::new(false);
    let is_taken = &flag;
    thread::join(
        rt,
        move || -> (Pass, Met)
            requires { IsPassOf marks.now p × (p.view.held ≡ []) × (0 < marks.now.marks) }
            ensures { KeepsShare p result.0 }
        { begin_beside(marks, p, is_taken) },
        move || -> (Pass, Met)
            requires { IsPassOf marks.now q × (q.view.held ≡ []) × (0 < marks.now.marks) }
            ensures { KeepsShare q result.0 }
        { begin_beside(marks, q, is_taken) },
    )
}

#[test]
fn one_of_two_threads_gets_a_mark(rt: HostRuntime) {
    let made = Marks::new(rt.alloc(), 1, 0, 2);
    let (marks, mut p) = made.expect(&rt, "no marks");
    let q = marks.split(&mut p, 1);
    let ((mut p, first), (q, second)) = two_begin(&rt, &marks, p, q);
    // Where memory or a thread was refused, the one begins behind the other.
    assert!(rt;
        (first, second) == (Met::Mine, Met::Taken) || (first, second) == (Met::Taken, Met::Mine),
        "one ran out of time, or memory or a thread was refused"
    );
    marks.join(&mut p, q);
    assert!(rt; marks.close(p) == 0);
}
