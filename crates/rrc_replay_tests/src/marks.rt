// SPDX-License-Identifier: MIT
use rrc_marks::{Began, Marks};

mod threads;

#[test]
fn takes_the_largest_numbers(rt: HostRuntime) {
    let made = Marks::new(rt.alloc(), 4096, 1_000_000, 1 << 40);
    let (marks, pass) = made.expect(&rt, "no marks");
    assert!(rt; marks.close(pass) == 0);
}

/// A mark is taken until it is finished, and two passes draw each number once.
#[test]
fn two_passes_begin_and_draw(rt: HostRuntime) {
    let made = Marks::new(rt.alloc(), 2, 3, 10);
    let (marks, mut p) = made.expect(&rt, "no marks");
    assert!(rt; marks.begin(&mut p, 0) == Began::Mine);
    assert!(rt; marks.begin(&mut p, 0) == Began::Taken);
    let mut q = marks.split(&mut p, 4);
    assert!(rt; q.turns() == 4 && p.turns() == 6);
    assert!(rt; marks.begin(&mut q, 0) == Began::Taken);
    marks.finish(&mut p, 0);
    assert!(rt; marks.begin(&mut q, 0) == Began::Mine);
    marks.finish(&mut q, 0);
    assert!(rt; marks.draw(&mut q) == Some(0));
    assert!(rt; marks.draw(&mut p) == Some(1));
    marks.join(&mut p, q);
    assert!(rt; p.draws() == 2 && p.turns() == 8);
    assert!(rt; marks.draw(&mut p) == Some(2));
    assert!(rt; marks.draw(&mut p).is_none());
    assert!(rt; marks.close(p) == 4);
}
