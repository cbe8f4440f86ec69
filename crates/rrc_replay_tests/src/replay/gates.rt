// SPDX-License-Identifier: MIT
use rrc_replay::Gate;
use std::sync::atomic::AtomicU64;
use std::sync::atomic::Ordering::SeqCst;
use std::thread;

/// How often a gate looks before it lets a line through all the same.
const TURNS: u32 = 10_000_000;

/// Waits until a count is reached, and counts a wait that ran out.
fn wait(count: &AtomicU64, wanted: u64, ran_out: &AtomicU64) {
    for _ in 0..TURNS {
        if count.load(SeqCst) >= wanted {
            return;
        }
        thread::yield_now();
    }
    ran_out.fetch_add(1, SeqCst);
}

/// Holds line 1 until line 0 is inside its fetch, and line 0 there until line 1 is answered.
#[derive(Drop)]
pub(super) struct Pair {
    inside: AtomicU64,
    answered: AtomicU64,
    ran_out: AtomicU64,
}

impl Pair {
    pub(super) fn new() -> Pair {
        Pair {
            inside: AtomicU64::new(0),
            answered: AtomicU64::new(0),
            ran_out: AtomicU64::new(0),
        }
    }

    pub(super) fn ran_out(&self) -> bool {
        self.ran_out.load(SeqCst) > 0
    }
}

impl Gate for Pair {
    fn before(&self, line: usize) {
        if line == 1 {
            wait(&self.inside, 1, &self.ran_out);
        }
    }

    fn inside(&self, line: usize) {
        if line == 0 {
            self.inside.fetch_add(1, SeqCst);
            wait(&self.answered, 1, &self.ran_out);
        }
    }

    fn after(&self, line: usize) {
        if line == 1 {
            self.answered.fetch_add(1, SeqCst);
        }
    }
}

/// Holds each line until so many were drawn.
#[derive(Drop)]
pub(super) struct Crowd {
    wanted: u64,
    drawn: AtomicU64,
    ran_out: AtomicU64,
}

impl Crowd {
    pub(super) fn new(wanted: u64) -> Crowd {
        Crowd {
            wanted,
            drawn: AtomicU64::new(0),
            ran_out: AtomicU64::new(0),
        }
    }

    pub(super) fn ran_out(&self) -> bool {
        self.ran_out.load(SeqCst) > 0
    }
}

impl Gate for Crowd {
    fn before(&self, _line: usize) {
        self.drawn.fetch_add(1, SeqCst);
        wait(&self.drawn, self.wanted, &self.ran_out);
    }

    fn inside(&self, _line: usize) {}

    fn after(&self, _line: usize) {}
}
