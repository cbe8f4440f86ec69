// SPDX-License-Identifier: MIT
use rrc_replay::Gate;
use std::io;
use std::sync::atomic::{AtomicU64, Ordering};
use std::time::{Clock, Instant};

/// The clock is read once in so many lines, and not before the first ones.
const LINES: usize = 256;

/// Tells on standard error at which line of its trace a replay is, once a second at most.
#[derive(Drop)]
pub(crate) struct Progress<'a, R> {
    rt: &'a R,
    begun: Instant,
    /// How many seconds the replay had taken when a line was told last.
    told: AtomicU64,
}

impl<'a, R: Clock> Progress<'a, R> {
    /// What tells the progress of a replay that begins now.
    pub(crate) fn new(rt: &'a R) -> io::Result<Progress<'a, R>> {
        Ok(Progress {
            rt,
            begun: Instant::now(rt)?,
            told: AtomicU64::new(0),
        })
    }

    /// Whether a second has passed since a line was told last. Of several threads one is answered
    /// so.
    fn is_due(&self) -> bool {
        let Ok(passed) = self.begun.elapsed(self.rt) else {
            return false;
        };
        let second = passed.as_secs();
        let told = self.told.load(Ordering::Relaxed);
        second > told
            && self
                .told
                .compare_exchange(told, second, Ordering::Relaxed, Ordering::Relaxed)
                .is_ok()
    }
}

impl<'a, R: Eprint + Clock> Gate for Progress<'a, R> {
    fn before(&self, line: usize) {
        if line > 0 && line % LINES == 0 && self.is_due() {
            let _ = eprintln!(self.rt; "rrcache: at line {line}");
        }
    }

    fn inside(&self, _line: usize) {}

    fn after(&self, _line: usize) {}
}
