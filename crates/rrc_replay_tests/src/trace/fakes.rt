// SPDX-License-Identifier: MIT
use std::io;
use std::io::Write;

/// Takes some octets of each write, and counts them.
#[derive(Drop)]
pub(super) struct Sparing {
    /// How many octets a write takes at most.
    pub(super) most: usize,
    pub(super) taken: usize,
    /// How many octets a write was asked to take at most.
    pub(super) asked: usize,
}

impl Write for Sparing {
    fn write(&mut self, buf: &[u8]) -> io::Result<usize> {
        let count = self.most.min(buf.len());
        self.taken = self.taken.saturating_add(count);
        self.asked = self.asked.max(buf.len());
        Ok(count)
    }

    fn flush(&mut self) -> io::Result<()> {
        Ok(())
    }
}
