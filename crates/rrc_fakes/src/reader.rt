// SPDX-License-Identifier: MIT
ghost use Rattle.std.specs.Prelude.{◌≡◌, Some, length, min, max, is_err, IfOk};
ghost use Rattle.std.specs.Io.{ReadsAtMost};
ghost use Rattle.std.specs.Io.KnownBytes.{ReadConsumes};
ghost use Rattle.rrc_fakes.specs.Countdown.{is_due, behind};

use crate::countdown::count_down;
use std::io;
use std::io::{ErrorKind, Read};

/// Gives octets a few at a time. One read fails, and those behind it go on.
#[derive(Drop)]
pub struct FailsOnce<'a> {
    pub octets: &'a [u8],
    /// How many octets a read gives at most, where that is not 0; else 1.
    pub most: usize,
    /// How many reads come before the one that fails, while that is to come.
    pub reads: Option<usize>,
}

impl Read for FailsOnce<'_> {
    ghost remaining = { λ reader. Some reader.octets.now };

    fn read(&mut self, buf: &mut [u8]) -> io::Result<usize>
        ensures bound { ReadsAtMost result buf.new }
        ensures bytes { ReadConsumes (Some self.old.octets.now) (Some self.new.octets.now) result buf.new }
        ensures fails { is_err result ≡ is_due self.old.reads }
        ensures few { IfOk result (λ count. count ≡ min (min (length self.old.octets.now) (length buf.old)) (max 1 self.old.most)) }
        ensures counts { self.new.reads ≡ behind self.old.reads }
        ensures same { self.new.most ≡ self.old.most }
    {
        if count_down(&mut self.reads) {
            return Err(io::Error::from(ErrorKind::Interrupted));
        }
        let room = buf.len().min(self.most.max(1));
        self.octets.read(&mut buf[..room])
    }
}
