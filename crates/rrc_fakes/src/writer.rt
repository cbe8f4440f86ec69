// SPDX-License-Identifier: MIT
ghost use Rattle.std.specs.Prelude.{◌≡◌, true, false, Some, length, min, is_err, IfOk, IfErr};
ghost use Rattle.std.specs.Io.{WritesAtMost};
ghost use Rattle.std.specs.Io.KnownBytes.{Keeps, WriteAppends};
ghost use Rattle.std.specs.IoError.{error_kind};
ghost use Rattle.rrc_fakes.specs.Countdown.{is_due, behind};
ghost use Rattle.rrc_fakes.specs.Stumbles.{Stumbles};

use crate::countdown::count_down;
use std::io;
use std::io::{ErrorKind, Write};

/// What a write meets that goes wrong. A flush fails in both cases.
#[derive(Clone, Copy, Debug)]
pub enum Stumble {
    Fails,
    TakesNothing,
}

/// Takes octets one by one. One call, a write or a flush, goes wrong, and those behind it go on.
#[derive(Drop)]
pub struct Stumbling {
    pub taken: Vec<u8>,
    /// How many calls come before the one that goes wrong, while that is to come.
    pub calls: Option<usize>,
    pub stumble: Stumble,
}

impl Write for Stumbling {
    ghost contents = { λ writer. Some writer.taken.items };

    fn write(&mut self, buf: &[u8]) -> io::Result<usize>
        ensures bound { WritesAtMost result buf.now }
        ensures bytes { WriteAppends (Some self.old.taken.items) (Some self.new.taken.items) result buf.now }
        ensures stumbles { is_due self.old.calls ≡ true → Stumbles self.old.stumble result }
        ensures takes { IfOk result (λ count. is_due self.old.calls ≡ false → count ≡ min 1 (length buf.now)) }
        ensures refused { IfErr result (λ error. is_due self.old.calls ≡ false → error_kind error ≡ ErrorKind.OutOfMemory) }
        ensures counts { self.new.calls ≡ behind self.old.calls }
        ensures same { self.new.stumble ≡ self.old.stumble }
    {
        if count_down(&mut self.calls) {
            return match self.stumble {
                Stumble::Fails => Err(io::Error::from(ErrorKind::Interrupted)),
                Stumble::TakesNothing => Ok(0),
            };
        }
        let count = buf.len().min(1);
        self.taken.write(&buf[..count])
    }

    fn flush(&mut self) -> io::Result<()>
        ensures bytes { Keeps (Some self.old.taken.items) (Some self.new.taken.items) }
        ensures fails { is_err result ≡ is_due self.old.calls }
        ensures counts { self.new.calls ≡ behind self.old.calls }
        ensures same { self.new.stumble ≡ self.old.stumble }
    {
        if count_down(&mut self.calls) {
            Err(io::Error::from(ErrorKind::Interrupted))
        } else {
            Ok(())
        }
    }
}
