// SPDX-License-Identifier: MIT
ghost use Rattle.std.specs.Prelude.{◌≡◌, ◌+◌, ◌≤◌, false, [], length, OnOk, OnErr, IfErr};
ghost use Rattle.rrc_text.specs.Output.{Puts, Ends, EndsFront};

use crate::fault::ReplayFault;
use crate::write::buffer::Buffer;
use crate::write::writer::write_out;
use std::io::Write;

/// Where a text goes: to a writer, through a buffer. Once a write has failed nothing more goes out.
#[derive(Drop)]
pub struct Output<'a, W> {
    pub writer: &'a mut W,
    pub buffer: &'a mut Buffer,
    pub failed: bool,
}

impl<W: Write> Output<'_, W> {
    /// Writes what waits in the buffer.
    fn spill(&mut self)
        ensures puts { Puts W.contents self.old self.new [] }
        ensures empty { self.new.failed ≡ false → self.new.buffer.now ≡ [] }
    {
        if self.failed {
            return;
        }
        match write_out(self.writer, self.buffer.as_slice()) {
            Ok(()) => self.buffer.clear(),
            Err(_) => self.failed = true,
        }
    }

    /// Makes room for so many octets.
    fn make_room(&mut self, octets: usize)
        requires { octets ≤ 4096 }
        ensures puts { Puts W.contents self.old self.new [] }
        ensures room { self.new.failed ≡ false → length self.new.buffer.now + octets ≤ 4096 }
    {
        if octets > self.buffer.room() {
            self.spill();
        }
    }

    /// Puts octets behind those before them.
    pub(crate) fn put(&mut self, octets: &[u8])
        requires { length octets.now ≤ 4096 }
        ensures { Puts W.contents self.old self.new octets.now }
    {
        self.make_room(octets.len());
        if !self.failed {
            self.buffer.append(octets);
        }
    }

    /// Writes what still waits, and flushes. `Write` where a write or the flush has failed.
    pub fn finish(&mut self) -> Result<(), ReplayFault>
        ensures same { self.new.writer.ghost_name ≡ self.old.writer.ghost_name }
        ensures ok { OnOk result (Ends W.contents self.old self.new) }
        ensures err { IfErr result (λ fault. fault ≡ ReplayFault.Write) }
        ensures front { OnErr result (EndsFront W.contents self.old self.new) }
    {
        self.spill();
        if self.failed {
            return Err(ReplayFault::Write);
        }
        match self.writer.flush() {
            Ok(()) => Ok(()),
            Err(_) => Err(ReplayFault::Write),
        }
    }
}
