// SPDX-License-Identifier: MIT
ghost use Rattle.std.specs.Prelude.{◌≡◌, ℕ, ◌≤◌, ◌<◌, List, [], drop, length, slice_range, vec_len, take, Err, IfOk, IfErr, OnOk, OnErr, IsTrue, IsFalse, ◌↔◌};
ghost use Rattle.std.specs.Io.KnownBytes.{Keeps, Consumes, IsAtEnd, prepend_known};

use rrc_text::ReplayFault;
use std::alloc::{AllocError, Global};
use std::io;
use std::io::Read;
use std::marker::Model;

/// How many octets a read asks for.
const CHUNK: usize = 65_536;

/// The octets that a reader gave and nobody took yet. Contracts see the list of them.
#[derive(Drop)]
pub(crate) struct Ahead {
    chunk: Vec<u8>,
    start: usize,
    end: usize,
}

impl Model for Ahead {
    ghost Value = { List ℕ };

    ghost view = { λ a. slice_range a.chunk.items a.start a.end };

    ghost invariant = { λ a. (a.start ≤ a.end) × (a.end ≤ vec_len a.chunk) × (0 < vec_len a.chunk) };
}

impl Ahead {
    /// No octets, and room for those of a read.
    pub(crate) fn new(alloc: Global) -> Result<Ahead, AllocError>
        ensures { IfOk result (λ ahead. ahead ≡ []) }
    {
        let mut chunk = Vec::new(alloc);
        chunk.resize(CHUNK, 0)?;
        Ok(Ahead {
            chunk,
            start: 0,
            end: 0,
        })
    }

    pub(crate) fn as_slice(&self) -> &[u8]
        ensures { result.now ≡ self.now }
    {
        &self.chunk.as_slice()[self.start..self.end]
    }

    /// Takes octets from the front.
    pub(crate) fn take(&mut self, count: usize)
        requires { count ≤ length self.old }
        ensures { self.new ≡ drop count self.old }
    {
        self.start += count;
    }

    /// Reads once. A read that failed took nothing, and is not tried again.
    fn read<R: Read>(&mut self, reader: &mut R) -> Result<(), ReplayFault>
        requires { self.old ≡ [] }
        ensures bytes { OnOk result (Consumes (R.remaining reader.old) (R.remaining reader.new) self.new) }
        ensures end { OnOk result (self.new ≡ [] → IsAtEnd (R.remaining reader.new)) }
        ensures err { OnErr result (result ≡ Err ReplayFault.Read) }
    {
        self.start = 0;
        self.end = 0;
        match read_over(reader, &mut self.chunk) {
            Ok(count) => {
                self.end = count;
                Ok(())
            }
            Err(_) => Err(ReplayFault::Read),
        }
    }

    /// Whether an octet is left. Reads once where none is ahead.
    pub(crate) fn has_more<R: Read>(&mut self, reader: &mut R) -> Result<bool, ReplayFault>
        ensures kept { OnOk result (Keeps (prepend_known self.old (R.remaining reader.old)) (prepend_known self.new (R.remaining reader.new))) }
        ensures more { IfOk result (λ more. IsTrue more → 0 < length self.new) }
        ensures end { IfOk result (λ more. IsFalse more → (self.new ≡ []) × IsAtEnd (R.remaining reader.new)) }
        ensures err { OnErr result (result ≡ Err ReplayFault.Read) }
    {
        if self.as_slice().is_empty() {
            self.read(reader)?;
        }
        Ok(!self.as_slice().is_empty())
    }
}

/// One read over octets that are not needed any more.
fn read_over<R: Read>(reader: &mut R, octets: &mut Vec<u8>) -> io::Result<usize>
    ensures len { vec_len octets.new ≡ vec_len octets.old }
    ensures bound { IfOk result (λ count. count ≤ vec_len octets.new) }
    ensures bytes { IfOk result (λ count. Consumes (R.remaining reader.old) (R.remaining reader.new) (take count octets.new.items)) }
    ensures end { IfOk result (λ count. count ≡ 0 → 0 < vec_len octets.old → IsAtEnd (R.remaining reader.new)) }
{
    reader.read(octets.as_mut_slice())
}
