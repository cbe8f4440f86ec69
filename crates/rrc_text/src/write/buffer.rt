// SPDX-License-Identifier: MIT
ghost use Rattle.std.specs.Prelude.{◌≡◌, ◌+◌, ◌≤◌, [], ◌++◌, length, IfOk};

use std::alloc::{AllocError, Global};
use std::marker::Model;

/// So many octets are written at once, at most.
const ROOM: usize = 4_096;

/// Octets that wait to be written, at most 4,096. Their memory is reserved at first, and they never
/// take more.
#[derive(Drop)]
pub struct Buffer {
    octets: Vec<u8>,
}

impl Model for Buffer {
    ghost use Rattle.std.specs.Prelude.{◌≤◌, ℕ, List, length, vec_capacity};

    ghost Value = { List ℕ };

    ghost view = { λ b. b.octets.items };

    ghost invariant = { λ b. (4096 ≤ vec_capacity b.octets) × (length b.octets.items ≤ 4096) };
}

impl Buffer {
    /// An empty buffer.
    pub fn reserved(alloc: Global) -> Result<Buffer, AllocError>
        ensures { IfOk result (λ buffer. buffer ≡ []) }
    {
        Ok(Buffer {
            octets: Vec::with_capacity(alloc, ROOM)?,
        })
    }

    /// How many octets still fit.
    pub(crate) fn room(&self) -> usize
        ensures { result + length self.now ≡ 4096 }
    {
        ROOM - self.octets.len()
    }

    pub(crate) fn as_slice(&self) -> &[u8]
        ensures { result.now ≡ self.now }
    {
        self.octets.as_slice()
    }

    pub(crate) fn append(&mut self, octets: &[u8])
        requires { length self.old + length octets.now ≤ 4096 }
        ensures { self.new ≡ self.old ++ octets.now }
    {
        let Ok(()) = self.octets.extend_from_slice(octets) else {
            unreachable!()
        };
    }

    pub(crate) fn clear(&mut self)
        ensures { self.new ≡ [] }
    {
        self.octets.clear();
    }
}
