// SPDX-License-Identifier: MIT
use crate::handle::Handle;

/// A handle of a shelf, and the seed that the shelf's names are hashed under.
#[repr(C)]
#[derive(Drop)]
pub struct ShelfHandle {
    pub held: Handle,
    pub seed: [u8; 16],
}
