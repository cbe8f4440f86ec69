// SPDX-License-Identifier: MIT
ghost use Rattle.std.specs.Prelude.{◌≤◌, take};
ghost use Rattle.rrc_shelf.specs.Shelves.{IsHashedName};
ghost use Rattle.std.proofs.Props.{props};

/// A name that was folded and hashed, for all that is asked of it, or none where its size is 0. C
/// owns it, and writes nothing into it but zeros, before it is made; it may be copied.
#[repr(C)]
#[derive(Clone, Copy)]
pub struct FoldedName {
    /// Its hash under the seed.
    pub hash: u64,
    /// The part that it lies in, of those that it was made for, counted from 0.
    pub part: u64,
    pub seed: [u8; 16],
    /// How many octets its wire form has.
    pub size: u8,
    /// Its wire form, folded, and behind it what does not count.
    pub octets: [u8; 255],
    pub ghost made: { 1 ≤ size → IsHashedName (take size octets) seed hash } by { Prim.hlevel props },
}
