// SPDX-License-Identifier: MIT
ghost use Rattle.std.specs.Prelude.{◌≡◌, ℕ, List, [], ◌++◌, ◌∷◌, length, IfOk, OnOk, OnErr, IsTrue, ◌↔◌};
ghost use Rattle.std.proofs.Common.{rules};
ghost use Rattle.std.specs.Cmp.Lexicographic.{pointwise, lists_equiv};
ghost use Rattle.std.specs.Cmp.{nat_eq_equiv, partial_equiv_from_equiv};
ghost use Rattle.std.specs.Prelude.{nat_eq};
ghost use Rattle.rrc_name.specs.Wire.{folded};

use smallvec::SmallVec;
use std::alloc::{AllocError, Global};
use std::hash::{Hash, Hasher};
use std::marker::Model;

/// Octets, as a message or a trace has them. Contracts see the list of them. Up to 32 of them, as
/// most names and data are, stand in the value itself and ask for no memory; `from_vec` alone keeps
/// the block of a vector that has room for more.
#[derive(Debug, Drop)]
pub struct Octets {
    octets: SmallVec<u8, 32>,
}

impl Model for Octets {
    ghost Value = { List ℕ };

    ghost view = { λ o. o.octets.items };
}

impl Octets {
    /// No octets. It takes no memory.
    pub fn new(alloc: Global) -> Octets
        ensures { result ≡ [] }
    {
        Octets {
            octets: SmallVec::new(alloc),
        }
    }

    /// No octets, with room for so many.
    pub fn with_capacity(alloc: Global, octets: usize) -> Result<Octets, AllocError>
        ensures { IfOk result (λ made. made ≡ []) }
    {
        Ok(Octets {
            octets: SmallVec::with_capacity(alloc, octets)?,
        })
    }

    /// The octets of a vector.
    pub fn from_vec(octets: Vec<u8>) -> Octets
        ensures { result ≡ octets.items }
    {
        Octets {
            octets: SmallVec::from_vec(octets),
        }
    }

    /// A copy of a slice.
    pub fn from_slice(alloc: Global, octets: &[u8]) -> Result<Octets, AllocError>
        ensures { IfOk result (λ copy. copy ≡ octets.now) }
    {
        Ok(Octets {
            octets: SmallVec::from_slice(alloc, octets)?,
        })
    }

    /// A copy with the letters A to Z as a to z.
    pub fn lowered(&self) -> Result<Octets, AllocError>
        ensures { IfOk result (λ copy. copy ≡ folded self.now) }
    {
        let mut octets = self.octets.clone()?;
        octets.as_mut_slice().make_ascii_lowercase();
        Ok(Octets { octets })
    }

    /// Puts an octet behind the others.
    pub fn push(&mut self, octet: u8) -> Result<(), AllocError>
        ensures ok { OnOk result (self.new ≡ self.old ++ octet ∷ []) }
        ensures err { OnErr result (self.new ≡ self.old) }
    {
        match self.octets.push(octet) {
            Ok(()) => Ok(()),
            Err(_) => Err(AllocError),
        }
    }

    /// Puts a copy of a slice behind the others.
    pub fn extend_from_slice(&mut self, octets: &[u8]) -> Result<(), AllocError>
        ensures ok { OnOk result (self.new ≡ self.old ++ octets.now) }
        ensures err { OnErr result (self.new ≡ self.old) }
    {
        self.octets.extend_from_slice(octets)
    }

    pub fn as_slice(&self) -> &[u8]
        ensures { result.now ≡ self.now }
    {
        self.octets.as_slice()
    }

    pub fn is_empty(&self) -> bool
        ensures { IsTrue result ↔ (self.now ≡ []) }
    {
        self.octets.is_empty()
    }

    /// The allocator that holds the octets.
    pub fn alloc(&self) -> Global {
        *self.octets.allocator()
    }

    /// A vector of the octets.
    pub fn into_vec(self) -> Result<Vec<u8>, AllocError>
        ensures { IfOk result (λ octets. octets.items ≡ self) }
    {
        match self.octets.into_vec() {
            Ok(octets) => Ok(octets),
            Err(_) => Err(AllocError),
        }
    }

    pub fn len(&self) -> usize
        ensures { result ≡ length self.now }
    {
        self.octets.len()
    }
}

impl Clone for Octets {
    ghost is_clone = { λ a b. b ≡ a };

    fn clone(&self) -> Result<Octets, AllocError> {
        Ok(Octets {
            octets: self.octets.clone()?,
        })
    }
}

impl PartialEq for Octets {
    ghost eq = { pointwise nat_eq };

    ghost laws = { partial_equiv_from_equiv (lists_equiv nat_eq_equiv) };

    fn eq(&self, other: &Octets) -> bool {
        self.octets.as_slice() == other.octets.as_slice()
    }
}

impl Eq for Octets {
    ghost laws = { lists_equiv nat_eq_equiv };
}

impl Hash for Octets {
    ghost use Rattle.std.specs.Cmp.Lexicographic.{bytes_decides};
    ghost use Rattle.std.specs.Hash as fed;

    ghost hash_input = { λ o. o ∷ [] };

    ghost respects_eq = { (fed.same_Alike (λ o. o ∷ []) bytes_decides).fed };

    // A vector is fed octet by octet, and this at once.
    fn hash<H: Hasher>(&self, state: &mut H) {
        state.write(self.octets.as_slice());
    }
}
