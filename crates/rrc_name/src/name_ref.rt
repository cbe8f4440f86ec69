// SPDX-License-Identifier: MIT
ghost use Rattle.rrc_name.specs.Wire.{IsWireForm};
ghost use Rattle.std.proofs.Props.{props};

use crate::fault::WireNameFault;
use crate::name::Name;
use crate::octets::Octets;
use crate::shared::Shared;
use crate::wire;
use std::alloc::{AllocError, Global};
use std::hash::{Hash, Hasher};

/// A name of the DNS that belongs to somebody else: its wire form (RFC 1035 section 3.1), lent.
/// Contracts see the octets by `name_in`.
#[derive(Clone, Copy, Debug)]
pub struct NameRef<'a> {
    octets: &'a [u8],
    pub ghost is_name: { IsWireForm octets.now } by { Prim.hlevel props },
}

impl<'a> NameRef<'a> {
    ghost use Rattle.std.specs.Prelude.{◌≡◌, IfOk, IfErr};
    ghost use Rattle.rrc_name.specs.NameRef.{name_in};
    ghost use Rattle.rrc_name.specs.WireFault.{IsFirstFaultOfWire};

    /// The name that has this wire form (RFC 1035 section 3.1), lent, in the spelling received. The
    /// octets are read from the left and their first fault is answered, which is never `Memory`.
    pub fn from_wire(octets: &'a [u8]) -> Result<NameRef<'a>, WireNameFault>
        ensures ok { IfOk result (λ name. name_in name ≡ octets.now) }
        ensures wire_form { IfOk result (λ _. IsWireForm octets.now) }
        ensures err { IfErr result (λ fault. IsFirstFaultOfWire octets.now fault) }
    {
        wire::test_wire_form(octets)?;
        Ok(NameRef::lent(octets))
    }

    /// The name that has this wire form, lent. `from_wire` is what tests octets.
    pub fn lent(octets: &'a [u8]) -> NameRef<'a>
        requires { IsWireForm octets.now }
        ensures { name_in result ≡ octets.now }
    {
        NameRef { octets }
    }

    /// The octets of the wire form, at most 255.
    pub fn as_slice(self) -> &'a [u8]
        ensures value { result.now ≡ name_in self.entry }
        ensures name { IsWireForm (name_in self.entry) }
    {
        self.octets
    }

    /// A name of its own.
    pub fn to_owned(self, alloc: Global) -> Result<Name, AllocError>
        ensures { IfOk result (λ name. name ≡ name_in self.entry) }
    {
        Ok(Name {
            wire: Shared::new(alloc, Octets::from_slice(alloc, self.as_slice())?)?,
        })
    }
}

impl PartialEq for NameRef<'_> {
    ghost use Rattle.std.specs.Prelude.{nat_eq};
    ghost use Rattle.std.specs.Cmp.Lexicographic.{pointwise, lists_equiv};
    ghost use Rattle.std.specs.Cmp.{nat_eq_equiv, on_equiv, partial_equiv_from_equiv};
    ghost use Rattle.rrc_name.specs.NameRef.{name_in};

    ghost eq = { λ a b. pointwise nat_eq (name_in a) (name_in b) };

    ghost laws = { partial_equiv_from_equiv (on_equiv name_in (lists_equiv nat_eq_equiv)) };

    fn eq(&self, other: &Self) -> bool {
        self.as_slice() == other.as_slice()
    }
}

impl Eq for NameRef<'_> {
    ghost use Rattle.std.specs.Cmp.Lexicographic.{lists_equiv};
    ghost use Rattle.std.specs.Cmp.{nat_eq_equiv, on_equiv};
    ghost use Rattle.rrc_name.specs.NameRef.{name_in};

    ghost laws = { on_equiv name_in (lists_equiv nat_eq_equiv) };
}

impl Hash for NameRef<'_> {
    ghost use Rattle.std.specs.Prelude.{[], ◌∷◌};
    ghost use Rattle.std.specs.Cmp.Lexicographic.{bytes_decides};
    ghost use Rattle.std.specs.Hash as fed;
    ghost use Rattle.rrc_name.specs.NameRef.{name_in};

    ghost hash_input = { λ name. name_in name ∷ [] };

    ghost respects_eq = { λ a b. (fed.same_Alike (λ octets. octets ∷ []) bytes_decides).fed (name_in a) (name_in b) };

    // It is fed at once, as the octets of a `Name` are.
    fn hash<H: Hasher>(&self, state: &mut H) {
        state.write(self.as_slice());
    }
}
