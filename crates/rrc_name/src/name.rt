// SPDX-License-Identifier: MIT
ghost use Rattle.std.specs.Prelude.{◌≡◌, ◌⊎◌, ◌↔◌, [], ◌∷◌, length, string_bytes, IsTrue, IfOk, IfErr};
ghost use Rattle.rrc_name.specs.Wire.{folded, IsWireForm, IsSameName, same_name};
ghost use Rattle.rrc_name.specs.Key.{IsFolded};
ghost use Rattle.rrc_name.specs.Order.{canonical_order, IsAtOrBelow, is_at_or_below};
ghost use Rattle.rrc_name.specs.Text.{Spells, IsFirstFaultOf, text_of};
ghost use Rattle.rrc_name.specs.WireFault.{IsFirstFaultOfWire};

use crate::fault::{NameFault, WireNameFault};
use crate::name_ref::NameRef;
use crate::octets::Octets;
use crate::shared::Shared;
use crate::{order, printed, text, wire};
use std::alloc::{AllocError, Global};
use std::cmp::Ordering;
use std::marker::Model;

/// A name of the DNS, in the spelling received. Contracts see its wire form (RFC 1035 section 3.1):
/// each label of 1 to 63 octets behind its length, and a zero octet at the end, at most 255 octets
/// in all.
#[derive(Debug, Drop, PartialEq, Eq, Hash)]
pub struct Name {
    pub wire: Shared<Octets>,
}

impl Model for Name {
    ghost use Rattle.std.specs.Prelude.{List, ℕ};
    ghost use Rattle.rrc_name.specs.Wire.{IsWireForm};

    ghost Value = { List ℕ };

    ghost view = { λ n. n.wire };

    ghost invariant = { λ n. IsWireForm n.wire };

    ghost inverse = { λ octets. record { wire = octets } };
}

impl Name {
    /// The root, which has no labels.
    pub fn root(alloc: Global) -> Result<Name, AllocError>
        ensures { IfOk result (λ name. name ≡ 0 ∷ []) }
    {
        Ok(Name {
            wire: Shared::new(alloc, Octets::from_slice(alloc, &[0])?)?,
        })
    }

    /// The name that a text spells: labels with dots between them, where `\.` is a dot within a
    /// label, `\DDD` the octet of a decimal number, and the last dot may be left out; `.` alone is
    /// the root.
    ///
    /// The text is read from the left and its first fault is answered.
    pub fn from_text(alloc: Global, text: &str) -> Result<Name, NameFault>
        ensures ok { IfOk result (λ name. Spells text.now name) }
        ensures err { IfErr result (λ fault. (fault ≡ NameFault.Memory) ⊎ IsFirstFaultOf text.now fault) }
    {
        let text = text.as_bytes();
        if text == b".".as_slice() {
            return Ok(Name::root(alloc)?);
        }
        let wire = Octets::from_vec(text::wire_in(alloc, text)?);
        Ok(Name {
            wire: Shared::new(alloc, wire)?,
        })
    }

    /// The name that has this wire form (RFC 1035 section 3.1). The octets are read from the left
    /// and their first fault is answered.
    pub fn from_wire(alloc: Global, octets: &[u8]) -> Result<Name, WireNameFault>
        ensures ok { IfOk result (λ name. name ≡ octets.now) }
        ensures wire_form { IfOk result (λ _. IsWireForm octets.now) }
        ensures err { IfErr result (λ fault. (fault ≡ WireNameFault.Memory) ⊎ IsFirstFaultOfWire octets.now fault) }
    {
        wire::test_wire_form(octets)?;
        Ok(Name {
            wire: Shared::new(alloc, Octets::from_slice(alloc, octets)?)?,
        })
    }

    /// The text of the name, which ends with a dot: `\.` for a dot within a label, `\\` for a
    /// backslash, `\DDD` for an octet that is no graphic one, by its decimal number; `.` alone for
    /// the root. `from_text` reads the name again from it.
    pub fn to_text(&self) -> Result<String, AllocError>
        ensures text { IfOk result (λ text. string_bytes text ≡ text_of self.now) }
        ensures read_again { IfOk result (λ text. Spells (string_bytes text) self.now) }
    {
        printed::text_in(self.wire.alloc(), self.wire.as_slice())
    }

    /// That the name is a wire form, for proofs; it does nothing.
    pub fn is_a_wire_form(&self)
        ensures { IsWireForm self.now }
    {
        let _ = &self.wire;
    }

    /// The octets of the wire form, at most 255.
    pub fn len(&self) -> usize
        ensures octets { result ≡ length self.now }
        ensures name { IsWireForm self.now }
    {
        self.wire.len()
    }

    /// The octets of the wire form.
    pub fn as_slice(&self) -> &[u8]
        ensures value { result.now ≡ self.now }
        ensures name { IsWireForm self.now }
    {
        self.wire.as_slice()
    }

    /// The name with its letters A to Z as a to z (RFC 4343). Where it has none, that is a clone,
    /// which takes no memory.
    pub fn folded(&self) -> Result<Name, AllocError>
        ensures name { IfOk result (λ name. name ≡ folded self.now) }
        ensures low { IfOk result IsFolded }
    {
        if is_folded(self.wire.as_slice()) {
            return self.clone();
        }
        Ok(Name {
            wire: Shared::new(self.wire.alloc(), self.wire.lowered()?)?,
        })
    }

    /// Whether the names are the same but for the case of letters (RFC 4343). It takes no memory.
    pub fn same(&self, other: &Name) -> bool
        ensures value { result ≡ same_name self.now other.now }
        ensures meaning { IsTrue result ↔ IsSameName self.now other.now }
    {
        order::is_same(self.wire.as_slice(), other.wire.as_slice())
    }

    /// The canonical order of names (RFC 4034 section 6.1): by labels from the rightmost, each by
    /// its octets with the letters A to Z as a to z; an absent label or octet comes first. It takes
    /// no memory.
    pub fn canonical_cmp(&self, other: &Name) -> Ordering
        ensures value { result ≡ canonical_order self.now other.now }
        ensures same { (result ≡ Ordering.Equal) ↔ IsSameName self.now other.now }
    {
        order::order_of_names(self.wire.as_slice(), other.wire.as_slice())
    }

    /// Whether the name is the zone's or one of the names below it. It takes no memory.
    pub fn is_at_or_below(&self, zone: &Name) -> bool
        ensures value { result ≡ is_at_or_below self.now zone.now }
        ensures meaning { IsTrue result ↔ IsAtOrBelow self.now zone.now }
    {
        order::is_within(self.wire.as_slice(), zone.wire.as_slice())
    }
}

/// Whether the octets have no letter A to Z.
fn is_folded(wire: &[u8]) -> bool
    ensures { IsTrue result ↔ IsFolded wire.now }
{
    wire.iter()
        .all(|octet| octet.to_ascii_lowercase() == *octet)
}

impl Name {
    ghost use Rattle.rrc_name.specs.NameRef.{name_in};

    /// The name, lent.
    pub fn as_ref(&self) -> NameRef<'_>
        ensures { name_in result ≡ self.now }
    {
        NameRef::lent(self.as_slice())
    }
}

impl Clone for Name {
    ghost is_clone = { λ a b. b ≡ a };

    fn clone(&self) -> Result<Name, AllocError> {
        Ok(Name {
            wire: self.wire.clone()?,
        })
    }
}
