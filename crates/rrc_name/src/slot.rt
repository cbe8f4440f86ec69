// SPDX-License-Identifier: MIT
ghost use Rattle.std.specs.Prelude.{◌≡◌};

use std::cmp::Ordering;
use std::hash::{Hash, Hasher};

/// What is kept of a name.
#[derive(Clone, Copy, Debug)]
pub enum Slot {
    /// The RRset of a type, or that there is none of it.
    Set(u16),
    /// That the name does not exist (NXDOMAIN, RFC 2308 section 5).
    Nx,
    /// That asking for a type failed (RFC 8767 section 5).
    Failed(u16),
}

impl Slot {
    ghost use Rattle.rrc_name.specs.Key.{kind_place, type_of, block_of};

    fn kind_place(self) -> u8
        ensures { result ≡ kind_place self }
    {
        match self {
            Slot::Set(_) => 0,
            Slot::Nx => 1,
            Slot::Failed(_) => 2,
        }
    }

    fn type_of(self) -> u16
        ensures { result ≡ type_of self }
    {
        match self {
            Slot::Set(rtype) | Slot::Failed(rtype) => rtype,
            Slot::Nx => 0,
        }
    }

    /// Which block of 32 types the slot's type is in.
    pub(crate) fn block(self) -> u16
        ensures { result ≡ block_of self }
    {
        self.type_of() / 32
    }
}

impl PartialEq for Slot {
    ghost use Rattle.rrc_name.specs.Key.{slot_eq};
    ghost use Rattle.rrc_name.specs.lemmas.KeyLaws.{slot_eq-laws};
    ghost use Rattle.std.specs.Cmp.{partial_equiv_from_equiv};

    ghost eq = { slot_eq };

    ghost laws = { partial_equiv_from_equiv slot_eq-laws };

    fn eq(&self, other: &Slot) -> bool {
        match (*self, *other) {
            (Slot::Set(a), Slot::Set(b)) | (Slot::Failed(a), Slot::Failed(b)) => a == b,
            (Slot::Nx, Slot::Nx) => true,
            _ => false,
        }
    }
}

impl Eq for Slot {
    ghost use Rattle.rrc_name.specs.lemmas.KeyLaws.{slot_eq-laws};

    ghost laws = { slot_eq-laws };
}

impl Hash for Slot {
    ghost use Rattle.rrc_name.specs.Key.{slot_hash};
    ghost use Rattle.rrc_name.specs.lemmas.KeyLaws.{slot_hash-alike};

    ghost hash_input = { slot_hash };

    ghost respects_eq = { slot_hash-alike.fed };

    fn hash<H: Hasher>(&self, state: &mut H) {
        self.kind_place().hash(state);
        self.type_of().hash(state);
    }
}

impl Ord for Slot {
    ghost use Rattle.rrc_name.specs.Key.{slot_order};
    ghost use Rattle.rrc_name.specs.lemmas.KeyLaws.{slot_order-total, slot_order-ties};
    ghost use Rattle.std.specs.Prelude.{refl};

    ghost cmp = { slot_order };

    ghost total = { slot_order-total };

    ghost matches_partial_cmp = { λ _ _. refl };

    ghost matches_eq = { slot_order-ties };

    fn cmp(&self, other: &Slot) -> Ordering {
        match (*self, *other) {
            (Slot::Set(a), Slot::Set(b)) | (Slot::Failed(a), Slot::Failed(b)) => a.cmp(&b),
            _ => self.kind_place().cmp(&other.kind_place()),
        }
    }
}

impl PartialOrd for Slot {
    ghost use Rattle.rrc_name.specs.Key.{slot_order};
    ghost use Rattle.rrc_name.specs.lemmas.KeyLaws.{slot_order-total, slot_order-ties};
    ghost use Rattle.std.specs.Ordering.{as_partial_cmp};
    ghost use Rattle.std.specs.Cmp.{partial_order_from_agreeing_total};
    ghost use Rattle.std.specs.Prelude.{refl};

    ghost partial_cmp = { as_partial_cmp slot_order };

    ghost laws = { partial_order_from_agreeing_total slot_order slot_order-total (λ _ _. refl) slot_order-ties };

    fn partial_cmp(&self, other: &Slot) -> Option<Ordering> {
        Some(self.cmp(other))
    }
}
