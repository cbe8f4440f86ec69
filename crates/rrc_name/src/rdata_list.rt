// SPDX-License-Identifier: MIT
ghost use Rattle.std.specs.Prelude.{◌≡◌, [], ◌∷◌, length, IsTrue, ◌↔◌};
ghost use Rattle.std.specs.Slice.Iter.{iter_rest};

use crate::octets::Octets;
use std::marker::Model;
use std::slice;

/// Where the rdata stand.
#[derive(Debug, Drop)]
enum Place {
    Here(Octets),
    InVector(Vec<Octets>),
}

/// The rdata of an RRset, each by its octets, in the order received. Contracts see the list of
/// them. Rdata that stand alone, as of most RRsets, are in the value itself, so that a cache finds
/// them by one load less.
#[derive(Debug, Drop)]
pub struct RdataList {
    place: Place,
}

impl Model for RdataList {
    ghost use Rattle.std.specs.Prelude.{List, ℕ};
    ghost use Rattle.rrc_name.specs.RdataList.{rdata_in};

    ghost Value = { List (List ℕ) };

    ghost view = { λ list. rdata_in list.place };
}

impl RdataList {
    /// One record's rdata. It takes no memory.
    pub fn one(rdata: Octets) -> RdataList
        ensures { result ≡ rdata ∷ [] }
    {
        RdataList {
            place: Place::Here(rdata),
        }
    }

    /// The rdata of a vector. It takes no memory, and gives back the room that the vector has
    /// beyond them.
    pub fn from_vec(list: Vec<Octets>) -> RdataList
        ensures { result ≡ list.items }
    {
        let mut list = list;
        if list.len() == 1 {
            if let Some(rdata) = list.pop() {
                return RdataList::one(rdata);
            }
        }
        list.shrink_to_fit();
        RdataList {
            place: Place::InVector(list),
        }
    }

    pub fn as_slice(&self) -> &[Octets]
        ensures { result.now ≡ self.now }
    {
        match &self.place {
            Place::Here(rdata) => slice::from_ref(rdata),
            Place::InVector(list) => list.as_slice(),
        }
    }

    pub fn iter(&self) -> slice::Iter<'_, Octets>
        ensures { iter_rest result ≡ self.now }
    {
        self.as_slice().iter()
    }

    /// How many records have these rdata.
    pub fn len(&self) -> usize
        ensures { result ≡ length self.now }
    {
        self.as_slice().len()
    }

    pub fn is_empty(&self) -> bool
        ensures { IsTrue result ↔ (self.now ≡ []) }
    {
        self.as_slice().is_empty()
    }
}

impl PartialEq for RdataList {
    ghost use Rattle.std.specs.Cmp.{nat_eq_equiv, partial_equiv_from_equiv};
    ghost use Rattle.std.specs.Cmp.Lexicographic.{pointwise, lists_equiv};
    ghost use Rattle.std.specs.Prelude.{nat_eq};

    ghost eq = { pointwise (pointwise nat_eq) };

    ghost laws = { partial_equiv_from_equiv (lists_equiv (lists_equiv nat_eq_equiv)) };

    fn eq(&self, other: &RdataList) -> bool {
        self.as_slice() == other.as_slice()
    }
}

impl Eq for RdataList {
    ghost use Rattle.std.specs.Cmp.{nat_eq_equiv};
    ghost use Rattle.std.specs.Cmp.Lexicographic.{lists_equiv};

    ghost laws = { lists_equiv (lists_equiv nat_eq_equiv) };
}
