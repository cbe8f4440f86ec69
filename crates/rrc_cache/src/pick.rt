// SPDX-License-Identifier: MIT
use rrc_name::Slot;
use std::marker::Model;

/// Which entry an ask moves to the front, as `LeanPart::judge` found it, for
/// `LeanPart::note_asked`. Contracts see the slot of its key, or `None` where none is to be moved:
/// no entry answers, or the one that does stands in front.
#[derive(Debug, Drop)]
pub struct Pick {
    pub(crate) slot: Option<Slot>,
    /// The hash of the ask's name, so that it is hashed once.
    pub(crate) hash: u64,
}

impl Model for Pick {
    ghost use Rattle.std.specs.Prelude.{Option};
    ghost use Rattle.rrc_name.specs.declared.slot.Slot.{Slot};

    ghost Value = { Option Slot };

    ghost view = { λ pick. pick.slot };
}
