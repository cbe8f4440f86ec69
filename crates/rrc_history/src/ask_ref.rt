// SPDX-License-Identifier: MIT
ghost use Rattle.rrc_name.specs.Key.{IsFolded};
ghost use Rattle.rrc_name.specs.NameRef.{name_in};

use crate::ask::{Ask, Mode, Purpose};
use rrc_name::{KeyRef, NameRef, Slot};
use std::alloc::{AllocError, Global};

/// An `Ask` whose name belongs to somebody else. Contracts see it by `ask_in`, as they see an
/// `Ask`.
#[derive(Clone, Copy, Debug)]
pub struct AskRef<'a> {
    pub name: NameRef<'a>,
    pub class: u16,
    pub rtype: u16,
    pub moment: u64,
    pub purpose: Purpose,
    pub mode: Mode,
    pub ghost low: { IsFolded (name_in name) },
}

impl<'a> AskRef<'a> {
    ghost use Rattle.std.specs.Prelude.{◌≡◌, IfOk};
    ghost use Rattle.rrc_name.specs.KeyRef.{key_of};
    ghost use Rattle.rrc_history.specs.Past.{key_at};
    ghost use Rattle.rrc_history.specs.Views.{ask_in};

    /// The key of a slot of the name in the class, to look up with.
    pub fn key_at(self, slot: Slot) -> KeyRef<'a>
        ensures { key_of result ≡ key_at (ask_in self.entry) slot }
    {
        KeyRef {
            name: self.name,
            class: self.class,
            slot,
        }
    }

    /// An ask whose name is its own.
    pub fn to_owned(self, alloc: Global) -> Result<Ask, AllocError>
        ensures { IfOk result (λ ask. ask ≡ ask_in self.entry) }
    {
        Ok(Ask {
            name: self.name.to_owned(alloc)?,
            class: self.class,
            rtype: self.rtype,
            moment: self.moment,
            purpose: self.purpose,
            mode: self.mode,
        })
    }
}
