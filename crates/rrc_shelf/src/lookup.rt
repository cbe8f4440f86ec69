// SPDX-License-Identifier: MIT
ghost use Rattle.std.specs.Prelude.{IfOk};
ghost use Rattle.rrc_shelf.specs.Asks.{TellsEntry, TellsHeld};
ghost use Rattle.rrc_shelf.specs.Refusals.{StoredDue};
ghost use Rattle.rrc_shelf.specs.Checks.{number_of_call};
ghost use Rattle.rrc_name.specs.Key.{IsFolded};
ghost use Rattle.rrc_name.specs.NameRef.{name_in};
ghost use Rattle.rrc_share.specs.CacheShelf.{held_by};

use crate::entry_record::{EntryRecord, record_of};
use crate::folded_name::FoldedName;
use crate::question::{check_kind, name_under};
use crate::status::Status;
use crate::stored::Stored;
use crate::terms::Question;
use rrc_name::{KeyRef, NameRef, Slot};
use rrc_share::CacheShelf;

/// What a shelf holds of a name, a class and a slot.
fn entry_at(shelf: &CacheShelf, name: NameRef<'_>, class: u16, slot: Slot) -> EntryRecord
    requires { IsFolded (name_in name) }
    ensures { TellsEntry shelf.now (held_by shelf.now.shelf (record { name = name_in name.entry; class = class; slot = slot })) result }
{
    let key = KeyRef { name, class, slot };
    match shelf.age(key) {
        Some(age) => record_of(shelf.held(key), age),
        None => record_of(None, 0),
    }
}

/// What a shelf, whose names are hashed under the seed, holds of a name and a class for a type. It
/// takes no memory.
pub fn stored_in(
    shelf: &CacheShelf,
    seed: &[u8; 16],
    name: &FoldedName,
    question: &Question,
) -> Result<Stored, Status>
    ensures told { IfOk result (λ stored. TellsHeld name.now question.now stored shelf.now) }
    ensures due { StoredDue name.now question.now seed.now (number_of_call result) }
{
    check_kind(question.rtype, question.rclass)?;
    let (name, _) = name_under(name, seed)?;
    let class = question.rclass;
    Ok(Stored {
        set: entry_at(shelf, name, class, Slot::Set(question.rtype)),
        nxdomain: entry_at(shelf, name, class, Slot::Nx),
        failure: entry_at(shelf, name, class, Slot::Failed(question.rtype)),
    })
}
