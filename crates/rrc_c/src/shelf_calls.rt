// SPDX-License-Identifier: MIT
ghost use Rattle.std.specs.Prelude.{◌≡◌, ◌↔◌, None, IfNone, IsSomeAnd, OnSome};
ghost use Rattle.rrc_shelf.specs.Checks.{Due, IsDoneOrMemory, OnDone, OnRefused};
ghost use Rattle.rrc_c.specs.declared.handle_status.TheConstants.{HAS_SHELF, NO_SHELF};
ghost use Rattle.rrc_shelf.specs.Refusals.{rules_checks};
ghost use Rattle.rrc_shelf.specs.Shelves.{IsNew};

use crate::handle_status::{HAS_SHELF, NO_SHELF};
use crate::shelf_handle::ShelfHandle;
use rrc_shelf::{ShelfRules, new_shelf};
use std::alloc::Global;

/// Makes an empty shelf for a handle that holds none. Its history is not recorded.
#[unsafe(no_mangle)]
pub extern "C" fn rrc_make(alloc: Global, handle: &mut ShelfHandle, rules: &ShelfRules) -> u32
    ensures has { OnSome handle.old.held.seal.shelf (result ≡ HAS_SHELF) }
    ensures due { IfNone handle.old.held.seal.shelf (Due (rules_checks rules.now) IsDoneOrMemory result) }
    ensures done { OnDone result (IsSomeAnd handle.new.held.seal.shelf (IsNew rules.now)) }
    ensures seed { OnDone result (handle.new.seed ≡ rules.now.seed) }
    ensures refused { OnRefused result (handle.new.held.seal.shelf ≡ handle.old.held.seal.shelf) }
    ensures kept { OnRefused result (handle.new.seed ≡ handle.old.seed) }
{
    if handle.held.is_live() {
        return HAS_SHELF;
    }
    match new_shelf(alloc, rules) {
        Err(status) => status.number(),
        Ok(shelf) => {
            handle.held.boxed().put(shelf);
            handle.seed = rules.seed;
            0
        }
    }
}

/// Frees the shelf of a handle, which then holds none.
#[unsafe(no_mangle)]
pub extern "C" fn rrc_free(alloc: Global, handle: &mut ShelfHandle) -> u32
    ensures left { handle.new.held.seal.shelf ≡ None }
    ensures none { (result ≡ NO_SHELF) ↔ (handle.old.held.seal.shelf ≡ None) }
    ensures status { OnRefused result (handle.old.held.seal.shelf ≡ None) }
{
    match handle.held.boxed().take(alloc) {
        None => NO_SHELF,
        Some(shelf) => {
            drop(shelf);
            0
        }
    }
}
