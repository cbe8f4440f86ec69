// SPDX-License-Identifier: MIT
ghost use Rattle.std.specs.Prelude.{IfOk};
ghost use Rattle.rrc_shelf.specs.Shelves.{IsNew};
ghost use Rattle.rrc_shelf.specs.Checks.{number_of_call, Due, IsDoneOrMemory};
ghost use Rattle.rrc_shelf.specs.Refusals.{rules_checks};

use crate::division::check_seed;
use crate::status::Status;
use crate::terms::ShelfRules;
use rrc_cache::LeanPart;
use rrc_history::Rules;
use rrc_share::CacheShelf;
use std::alloc::Global;

/// An empty shelf by these rules. Nothing is recorded.
pub fn new_shelf(alloc: Global, terms: &ShelfRules) -> Result<Box<CacheShelf>, Status>
    ensures new { IfOk result (λ shelf. IsNew terms.now shelf.value) }
    ensures due { Due (rules_checks terms.now) IsDoneOrMemory (number_of_call result) }
{
    let Some(rules) = Rules::new(terms.capacity, terms.chapter, terms.max_stale) else {
        return Err(Status::BadRules);
    };
    check_seed(&terms.seed)?;
    let part = LeanPart::seeded(alloc, rules, terms.seed)?;
    Ok(Box::new(alloc, CacheShelf::new(alloc, part))?)
}
