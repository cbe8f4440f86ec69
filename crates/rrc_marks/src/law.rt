// SPDX-License-Identifier: MIT
// The laws of the table, for whoever reads its rule.
ghost use Rattle.rrc_marks.specs.Laws.{EachStepKeepsTheRule, EachStepIsCounted, EachMarkHasOneHolder, EachNumberIsDrawnOnce, NextNumberIsNew, AloneAtTheEnd};

/// Does nothing. Its contract is what keeps the rule of a table: a step of any kind, by any pass.
pub fn each_step_keeps_the_rule()
    ensures { EachStepKeepsTheRule }
{}

/// Does nothing. Its contract is that no step goes uncounted: one of any kind adds one to the steps
/// that all passes have taken.
pub fn each_step_is_counted()
    ensures { EachStepIsCounted }
{}

/// Does nothing. Its contract is what the rule of a table says of its passes, at every moment
/// between two steps.
pub fn the_rule_tells_passes_apart()
    ensures one_holder { EachMarkHasOneHolder }
    ensures drawn_once { EachNumberIsDrawnOnce }
    ensures next_is_new { NextNumberIsNew }
    ensures end { AloneAtTheEnd }
{}
