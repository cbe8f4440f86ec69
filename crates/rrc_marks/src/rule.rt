// SPDX-License-Identifier: MIT
// The rule of the table, and what each kind of step tells.
ghost use Rattle.std.specs.Prelude.{ℕ};
ghost use Rattle.rrc_marks.specs.Rule.{MarksKept};
ghost use Rattle.rrc_marks.specs.Views.{opening_view, after_split, split_off, after_join, spent_view};
ghost use Rattle.rrc_marks.specs.Told.{TellsDraw, TellsBegin, TellsFinish, TellsLook};

use atomic_table::{Join, Play, Split, TableRule};
use std::collections::LinkedList;
use std::marker::{Brand, PhantomData};

/// What a pass knows: the numbers that it drew, the marks that it holds, the turns that it has
/// left, the turns at the table's start, and how many steps it has taken. No value of it is made.
pub struct View {
    pub drawn: LinkedList<u64>,
    pub held: LinkedList<u64>,
    pub turns: u64,
    pub start: u64,
    pub steps: u64,
}

/// What a table is told once: its number of marks, and the turns at the start.
#[derive(Drop)]
pub struct Terms {
    pub marks: usize,
    pub turns: u64,
}

pub struct Kept;

impl TableRule<(), View, Terms> for Kept {
    ghost holds = { λ terms state. MarksKept terms.marks terms.turns state.words state.views };

    ghost first = { λ terms. opening_view terms.turns };
}

pub struct Draw;

impl Play<(), View> for Draw {
    ghost then = { TellsDraw };
}

pub struct Begin;

impl Play<(), View> for Begin {
    ghost then = { TellsBegin };
}

pub struct Finish;

impl Play<(), View> for Finish {
    ghost then = { TellsFinish };
}

// A read after a join, which changes nothing but the count of steps.
pub struct Look;

impl Play<(), View> for Look {
    ghost then = { TellsLook };
}

// A number of turns that is known at run time: the proof of a call picks it.
pub trait Gift {
    ghost turns: { ℕ };
}

impl Gift for Brand {
    ghost turns = { 0 };
}

pub struct Give<G> {
    gift: PhantomData<G>,
}

impl<G: Gift> Split<View> for Give<G> {
    ghost left = { after_split G.turns };

    ghost right = { split_off G.turns };
}

pub struct Merge;

impl Join<View> for Merge {
    ghost both = { after_join };

    ghost spent = { spent_view };
}
