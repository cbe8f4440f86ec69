// SPDX-License-Identifier: MIT
// The table of marks, and its calls. Word 0 counts the draws, and word m + 1 is the mark m: 1 where
// a pass holds it, else 0.
ghost use Rattle.std.specs.Prelude.{◌≡◌, ℕ, ◌<◌, ◌≤◌, [], true, false, length, IfOk, IfSome, IfNone, MatchResult};
ghost use Rattle.rrc_marks.specs.Limits.{is_within_limits, IsFaultOf};
ghost use Rattle.rrc_marks.specs.Views.{opening_view, after_step, after_finish, after_split, split_off, after_join, all_turns, IsAlone, Holds, Lacks, EachOnceBelow};
ghost use Rattle.rrc_marks.specs.Seen.{IsPassOf};
ghost use Rattle.rrc_marks.specs.Told.{Draws, Exchanges, IsBounded};
ghost use Rattle.rrc_marks.specs.Begins.{Begins};
ghost use Rattle.rrc_marks.specs.Ends.{last_words, IsSettled, IsWhole};

use crate::began::Began;
use crate::fault::MarksFault;
use crate::pass::Pass;
use crate::rule::{Begin, Draw, Finish, Gift, Give, Kept, Look, Merge, Terms, View};
use atomic_table::{Closed, Seat, Table};
use std::alloc::{AllocError, Global};
use std::marker::{Brand, Model};

const MOST_MARKS: usize = 4096;

const MOST_LINES: u64 = 1_000_000;

const MOST_TURNS: u64 = 1 << 40;

/// A table of marks, and of numbers to be drawn. To a contract it is its name, its number of marks,
/// and its lines: a draw below them is answered.
#[derive(Drop)]
pub struct Marks {
    table: Table<(), View, Terms, Kept, Global>,
    marks: usize,
    lines: u64,
}

impl Model for Marks {
    ghost use Rattle.rrc_marks.specs.Seen.{Board, IsLaidOut};

    ghost Value = { Board };

    ghost view = { λ m. record { table = m.table.shared.table_id; marks = m.marks; lines = m.lines } };

    ghost invariant = { λ m. IsLaidOut m.table.shared.table_id m.table.shared.key m.marks };
}

fn is_within(marks: usize, lines: u64, turns: u64) -> bool
    ensures { result ≡ is_within_limits marks lines turns }
{
    1 <= marks && marks <= MOST_MARKS && lines <= MOST_LINES && 1 <= turns && turns <= MOST_TURNS
}

impl Marks {
    /// Makes a table of `marks` free marks, and the pass that has all `turns`.
    ///
    /// `BadNumber` unless there are 1 to 4,096 marks, at most 1,000,000 lines and 1 to 2^40 turns;
    /// else `Memory` where memory was refused.
    pub fn new(
        alloc: Global,
        marks: usize,
        lines: u64,
        turns: u64,
    ) -> Result<(Marks, Pass), MarksFault>
        ensures table { IfOk result (λ made. made.0 ≡ record { table = made.0.table; marks = marks; lines = lines }) }
        ensures pass { IfOk result (λ made. made.1 ≡ record { table = made.0.table; view = opening_view turns }) }

        // Which of the two faults comes, and that none but numbers within the limits are taken.
        ensures limits { MatchResult result (λ _. is_within_limits marks lines turns ≡ true) (IsFaultOf (is_within_limits marks lines turns)) }
        ensures bad_number { is_within_limits marks lines turns ≡ false → result ≡ Err MarksFault.BadNumber }
    {
        if !is_within(marks, lines, turns) {
            return Err(MarksFault::BadNumber);
        }
        match Marks::lay_out(alloc, marks, lines, turns) {
            Ok(made) => Ok(made),
            Err(AllocError) => Err(MarksFault::Memory),
        }
    }

    fn lay_out(
        alloc: Global,
        marks: usize,
        lines: u64,
        turns: u64,
    ) -> Result<(Marks, Pass), AllocError>
        requires { is_within_limits marks lines turns ≡ true }
        ensures table { IfOk result (λ made. made.0 ≡ record { table = made.0.table; marks = marks; lines = lines }) }
        ensures pass { IfOk result (λ made. made.1 ≡ record { table = made.0.table; view = opening_view turns }) }
    {
        let words = vec![in alloc; 0u64; marks + 1]?;
        let terms = Terms { marks, turns };
        let (table, seat) = Table::of_words(alloc, &words, &terms)?;
        let marks = Marks {
            table,
            marks,
            lines,
        };
        let pass = Pass {
            seat,
            turns,
            draws: 0,
        };
        Ok((marks, pass))
    }

    /// Draws the next number, for one turn. `None` where it is not below the table's lines; the
    /// pass has drawn it all the same.
    pub fn draw(&self, pass: &mut Pass) -> Option<u64>
        requires own { IsPassOf self.now pass.old }
        requires turn { 0 < pass.old.view.turns }
        ensures some { IfSome result (λ number. (number < self.now.lines) × Draws pass.old.view number pass.new.view) }
        ensures none { IfNone result ((number : ℕ) × (self.now.lines ≤ number) × Draws pass.old.view number pass.new.view) }
        ensures own { pass.new.table ≡ pass.old.table }
    {
        let number = self.table.shared.fetch_add::<Draw>(&mut pass.seat, 0, 1);
        pass.turns -= 1;
        pass.draws += 1;
        if number < self.lines {
            Some(number)
        } else {
            None
        }
    }

    /// Tries to begin a mark, by one exchange. `Taken` where a pass holds it.
    pub fn begin(&self, pass: &mut Pass, mark: usize) -> Began
        requires own { IsPassOf self.now pass.old }
        requires mark { mark < self.now.marks }
        ensures outcome { Begins mark pass.old.view result pass.new.view }
        ensures own { pass.new.table ≡ pass.old.table }
        ensures held_is_taken { Holds pass.old.view mark → result ≡ Began.Taken }
        ensures alone_gets_mine { IsAlone pass.old.view → Lacks pass.old.view mark → result ≡ Began.Mine }
    {
        if self.exchange(pass, mark) == 0 {
            Began::Mine
        } else {
            Began::Taken
        }
    }

    // Puts 1 in place of 0, and answers what was found.
    fn exchange(&self, pass: &mut Pass, mark: usize) -> u64
        requires own { IsPassOf self.now pass.old }
        requires mark { mark < self.now.marks }
        ensures outcome { Exchanges pass.old.view mark result pass.new.view }
        ensures own { pass.new.table ≡ pass.old.table }
    {
        let shared = &self.table.shared;
        shared.compare_exchange::<Begin>(&mut pass.seat, mark + 1, 0, 1)
    }

    /// Frees a mark that the pass holds.
    pub fn finish(&self, pass: &mut Pass, mark: usize)
        requires own { IsPassOf self.now pass.old }
        requires holds { Holds pass.old.view mark }
        ensures { pass.new ≡ record pass.old { view = after_finish mark pass.old.view } }
    {
        let shared = &self.table.shared;
        shared.store::<Finish>(&mut pass.seat, mark + 1, 0);
    }

    /// Gives some of the turns that are left to a new pass, as for another thread.
    pub fn split(&self, pass: &mut Pass, turns: u64) -> Pass
        requires own { IsPassOf self.now pass.old }
        requires some { 0 < turns }
        requires has { turns ≤ pass.old.view.turns }
        requires keeps { turns < all_turns pass.old.view }
        ensures giver { pass.new ≡ record pass.old { view = after_split turns pass.old.view } }
        ensures taker { result ≡ record pass.old { view = split_off turns pass.old.view } }
    {
        let seat = self.cut::<Brand>(&mut pass.seat, turns);
        pass.turns -= turns;
        Pass {
            seat,
            turns,
            draws: 0,
        }
    }

    // A step that splits takes no number, so the proof of the call that passes `Brand` picks
    // `G.turns`.
    fn cut<G: Gift>(&self, seat: &mut Seat<(), View>, turns: u64) -> Seat<(), View>
        requires own { seat.old.table_id ≡ self.now.table }
        requires gift { turns ≡ G.turns }
        requires some { 0 < turns }
        requires has { turns ≤ seat.old.me.0.turns }
        requires keeps { turns < all_turns seat.old.me.0 }
        ensures giver { (seat.new.table_id ≡ seat.old.table_id) × (seat.new.me ≡ (after_split turns seat.old.me.0, seat.old.me.1)) }
        ensures taker { (result.table_id ≡ seat.old.table_id) × (result.me ≡ (split_off turns seat.old.me.0, [])) }
    {
        self.table.shared.split_seat::<Give<G>>(seat)
    }

    /// Takes in another pass: what it drew, what it holds, and the turns that it has left.
    pub fn join(&self, pass: &mut Pass, other: Pass)
        requires own { IsPassOf self.now pass.old }
        requires other { IsPassOf self.now other }
        ensures both { pass.new ≡ record pass.old { view = after_step (after_join pass.old.view other.view) } }
        ensures bounded { IsBounded pass.new.view }
    {
        let Pass { seat, turns, draws } = other;
        self.table.shared.join_seat::<Merge>(&mut pass.seat, seat);
        // The joining step tells nothing of the other passes. This one tells that the sums below
        // are within the turns at the start.
        self.table.shared.load::<Look>(&mut pass.seat, 0);
        pass.turns += turns;
        pass.draws += draws;
    }

    /// Ends the table, once one pass has all turns, left and used, and holds no mark. Answers how
    /// many numbers were drawn.
    pub fn close(self, pass: Pass) -> u64
        requires own { IsPassOf self pass }
        requires alone { IsAlone pass.view }
        requires free { pass.view.held ≡ [] }
        ensures draws { result ≡ length pass.view.drawn }
        ensures each_once { EachOnceBelow result pass.view.drawn }
    {
        let closed = self.into_words(pass);
        let draws = closed.word(0);
        closed.free();
        draws
    }

    // The words as they are at the end: the draws, and marks that are all free.
    fn into_words(self, pass: Pass) -> Closed<(), Global>
        requires own { IsPassOf self pass }
        requires alone { IsAlone pass.view }
        requires free { pass.view.held ≡ [] }
        ensures whole { IsWhole result }
        ensures settled { IsSettled (last_words result) pass.view }
    {
        let Marks {
            table,
            marks: _,
            lines: _,
        } = self;
        let Pass {
            seat,
            turns: _,
            draws: _,
        } = pass;
        table.close_with(seat)
    }
}
