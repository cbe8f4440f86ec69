// SPDX-License-Identifier: MIT
// A pass: the right to step on a table, and to use some of its turns.
ghost use Rattle.std.specs.Prelude.{◌≡◌, length};

use crate::rule::View;
use atomic_table::Seat;
use std::marker::Model;

/// The right to use some turns of one table, which one thread has at a time. To a contract it is
/// the name of its table and what the pass knows: the numbers that it drew, the marks that it
/// holds, the turns that it has left, and the turns at the start.
///
/// A pass that is dropped takes its turns and its marks with it, and its table can't be closed.
#[derive(Drop)]
pub struct Pass {
    pub(crate) seat: Seat<(), View>,
    pub(crate) turns: u64,
    pub(crate) draws: u64,
}

impl Model for Pass {
    ghost use Rattle.rrc_marks.specs.Seen.{Hand, IsCounted};

    ghost Value = { Hand };

    ghost view = { λ p. record { table = p.seat.table_id; view = p.seat.me.0 } };

    ghost invariant = { λ p. IsCounted p.seat.table_id p.seat.me p.turns p.draws };
}

impl Pass {
    /// The turns that are left.
    pub fn turns(&self) -> u64
        ensures { result ≡ self.now.view.turns }
    {
        self.turns
    }

    /// How many numbers the pass has drawn.
    pub fn draws(&self) -> u64
        ensures { result ≡ length self.now.view.drawn }
    {
        self.draws
    }
}
