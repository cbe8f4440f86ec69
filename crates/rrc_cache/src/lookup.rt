// SPDX-License-Identifier: MIT
use rrc_history::{Held, ReplyRef};

/// What an ask is answered, the entry that answers, and that entry's age, lent by a part.
#[derive(Clone, Copy, Debug)]
pub struct Lookup<'a> {
    pub reply: ReplyRef<'a>,
    /// The entry that gives the reply; a miss has none.
    pub entry: Option<Held<'a>>,
    /// How many touches came after the entry's own last one; 0 with a miss.
    pub age: u64,
}
