// SPDX-License-Identifier: MIT
use rrc_history::Held;

/// What a key holds, if anything, and how many touches came after its own last one, which is 0
/// where it holds nothing.
#[derive(Clone, Copy, Debug)]
pub struct AgedHeld<'a> {
    pub(crate) held: Option<Held<'a>>,
    pub(crate) age: u64,
}
