// SPDX-License-Identifier: MIT
/// A value of a class, as a line that a worker took (the class is the worker), or the turn of a
/// fetch (the class is its question). No public call takes or answers one: the clauses of this
/// crate and of those above name it.
#[derive(Clone, Copy, Debug, PartialEq, Eq, Hash)]
pub struct Valued {
    pub class: usize,
    pub value: usize,
}
