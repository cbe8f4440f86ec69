// SPDX-License-Identifier: MIT
/// What a replay calls at some places of each line, in the thread that does the line. No lock is
/// held then. A gate that does not return holds up its worker, and no other one.
pub trait Gate {
    /// The line was drawn, and none of its operations was made.
    fn before(&self, line: usize);

    /// The line is a fetch whose mark was begun, and none of its offers was made.
    fn inside(&self, line: usize);

    /// The line is answered.
    fn after(&self, line: usize);
}

/// A gate that does nothing.
#[derive(Clone, Copy, Debug)]
pub struct OpenGate;

impl Gate for OpenGate {
    fn before(&self, _line: usize) {}

    fn inside(&self, _line: usize) {}

    fn after(&self, _line: usize) {}
}
