// SPDX-License-Identifier: MIT
// How the fields of a line are read.

pub(crate) mod comma;
mod digits;
pub(crate) mod field;
pub(crate) mod lf;
pub(crate) mod line_fault;
pub(crate) mod name;
pub(crate) mod number;
pub(crate) mod octets;
pub(crate) mod word;
