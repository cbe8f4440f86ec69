// SPDX-License-Identifier: MIT
// How traces are read, from octets to lines.

mod ahead;
mod form;
mod item;
mod line;
mod message;
mod names;
mod number;
pub(crate) mod trace;
