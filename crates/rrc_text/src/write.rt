// SPDX-License-Identifier: MIT
// How the pieces of a text are written, through a buffer.

pub(crate) mod buffer;
pub(crate) mod output;
pub(crate) mod pieces;
pub(crate) mod reply;
mod writer;
