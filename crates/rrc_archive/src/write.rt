// SPDX-License-Identifier: MIT
// How the text of archives is written.

pub(crate) mod archive;
mod fields;
