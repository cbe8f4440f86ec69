// SPDX-License-Identifier: MIT
// What C is told of its handles, beside the statuses of calls.

/// What C is told where the handle holds no shelf.
pub(crate) const NO_SHELF: u32 = 1;

/// What C is told where the handle that is to be made holds a shelf already.
pub(crate) const HAS_SHELF: u32 = 2;

/// What C is told where the handle that is to be read into holds offers already.
pub(crate) const HAS_OFFERS: u32 = 19;

/// A response answers another query than the one that was sent.
pub(crate) const OTHER_QUERY: u32 = 20;

/// What C is told where the handle holds no chapters.
pub(crate) const NO_CHAPTERS: u32 = 21;

/// What C is told where the handle that chapters are to be put into holds some already.
pub(crate) const HAS_CHAPTERS: u32 = 22;
