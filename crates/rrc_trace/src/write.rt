// SPDX-License-Identifier: MIT
// How the text of reports is written.

pub(crate) mod report;
