// SPDX-License-Identifier: MIT
mod chapters;
mod lines;
mod reader;
