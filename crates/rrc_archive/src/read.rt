// SPDX-License-Identifier: MIT
// How archives are read, from octets to chapters.

pub(crate) mod archive;
mod body;
mod chapters;
mod event;
mod number;
mod reply;
mod said;
mod slot;
