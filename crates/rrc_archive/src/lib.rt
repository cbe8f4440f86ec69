// SPDX-License-Identifier: MIT
//! Archives of the histories of the cache, as text, which is written and read.
#![tactic(auto)]

mod archive;
mod read;
mod write;

pub use archive::{ArchiveFault, ArchiveLine, WrittenChapter, archive_line};
pub use read::archive::{one_archive, read_archive};
pub use rrc_text::ReplayFault;
pub use write::archive::{write_archive_line, write_chapter};
