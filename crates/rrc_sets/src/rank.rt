// SPDX-License-Identifier: MIT
ghost use Rattle.std.specs.Prelude.{◌≡◌};
ghost use Rattle.rrc_sets.specs.Ranks.{section_rank};

use rrc_history::Trust;

/// The sections of a reply that have records (RFC 1035 section 4.1).
#[derive(Clone, Copy, Debug, PartialEq, Eq)]
pub(crate) enum Section {
    Answer,
    Authority,
    Additional,
}

/// How far a set of a section is trusted (RFC 2181 section 5.4.1), by whether the reply is
/// authoritative, and whether the set's owner is the name that was asked for.
pub(crate) fn section_rank(section: Section, aa: bool, asked: bool) -> Trust
    ensures { result ≡ section_rank section aa asked }
{
    match section {
        Section::Answer if aa && asked => Trust::AuthoritativeAnswer,
        Section::Answer => Trust::NonAuthoritativeAnswer,
        Section::Authority if aa => Trust::Authority,
        Section::Authority | Section::Additional => Trust::Additional,
    }
}
