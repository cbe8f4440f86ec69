// SPDX-License-Identifier: MIT
ghost use Rattle.std.specs.Prelude.{◌≡◌, ◌≤◌};
ghost use Rattle.rrc_shelf.specs.Checks.{number_of};

use rrc_cache::Refusal;
use std::alloc::{AllocError, AllocFailed};

/// Why a shelf did not do what was called for.
#[derive(Clone, Copy, Debug, PartialEq, Eq)]
pub enum Status {
    /// Memory was refused.
    Memory,
    /// The numbers of events or of chapters are spent.
    HistoryFull,
    /// The moment is above 2^40 seconds.
    MomentTooLarge,
    /// The capacity, the chapter's size or the stale limit, the number of parts, the part, or how
    /// much is swept is not in its range.
    BadRules,
    /// All octets of the seed are 0.
    BadSeed,
    /// A limit of what a response says is not in its range.
    BadLimits,
    /// The octets are not the wire form of a name.
    BadName,
    /// The octets are no response that can be read.
    BadMessage,
    /// No choice has this number.
    BadChoice,
    /// Data of this type are not kept, or nothing is ever known of it.
    BadType,
    /// The octets are not data of the type, each behind its length.
    BadData,
    /// The body does not fit its key.
    WrongBody,
    /// A datum of the answer has more octets than its length can tell.
    WideAnswer,
    /// The name was hashed under another seed than the shelf's.
    OtherSeed,
    /// The response is a header without a question, of a server that could or would not read the
    /// query.
    NoQuestion,
}

/// What C is told where the buffer is too small for the answer, whose size is then told.
pub(crate) const SMALL_BUFFER: u32 = 16;

/// What C is told where the handle holds no offers; 17 is told by the header's inline functions
/// alone.
pub const NO_OFFERS: u32 = 18;

/// What C is told where there is no such chapter, or it has no such line; 24 and 25 are told by the
/// header's inline functions alone.
pub(crate) const NO_LINE: u32 = 23;

impl Status {
    /// The number that C is told, by `include/rrcache.h`: 3 to 15, 26 or 27.
    pub fn number(self) -> u32
        ensures value { result ≡ number_of self }
        ensures some { 3 ≤ result }
        ensures offers { result ≡ 18 → ⊥ }
    {
        match self {
            Status::Memory => 3,
            Status::HistoryFull => 4,
            Status::MomentTooLarge => 5,
            Status::BadRules => 6,
            Status::BadSeed => 7,
            Status::BadLimits => 8,
            Status::BadName => 9,
            Status::BadMessage => 10,
            Status::BadChoice => 11,
            Status::BadType => 12,
            Status::BadData => 13,
            Status::WrongBody => 14,
            Status::WideAnswer => 15,
            Status::OtherSeed => 26,
            Status::NoQuestion => 27,
        }
    }
}

impl From<AllocError> for Status {
    ghost use Rattle.std.specs.Prelude.{◌≡◌};
    ghost use Rattle.rrc_shelf.specs.declared.status.Status.TheVariants.{Memory};

    ghost from_gives = { λ _ status. status ≡ Memory };

    fn from(_refused: AllocError) -> Status {
        Status::Memory
    }
}

impl<T: Drop> From<AllocFailed<T>> for Status {
    ghost use Rattle.std.specs.Prelude.{◌≡◌};
    ghost use Rattle.rrc_shelf.specs.declared.status.Status.TheVariants.{Memory};

    ghost from_gives = { λ _ status. status ≡ Memory };

    fn from(_refused: AllocFailed<T>) -> Status {
        Status::Memory
    }
}

impl From<Refusal> for Status {
    ghost use Rattle.std.specs.Prelude.{◌≡◌};
    ghost use Rattle.rrc_shelf.specs.Checks.{refused_as};

    ghost from_gives = { λ refusal status. status ≡ refused_as refusal };

    fn from(refusal: Refusal) -> Status {
        match refusal {
            Refusal::HistoryFull => Status::HistoryFull,
            Refusal::MomentTooLarge => Status::MomentTooLarge,
            Refusal::Memory => Status::Memory,
        }
    }
}
