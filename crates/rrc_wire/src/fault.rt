// SPDX-License-Identifier: MIT
use std::alloc::{AllocError, AllocFailed};
use thiserror::Error;

/// Why octets are not a response. The first fault is answered: of the size, then of the header,
/// then of the question and the records field by field. The variants stand by their numbers.
#[derive(Clone, Copy, Debug, PartialEq, Eq, Hash, Error)]
pub enum WireFault {
    #[error("the message ends too soon")]
    Short = 1,
    #[error("a length octet has reserved bits")]
    ReservedLabel = 2,
    #[error("a pointer does not lead to a lower place")]
    BadPointer = 3,
    #[error("a name has more than 255 octets")]
    NameTooLong = 4,
    #[error("the data of a record do not fill their layout")]
    BadData = 5,
    #[error("the message is no response")]
    NotResponse = 6,
    #[error("the message has not one question")]
    NotOneQuestion = 7,
    #[error("the message has more than 65535 octets")]
    TooLong = 8,
    #[error("memory was refused")]
    Memory = 9,
}

impl WireFault {
    ghost use Rattle.std.specs.Prelude.{◌≡◌};
    ghost use Rattle.rrc_wire.specs.Fault.{number_of};

    /// The number of the fault, 1 to 9, as the variants have it.
    pub fn number(&self) -> u8
        ensures { result ≡ number_of self.now }
    {
        *self as u8
    }
}

impl From<AllocError> for WireFault {
    ghost use Rattle.std.specs.Prelude.{◌≡◌};
    ghost use Rattle.rrc_wire.specs.declared.fault.WireFault.TheVariants.{Memory};

    ghost from_gives = { λ _ fault. fault ≡ Memory };

    fn from(_refused: AllocError) -> WireFault {
        WireFault::Memory
    }
}

impl<T: Drop> From<AllocFailed<T>> for WireFault {
    ghost use Rattle.std.specs.Prelude.{◌≡◌};
    ghost use Rattle.rrc_wire.specs.declared.fault.WireFault.TheVariants.{Memory};

    ghost from_gives = { λ _ fault. fault ≡ Memory };

    fn from(_refused: AllocFailed<T>) -> WireFault {
        WireFault::Memory
    }
}
