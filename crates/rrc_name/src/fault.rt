// SPDX-License-Identifier: MIT
use std::alloc::{AllocError, AllocFailed};
use thiserror::Error;

/// Why a text is not a name.
#[derive(Clone, Copy, Debug, PartialEq, Eq, Hash, Error)]
pub enum NameFault {
    #[error("a label is empty")]
    EmptyLabel = 1,
    #[error("a label has more than 63 octets")]
    LabelTooLong = 2,
    #[error("the name has more than 255 octets")]
    NameTooLong = 3,
    #[error("an escape or an octet is not one of a name's text")]
    BadEscape = 4,
    #[error("memory was refused")]
    Memory = 5,
}

impl NameFault {
    ghost use Rattle.std.specs.Prelude.{◌≡◌};
    ghost use Rattle.rrc_name.specs.Fault.{number_of};

    /// The fault's number, by which programs tell of it.
    pub fn number(&self) -> u8
        ensures { result ≡ number_of self.now }
    {
        *self as u8
    }
}

/// Why octets are not the wire form of a name, in the order of reading: the first fault is
/// answered.
#[derive(Clone, Copy, Debug, PartialEq, Eq, Hash, Error)]
pub enum WireNameFault {
    #[error("the name ends too soon")]
    Short = 1,
    #[error("a label has more than 63 octets")]
    LabelTooLong = 2,
    #[error("the name has more than 255 octets")]
    NameTooLong = 3,
    #[error("octets stand behind the name")]
    LeftOver = 4,
    #[error("memory was refused")]
    Memory = 5,
}

impl WireNameFault {
    ghost use Rattle.std.specs.Prelude.{◌≡◌};
    ghost use Rattle.rrc_name.specs.Fault.{wire_number_of};

    /// The fault's number, 1 to 5, in the order of the variants.
    pub fn number(&self) -> u8
        ensures { result ≡ wire_number_of self.now }
    {
        *self as u8
    }
}

impl From<AllocError> for NameFault {
    ghost use Rattle.std.specs.Prelude.{◌≡◌};
    ghost use Rattle.rrc_name.specs.declared.fault.NameFault.TheVariants.{Memory};

    ghost from_gives = { λ _ fault. fault ≡ Memory };

    fn from(_refused: AllocError) -> NameFault {
        NameFault::Memory
    }
}

impl<T: Drop> From<AllocFailed<T>> for NameFault {
    ghost use Rattle.std.specs.Prelude.{◌≡◌};
    ghost use Rattle.rrc_name.specs.declared.fault.NameFault.TheVariants.{Memory};

    ghost from_gives = { λ _ fault. fault ≡ Memory };

    fn from(_refused: AllocFailed<T>) -> NameFault {
        NameFault::Memory
    }
}

impl From<AllocError> for WireNameFault {
    ghost use Rattle.std.specs.Prelude.{◌≡◌};
    ghost use Rattle.rrc_name.specs.declared.fault.WireNameFault.TheVariants.{Memory};

    ghost from_gives = { λ _ fault. fault ≡ Memory };

    fn from(_refused: AllocError) -> WireNameFault {
        WireNameFault::Memory
    }
}

impl<T: Drop> From<AllocFailed<T>> for WireNameFault {
    ghost use Rattle.std.specs.Prelude.{◌≡◌};
    ghost use Rattle.rrc_name.specs.declared.fault.WireNameFault.TheVariants.{Memory};

    ghost from_gives = { λ _ fault. fault ≡ Memory };

    fn from(_refused: AllocFailed<T>) -> WireNameFault {
        WireNameFault::Memory
    }
}
