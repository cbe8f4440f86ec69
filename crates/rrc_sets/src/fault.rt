// SPDX-License-Identifier: MIT
use std::alloc::{AllocError, AllocFailed};
use thiserror::Error;

/// Why a message's offers were not made.
#[derive(Clone, Copy, Debug, PartialEq, Eq, Hash, Error)]
pub enum SetsFault {
    #[error("memory was refused")]
    Memory = 1,
}

impl From<AllocError> for SetsFault {
    ghost use Rattle.std.specs.Prelude.{◌≡◌};
    ghost use Rattle.rrc_sets.specs.declared.fault.SetsFault.TheVariants.{Memory};

    ghost from_gives = { λ _ fault. fault ≡ Memory };

    fn from(_refused: AllocError) -> SetsFault {
        SetsFault::Memory
    }
}

impl<T: Drop> From<AllocFailed<T>> for SetsFault {
    ghost use Rattle.std.specs.Prelude.{◌≡◌};
    ghost use Rattle.rrc_sets.specs.declared.fault.SetsFault.TheVariants.{Memory};

    ghost from_gives = { λ _ fault. fault ≡ Memory };

    fn from(_refused: AllocFailed<T>) -> SetsFault {
        SetsFault::Memory
    }
}
