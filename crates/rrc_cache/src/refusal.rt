// SPDX-License-Identifier: MIT
use std::alloc::{AllocError, AllocFailed};
use thiserror::Error;

/// Why a part did not take a call. It is then as it was.
#[derive(Clone, Copy, Debug, PartialEq, Eq, Hash, Error)]
pub enum Refusal {
    #[error("the chapter has as many events as it may, or the numbers are spent")]
    HistoryFull = 1,
    #[error("the moment is above 2^40 seconds")]
    MomentTooLarge = 2,
    #[error("memory was refused")]
    Memory = 3,
}

impl Refusal {
    ghost use Rattle.std.specs.Prelude.{◌≡◌};
    ghost use Rattle.rrc_cache.specs.Refusals.{number_of};

    /// The number of the refusal, from 1 to 3. Of several refusals a part answers the one of the
    /// lowest number.
    pub fn number(&self) -> u8
        ensures value { result ≡ number_of self.now }
    {
        *self as u8
    }
}

impl From<AllocError> for Refusal {
    ghost use Rattle.std.specs.Prelude.{◌≡◌};
    ghost use Rattle.rrc_cache.specs.declared.refusal.Refusal.TheVariants.{Memory};

    ghost from_gives = { λ _ refusal. refusal ≡ Memory };

    fn from(_refused: AllocError) -> Refusal {
        Refusal::Memory
    }
}

impl<T: Drop> From<AllocFailed<T>> for Refusal {
    ghost use Rattle.std.specs.Prelude.{◌≡◌};
    ghost use Rattle.rrc_cache.specs.declared.refusal.Refusal.TheVariants.{Memory};

    ghost from_gives = { λ _ refusal. refusal ≡ Memory };

    fn from(_refused: AllocFailed<T>) -> Refusal {
        Refusal::Memory
    }
}
