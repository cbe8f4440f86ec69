// SPDX-License-Identifier: MIT
use std::alloc::{AllocError, AllocFailed};
use thiserror::Error;

/// Why a trace has no report. Lines are numbered from 0, and the first fault is answered.
#[derive(Clone, Copy, Debug, PartialEq, Eq, Hash, Error)]
pub enum ReplayFault {
    #[error("line {0} is not a line of a trace")]
    BadLine(u64),
    #[error("the trace has more than 1000000 lines")]
    TooManyLines,
    #[error("the trace could not be read")]
    Read,
    #[error("the report could not be written")]
    Write,
    #[error("the workers strayed from the trace")]
    Strayed,
    #[error("memory or a thread was refused")]
    Memory,
    #[error("line {0} met a part whose numbers are spent")]
    Spent(u64),
    #[error("line {0} asks one question too many")]
    TooManyQuestions(u64),
    #[error("the history of the replay is not legal")]
    NotLegal,
}

impl ReplayFault {
    ghost use Rattle.std.specs.Prelude.{◌≡◌};
    ghost use Rattle.rrc_text.specs.Faults.{fault_number};

    /// The number by which the documents know the fault: 1 to 9.
    pub fn number(&self) -> u8
        ensures { result ≡ fault_number self.now }
    {
        match self {
            ReplayFault::BadLine(_) => 1,
            ReplayFault::TooManyLines => 2,
            ReplayFault::Read => 3,
            ReplayFault::Write => 4,
            ReplayFault::Strayed => 5,
            ReplayFault::Memory => 6,
            ReplayFault::Spent(_) => 7,
            ReplayFault::TooManyQuestions(_) => 8,
            ReplayFault::NotLegal => 9,
        }
    }
}

impl From<AllocError> for ReplayFault {
    ghost use Rattle.std.specs.Prelude.{◌≡◌};
    ghost use Rattle.rrc_text.specs.declared.fault.ReplayFault.TheVariants.{Memory};

    ghost from_gives = { λ _ fault. fault ≡ Memory };

    fn from(_refused: AllocError) -> ReplayFault {
        ReplayFault::Memory
    }
}

impl<T: Drop> From<AllocFailed<T>> for ReplayFault {
    ghost use Rattle.std.specs.Prelude.{◌≡◌};
    ghost use Rattle.rrc_text.specs.declared.fault.ReplayFault.TheVariants.{Memory};

    ghost from_gives = { λ _ fault. fault ≡ Memory };

    fn from(_refused: AllocFailed<T>) -> ReplayFault {
        ReplayFault::Memory
    }
}
