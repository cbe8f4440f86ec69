// SPDX-License-Identifier: MIT
ghost use Rattle.rrc_cache.specs.Recording.{RecordsChain};

use crate::lean::LeanPart;
use crate::refusal::Refusal;
use thiserror::Error;

/// Why a part does not record, and that part, which is as it was.
#[derive(Debug, Drop, Error)]
#[error("{refusal}")]
pub struct NotRecorded {
    pub part: LeanPart,
    pub refusal: Refusal,
}

/// Where a part stops recording and records again, with no event between, the chapters before chain
/// with those after it, and with one chapter between them that has no events and ends with what it
/// began with. The function does nothing; its contract is the law.
pub fn records_chain_where_nothing_lies_between()
    ensures { RecordsChain }
{}
