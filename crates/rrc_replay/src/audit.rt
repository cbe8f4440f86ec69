// SPDX-License-Identifier: MIT
ghost use Rattle.std.specs.Prelude.{◌≡◌, IfErr};

use rrc_cache::{RecheckFault, recheck_seeded};
use rrc_history::Whole;
use rrc_trace::ReplayFault;
use std::alloc::Global;

/// Whether the history of a replay is audited.
#[derive(Clone, Copy, Debug, PartialEq, Eq)]
pub enum Audit {
    /// The answers are told as they are.
    Skipped,
    /// Each call is made again first, and what that writes is compared with the history.
    Made,
}

/// Makes each call of a part's whole history again, and compares what that writes
/// (`rrc_cache::recheck`). It finds the history legal, as each part's is, unless memory is refused:
/// `NotLegal` never comes.
fn audit_whole(alloc: Global, whole: &Whole, seed: [u8; 16]) -> Result<(), ReplayFault>
    ensures { IfErr result (λ fault. fault ≡ ReplayFault.Memory) }
{
    match recheck_seeded(alloc, &whole.snapshot, whole.events.as_slice(), seed) {
        Ok(()) => Ok(()),
        Err(RecheckFault::FirstBad(_)) => Err(ReplayFault::NotLegal),
        Err(RecheckFault::Memory) => Err(ReplayFault::Memory),
    }
}

/// Audits the whole history of each part, where that is wanted.
pub(crate) fn audit_all(
    alloc: Global,
    wholes: &[Whole],
    seed: [u8; 16],
    audit: Audit,
) -> Result<(), ReplayFault>
    ensures { IfErr result (λ fault. fault ≡ ReplayFault.Memory) }
{
    match audit {
        Audit::Skipped => {}
        Audit::Made => {
            for whole in wholes {
                audit_whole(alloc, whole, seed)?;
            }
        }
    }
    Ok(())
}
