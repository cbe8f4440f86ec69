// SPDX-License-Identifier: MIT
ghost use Rattle.std.specs.Prelude.{◌≡◌, List, [], ◌∷◌, IfOk, IfErr, IfSome, IfNone, OnOk};
ghost use Rattle.rrc_history.specs.Chains.{WholeOf};
ghost use Rattle.rrc_history.specs.Equality.{snapshot_eq};
ghost use Rattle.rrc_share.specs.Shelf.{ShelvesChapter};
ghost use Rattle.rrc_report.specs.Reports.{empty_under};
ghost use Rattle.rrc_report.specs.Steps.{ArePartHistories, CanNotClose};
ghost use Rattle.rrc_report.specs.Wholes.{IsKeptBy};

use rrc_cache::Refusal;
use rrc_history::{EntryList, Rules, Snapshot, Whole, join_chained};
use rrc_name::Sequence;
use rrc_share::{Shelf, on_shelf_checkpoint};
use rrc_trace::ReplayFault;
use std::alloc::Global;

/// Closes the last chapter of a shelf. `Spent` of the number of lines where it can't be closed.
fn shut(lines: u64, shelf: &mut Shelf) -> Result<(), ReplayFault>
    ensures ok { OnOk result (ShelvesChapter shelf.old shelf.new) }
    ensures err { IfErr result (CanNotClose lines (shelf.old ∷ [])) }
{
    match on_shelf_checkpoint(shelf) {
        Ok(()) => Ok(()),
        Err(Refusal::HistoryFull) => Err(ReplayFault::Spent(lines)),
        Err(Refusal::MomentTooLarge | Refusal::Memory) => Err(ReplayFault::Memory),
    }
}

/// The whole history of a shelf, over all its chapters. `Spent` of the number of lines where the
/// chapter that is open can't be closed.
fn whole_of(lines: u64, shelf: Shelf) -> Result<Whole, ReplayFault>
    ensures whole { IfOk result (IsKeptBy shelf) }
    ensures err { IfErr result (CanNotClose lines (shelf ∷ [])) }
{
    let mut shelf = shelf;
    shut(lines, &mut shelf)?;
    Ok(join_chained(shelf.take_chapters())?)
}

/// The snapshot of a new part, which holds nothing.
fn empty_under(alloc: Global, rules: Rules) -> Snapshot
    ensures { result ≡ empty_under rules }
{
    Snapshot {
        rules,
        first: 0,
        entries: EntryList::new(alloc),
    }
}

/// Whether a history begins with a snapshot, octet for octet.
fn begins_with(whole: &Whole, snapshot: &Snapshot) -> bool
    ensures { result ≡ snapshot_eq whole.now.snapshot snapshot.now }
{
    *whole.snapshot == *snapshot
}

/// The whole histories of shelves, over all their chapters, or `None` where one does not begin with
/// an empty part that has these rules. `Spent` of the number of lines where a part's last chapter
/// can't be closed.
pub(crate) fn wholes_of(
    alloc: Global,
    rules: &Rules,
    lines: u64,
    shelves: Vec<Shelf>,
) -> Result<Option<Sequence<Whole>>, ReplayFault>
    ensures some { IfOk result (λ found. IfSome found (λ wholes. ArePartHistories rules.now shelves.items wholes)) }
    ensures none { IfOk result (λ found. IfNone found ((wholes : List WholeOf) → ArePartHistories rules.now shelves.items wholes → ⊥)) }
    ensures err { IfErr result (CanNotClose lines shelves.items) }
{
    let empty = empty_under(alloc, *rules);
    let mut wholes = Vec::with_capacity(alloc, shelves.len())?;
    for shelf in shelves {
        let whole = whole_of(lines, shelf)?;
        if !begins_with(&whole, &empty) {
            return Ok(None);
        }
        wholes.push(whole)?;
    }
    Ok(Some(Sequence::from_vec(wholes)))
}
