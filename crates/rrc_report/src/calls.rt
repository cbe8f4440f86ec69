// SPDX-License-Identifier: MIT
ghost use Rattle.std.specs.Prelude.{◌≡◌, ◌≢◌, ◌<◌, ◌≤◌, ℕ, Ok, Err, IfOk, IfErr, OnOk};
ghost use Rattle.rrc_history.specs.Lives.{LAST_MOMENT};
ghost use Rattle.rrc_report.specs.Called.{CallMade, Offered, Asked, Swept, Closed};

use rrc_cache::Refusal;
use rrc_history::{Ask, Offer, Outcome, Reply, Tag};
use std::alloc::{AllocError, AllocFailed};

/// Why a line could not be answered.
#[derive(Clone, Copy, Debug)]
pub enum Refused {
    /// The numbers of a part are spent.
    Spent,
    Memory,
}

impl From<AllocError> for Refused {
    fn from(_refused: AllocError) -> Refused {
        Refused::Memory
    }
}

impl<T: Drop> From<AllocFailed<T>> for Refused {
    fn from(_refused: AllocFailed<T>) -> Refused {
        Refused::Memory
    }
}

/// The calls that a line makes on a cache of several parts. The moment of each is one that a part
/// takes, as that of each line is.
///
/// What a call does, and what it may answer, is for each cache to say, by the relation `makes`. A
/// function that is generic over caches knows of it only that a call that was answered leads by it
/// from the cache before that call to the cache after it. So where its clauses tell of a chain of
/// calls that leads from the cache before to the cache after, it made just these calls, in this
/// order.
pub trait Calls {
    ghost count: { Self → ℕ };

    // This call, with this answer, leads from the one cache to the other.
    ghost makes: { Self → CallMade → Self → Type 0 };

    /// How many parts there are.
    fn parts(&self) -> usize
        ensures { result ≡ count self.now };

    /// Makes an offer to the part that its name lies in.
    fn offer(&mut self, tag: Tag, offer: Offer) -> Result<Outcome, Refused>
        requires { offer.moment ≤ LAST_MOMENT }
        ensures { IfOk result (λ outcome. makes self.old (Offered tag offer outcome) self.new) };

    /// Asks the part that the name lies in.
    fn ask(&mut self, tag: Tag, ask: &Ask) -> Result<Reply, Refused>
        requires { ask.now.moment ≤ LAST_MOMENT }
        ensures { IfOk result (λ reply. makes self.old (Asked tag ask.now reply) self.new) };

    /// Sweeps a part, and counts the keys that went from it.
    fn sweep_part(&mut self, part: usize, tag: Tag, moment: u64) -> Result<usize, Refused>
        requires below { part < count self.old }
        requires timely { moment ≤ LAST_MOMENT }
        ensures count { count self.new ≡ count self.old }
        ensures ok { IfOk result (λ gone. makes self.old (Swept part tag moment gone) self.new) };

    /// Closes the chapter of a part.
    fn close_part(&mut self, part: usize) -> Result<(), Refused>
        requires { part < count self.old }
        ensures count { count self.new ≡ count self.old }
        ensures ok { OnOk result (makes self.old (Closed part) self.new) };
}

/// What a call on a part answered, or why its line could not be answered. No line has a moment that
/// is too large.
pub fn called<T: Drop>(made: Result<T, Refusal>) -> Result<T, Refused>
    requires { IfErr made (λ refusal. refusal ≢ Refusal.MomentTooLarge) }
    ensures ok { IfOk result (λ answer. made ≡ Ok answer) }
    ensures spent { result ≡ Err Refused.Spent → made ≡ Err Refusal.HistoryFull }
    ensures memory { result ≡ Err Refused.Memory → made ≡ Err Refusal.Memory }
{
    match made {
        Ok(answer) => Ok(answer),
        Err(Refusal::HistoryFull) => Err(Refused::Spent),
        Err(Refusal::MomentTooLarge) => unreachable!(),
        Err(Refusal::Memory) => Err(Refused::Memory),
    }
}
