// SPDX-License-Identifier: MIT
ghost use Rattle.std.specs.Prelude.{◌≡◌, ◌≤◌, ◌∷◌, [], true, IfErr, IfOk, OnOk};
ghost use Rattle.rrc_cache.specs.Seeds.{IsHashOf};
ghost use Rattle.rrc_shelf.specs.Asks.{asked, octets_of, mode_of, purpose_of, AreChoices};
ghost use Rattle.rrc_shelf.specs.Checks.{number_of, unless, Passes, Refuses};
ghost use Rattle.rrc_shelf.specs.Refusals.{folded_checks, may_be_known, question_checks};
ghost use Rattle.rrc_history.specs.Views.{ask_in};
ghost use Rattle.rrc_name.specs.Key.{IsFolded};
ghost use Rattle.rrc_name.specs.NameRef.{name_in};

use crate::folded_name::FoldedName;
use crate::names::lent;
use crate::status::Status;
use crate::terms::Question;
use rrc_cache::NameHash;
use rrc_history::{AskRef, Mode, Purpose};
use rrc_name::NameRef;
use rrc_wire::is_kept_class;

#[inline(always)]
fn purpose_of(number: u32) -> Purpose
    ensures { result ≡ purpose_of number }
{
    if number == 1 {
        Purpose::Any
    } else {
        Purpose::Answer
    }
}

#[inline(always)]
fn mode_of(number: u32) -> Mode
    ensures { result ≡ mode_of number }
{
    if number == 1 {
        Mode::NoStale
    } else if number == 2 {
        Mode::Failed
    } else {
        Mode::Now
    }
}

/// Whether anything may ever be known of such a question.
#[tactic(auto, unfolding(crate::specs::Refusals::may_be_known))]
#[inline(always)]
fn may_be_known(rtype: u16, class: u16) -> bool
    ensures { result ≡ may_be_known rtype class }
{
    is_kept_class(class) && rtype != 0
}

/// Whether a purpose and a mode have these numbers.
#[inline(always)]
fn check_choices(purpose: u32, mode: u32) -> Result<(), Status>
    ensures fit { OnOk result (AreChoices purpose mode) }
    ensures refused { IfErr result (λ status. Refuses (unless Status.BadChoice (AreChoices purpose mode) ∷ []) (number_of status)) }
{
    if !(1..=2).contains(&purpose) || !(1..=3).contains(&mode) {
        return Err(Status::BadChoice);
    }
    Ok(())
}

/// Whether anything may ever be known of a type in a class.
#[inline(always)]
pub(crate) fn check_kind(rtype: u16, class: u16) -> Result<(), Status>
    ensures fit { OnOk result (may_be_known rtype class ≡ true) }
    ensures refused { IfErr result (λ status. Refuses (unless Status.BadType (may_be_known rtype class ≡ true) ∷ []) (number_of status)) }
{
    if !may_be_known(rtype, class) {
        return Err(Status::BadType);
    }
    Ok(())
}

/// The name that is asked about, lent with its hash, which has to be under this seed.
#[inline(always)]
pub(crate) fn name_under<'a>(
    name: &'a FoldedName,
    seed: &[u8; 16],
) -> Result<(NameRef<'a>, NameHash), Status>
    ensures name { IfOk result (λ lent. name_in lent.0 ≡ octets_of name.now) }
    ensures low { IfOk result (λ lent. IsFolded (name_in lent.0)) }
    ensures hash { IfOk result (λ lent. IsHashOf lent.1 (name_in lent.0)) }
    ensures fit { OnOk result (Passes (folded_checks name.now seed.now)) }
    ensures refused { IfErr result (λ status. Refuses (folded_checks name.now seed.now) (number_of status)) }
{
    let Some(lent) = lent(name) else {
        return Err(Status::BadName);
    };
    if name.seed != *seed {
        return Err(Status::OtherSeed);
    }
    Ok(lent)
}

/// The question that C asks of a shelf whose names are hashed under this seed, with the hash of its
/// name. It takes no memory.
#[inline(always)]
pub(crate) fn question_of<'a>(
    name: &'a FoldedName,
    question: &Question,
    seed: &[u8; 16],
) -> Result<(AskRef<'a>, NameHash), Status>
    ensures question { IfOk result (λ both. ask_in both.0 ≡ asked name.now question.now) }
    ensures hash { IfOk result (λ both. IsHashOf both.1 (ask_in both.0).name) }
    ensures fit { OnOk result (Passes (question_checks name.now question.now seed.now)) }
    ensures refused { IfErr result (λ status. Refuses (question_checks name.now question.now seed.now) (number_of status)) }
{
    check_choices(question.purpose, question.mode)?;
    check_kind(question.rtype, question.rclass)?;
    let (name, hash) = name_under(name, seed)?;
    let ask = AskRef {
        name,
        class: question.rclass,
        rtype: question.rtype,
        moment: question.moment,
        purpose: purpose_of(question.purpose),
        mode: mode_of(question.mode),
    };
    Ok((ask, hash))
}
