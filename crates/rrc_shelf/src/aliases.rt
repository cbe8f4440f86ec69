// SPDX-License-Identifier: MIT
ghost use Rattle.std.specs.Prelude.{◌≡◌, true, false};
ghost use Rattle.std.specs.Option.{option_map};
ghost use Rattle.rrc_cache.specs.Lookups.{TellsLookup};
ghost use Rattle.rrc_cache.specs.Seeds.{IsHashOf};
ghost use Rattle.rrc_shelf.specs.Asks.{alias_ask, alias_mode, ask_or_alias, has_data, has_failed, is_beside_alias, is_preferred};
ghost use Rattle.rrc_history.specs.Views.{ask_in, held_in, reply_in};

use rrc_cache::{Lookup, NameHash};
use rrc_history::{AskRef, Held, Mode, ReplyRef, governing};
use rrc_name::rtype::{ANY, CNAME};
use rrc_share::CacheShelf;

/// A signature (RFC 4034 section 3).
const RRSIG: u16 = 46;

/// The next name of a zone, and the types of a name (RFC 4034 section 4).
const NSEC: u16 = 47;

/// Whether a type stands beside an alias: it does not lead on to another name (RFC 1034 section
/// 4.3.2, RFC 4035 section 2.5).
fn is_beside_alias(rtype: u16) -> bool
    ensures { result ≡ is_beside_alias rtype }
{
    rtype == CNAME || rtype == ANY || rtype == RRSIG || rtype == NSEC
}

fn has_failed(reply: ReplyRef<'_>) -> bool
    ensures { result ≡ has_failed (reply_in reply.entry) }
{
    match reply {
        ReplyRef::Stale { .. } => true,
        ReplyRef::Miss { retry_from } => retry_from.is_some(),
        _ => false,
    }
}

fn has_data(reply: ReplyRef<'_>) -> bool
    ensures { result ≡ has_data (reply_in reply.entry) }
{
    matches!(reply, ReplyRef::Fresh { .. } | ReplyRef::Stale { .. })
}

fn alias_mode(mode: Mode, reply: ReplyRef<'_>) -> Mode
    ensures { result ≡ alias_mode mode (reply_in reply.entry) }
{
    match mode {
        Mode::Failed if has_failed(reply) => Mode::Now,
        Mode::Failed => Mode::NoStale,
        mode => mode,
    }
}

/// The question for the name's CNAME record, behind a reply to the question for the type.
fn alias_ask<'a>(ask: AskRef<'a>, reply: ReplyRef<'_>) -> AskRef<'a>
    ensures { ask_in result ≡ alias_ask (ask_in ask.entry) (reply_in reply.entry) }
{
    AskRef {
        name: ask.name,
        class: ask.class,
        rtype: CNAME,
        moment: ask.moment,
        purpose: ask.purpose,
        mode: alias_mode(ask.mode, reply),
    }
}

/// Whether the record governs over what answers for the type.
fn is_preferred(alias: Option<Held<'_>>, other: Option<Held<'_>>, moment: u64) -> bool
    ensures { result ≡ is_preferred (option_map held_in alias.entry) (option_map held_in other.entry) moment }
{
    match (alias, governing(other, alias, moment)) {
        (Some(alias), Some(one)) => alias.number == one.number,
        _ => false,
    }
}

/// The question itself, or that for the name's CNAME record where this is to be told in place of
/// what there is of the type, with what the shelf tells of it. It takes no memory.
#[tactic(auto, unfolding(crate::specs::Asks::ask_or_alias))]
pub(crate) fn ask_or_alias<'a, 's>(
    shelf: &'s CacheShelf,
    ask: AskRef<'a>,
    hash: NameHash,
) -> (AskRef<'a>, Lookup<'s>)
    requires { IsHashOf hash (ask_in ask).name }
    ensures chosen { ask_in result.0 ≡ ask_or_alias shelf.now (ask_in ask.entry) }
    ensures name { (ask_in result.0).name ≡ (ask_in ask.entry).name }
    ensures moment { (ask_in result.0).moment ≡ (ask_in ask.entry).moment }
    ensures lookup { TellsLookup shelf.now.shelf.part (ask_in result.0) result.1 }
{
    let of_type = shelf.lookup(ask, hash);
    if is_beside_alias(ask.rtype) {
        return (ask, of_type);
    }
    let alias = alias_ask(ask, of_type.reply);
    let of_alias = shelf.lookup(alias, hash);
    if has_data(of_alias.reply) && is_preferred(of_alias.entry, of_type.entry, ask.moment) {
        (alias, of_alias)
    } else {
        (ask, of_type)
    }
}
