// SPDX-License-Identifier: MIT
ghost use Rattle.std.specs.Prelude.{◌≡◌, ◌∷◌, ◌++◌, [], decimal};
ghost use Rattle.rrc_name.specs.Text.{text_of};
ghost use Rattle.rrc_history.specs.Lives.{rank};
ghost use Rattle.rrc_archive.specs.Archive.{key_fields, tag_fields, body_fields};
ghost use Rattle.rrc_archive.specs.Archive.{keys_fields, evicted_fields};
ghost use Rattle.rrc_text.specs.Grammar.{purpose_word, mode_word};
ghost use Rattle.rrc_text.specs.Output.{Puts};

use rrc_history::{Body, Mode, Purpose, Tag, Trust};
use rrc_name::{Key, Name};
use rrc_text::{Output, put_class, put_item, put_items, put_name, put_number, put_slot, put_word};
use std::io::Write;

pub(crate) fn purpose_word(purpose: Purpose) -> &'static str
    ensures { result.now ≡ purpose_word purpose }
{
    match purpose {
        Purpose::Any => "any",
        Purpose::Answer => "answer",
    }
}

pub(crate) fn mode_word(mode: Mode) -> &'static str
    ensures { result.now ≡ mode_word mode }
{
    match mode {
        Mode::NoStale => "none",
        Mode::Failed => "failed",
        Mode::Now => "now",
    }
}

/// A key: its name, and behind a space its slot and its class.
pub(crate) fn put_key_fields<W: Write>(output: &mut Output<'_, W>, key: &Key)
    ensures { Puts W.contents output.old output.new (key_fields key.now) }
{
    put_name(output, &key.name);
    put_word(output, " ");
    put_slot(output, key.slot);
    put_class(output, key.class);
}

/// What the caller calls the call by.
pub(crate) fn put_tag<W: Write>(output: &mut Output<'_, W>, tag: Tag)
    ensures { Puts W.contents output.old output.new (tag_fields tag) }
{
    put_number(output, tag.line);
    put_word(output, " ");
    put_number(output, tag.place);
}

/// What the data of a body have in front of them: trust, time to live and owner, with a space
/// behind each.
fn put_source<W: Write>(output: &mut Output<'_, W>, trust: Trust, ttl: u32, owner: &Name)
    ensures { Puts W.contents output.old output.new (decimal (rank trust) ++ (32 ∷ (decimal ttl ++ (32 ∷ (text_of owner.now ++ 32 ∷ []))))) }
{
    put_number(output, u64::from(trust.rank()));
    put_word(output, " ");
    put_number(output, u64::from(ttl));
    put_word(output, " ");
    put_name(output, owner);
    put_word(output, " ");
}

pub(crate) fn put_body<W: Write>(output: &mut Output<'_, W>, body: &Body)
    ensures { Puts W.contents output.old output.new (body_fields body.now) }
{
    match body {
        Body::Positive {
            trust,
            ttl,
            owner,
            items,
        } => {
            put_word(output, "set ");
            put_source(output, *trust, *ttl, owner);
            put_items(output, items.as_slice());
        }
        Body::Negative {
            trust,
            ttl,
            soa_owner,
            soa,
        } => {
            put_word(output, "negative ");
            put_source(output, *trust, *ttl, soa_owner);
            put_item(output, soa);
        }
        Body::Failure { ttl } => {
            put_word(output, "failure ");
            put_number(output, u64::from(*ttl));
        }
    }
}

/// Keys, each behind a space.
pub(crate) fn put_keys<W: Write>(output: &mut Output<'_, W>, keys: &[Key])
    ensures { Puts W.contents output.old output.new (keys_fields keys.now) }
{
    for key in keys {
        put_word(output, " ");
        put_key_fields(output, key);
    }
}

/// The key that an offer evicted, behind a space, if it evicted one.
pub(crate) fn put_evicted<W: Write>(output: &mut Output<'_, W>, evicted: &Option<Key>)
    ensures { Puts W.contents output.old output.new (evicted_fields evicted.now) }
{
    match evicted {
        None => {}
        Some(key) => {
            put_word(output, " ");
            put_key_fields(output, key);
        }
    }
}
