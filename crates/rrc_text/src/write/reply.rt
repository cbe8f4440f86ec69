// SPDX-License-Identifier: MIT
ghost use Rattle.std.specs.Prelude.{◌≡◌};
ghost use Rattle.rrc_text.specs.Output.{Puts};
ghost use Rattle.rrc_text.specs.Replies.{outcome_text, item_text, items_text, set_text, soa_text, slot_text, class_text, reply_text};

use crate::write::output::Output;
use crate::write::pieces::{put_name, put_number, put_octets, put_word};
use rrc_history::{Outcome, Reply, RrSet, Soa};
use rrc_name::class::IN;
use rrc_name::{Octets, Slot};
use std::io::Write;

/// The word of what became of an offer.
pub fn outcome_word(outcome: Outcome) -> &'static str
    ensures { result.now ≡ outcome_text outcome }
{
    match outcome {
        Outcome::Kept => "kept",
        Outcome::Cleared => "cleared",
        Outcome::LessTrusted => "less",
    }
}

/// The slot of a key: its type, `nx`, or `failed` and its type.
pub fn put_slot<W: Write>(output: &mut Output<'_, W>, slot: Slot)
    ensures { Puts W.contents output.old output.new (slot_text slot) }
{
    match slot {
        Slot::Set(rtype) => put_number(output, u64::from(rtype)),
        Slot::Nx => put_word(output, "nx"),
        Slot::Failed(rtype) => {
            put_word(output, "failed");
            put_number(output, u64::from(rtype));
        }
    }
}

/// The class of a key, where it is another one than IN.
pub fn put_class<W: Write>(output: &mut Output<'_, W>, class: u16)
    ensures { Puts W.contents output.old output.new (class_text class) }
{
    if class != IN {
        put_word(output, "/");
        put_number(output, u64::from(class));
    }
}

/// Octets in hexadecimal, or a dash for none.
pub fn put_item<W: Write>(output: &mut Output<'_, W>, item: &Octets)
    ensures { Puts W.contents output.old output.new (item_text item.now) }
{
    if item.is_empty() {
        put_word(output, "-");
    } else {
        put_octets(output, item.as_slice());
    }
}

/// Items with a comma between two.
pub fn put_items<W: Write>(output: &mut Output<'_, W>, items: &[Octets])
    ensures { Puts W.contents output.old output.new (items_text items.now) }
{
    let Some((first, others)) = items.split_first() else {
        return;
    };
    put_item(output, first);
    for item in others {
        put_word(output, ",");
        put_item(output, item);
    }
}

/// The time that a set has to live, its owner and its data.
fn put_set<W: Write>(output: &mut Output<'_, W>, set: &RrSet, left: u32)
    ensures { Puts W.contents output.old output.new (set_text set.now left) }
{
    put_number(output, u64::from(left));
    put_word(output, " ");
    put_name(output, &set.owner);
    put_word(output, " ");
    put_items(output, set.items.as_slice());
}

/// The time that a negative answer has to live, and the owner and the data of its SOA record.
fn put_soa<W: Write>(output: &mut Output<'_, W>, soa: &Soa, left: u32)
    ensures { Puts W.contents output.old output.new (soa_text soa.now left) }
{
    put_number(output, u64::from(left));
    put_word(output, " ");
    put_name(output, &soa.owner);
    put_word(output, " ");
    put_item(output, &soa.octets);
}

/// A reply: its word, and behind it what it has.
pub fn put_reply<W: Write>(output: &mut Output<'_, W>, reply: &Reply)
    ensures { Puts W.contents output.old output.new (reply_text reply.now) }
{
    match reply {
        Reply::Fresh { set, left } => {
            put_word(output, "fresh ");
            put_set(output, set, *left);
        }
        Reply::Stale { set, left } => {
            put_word(output, "stale ");
            put_set(output, set, *left);
        }
        Reply::NoData { soa, left } => {
            put_word(output, "nodata ");
            put_soa(output, soa, *left);
        }
        Reply::NxDomain { soa, left } => {
            put_word(output, "nxdomain ");
            put_soa(output, soa, *left);
        }
        Reply::Miss { retry_from: None } => put_word(output, "miss"),
        Reply::Miss {
            retry_from: Some(moment),
        } => {
            put_word(output, "miss ");
            put_number(output, *moment);
        }
    }
}
