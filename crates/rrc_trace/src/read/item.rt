// SPDX-License-Identifier: MIT
ghost use Rattle.std.specs.Prelude.{◌≡◌, ◌==◌, ℕ, [], not, IfOk, OnOk};
ghost use Rattle.std.specs.List.{list_any};
ghost use Rattle.rrc_wire.specs.SameRdata.{same_rdata};
ghost use Rattle.rrc_trace.specs.Grammar.{with_item};
ghost use Rattle.rrc_trace.specs.Repeats.{FindsRepeats};
ghost use Rattle.rrc_trace.specs.Items.{item_of, with_piece, items_of};
ghost use Rattle.rrc_text.specs.Fields.{said_at};
ghost use Rattle.rrc_text.specs.Gives.{Gives};

use rrc_name::{Octets, Sequence};
use rrc_text::{LineFault, cut_at_comma, field_at, octets_in};
use rrc_wire::{WireFault, lowered_rdata, plain_rdata, same_rdata};
use std::alloc::{AllocError, Global};
use std::collections::BTreeSet;

/// The most items that a put may have.
const MOST_ITEMS: usize = 256;

/// Each of so many items is compared with those before it. Of more, repeats are found by a tree, so
/// that the time of a line grows little faster than its octets.
const FEW_ITEMS: usize = 8;

/// An item in hexadecimal: plain data of a type.
fn item_in(alloc: Global, rtype: u16, piece: &[u8]) -> Result<Octets, LineFault>
    ensures { Gives (λ item. item) result (item_of rtype piece.now) }
{
    let octets = octets_in(alloc, piece)?;
    match plain_rdata(alloc, rtype, octets.as_slice()) {
        Ok(item) => Ok(item),
        Err(WireFault::Memory) => Err(LineFault::Memory),
        Err(_) => Err(LineFault::NotOne),
    }
}

/// Whether one of some items is the same as this one.
fn has_same(rtype: u16, items: &[Octets], item: &[u8]) -> bool
    ensures { result ≡ list_any (same_rdata rtype item.now) items.now }
{
    items
        .iter()
        .any(|other| same_rdata(rtype, item, other.as_slice()))
}

/// How many commas there are. It says only what room to ask for.
fn commas_in(octets: &[u8]) -> usize {
    let mut count: usize = 0;
    for &octet in octets {
        count = count.wrapping_add(usize::from(octet == b','));
    }
    count
}

/// A tree for so many items, with none of them in it yet, or no tree where they are few.
fn tree_for(alloc: Global, most: usize) -> Option<BTreeSet<Vec<u8>>>
    ensures { (rtype : ℕ) → FindsRepeats rtype result [] }
{
    if most > FEW_ITEMS {
        Some(BTreeSet::new(alloc))
    } else {
        None
    }
}

/// Whether none of some items is the same as this one. Where there is a tree, it has this item too
/// from then on, with the letters of its names lowered.
fn is_new(
    alloc: Global,
    rtype: u16,
    tree: &mut Option<BTreeSet<Vec<u8>>>,
    items: &[Octets],
    item: &[u8],
) -> Result<bool, AllocError>
    requires { FindsRepeats rtype tree.old items.now }
    ensures new { IfOk result (λ is. is ≡ not (list_any (same_rdata rtype item.now) items.now)) }
    ensures finds { OnOk result (FindsRepeats rtype tree.new (with_item rtype items.now item.now)) }
{
    match tree {
        Some(tree) => Ok(tree.insert(lowered_rdata(alloc, rtype, item)?.into_vec()?)?),
        None => Ok(!has_same(rtype, items, item)),
    }
}

/// Puts the item of a piece behind the others, where none of them is the same.
fn add_item(
    alloc: Global,
    rtype: u16,
    tree: &mut Option<BTreeSet<Vec<u8>>>,
    items: &mut Sequence<Octets>,
    piece: &[u8],
) -> Result<(), LineFault>
    requires { FindsRepeats rtype tree.old items.old }
    ensures items { Gives (λ _. items.new) result (with_piece rtype items.old piece.now) }
    ensures finds { OnOk result (FindsRepeats rtype tree.new items.new) }
{
    let item = item_in(alloc, rtype, piece)?;
    if is_new(alloc, rtype, tree, items.as_slice(), item.as_slice())? {
        items.push(item)?;
    }
    Ok(())
}

/// The items of a type that a field spells, 256 at most with repeats. Of the same data the first
/// spelling stays.
fn items_in(alloc: Global, rtype: u16, field: &[u8]) -> Result<Sequence<Octets>, LineFault>
    ensures { Gives (λ items. items) result (items_of rtype field.now) }
{
    // No room to spare: a trace may have as many of these lists as lines.
    let most = commas_in(field).min(MOST_ITEMS - 1) + 1;
    let mut items = Sequence::from_vec(Vec::with_capacity(alloc, most)?);
    let mut tree = tree_for(alloc, most);
    let mut rest = field;
    for _seen in 0..MOST_ITEMS {
        match cut_at_comma(rest) {
            Some((piece, more)) => {
                add_item(alloc, rtype, &mut tree, &mut items, piece)?;
                rest = more;
            }
            None => {
                add_item(alloc, rtype, &mut tree, &mut items, rest)?;
                return Ok(items);
            }
        }
    }
    Err(LineFault::NotOne)
}

/// The items of a type that the first field spells, and the octets behind it.
pub(crate) fn items_at(
    alloc: Global,
    rtype: u16,
    octets: &[u8],
) -> Result<(Sequence<Octets>, &[u8]), LineFault>
    ensures { Gives (λ found. (found.0, found.1.now)) result (said_at (items_of rtype) octets.now) }
{
    let (field, rest) = field_at(octets)?;
    Ok((items_in(alloc, rtype, field)?, rest))
}
