// SPDX-License-Identifier: MIT
ghost use Rattle.std.specs.Prelude.{◌≡◌, ◌↔◌, length, drop, IsTrue};
ghost use Rattle.rrc_name.specs.Order.{label_order, canonical_order, outweighed, IsAtOrBelow, is_at_or_below};
ghost use Rattle.rrc_name.specs.Wire.{labels_of, IsWireForm, IsSameName};

use crate::label::first_label;
use std::cmp::Ordering;

fn order_of_labels(a: &[u8], b: &[u8]) -> Ordering
    ensures { result ≡ label_order a.now b.now }
{
    a.iter()
        .map(|octet| octet.to_ascii_lowercase())
        .cmp(b.iter().map(|octet| octet.to_ascii_lowercase()))
}

fn label_count(name: &[u8]) -> usize
    requires { IsWireForm name.now }
    ensures { result ≡ length (labels_of name.now) }
{
    let mut count = 0;
    let mut rest = name;
    while let Some((_, behind)) = first_label(rest) {
        count += 1;
        rest = behind;
    }
    count
}

/// The name behind the first labels of a name.
fn behind_labels(name: &[u8], count: usize) -> &[u8]
    requires { IsWireForm name.now }
    ensures labels { labels_of result.now ≡ drop count (labels_of name.now) }
    ensures is_name { IsWireForm result.now }
{
    let mut rest = name;
    for _passed in 0..count {
        match first_label(rest) {
            Some((_, behind)) => rest = behind,
            None => return rest,
        }
    }
    rest
}

/// Reads two names with as many labels from the left, and puts each label's order before the order
/// found so far.
fn outweigh(a: &[u8], b: &[u8], order: Ordering) -> Ordering
    requires a_name { IsWireForm a.now }
    requires b_name { IsWireForm b.now }
    ensures { result ≡ outweighed order (labels_of a.now) (labels_of b.now) }
{
    let mut order = order;
    let (mut a, mut b) = (a, b);
    while let Some((label, behind)) = first_label(a) {
        // Names of one zone end alike, and labels that are alike weigh nothing.
        if a == b {
            return order;
        }
        let Some((other, behind_other)) = first_label(b) else {
            return order;
        };
        order = order_of_labels(label, other).then(order);
        a = behind;
        b = behind_other;
    }
    order
}

/// The canonical order of two names.
pub(crate) fn order_of_names(a: &[u8], b: &[u8]) -> Ordering
    requires a_name { IsWireForm a.now }
    requires b_name { IsWireForm b.now }
    ensures { result ≡ canonical_order a.now b.now }
{
    let (count, other) = (label_count(a), label_count(b));
    let a = behind_labels(a, count.saturating_sub(other));
    let b = behind_labels(b, other.saturating_sub(count));
    outweigh(a, b, count.cmp(&other))
}

/// Whether octets are the same but for the case of letters. Most names that are compared are
/// spelled alike, and to see that is quicker.
pub(crate) fn is_same(a: &[u8], b: &[u8]) -> bool
    ensures { IsTrue result ↔ IsSameName a.now b.now }
{
    if a == b {
        return true;
    }
    a.eq_ignore_ascii_case(b)
}

/// Whether a name is at or below a zone.
pub(crate) fn is_within(name: &[u8], zone: &[u8]) -> bool
    requires name_name { IsWireForm name.now }
    requires zone_name { IsWireForm zone.now }
    ensures value { result ≡ is_at_or_below name.now zone.now }
    ensures meaning { IsTrue result ↔ IsAtOrBelow name.now zone.now }
{
    let (count, zone_count) = (label_count(name), label_count(zone));
    count >= zone_count && is_same(behind_labels(name, count - zone_count), zone)
}
