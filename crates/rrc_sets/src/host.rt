// SPDX-License-Identifier: MIT
ghost use Rattle.std.specs.Prelude.{◌≡◌, ◌++◌, IfOk, OnOk, map, take, drop, filter, [], ◌∷◌};
ghost use Rattle.std.specs.List.{list_any, flat_map};
ghost use Rattle.rrc_name.specs.Wire.{same_name};
ghost use Rattle.rrc_sets.specs.Relevant.{is_set_of, host_place, hosts_of, hosts_named};
ghost use Rattle.rrc_sets.specs.Uniques.{uniques};

use crate::alias::same;
use crate::measure::{is_set_of, items_of};
use rrc_history::Offer;
use rrc_name::Octets;
use rrc_name::rtype::{MX, NS, SRV};
use std::alloc::{AllocError, Global};

/// Where the name of a host stands in the data of an RRset, if they name one.
fn host_place(offer: &Offer) -> Option<usize>
    ensures { result ≡ host_place offer.now }
{
    if is_set_of(NS, offer) {
        Some(0)
    } else if is_set_of(MX, offer) {
        Some(2)
    } else if is_set_of(SRV, offer) {
        Some(6)
    } else {
        None
    }
}

/// The octets from a place on; none where there are no more.
fn behind(octets: &[u8], place: usize) -> &[u8]
    ensures { result.now ≡ drop place octets.now }
{
    if place < octets.len() {
        &octets[place..]
    } else {
        &[]
    }
}

/// Whether one of some hosts is the same as another one.
fn has_host(hosts: &[Octets], other: &[u8]) -> bool
    ensures { result ≡ list_any (λ host. same_name host other.now) hosts.now }
{
    hosts.iter().any(|host| same(host.as_slice(), other))
}

/// Puts a host behind the others, where there is room and none of these is the same.
fn add_host(
    alloc: Global,
    hosts: &mut Vec<Octets>,
    host: &[u8],
    most: usize,
) -> Result<(), AllocError>
    requires { hosts.old.items ≡ take most (uniques same_name hosts.old.items) }
    ensures { OnOk result (hosts.new.items ≡ take most (uniques same_name (hosts.old.items ++ host.now ∷ []))) }
{
    if hosts.len() >= most || has_host(hosts.as_slice(), host) {
        return Ok(());
    }
    Ok(hosts.push(Octets::from_slice(alloc, host)?)?)
}

/// Puts the hosts whose names stand at a place in some data behind the others, each once, while
/// they are not too many.
fn add_hosts(
    alloc: Global,
    hosts: &mut Vec<Octets>,
    items: &[Octets],
    place: usize,
    most: usize,
) -> Result<(), AllocError>
    requires { hosts.old.items ≡ take most (uniques same_name hosts.old.items) }
    ensures { OnOk result (hosts.new.items ≡ take most (uniques same_name (hosts.old.items ++ map (drop place) items.now))) }
{
    for item in items {
        add_host(alloc, hosts, behind(item.as_slice(), place), most)?;
    }
    Ok(())
}

/// Puts the hosts that an offer names behind the others, each once, while they are not too many.
fn add_hosts_of(
    alloc: Global,
    hosts: &mut Vec<Octets>,
    offer: &Offer,
    most: usize,
) -> Result<(), AllocError>
    requires { hosts.old.items ≡ take most (uniques same_name hosts.old.items) }
    ensures { OnOk result (hosts.new.items ≡ take most (uniques same_name (hosts.old.items ++ hosts_of offer.now))) }
{
    match host_place(offer) {
        Some(place) => add_hosts(alloc, hosts, items_of(&offer.body), place, most),
        None => Ok(()),
    }
}

/// The hosts that NS RRsets name, in wire form, each once, so many at most.
fn servers_named(alloc: Global, offers: &[Offer], most: usize) -> Result<Vec<Octets>, AllocError>
    ensures { IfOk result (λ hosts. hosts.items ≡ take most (uniques same_name (flat_map hosts_of (filter (is_set_of 2) offers.now)))) }
{
    let mut hosts = Vec::new(alloc);
    for offer in offers {
        if is_set_of(NS, offer) {
            add_hosts_of(alloc, &mut hosts, offer, most)?;
        }
    }
    Ok(hosts)
}

/// The hosts that offers name, in wire form, those of NS RRsets first, each once, so many at most.
#[tactic(auto, unfolding(crate::specs::Relevant::hosts_named))]
pub(crate) fn hosts_named(
    alloc: Global,
    offers: &[Offer],
    most: u8,
) -> Result<Vec<Octets>, AllocError>
    ensures { IfOk result (λ hosts. hosts.items ≡ hosts_named most offers.now) }
{
    let most = usize::from(most);
    let mut hosts = servers_named(alloc, offers, most)?;
    for offer in offers {
        if !is_set_of(NS, offer) {
            add_hosts_of(alloc, &mut hosts, offer, most)?;
        }
    }
    Ok(hosts)
}
