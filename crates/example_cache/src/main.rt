// SPDX-License-Identifier: MIT
//! What a resolver does with the cache: it reads a server's response to a query of its own, offers
//! what of it is relevant, and answers a client's question from the cache.
#![tactic(auto)]

use rrc_history::{Ask, Mode, Purpose, Reply, Rules, Tag};
use rrc_name::Name;
use rrc_name::class::IN;
use rrc_name::rtype::A;
use rrc_sets::{Limits, Query, RelevanceLimits, relevant_offers_in};
use rrc_share::{Recording, SharedCache};
use rrc_wire::Question;
use std::alloc::{AllocError, Global};
use std::random::RandomSource;
use std::sync::Wait;

/// The response of a server of `example.` to query 0x1234 for the addresses of `WWW.example.`:
/// authoritative, 192.0.2.1 with a TTL of 300.
static RESPONSE: [u8; 45] = [
    0x12, 0x34, 0x84, 0x00, 0, 1, 0, 1, 0, 0, 0, 0, 3, b'W', b'W', b'W', 7, b'e', b'x', b'a', b'm',
    b'p', b'l', b'e', 0, 0, A as u8, 0, IN as u8, 0xc0, 0x0c, 0, A as u8, 0, IN as u8, 0, 0, 0x01,
    0x2c, 0, 4, 192, 0, 2, 1,
];

/// A cache of 16 parts, with a seed that nobody can foresee. No part records its history.
fn new_cache<R: RandomSource>(rt: &R, alloc: Global) -> Option<SharedCache> {
    let mut seed = [0; 16];
    rt.fill_bytes(&mut seed).ok()?;
    // 65,536 keys in each part, chapters of 4,096 events, no data a day past their TTL.
    let rules = Rules::new(65_536, 4_096, 86_400)?;
    SharedCache::seeded(alloc, 16, rules, seed, Recording::Off).ok()
}

/// Offers what is relevant of the response, which came at a moment, and tells how many RRsets.
fn offer_relevant<R: Wait>(rt: &R, alloc: Global, cache: &SharedCache, now: u64) -> Option<usize> {
    let name = Name::from_text(alloc, "www.example.").ok()?;
    let zone = Name::from_text(alloc, "example.").ok()?;
    let question = Question {
        name,
        qtype: A,
        qclass: IN,
    };
    let query = Query {
        id: 0x1234,
        question,
        with_case: false,
    };
    // Data live a week at most, negative answers three hours, failures half a minute.
    let limits = Limits::new(604_800, 10_800, 30)?;
    let relevance = RelevanceLimits::default();
    let offers = relevant_offers_in(
        alloc, &RESPONSE, &query, &zone, now, &limits, &relevance,
    ).ok()?;
    let count = offers.len();
    for offer in offers {
        cache.offer(rt, Tag { line: 0, place: 0 }, offer).ok()?;
    }
    Some(count)
}

/// A client's question for the addresses of a name at a moment.
fn question(name: &Name, now: u64) -> Result<Ask, AllocError> {
    Ok(Ask {
        name: name.folded()?,
        class: IN,
        rtype: A,
        moment: now,
        purpose: Purpose::Answer,
        mode: Mode::NoStale,
    })
}

/// The reply to that question.
fn ask<R: Wait>(rt: &R, alloc: Global, cache: &SharedCache, name: &str, now: u64) -> Option<Reply> {
    let name = Name::from_text(alloc, name).ok()?;
    let ask = question(&name, now).ok()?;
    cache.ask(rt, Tag { line: 1, place: 0 }, &ask).ok()
}

/// Says what a reply is.
fn tell<R: Print>(rt: &R, reply: &Reply) -> Option<()> {
    match reply {
        Reply::Fresh { set, left } => {
            let owner = set.owner.to_text().ok()?;
            println!(rt; "{owner} {left} IN A, {} records", set.items.len()).ok()
        }
        Reply::Miss { .. } => println!(rt; "nothing").ok(),
        _ => println!(rt; "stale data or a negative answer").ok(),
    }
}

fn run<R: Wait + Print + AllocGlobal + RandomSource>(rt: &R) -> Option<()> {
    let alloc = rt.alloc();
    let cache = new_cache(rt, alloc)?;
    let offered = offer_relevant(rt, alloc, &cache, 1_000)?;
    println!(rt; "{offered} offered").ok()?;
    tell(rt, &ask(rt, alloc, &cache, "www.EXAMPLE.", 1_060)?)?;
    tell(rt, &ask(rt, alloc, &cache, "www.example.", 1_300)?)
}

fn main(rt: HostRuntime) -> Result<(), &'static str> {
    run(&rt).ok_or("memory, randomness or output was refused")
}
