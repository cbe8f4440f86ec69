// SPDX-License-Identifier: MIT
use super::{AA, Held, TAG, key, name, offer, question_at, rules};
use rrc_cache::{LeanPart, Lookup, NameHash, Part};
use rrc_history::{Body, Offer, Trust};
use rrc_name::{Octets, Shared, Slot};
use std::alloc::Global;
use std::process::Abort;

/// The seed of the part.
const OWN: [u8; 16] = [7; 16];

/// The seed of nothing.
const OTHER: [u8; 16] = [8; 16];

/// A low trust that answers.
const LOW: Trust = Trust::NonAuthoritativeAnswer;

/// What is told of an ask: the number, the moment and the trust of the entry that answers, if one
/// does, and its age.
type Told = (Option<(u64, u64, Trust)>, u64);

/// A name, and the moment at which its addresses are asked for.
type Asked<'a> = (&'a str, u64);

/// An offer at moment 11 that a name does not exist, as an SOA record of zeros says.
fn absent(rt: &impl Abort, alloc: Global, text: &str) -> Offer {
    let soa = Octets::from_slice(alloc, &[0; 22]).expect(rt, "no octets");
    let body = Body::Negative {
        trust: AA,
        ttl: 60,
        soa_owner: name(rt, alloc, "example."),
        soa: Shared::new(alloc, soa).expect(rt, "no data"),
    };
    Offer::new(key(rt, alloc, text, Slot::Nx), body, 11).expect(rt, "no offer")
}

/// A part with the addresses of three names, of which the first and the third were asked for, and
/// between these the second was learnt not to exist.
fn kept(rt: &impl Abort, alloc: Global) -> LeanPart {
    let mut part = LeanPart::seeded(alloc, rules(rt, 512), OWN).expect(rt, "no part");
    for (moment, text, trust) in [(10, "a.", AA), (10, "b.", AA), (11, "c.", LOW)] {
        let offered = offer(rt, alloc, (moment, text, Held::Address(trust, 60, 1)));
        part.offer(TAG, offered).expect(rt, "no outcome");
    }
    part.ask(TAG, &question_at(rt, alloc, "a.", 12))
        .expect(rt, "no reply");
    part.offer(TAG, absent(rt, alloc, "b."))
        .expect(rt, "no outcome");
    part.ask(TAG, &question_at(rt, alloc, "c.", 12))
        .expect(rt, "no reply");
    part
}

fn trust_of(body: &Body) -> Trust {
    match body {
        Body::Positive { trust, .. } | Body::Negative { trust, .. } => *trust,
        Body::Failure { .. } => Trust::Additional,
    }
}

fn told(lookup: Lookup<'_>) -> Told {
    match lookup.entry {
        Some(held) => {
            let trust = trust_of(held.body);
            (Some((held.number, held.moment, trust)), lookup.age)
        }
        None => (None, lookup.age),
    }
}

/// What a part tells of an ask by a hash under its own seed.
fn look_up(rt: &impl Abort, alloc: Global, part: &LeanPart, (text, moment): Asked<'_>) -> Told {
    let ask = question_at(rt, alloc, text, moment);
    let asked = ask.as_ref();
    told(part.lookup(asked, NameHash::of(OWN, asked.name)))
}

/// Whether a part replies the same by a hash under another seed, and tells the same.
fn is_same(rt: &impl Abort, alloc: Global, part: &LeanPart, (text, moment): Asked<'_>) -> bool {
    let ask = question_at(rt, alloc, text, moment);
    let asked = ask.as_ref();
    let own = part.lookup(asked, NameHash::of(OWN, asked.name));
    let reply = own.reply.to_owned().expect(rt, "no reply");
    let other = part.lookup(asked, NameHash::of(OTHER, asked.name));
    other.reply.is(&reply) && told(other) == told(own)
}

/// What a part that records tells of an ask.
fn recorded(rt: &impl Abort, alloc: Global, part: &Part, (text, moment): Asked<'_>) -> Told {
    let ask = question_at(rt, alloc, text, moment);
    let asked = ask.as_ref();
    told(part.lookup(asked, NameHash::of(OWN, asked.name)))
}

/// Asks, and what is told of each: the second name by what says that it does not exist, the third
/// no longer when its addresses are expired.
static ASKS: [(&str, u64, Told); 5] = [
    ("a.", 12, (Some((0, 10, AA)), 2)),
    ("b.", 12, (Some((4, 11, AA)), 1)),
    ("c.", 12, (Some((2, 11, LOW)), 0)),
    ("c.", 71, (None, 0)),
    ("d.", 12, (None, 0)),
];

#[test]
fn a_lookup_tells_the_entry_that_answers_and_its_age(rt: HostRuntime) {
    let part = kept(&rt, rt.alloc());
    for (text, moment, wanted) in &ASKS {
        assert!(rt; look_up(&rt, rt.alloc(), &part, (*text, *moment)) == *wanted);
        assert!(rt; is_same(&rt, rt.alloc(), &part, (*text, *moment)));
    }
    let part = Part::recording(part).expect(&rt, "no record");
    for (text, moment, wanted) in &ASKS {
        assert!(rt; recorded(&rt, rt.alloc(), &part, (*text, *moment)) == *wanted);
    }
}
