// SPDX-License-Identifier: MIT
ghost use Rattle.std.specs.Prelude.{◌≡◌, ◌≤◌, IfSome};
ghost use Rattle.std.specs.Option.{option_map};
ghost use Rattle.rrc_history.specs.Lives.{ttl_of, rank_of, is_unexpired, is_fully_expired, span, IsTimely};
ghost use Rattle.rrc_history.specs.Judged.{outranks, verdict, later_governs, governing, is_before, recent_failure, may_be_stale, may_serve, reply_of_living_set, reply_of_living_soa, reply_of_entry, reply_of, reply_by, retry_from, key_in, answering};
ghost use Rattle.rrc_history.specs.declared.event.Reply.TheVariants.{Miss};
ghost use Rattle.rrc_history.specs.Past.{is_evicted};
ghost use Rattle.rrc_history.specs.Auditing.{moment_eq, reply_eq};
ghost use Rattle.rrc_history.specs.Views.{ask_in, held_in, found_in, reply_in};

use crate::ask::{Mode, Purpose};
use crate::ask_ref::AskRef;
use crate::body::Body;
use crate::event::{Outcome, Reply};
use crate::offer::Offer;
use crate::reply::{ReplyRef, SetRef, SoaRef};
use crate::snapshot::Entry;
use rrc_name::{Key, Slot};

/// What a key holds, where that is kept: in an entry, or in the offer of a history that stored it.
/// The moment is that of the offer, in seconds, the number that of its event.
#[derive(Clone, Copy, Debug)]
pub struct Held<'a> {
    pub key: &'a Key,
    pub body: &'a Body,
    pub moment: u64,
    pub number: u64,
}

/// What the three keys of an ask hold: of its name the set of its type, that the name does not
/// exist, that asking for the type failed.
#[derive(Clone, Copy, Debug)]
pub struct Found<'a> {
    pub set: Option<Held<'a>>,
    pub nx: Option<Held<'a>>,
    pub failed: Option<Held<'a>>,
}

impl<'a> Held<'a> {
    /// What an entry says that its key holds.
    pub fn of(entry: &'a Entry) -> Held<'a>
        ensures { held_in result ≡ entry.now }
    {
        Held {
            key: &entry.key,
            body: &entry.body,
            moment: entry.moment,
            number: entry.number,
        }
    }
}

/// The seconds that a stale answer is given (RFC 8767 section 4).
const STALE_TTL: u32 = 30;

fn rank_of(body: &Body) -> u8
    ensures { result ≡ rank_of body.now }
{
    match body {
        Body::Positive { trust, .. } | Body::Negative { trust, .. } => trust.rank(),
        Body::Failure { .. } => 0,
    }
}

fn ttl_of(body: &Body) -> u32
    ensures { result ≡ ttl_of body.now }
{
    match body {
        Body::Positive { ttl, .. } | Body::Negative { ttl, .. } | Body::Failure { ttl } => *ttl,
    }
}

/// For how many seconds from its moment on a body may answer: a set past its ttl as well, up to the
/// stale limit in seconds (RFC 8767 section 4).
pub fn span(body: &Body, stale: u64) -> u64
    requires { stale ≤ 604800 }
    ensures { result ≡ span stale body.now }
{
    match body {
        Body::Positive { ttl, .. } => u64::from(*ttl) + stale,
        Body::Negative { ttl, .. } | Body::Failure { ttl } => u64::from(*ttl),
    }
}

/// Whether an entry can answer no more.
pub(crate) fn is_fully_expired(entry: Held<'_>, stale: u64, moment: u64) -> bool
    requires { stale ≤ 604800 }
    ensures { result ≡ is_fully_expired stale (held_in entry.entry) moment }
{
    span(entry.body, stale) <= moment.saturating_sub(entry.moment)
}

fn is_unexpired(entry: Held<'_>, moment: u64) -> bool
    ensures { result ≡ is_unexpired (held_in entry.entry) moment }
{
    moment.saturating_sub(entry.moment) < u64::from(ttl_of(entry.body))
}

fn outranks(entry: Held<'_>, moment: u64, body: &Body) -> bool
    ensures { result ≡ outranks (held_in entry.entry) moment body.now }
{
    is_unexpired(entry, moment) && rank_of(body) < rank_of(entry.body)
}

/// What becomes of an offer where its key holds this, or nothing: unexpired data of higher rank
/// stay (RFC 2181 section 5.4.1), a ttl of 0 clears, and that asking failed is always kept.
pub fn verdict(held: Option<Held<'_>>, offer: &Offer) -> Outcome
    ensures { result ≡ verdict (option_map held_in held.entry) offer.now }
{
    if let Body::Failure { .. } = offer.body {
        return Outcome::Kept;
    }
    match held {
        Some(entry) if outranks(entry, offer.moment, &offer.body) => Outcome::LessTrusted,
        _ if ttl_of(&offer.body) == 0 => Outcome::Cleared,
        _ => Outcome::Kept,
    }
}

fn later_governs<'a>(later: Held<'a>, earlier: Held<'a>, moment: u64) -> Held<'a>
    ensures { held_in result ≡ later_governs (held_in later.entry) (held_in earlier.entry) moment }
{
    if outranks(earlier, moment, later.body) {
        earlier
    } else {
        later
    }
}

/// Of what is held for a name and a type, a set or its denial and the denial of the name, the later
/// one, unless the earlier is unexpired at the moment and trusted more (RFC 2181 section 5.4.1, RFC
/// 2308 section 5).
pub fn governing<'a>(set: Option<Held<'a>>, nx: Option<Held<'a>>, moment: u64) -> Option<Held<'a>>
    ensures { option_map held_in result ≡ governing (option_map held_in set.entry) (option_map held_in nx.entry) moment }
{
    match (set, nx) {
        (None, nx) => nx,
        (set, None) => set,
        (Some(set), Some(nx)) => Some(if set.number < nx.number {
            later_governs(nx, set, moment)
        } else {
            later_governs(set, nx, moment)
        }),
    }
}

fn is_before(other: Option<Held<'_>>, entry: Held<'_>) -> bool
    ensures { result ≡ is_before (option_map held_in other.entry) (held_in entry.entry) }
{
    match other {
        None => true,
        Some(other) => other.number < entry.number,
    }
}

/// The failure, where it still lives at the moment and nothing was learnt since (RFC 8767 section
/// 5).
pub fn recent_failure<'a>(found: Found<'a>, moment: u64) -> Option<Held<'a>>
    ensures { option_map held_in result ≡ recent_failure (found_in found.entry) moment }
{
    let failure = found.failed?;
    let is_recent = is_unexpired(failure, moment)
        && is_before(found.set, failure)
        && is_before(found.nx, failure);
    if is_recent { Some(failure) } else { None }
}

fn may_be_stale(mode: Mode, failure: Option<Held<'_>>) -> bool
    ensures { result ≡ may_be_stale mode (option_map held_in failure.entry) }
{
    match mode {
        Mode::NoStale => false,
        Mode::Now => true,
        Mode::Failed => failure.is_some(),
    }
}

fn may_serve(purpose: Purpose, body: &Body) -> bool
    ensures { result ≡ may_serve purpose body.now }
{
    match purpose {
        Purpose::Any => true,
        Purpose::Answer => rank_of(body) > 1,
    }
}

/// From which moment on asking may be tried again, in seconds: once a recent failure's time is
/// over. `None` where there is none.
pub fn retry_from(failure: Option<Held<'_>>) -> Option<u64>
    requires { IfSome (option_map held_in failure) IsTimely }
    ensures { result ≡ retry_from (option_map held_in failure.entry) }
{
    match failure {
        None => None,
        Some(failure) => Some(failure.moment + u64::from(ttl_of(failure.body))),
    }
}

/// The answer of a set: fresh while it lives, then stale where that will do, within the limit (RFC
/// 8767 section 5).
fn reply_of_set<'a>(
    set: SetRef<'a>,
    ttl: u32,
    age: u64,
    stale: u64,
    may_be_stale: bool,
) -> Option<ReplyRef<'a>>
    requires { stale ≤ 604800 }
    ensures { option_map reply_in result ≡ reply_of_living_set stale (record { owner = set.entry.owner.now; items = set.entry.items.now }) ttl age may_be_stale }
{
    if age < u64::from(ttl) {
        Some(ReplyRef::Fresh {
            set,
            left: ttl - age as u32,
        })
    } else if may_be_stale && age < u64::from(ttl) + stale {
        Some(ReplyRef::Stale {
            set,
            left: STALE_TTL,
        })
    } else {
        None
    }
}

/// The answer of a negative entry, which is never stale (RFC 2308 section 5).
fn reply_of_soa<'a>(slot: Slot, soa: SoaRef<'a>, ttl: u32, age: u64) -> Option<ReplyRef<'a>>
    ensures { option_map reply_in result ≡ reply_of_living_soa slot (record { owner = soa.entry.owner.now; octets = soa.entry.octets.now }) ttl age }
{
    if age >= u64::from(ttl) {
        return None;
    }
    let left = ttl - age as u32;
    match slot {
        Slot::Set(_) => Some(ReplyRef::NoData { soa, left }),
        Slot::Nx => Some(ReplyRef::NxDomain { soa, left }),
        Slot::Failed(_) => None,
    }
}

/// The answer of an entry, if it has one.
fn reply_of_entry<'a>(
    entry: Held<'a>,
    ask: AskRef<'_>,
    stale: u64,
    failure: Option<Held<'_>>,
) -> Option<ReplyRef<'a>>
    requires { stale ≤ 604800 }
    ensures { option_map reply_in result ≡ reply_of_entry stale (held_in entry.entry) (ask_in ask.entry) (option_map held_in failure.entry) }
{
    let age = ask.moment.saturating_sub(entry.moment);
    let key = entry.key;
    match entry.body {
        Body::Positive {
            owner,
            items,
            ttl,
            ..
        } => reply_of_set(
            SetRef { owner, items },
            *ttl,
            age,
            stale,
            may_be_stale(ask.mode, failure),
        ),
        Body::Negative {
            soa_owner,
            soa,
            ttl,
            ..
        } => reply_of_soa(
            key.slot,
            SoaRef {
                owner: soa_owner,
                octets: soa,
            },
            *ttl,
            age,
        ),
        Body::Failure { .. } => None,
    }
}

/// What an ask is answered from what governs, where there is something that may serve: glue answers
/// no question (RFC 2181 section 5.4.1). A stale answer waits for a recent failure where the ask's
/// mode says so (RFC 8767 section 5). `None` is a miss.
pub fn reply_of<'a>(
    governing: Option<Held<'a>>,
    ask: AskRef<'_>,
    stale: u64,
    failure: Option<Held<'_>>,
) -> Option<ReplyRef<'a>>
    requires { stale ≤ 604800 }
    ensures { option_map reply_in result ≡ reply_of stale (option_map held_in governing.entry) (option_map held_in failure.entry) (ask_in ask.entry) }
{
    let entry = governing?;
    if may_serve(ask.purpose, entry.body) {
        reply_of_entry(entry, ask, stale, failure)
    } else {
        None
    }
}

/// Whether asking may be tried again from just this moment on.
fn is_retry_from(failure: Option<Held<'_>>, moment: Option<u64>) -> bool
    ensures { result ≡ moment_eq (retry_from (option_map held_in failure.entry)) moment }
{
    match (failure, moment) {
        (None, None) => true,
        (Some(failure), Some(moment)) => {
            u128::from(failure.moment) + u128::from(ttl_of(failure.body)) == u128::from(moment)
        }
        _ => false,
    }
}

fn is_miss_of(failure: Option<Held<'_>>, reply: &Reply) -> bool
    ensures { result ≡ reply_eq (Miss (retry_from (option_map held_in failure.entry))) reply.now }
{
    match reply {
        Reply::Miss { retry_from } => is_retry_from(failure, *retry_from),
        _ => false,
    }
}

/// Whether an ask is answered just this reply.
pub(crate) fn is_reply(found: Found<'_>, ask: AskRef<'_>, stale: u64, reply: &Reply) -> bool
    requires { stale ≤ 604800 }
    ensures { result ≡ reply_eq (reply_by stale (found_in found.entry) (ask_in ask.entry)) reply.now }
{
    let failure = recent_failure(found, ask.moment);
    let governing = governing(found.set, found.nx, ask.moment);
    match reply_of(governing, ask, stale, failure) {
        Some(right) => right.is(reply),
        None => is_miss_of(failure, reply),
    }
}

/// Whether the entry of a key gave a reply.
pub(crate) fn is_answering(found: Found<'_>, ask: AskRef<'_>, reply: &Reply, key: &Key) -> bool
    ensures { result ≡ is_evicted key.now (key_in (answering (found_in found.entry) (ask_in ask.entry) reply.now)) }
{
    if let Reply::Miss { .. } = reply {
        return false;
    }
    match governing(found.set, found.nx, ask.moment) {
        None => false,
        Some(entry) => *key == *entry.key,
    }
}
