// SPDX-License-Identifier: MIT
use super::made::{Call, Made};
use rrc_history::{Mode, Outcome};
use rrc_trace::ReplayFault;

/// What a worker says that a line got.
#[derive(Clone, Copy)]
pub(super) enum Said {
    Put(Outcome),
    /// A sweep that removed so many keys.
    Swept(usize),
    Closed,
    Joined,
    /// Three offers that were kept, and then a miss.
    Fetched,
}

/// What is claimed; a trace; how many parts there are; the calls that were made on them, in the
/// order of each part; what each worker says that the line of its number got; and the fault.
pub(super) type Claim = (
    &'static str,
    &'static str,
    usize,
    &'static [Made],
    &'static [Said],
    Option<ReplayFault>,
);

const STRAYS: Option<ReplayFault> = Some(ReplayFault::Strayed);

const SWEEP: &str = "sweep 7";

const PUT: &str = "put 100 a.example. 1 4 60 c0000201";

const KEPT: &[Said] = &[Said::Put(Outcome::Kept)];

const LESS: &[Said] = &[Said::Put(Outcome::LessTrusted)];

const REMOVED_NONE: &[Said] = &[Said::Swept(0)];

/// A fetch that would get one address.
const FETCH: &str =
    "fetch 100 a.example. 1 example. 1234840000010001000000000161076578616d706c650000010001c00c000100010000003c0004c0000201";

/// Two fetches of a question, each of which would get that it is an alias of a name that does not
/// exist.
const FETCHES: &str =
    "fetch 100 a.example. 1 example. 1234840300010001000100000161076578616d706c650000010001c00c000500010000003c00040162c00ec00e0006000100000e100018c00ec00e0000000100000e100000025800093a800000012c\nfetch 100 a.example. 1 example. 1234840300010001000100000161076578616d706c650000010001c00c000500010000003c00040162c00ec00e0006000100000e100018c00ec00e0000000100000e100000025800093a800000012c";

const BOTH_FETCHED: &[Said] = &[Said::Fetched, Said::Fetched];

/// What a fetch asks first.
const FIRST: Call = Call::Ask(Mode::Failed);

/// What a fetch asks behind its offers.
const LAST: Call = Call::Ask(Mode::Now);

pub(super) static CLAIMS: [Claim; 16] = [
    (
        "a sweep",
        SWEEP,
        1,
        &[(0, 0, 0, Call::Sweep(7))],
        REMOVED_NONE,
        None,
    ),
    (
        "another count",
        SWEEP,
        1,
        &[(0, 0, 0, Call::Sweep(7))],
        &[Said::Swept(1)],
        STRAYS,
    ),
    (
        "another moment",
        SWEEP,
        1,
        &[(0, 0, 0, Call::Sweep(8))],
        REMOVED_NONE,
        STRAYS,
    ),
    (
        "another place",
        SWEEP,
        1,
        &[(0, 0, 1, Call::Sweep(7))],
        REMOVED_NONE,
        STRAYS,
    ),
    ("no sweep made", SWEEP, 1, &[], REMOVED_NONE, STRAYS),
    (
        "one sweep more",
        SWEEP,
        1,
        &[(0, 0, 0, Call::Sweep(7)), (0, 0, 1, Call::Sweep(7))],
        REMOVED_NONE,
        STRAYS,
    ),
    ("no sweep", SWEEP, 1, &[], &[Said::Closed], STRAYS),
    (
        "a join of no fetch",
        "fetch 7 . 1 . -",
        1,
        &[],
        &[Said::Joined],
        STRAYS,
    ),
    (
        "a join by the only worker",
        FETCH,
        1,
        &[(0, 0, 0, FIRST)],
        &[Said::Joined],
        STRAYS,
    ),
    ("a put", PUT, 1, &[(0, 0, 0, Call::Address)], KEPT, None),
    ("no put made", PUT, 1, &[], KEPT, STRAYS),
    (
        "a put twice",
        PUT,
        1,
        &[(0, 0, 0, Call::Address), (0, 0, 0, Call::Address)],
        KEPT,
        STRAYS,
    ),
    (
        "a put at another place",
        PUT,
        1,
        &[(0, 0, 1, Call::Address)],
        KEPT,
        STRAYS,
    ),
    (
        "a put of less trust",
        PUT,
        1,
        &[(0, 0, 0, Call::Address)],
        LESS,
        STRAYS,
    ),
    (
        "fetches in the same order",
        FETCHES,
        4,
        &[
            (0, 0, 3, Call::Denied(2)),
            (0, 1, 3, Call::Denied(2)),
            (1, 0, 0, FIRST),
            (1, 1, 0, FIRST),
            (1, 0, 1, Call::Denied(0)),
            (1, 0, 2, Call::Denied(1)),
            (1, 0, 4, LAST),
            (1, 1, 1, Call::Denied(0)),
            (1, 1, 2, Call::Denied(1)),
            (1, 1, 4, LAST),
        ],
        BOTH_FETCHED,
        None,
    ),
    (
        "fetches in another order in another part",
        FETCHES,
        4,
        &[
            (0, 1, 3, Call::Denied(2)),
            (0, 0, 3, Call::Denied(2)),
            (1, 0, 0, FIRST),
            (1, 1, 0, FIRST),
            (1, 0, 1, Call::Denied(0)),
            (1, 0, 2, Call::Denied(1)),
            (1, 0, 4, LAST),
            (1, 1, 1, Call::Denied(0)),
            (1, 1, 2, Call::Denied(1)),
            (1, 1, 4, LAST),
        ],
        BOTH_FETCHED,
        STRAYS,
    ),
];

/// A put that has a report where the parts have as many keys as the config says.
pub(super) static ONE_PUT: Claim = ("a put", PUT, 1, &[(0, 0, 0, Call::Address)], KEPT, None);
