// SPDX-License-Identifier: MIT
use super::{AA, Held, Offered, TAG, offer, question_at, rules};
use rrc_cache::{Part, Refusal};
use rrc_history::{Ask, Offer, Outcome, Reply};
use std::alloc::Global;
use std::process::Abort;

/// A call on what is lent to its caller: a part or a shelf.
#[derive(Clone, Copy, Debug)]
pub(crate) enum Call {
    Offer(Offered<'static>),
    /// A client's question for the addresses of `a.example.`, at a moment.
    Ask(u64),
    /// A sweep at a moment.
    Sweep(u64),
    Checkpoint,
}

/// What a call answers, in short.
#[derive(Clone, Copy, Debug, PartialEq, Eq)]
pub(crate) enum Answer {
    Became(Outcome),
    /// For how many seconds an RRset is fresh.
    Fresh(u32),
    /// Another reply than a fresh one.
    NotFresh,
    /// How many keys were removed.
    Removed(usize),
    Closed,
}

/// A call, and what it is to answer.
pub(crate) type Step = (Call, Result<Answer, Refusal>);

pub(crate) const KEPT: Result<Answer, Refusal> = Ok(Answer::Became(Outcome::Kept));

/// What calls are made on, and what is seen of it.
pub(crate) trait Lent {
    fn take(&mut self, offer: Offer) -> Result<Outcome, Refusal>;

    fn reply(&mut self, ask: &Ask) -> Result<Reply, Refusal>;

    fn clear(&mut self, moment: u64) -> Result<usize, Refusal>;

    fn close(&mut self) -> Result<(), Refusal>;

    /// The text of its history, with the snapshot that this begins with, and of what it would
    /// answer.
    fn seen(&self, rt: &impl Abort, alloc: Global, ask: &Ask) -> String;
}

impl Lent for Part {
    fn take(&mut self, offer: Offer) -> Result<Outcome, Refusal> {
        self.offer(TAG, offer)
    }

    fn reply(&mut self, ask: &Ask) -> Result<Reply, Refusal> {
        self.ask(TAG, ask)
    }

    fn clear(&mut self, moment: u64) -> Result<usize, Refusal> {
        self.sweep(TAG, moment)
    }

    fn close(&mut self) -> Result<(), Refusal> {
        match self.checkpoint() {
            Ok(_chapter) => Ok(()),
            Err(refusal) => Err(refusal),
        }
    }

    fn seen(&self, rt: &impl Abort, alloc: Global, ask: &Ask) -> String {
        let (snapshot, events) = (self.snapshot(), self.events());
        let reply = self.would_answer(ask.as_ref());
        format!(in alloc; "{snapshot:?} {events:?} {reply:?}").expect(rt, "no text")
    }
}

/// For how many seconds the set of a reply is fresh.
fn freshness(reply: &Reply) -> Answer {
    match reply {
        Reply::Fresh { left, .. } => Answer::Fresh(*left),
        _ => Answer::NotFresh,
    }
}

fn asked<C: Lent>(lent: &mut C, ask: &Ask) -> Result<Answer, Refusal> {
    match lent.reply(ask) {
        Ok(reply) => Ok(freshness(&reply)),
        Err(refusal) => Err(refusal),
    }
}

fn made<C: Lent>(
    rt: &impl Abort,
    alloc: Global,
    lent: &mut C,
    call: Call,
) -> Result<Answer, Refusal> {
    match call {
        Call::Offer(offered) => lent.take(offer(rt, alloc, offered)).map(Answer::Became),
        Call::Ask(moment) => asked(lent, &question_at(rt, alloc, "a.example.", moment)),
        Call::Sweep(moment) => lent.clear(moment).map(Answer::Removed),
        Call::Checkpoint => lent.close().map(|()| Answer::Closed),
    }
}

fn seen<C: Lent>(rt: &impl Abort, alloc: Global, lent: &C) -> String {
    lent.seen(rt, alloc, &question_at(rt, alloc, "a.example.", 12))
}

/// What a call answers. One that is refused changes nothing, and is made again where memory was
/// refused: `tests/refusals` refuses it once.
fn told<C: Lent>(
    rt: &impl Abort,
    alloc: Global,
    lent: &mut C,
    call: Call,
) -> Result<Answer, Refusal> {
    let before = seen(rt, alloc, lent);
    let answer = made(rt, alloc, lent, call);
    if answer.is_err() {
        assert!(rt; seen(rt, alloc, lent) == before, "{call:?} was refused");
    }
    if answer == Err(Refusal::Memory) {
        return made(rt, alloc, lent, call);
    }
    answer
}

/// Makes calls, which answer as they are to.
pub(crate) fn go<C: Lent>(rt: &impl Abort, alloc: Global, lent: &mut C, steps: &[Step]) {
    for (call, wanted) in steps {
        let answer = told(rt, alloc, lent, *call);
        assert!(rt; answer == *wanted, "{call:?} answers {answer:?}");
    }
}

/// A part in chapters of so many events.
pub(super) fn part(rt: &impl Abort, alloc: Global, chapter: u64) -> Part {
    Part::new(alloc, rules(rt, chapter)).expect(rt, "no part")
}

/// Calls that a chapter of one event has no room for, behind one that it has room for.
static FULL: [Step; 3] = [
    (
        Call::Offer((10, "a.example.", Held::Address(AA, 60, 1))),
        KEPT,
    ),
    (
        Call::Offer((11, "a.example.", Held::Address(AA, 60, 2))),
        Err(Refusal::HistoryFull),
    ),
    (Call::Ask(12), Err(Refusal::HistoryFull)),
];

#[test]
fn a_full_chapter_takes_nothing(rt: HostRuntime) {
    let alloc = rt.alloc();
    let mut part = part(&rt, alloc, 1);
    go(&rt, alloc, &mut part, &FULL[..1]);
    assert!(rt; !part.has_room());
    go(&rt, alloc, &mut part, &FULL[1..]);
}

/// Calls of each kind.
pub(crate) static CALLS: [Step; 6] = [
    (
        Call::Offer((10, "a.example.", Held::Address(AA, 60, 1))),
        KEPT,
    ),
    (Call::Offer((10, "b.example.", Held::Failure(30))), KEPT),
    (Call::Ask(12), Ok(Answer::Fresh(58))),
    (Call::Sweep(40), Ok(Answer::Removed(1))),
    (Call::Checkpoint, Ok(Answer::Closed)),
    (Call::Ask(69), Ok(Answer::Fresh(1))),
];

#[test]
fn a_part_that_was_refused_memory_is_as_it_was(rt: HostRuntime) {
    let mut part = part(&rt, rt.alloc(), 8);
    go(&rt, rt.alloc(), &mut part, &CALLS);
}
