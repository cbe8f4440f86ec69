// SPDX-License-Identifier: MIT
ghost use Rattle.std.specs.Prelude.{◌∷◌, ◌++◌, OnOk, IfErr};
ghost use Rattle.std.specs.Io.KnownBytes.{Appends};
ghost use Rattle.rrc_text.specs.Output.{Puts};
ghost use Rattle.rrc_text.specs.Writer.{LeavesText};
ghost use Rattle.rrc_trace.specs.Report.{key_text, told_text, outcomes_text, offers_text, counts_text, answer_text, line_text, report_text};
ghost use Rattle.rrc_text.specs.Replies.{reply_text};

use crate::answer::{Answer, Told};
use rrc_history::Reply;
use rrc_name::Key;
use rrc_text::{
    Buffer, Output, ReplayFault, outcome_word, put_class, put_name, put_number, put_reply,
    put_slot, put_word,
};
use std::alloc::Global;
use std::io::Write;

/// A key: its name, its slot, and its class.
fn put_key<W: Write>(output: &mut Output<'_, W>, key: &Key)
    ensures { Puts W.contents output.old output.new (key_text key.now) }
{
    put_name(output, &key.name);
    put_word(output, "/");
    put_slot(output, key.slot);
    put_class(output, key.class);
}

/// What became of an offer, and the key that it evicted.
fn put_told<W: Write>(output: &mut Output<'_, W>, told: &Told)
    ensures { Puts W.contents output.old output.new (told_text told.now) }
{
    put_word(output, outcome_word(told.outcome));
    match &told.evicted {
        None => {}
        Some(key) => {
            put_word(output, "-out:");
            put_key(output, key);
        }
    }
}

/// What became of offers, each behind a space.
fn put_outcomes<W: Write>(output: &mut Output<'_, W>, offers: &[Told])
    ensures { Puts W.contents output.old output.new (outcomes_text offers.now) }
{
    for told in offers {
        put_word(output, " ");
        put_told(output, told);
    }
}

/// How many offers there were, and what became of each.
fn put_offers<W: Write>(output: &mut Output<'_, W>, offers: &[Told])
    ensures { Puts W.contents output.old output.new (offers_text offers.now) }
{
    put_number(output, offers.len() as u64);
    put_outcomes(output, offers);
}

/// How many keys each part lost, each behind a space.
fn put_counts<W: Write>(output: &mut Output<'_, W>, counts: &[usize])
    ensures { Puts W.contents output.old output.new (counts_text counts.now) }
{
    for count in counts {
        put_word(output, " ");
        put_number(output, *count as u64);
    }
}

/// What became of the offers of a message that was fetched, and the reply behind them.
fn put_fetched<W: Write>(output: &mut Output<'_, W>, told: &[Told], reply: &Reply)
    ensures { Puts W.contents output.old output.new (offers_text told.now ++ (32 ∷ reply_text reply.now)) }
{
    put_offers(output, told);
    put_word(output, " ");
    put_reply(output, reply);
}

fn put_answer<W: Write>(output: &mut Output<'_, W>, answer: &Answer)
    ensures { Puts W.contents output.old output.new (answer_text answer.now) }
{
    match answer {
        Answer::Put(told) => {
            put_word(output, "put ");
            put_told(output, told);
        }
        Answer::Fail(told) => {
            put_word(output, "fail ");
            put_told(output, told);
        }
        Answer::Response(offers) => {
            put_word(output, "response ");
            put_offers(output, offers.as_slice());
        }
        Answer::Refused(number) => {
            put_word(output, "response refused ");
            put_number(output, u64::from(*number));
        }
        Answer::Hit(reply) => {
            put_word(output, "fetch hit ");
            put_reply(output, reply);
        }
        Answer::Held(moment) => {
            put_word(output, "fetch held ");
            put_number(output, *moment);
        }
        Answer::Joined => put_word(output, "fetch joined"),
        Answer::Fetched { told, reply } => {
            put_word(output, "fetch fetched ");
            put_fetched(output, told.as_slice(), reply);
        }
        Answer::Swept(removed) => {
            put_word(output, "sweep");
            put_counts(output, removed.as_slice());
        }
        Answer::Closed => put_word(output, "checkpoint"),
        Answer::Ask(reply) => {
            put_word(output, "ask ");
            put_reply(output, reply);
        }
    }
}

fn put_line<W: Write>(output: &mut Output<'_, W>, number: u64, answer: &Answer)
    ensures { Puts W.contents output.old output.new (line_text number answer.now) }
{
    put_number(output, number);
    put_word(output, " ");
    put_answer(output, answer);
    put_word(output, "\n");
}

/// A line for each answer, numbered from 0.
fn put_report<W: Write>(output: &mut Output<'_, W>, answers: &[Answer])
    ensures { Puts W.contents output.old output.new (report_text answers.now) }
{
    for (number, answer) in answers.iter().enumerate() {
        put_line(output, number as u64, answer);
    }
}

/// Writes the text of a report, at most 4,096 octets at once, and flushes. `Memory` where room for
/// so many is refused, before anything is written; then no memory is asked for any more. `Write`
/// where a write or the flush failed, or a write took nothing; a beginning of the text went out
/// then. Nothing that failed is tried again.
pub fn write_report<W: Write>(
    alloc: Global,
    writer: &mut W,
    answers: &[Answer],
) -> Result<(), ReplayFault>
    ensures ok { OnOk result (Appends (W.contents writer.old) (W.contents writer.new) (report_text answers.now)) }
    ensures err { IfErr result (LeavesText (W.contents writer.old) (W.contents writer.new) (report_text answers.now)) }
{
    let mut buffer = Buffer::reserved(alloc)?;
    let mut output = Output {
        writer,
        buffer: &mut buffer,
        failed: false,
    };
    put_report(&mut output, answers);
    output.finish()
}
