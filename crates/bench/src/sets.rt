// SPDX-License-Identifier: MIT
// Reads messages of the DNS many times, or makes their offers, and prints what it counted, for
// scripts that time it: `bench sets TASK PASSES [FILE]`, where TASK is `read` or `offer`. The file,
// or standard input, has one message in hexadecimal on each line. For `offer` the messages are read
// once, beforehand, and the nanoseconds of processor time that the offers took are on standard
// error. Without these words it reads the messages of standard input that stand before an empty
// line, and makes the offers of those behind it.

mod offers;
mod reads;

use crate::sets::offers::offer_all;
use crate::sets::reads::{octets_in, read_all};
use crate::words::{number, word};
use std::rt::Files;
use std::time::CpuClock;
use std::{fs, io};

pub const FAILED: &str =
    "it takes read or offer, PASSES and a FILE of messages in hexadecimal, or memory was refused";

/// Reads the messages so often.
fn report_read<R: Print + AllocGlobal>(rt: &R, messages: &[Vec<u8>], passes: u32) -> Option<()> {
    let counts = read_all(rt.alloc(), messages, passes);
    println!(rt;
        "{} messages read, {} refused, of {} octets, with {} answers",
        counts.read, counts.refused, counts.octets, counts.records
    )
    .ok()
}

/// Makes the offers of the messages so often.
fn report_offers<R: Print + Eprint + AllocGlobal + CpuClock>(
    rt: &R,
    messages: &[Vec<u8>],
    passes: u32,
) -> Option<()> {
    let (counts, time) = offer_all(rt, rt.alloc(), messages, passes)?;
    println!(rt;
        "{} messages offered {} times, with {} data",
        counts.messages, counts.offers, counts.data
    )
    .ok()?;
    eprintln!(rt; "{}", time.as_nanos()).ok()
}

/// Does the task with the messages of a text.
fn report<R: Print + Eprint + AllocGlobal + CpuClock>(
    rt: &R,
    task: &str,
    text: &str,
    passes: u32,
) -> Option<()> {
    let messages = octets_in(rt.alloc(), text)?;
    match task {
        "read" => report_read(rt, messages.as_slice(), passes),
        "offer" => report_offers(rt, messages.as_slice(), passes),
        _ => None,
    }
}

/// The text of a file, or that of standard input where its path is empty.
fn text_in<R: Files + Input + AllocGlobal>(rt: &R, path: &str) -> Option<String> {
    match path {
        "" => io::read_to_string(rt.alloc(), rt.reader()).ok(),
        _ => fs::read_to_string(rt, path).ok(),
    }
}

/// Does both, once.
pub fn report_both<R: Input + Print + Eprint + AllocGlobal + CpuClock>(rt: &R) -> Option<()> {
    let text = io::read_to_string(rt.alloc(), rt.reader()).ok()?;
    let (read, offered) = text.as_str().split_once("\n\n")?;
    report(rt, "read", read, 1)?;
    report(rt, "offer", offered, 1)
}

/// Does what the words tell.
pub fn report_told<R: Files + Input + Print + Eprint + AllocGlobal + CpuClock>(
    rt: &R,
    words: &[String],
) -> Option<()> {
    match word(words, 0) {
        "" => report_both(rt),
        task => {
            let passes = number(words, 1)?;
            let text = text_in(rt, word(words, 2))?;
            report(rt, task, text.as_str(), passes)
        }
    }
}
