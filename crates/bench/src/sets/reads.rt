// SPDX-License-Identifier: MIT
// Reading messages, alone.

use rrc_wire::read_message;
use std::alloc::Global;

/// What was read, in all passes.
#[derive(Clone, Copy)]
pub struct Counts {
    pub octets: u64,
    pub read: u64,
    pub refused: u64,
    pub records: u64,
}

/// The messages of a text, one on each line in hexadecimal. `None` where a line is not, or memory
/// was refused.
pub fn octets_in(alloc: Global, text: &str) -> Option<Vec<Vec<u8>>> {
    let mut messages = Vec::new(alloc);
    for line in text.lines() {
        let octets = hex::decode(alloc, line).ok()?;
        messages.push(octets).ok()?;
    }
    Some(messages)
}

/// Adds to the counts what one message reads as.
fn count(alloc: Global, octets: &[u8], counts: &mut Counts) {
    counts.octets = counts.octets.wrapping_add(octets.len() as u64);
    match read_message(alloc, octets) {
        Ok(message) => {
            let records = message.answer.len() as u64;
            counts.read = counts.read.wrapping_add(1);
            counts.records = counts.records.wrapping_add(records);
        }
        Err(_) => counts.refused = counts.refused.wrapping_add(1),
    }
}

/// Reads each message once.
fn count_each(alloc: Global, messages: &[Vec<u8>], counts: &mut Counts) {
    for octets in messages {
        count(alloc, octets.as_slice(), counts);
    }
}

/// Reads the messages so often.
pub fn read_all(alloc: Global, messages: &[Vec<u8>], passes: u32) -> Counts {
    let mut counts = Counts {
        octets: 0,
        read: 0,
        refused: 0,
        records: 0,
    };
    for _ in 0..passes {
        count_each(alloc, messages, &mut counts);
    }
    counts
}
