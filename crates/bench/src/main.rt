// SPDX-License-Identifier: MIT
//! Makes calls of the libraries many times and prints what it counted, for scripts that time it:
//! `bench cache` calls parts of the cache, `bench marks` draws and marks, and `bench sets` reads
//! messages and makes their offers. The module of that name says which words stand behind it. Where
//! none do, a few of its calls are made, and of all three where no word is told.
#![tactic(auto)]

mod cache;
mod marks;
mod sets;
mod words;

use crate::words::word;
use std::env;
use std::rt::{Env, Files};
use std::sync::Wait;
use std::thread::Threads;
use std::time::{Clock, CpuClock};

const USAGE: &str = "it takes cache, marks or sets, and their words";

/// A few of all calls.
fn report_each<R>(rt: &R) -> Result<(), &'static str>
where
    R: Input + Print + Eprint + AllocGlobal + CpuClock + Clock + Threads + Wait + Sync,
{
    cache::report_each(rt).ok_or(cache::FAILED)?;
    marks::report_each(rt).ok_or(marks::FAILED)?;
    sets::report_both(rt).ok_or(sets::FAILED)
}

/// Does what the words behind the program's name tell.
fn report_told<R>(rt: &R, words: &[String]) -> Result<(), &'static str>
where
    R: Files + Input + Print + Eprint + AllocGlobal + CpuClock + Clock + Threads + Wait + Sync,
{
    let behind = words.get(1..).unwrap_or(&[]);
    match word(words, 0) {
        "cache" => cache::report_told(rt, behind).ok_or(cache::FAILED),
        "marks" => marks::report_told(rt, behind).ok_or(marks::FAILED),
        "sets" => sets::report_told(rt, behind).ok_or(sets::FAILED),
        "" => report_each(rt),
        _ => Err(USAGE),
    }
}

/// The words behind the program's name.
fn words_behind<R: Env + AllocGlobal>(rt: &R) -> Option<Vec<String>> {
    let args = env::args(rt).ok()?;
    args.skip(1).collect::<Vec<String>>(rt.alloc()).ok()
}

fn main(rt: HostRuntime) -> Result<(), &'static str> {
    let words = words_behind(&rt).ok_or(USAGE)?;
    report_told(&rt, words.as_slice())
}
