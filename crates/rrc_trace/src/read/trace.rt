// SPDX-License-Identifier: MIT
ghost use Rattle.std.specs.Prelude.{◌≡◌, ◌<◌, ◌≤◌, [], Some, Ok, Err, length, take, vec_len, IfOk, IfErr, OnOk};
ghost use Rattle.std.specs.Io.KnownBytes.{IsAtEnd, prepend_known};
ghost use Rattle.rrc_trace.specs.Lines.{line_of_piece};
ghost use Rattle.rrc_trace.specs.Trace.{OneTraceOrFault};
ghost use Rattle.rrc_text.specs.Cuts.{IsCut};
ghost use Rattle.rrc_trace.specs.Pieces.{MovesPart, ReadsPiece, LeavesNothing, IsOfReading, GivesLine, AddsLine, IsTraceFrom, IsFaultOfTrace};
ghost use Rattle.rrc_trace.specs.Lawful.{AreLawful};
ghost use Rattle.rrc_trace.specs.Questions.{questions_of};

use crate::line::Line;
use crate::questions::Questions;
use crate::read::ahead::Ahead;
use crate::read::line::{MOST_OCTETS, line_of_piece};
use crate::read::names::Names;
use crate::trace::Trace;
use rrc_name::Sequence;
use rrc_text::{LineFault, ReplayFault, first_lf};
use std::alloc::{AllocError, Global};
use std::io::Read;

/// The most lines of a trace.
const MOST_LINES: u64 = 1_000_000;

/// The most questions that the lines of a trace fetch.
const MOST_QUESTIONS: usize = 4_096;

/// How a piece of a trace ends.
#[derive(Clone, Copy)]
pub(crate) enum Ending {
    /// With its LF.
    Lf,
    /// With the trace. The last piece may have no octet.
    Last,
    /// Not within the octets that a line may have.
    Endless,
}

/// The octets to the first LF and with it, or all where there is none, and whether there is one.
fn cut(octets: &[u8]) -> (&[u8], bool)
    ensures front { result.0.now ≡ take (length result.0.now) octets.now }
    ensures cut { IsCut result.1 result.0.now }
    ensures some { 0 < length octets.now → 0 < length result.0.now }
    ensures inside { length result.0.now ≤ length octets.now }
{
    match first_lf(octets) {
        Some(place) => (&octets[..=place], true),
        None => (octets, false),
    }
}

/// Moves octets from those ahead to a piece: to the first LF and with it, or all, but no more than
/// one octet more than a line may have. Whether the LF came.
fn move_part(ahead: &mut Ahead, piece: &mut Vec<u8>) -> Result<bool, AllocError>
    requires some { 0 < length ahead.old }
    requires room { vec_len piece.old ≤ 140000 }
    ensures { IfOk result (MovesPart ahead.old ahead.new piece.old.items piece.new.items) }
{
    let octets = ahead.as_slice();
    let room = MOST_OCTETS + 1 - piece.len();
    let (part, ended) = cut(&octets[..octets.len().min(room)]);
    piece.extend_from_slice(part)?;
    let count = part.len();
    ahead.take(count);
    Ok(ended)
}

/// Reads the next piece into a buffer: with its LF, or to the end, or one octet more than a line
/// may have.
fn piece_from<R: Read>(
    reader: &mut R,
    ahead: &mut Ahead,
    piece: &mut Vec<u8>,
) -> Result<Ending, ReplayFault>
    ensures ok { IfOk result (ReadsPiece (prepend_known ahead.old (R.remaining reader.old)) (prepend_known ahead.new (R.remaining reader.new)) piece.new.items) }
    ensures last { IfOk result (LeavesNothing (prepend_known ahead.new (R.remaining reader.new))) }
    ensures err { IfErr result IsOfReading }
{
    piece.clear();
    while piece.len() <= MOST_OCTETS {
        if !ahead.has_more(reader)? {
            return Ok(Ending::Last);
        }
        if move_part(ahead, piece)? {
            return Ok(Ending::Lf);
        }
    }
    Ok(Ending::Endless)
}

/// Puts the question that a line fetches to those before it. The line has this number.
fn count(questions: &mut Questions, line: &Line, number: u64) -> Result<(), ReplayFault>
    ensures ok { OnOk result (GivesLine number questions.old questions.new (Ok line.now) (Some line.now)) }
    ensures err { IfErr result (λ fault. GivesLine number questions.old questions.new (Err fault) (Some line.now)) }
{
    questions.add(line)?;
    if questions.len() <= MOST_QUESTIONS {
        Ok(())
    } else {
        Err(ReplayFault::TooManyQuestions(number))
    }
}

/// The line of a piece, which has this number. The question that it fetches is put to those before
/// it.
fn line_at(
    alloc: Global,
    names: &mut Names,
    questions: &mut Questions,
    number: u64,
    piece: &[u8],
) -> Result<Line, ReplayFault>
    ensures { GivesLine number questions.old questions.new result (line_of_piece piece.now) }
{
    let line = match line_of_piece(alloc, names, piece) {
        Ok(line) => line,
        Err(LineFault::NotOne) => return Err(ReplayFault::BadLine(number)),
        Err(LineFault::Memory) => return Err(ReplayFault::Memory),
    };
    count(questions, &line, number)?;
    Ok(line)
}

/// A trace as far as it is read: its lines, with their names and the questions that they fetch.
#[derive(Drop)]
struct Reading {
    ahead: Ahead,
    /// The piece that was read last.
    piece: Vec<u8>,
    names: Names,
    questions: Questions,
    lines: Sequence<Line>,
}

impl Reading {
    /// Nothing is read.
    fn new(alloc: Global) -> Result<Reading, AllocError>
        ensures ahead { IfOk result (λ reading. reading.ahead ≡ []) }
        ensures questions { IfOk result (λ reading. reading.questions ≡ []) }
        ensures lines { IfOk result (λ reading. reading.lines ≡ []) }
    {
        Ok(Reading {
            ahead: Ahead::new(alloc)?,
            piece: Vec::new(alloc),
            names: Names::new(alloc)?,
            questions: Questions::new(alloc),
            lines: Sequence::new(alloc),
        })
    }

    /// Puts the line of the piece, which has this number, behind those before it.
    fn add_line(&mut self, alloc: Global, number: u64) -> Result<(), ReplayFault>
        ensures ahead { self.new.ahead ≡ self.old.ahead }
        ensures ok { OnOk result (AddsLine number self.old.questions self.new.questions self.old.lines self.new.lines (line_of_piece self.old.piece.items)) }
        ensures err { IfErr result (λ fault. GivesLine number self.old.questions self.new.questions (Err fault) (line_of_piece self.old.piece.items)) }
    {
        let piece = self.piece.as_slice();
        let line = line_at(alloc, &mut self.names, &mut self.questions, number, piece)?;
        self.lines.push(line)?;
        Ok(())
    }

    /// Reads line after line, to the end.
    fn read_lines<R: Read>(&mut self, alloc: Global, reader: &mut R) -> Result<(), ReplayFault>
        requires ahead { self.old.ahead ≡ [] }
        requires questions { self.old.questions ≡ [] }
        requires lines { self.old.lines ≡ [] }
        ensures ok { OnOk result (IsTraceFrom (R.remaining reader.old) self.new.lines) }
        ensures lawful { OnOk result (AreLawful self.new.lines) }
        ensures asked { OnOk result (self.new.questions ≡ questions_of self.new.lines) }
        ensures whole { OnOk result (IsAtEnd (R.remaining reader.new)) }
        ensures err { IfErr result (IsFaultOfTrace (R.remaining reader.old)) }
    {
        for number in 0..MOST_LINES {
            match piece_from(reader, &mut self.ahead, &mut self.piece)? {
                Ending::Lf => self.add_line(alloc, number)?,
                Ending::Last => {
                    if self.piece.as_slice().is_empty() {
                        return Ok(());
                    }
                    self.add_line(alloc, number)?;
                    return Ok(());
                }
                Ending::Endless => return Err(ReplayFault::BadLine(number)),
            }
        }
        if self.ahead.has_more(reader)? {
            Err(ReplayFault::TooManyLines)
        } else {
            Ok(())
        }
    }
}

/// The trace that a reader gives, to its end.
///
/// `BadLine(n)` where line n, from 0 on, is none; `TooManyQuestions(n)` where line n is one, and
/// with it the lines so far fetch more than 4,096 questions; `TooManyLines` where an octet follows
/// the millionth line, and none of the lines before it has a fault; `Read` where a read failed
/// before a fault of the text was met. The first fault is answered. Octets behind a fault may have
/// been read too.
pub fn read_trace<R: Read>(alloc: Global, reader: &mut R) -> Result<Trace, ReplayFault>
    ensures ok { IfOk result (IsTraceFrom (R.remaining reader.old)) }
    ensures whole { OnOk result (IsAtEnd (R.remaining reader.new)) }
    ensures err { IfErr result (IsFaultOfTrace (R.remaining reader.old)) }
{
    let mut reading = Reading::new(alloc)?;
    reading.read_lines(alloc, reader)?;
    Ok(Trace {
        lines: reading.lines,
        questions: reading.questions,
    })
}

/// Every text is the text of one list of lines, or it has one first fault, and never both. The
/// function does nothing; its contract is the law.
pub fn one_trace_or_fault()
    ensures { OneTraceOrFault }
{}
