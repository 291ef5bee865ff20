// Takes a reading of any table from the answer words, writes it, and makes its outcome words. A nested argument's match
// follows it, so a walk from left to right meets every argument with no recursion: it keeps, for each depth, how many
// arguments of the match there are still to come. Every step is guarded, so any words are walked safely.
ghost use Rattle.std.specs.Prelude.{◌≡◌, ◌+◌, min, slice_index};

use crate::outcome::{Pass, sized, value_of, with_value};
use crate::rules::Encoding;
use crate::show::{part, say};
use std::io;
use std::io::Write;

// The most words that an answer may have here.
pub const ROOM: usize = 4_096;

// An answer is words in a row, as C reads them, so their places and kinds are numbers.
// Where the first reading begins: after the number of readings and their exact count.
pub const FIRST: usize = 2;

// How many words a rule has, ruleset, number and argument count; and where in them the last stands.
const RULE: usize = 3;

const COUNT: usize = 2;

// How many words an argument has, kind, start and end; and where in them the last two stand.
const ARGUMENT: usize = 3;

const START: usize = 1;

const END: usize = 2;

// The kind of an argument that has a match of its own.
const NESTED: usize = 1;

// The greatest depth of a match, and how many depths there are.
const DEEPEST: usize = 16;

const DEPTHS: usize = DEEPEST + 1;

// An answer's words, the line that they are of, and where it begins in the file.
#[derive(Clone, Copy)]
pub struct Answered<'a> {
    pub words: &'a [u32; ROOM],
    pub line: &'a [u8],
    pub base: u32,
}

// A reading: its rule, and its outcome words on a guessing pass and on the last, so far, which mean something under the
// example's own table alone. Then the next word, and the depth of the match that it is in, unless all is written.
#[derive(Clone, Copy)]
pub struct Reading {
    pub rule: usize,
    guessing: u32,
    last: u32,
    pub at: usize,
    depth: Option<usize>,
}

// The word that stands so far after a place, or 0 past the end.
pub fn word(words: &[u32; ROOM], at: usize, after: usize) -> usize
    ensures { result ≡ slice_index words.now (at + after) }
{
    if at < ROOM {
        if after < ROOM - at {
            return words[at + after] as usize;
        }
    }
    0
}

// The place that stands so far after another, or the end.
fn past(at: usize, after: usize) -> usize
    ensures { result ≡ min (at + after) 4096 }
{
    at.saturating_add(after).min(ROOM)
}

// Takes one of the arguments to come at a depth. False if there is none.
fn take_one(to_come: &mut [usize; DEPTHS], depth: usize) -> bool {
    match to_come.get_mut(depth) {
        Some(left) if 0 < *left => {
            *left -= 1;
            true
        }
        _ => false,
    }
}

impl<'a> Answered<'a> {
    fn word(self, at: usize, after: usize) -> usize {
        word(self.words, at, after)
    }

    // An argument's text. Its place counts in the file, and the line begins there at the base: so it is cut out of the line by
    // its place less the base, or nothing is if that is no part of the line.
    fn text(self, at: usize) -> &'a [u8] {
        let from = self.base as usize;
        let start = self.word(at, START);
        let end = self.word(at, END);
        if from <= start && start <= end {
            part(self.line, start - from, end - from)
        } else {
            &[]
        }
    }

    // Writes it, and its place in the file: its start, and the end that is no part of it.
    fn put_text<W: Write>(self, out: &mut W, at: usize) -> io::Result<()> {
        let start = self.word(at, START);
        let end = self.word(at, END);
        say(out, b" {")?;
        say(out, self.text(at))?;
        write!(out, " at {start}..{end}")
    }

    // Writes the reading that begins at a place, and returns it. An argument has three words and takes at most two turns,
    // into it and out of it, so as many turns as words are enough.
    pub fn show<W: Write>(self, out: &mut W, at: usize) -> io::Result<Reading> {
        let mut to_come = [0usize; DEPTHS];
        to_come[0] = self.word(at, COUNT);
        let mut reading = self.begin(out, at)?;
        for _ in 0..ROOM {
            let Some(depth) = reading.depth else {
                break;
            };
            reading = self.next(out, reading, depth, &mut to_come)?;
        }
        Ok(reading)
    }

    // The reading that begins at a place, before its first argument.
    fn begin<W: Write>(self, out: &mut W, at: usize) -> io::Result<Reading> {
        let set = self.word(at, 0);
        let rule = self.word(at, 1);
        write!(out, "    {set}.{rule}")?;
        let outcome = sized(Encoding::of(rule));
        Ok(Reading {
            rule,
            guessing: outcome,
            last: outcome,
            at: past(at, RULE),
            depth: Some(0),
        })
    }

    fn next<W: Write>(
        self,
        out: &mut W,
        reading: Reading,
        depth: usize,
        to_come: &mut [usize; DEPTHS],
    ) -> io::Result<Reading> {
        if !take_one(to_come, depth) {
            return reading.out_of_match(out, depth);
        }
        if self.word(reading.at, 0) == NESTED {
            return self.into_match(out, reading, depth, to_come);
        }
        self.over_expression(out, reading)
    }

    // Past an expression, whose value counts. (The example's nested rules have no parameters.)
    fn over_expression<W: Write>(self, out: &mut W, mut reading: Reading) -> io::Result<Reading> {
        let at = reading.at;
        self.put_text(out, at)?;
        say(out, b"}")?;
        let value = value_of(self.text(at));
        let encoding = Encoding::of(reading.rule);
        reading.guessing = with_value(value, encoding, Pass::Guessing, reading.guessing);
        reading.last = with_value(value, encoding, Pass::Last, reading.last);
        reading.at = past(at, ARGUMENT);
        Ok(reading)
    }

    // Into a nested argument's match: its text and place, its rule, and its own arguments to come.
    fn into_match<W: Write>(
        self,
        out: &mut W,
        mut reading: Reading,
        depth: usize,
        to_come: &mut [usize; DEPTHS],
    ) -> io::Result<Reading> {
        let at = reading.at;
        let set = self.word(at, ARGUMENT);
        let rule = self.word(at, ARGUMENT + 1);
        self.put_text(out, at)?;
        write!(out, ": {set}.{rule}")?;
        if depth < DEEPEST {
            to_come[depth + 1] = self.word(at, ARGUMENT + COUNT);
            reading.depth = Some(depth + 1);
        }
        reading.at = past(at, ARGUMENT + RULE);
        Ok(reading)
    }
}

impl Reading {
    // The outcome word of a pass.
    pub fn outcome(self, pass: Pass) -> u32 {
        match pass {
            Pass::Guessing => self.guessing,
            Pass::Last => self.last,
        }
    }

    // Out of a match that has no more arguments.
    fn out_of_match<W: Write>(mut self, out: &mut W, depth: usize) -> io::Result<Self> {
        self.depth = depth.checked_sub(1);
        if self.depth.is_some() {
            say(out, b"}")?;
        } else {
            say(out, b"\n")?;
        }
        Ok(self)
    }
}
