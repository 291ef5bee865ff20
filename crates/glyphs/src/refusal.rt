// Why a line stops the build, and why a table's listing is refused: the number, and its words.
ghost use Rattle.std.specs.Prelude.{◌≡◌, ◌==◌, count_by};

use crate::reading::ROOM;
use crate::show::say;
use std::io;
use std::io::Write;
use trials::Refused;

// The longest line.
const LONGEST: usize = 120;

// Writes why matching refused a line.
pub fn put_refusal<W: Write>(out: &mut W, refused: Refused, line: &[u8]) -> io::Result<()> {
    say(out, b"    the build stops, ")?;
    match refused {
        Refused::NoMatch { .. } => say(out, b"number 1: no rule reads it\n"),
        Refused::BadTable => say(out, b"number 2: bad table\n"),
        Refused::BadLine { place } => put_place(out, line, place as usize),
        Refused::BadSheet => say(out, b"number 4: bad sheet\n"),
        Refused::BadBudget => say(out, b"number 5: bad budget\n"),
        Refused::BadBase => say(out, b"number 19: the line begins too far on in the file\n"),
        Refused::Spent { visits } => writeln!(
            out,
            "number 6: {visits} visits are spent, and there is more to try"
        ),
        Refused::TooDeep { .. } => say(out, b"number 7: its rules nest deeper than 16\n"),
        Refused::PoolFull { .. } => say(out, b"number 8: more than 4,096 records are due\n"),
        Refused::TooLong { words, .. } => writeln!(
            out,
            "number 9: its readings take {words} words, more than {ROOM}"
        ),
    }
}

// Writes why no sheet is filled for a line.
pub fn put_bad_line<W: Write>(out: &mut W, line: &[u8], place: usize) -> io::Result<()> {
    say(out, b"    the build stops, ")?;
    put_place(out, line, place)
}

// The place counts from 0 in the line, and not in the file as an argument's does.
fn put_place<W: Write>(out: &mut W, line: &[u8], place: usize) -> io::Result<()> {
    if LONGEST < line.len() {
        return writeln!(
            out,
            "number 3: bad line at place {place}, longer than {LONGEST} bytes"
        );
    }
    match line.get(place) {
        Some(byte) => writeln!(out, "number 3: bad line at place {place}, byte {byte}"),
        None => Ok(()),
    }
}

// How many lines of a text are ended.
fn ended_lines(text: &[u8]) -> usize
    ensures { result ≡ count_by (λ b. b == 10) text.now }
{
    text.iter().filter(|byte| **byte == b'\n').count()
}

// Tells where a listing is bad. Reading counts its lines from 0, and gives the number of ended lines if only the end is
// wrong; an editor counts from 1.
pub fn bad_listing<W: Write>(err: &mut W, text: &[u8], line: usize) -> io::Result<()> {
    say(err, b"the table is refused, number 15: its ")?;
    if line < ended_lines(text) {
        let number = line + 1;
        writeln!(err, "line {number} is bad (the first is 1)")
    } else {
        writeln!(err, "end is bad, after {line} ended lines")
    }
}
