// Size selection on the one or two readings of a line under the example's table.
use crate::outcome::{FAILED, Pass, SIZE_UNIT};
use crate::reading::Reading;
use crate::rules::Encoding;
use crate::show::say;
use resolver::instruction::{SelectError, resolve_encoding};
use std::io;
use std::io::Write;

// The most readings that a line has under this table.
const MOST: usize = 2;

// Writes an outcome.
fn put_outcome<W: Write>(out: &mut W, word: u32) -> io::Result<()> {
    let size = word / SIZE_UNIT;
    if word == FAILED {
        write!(out, " fails")
    } else if word % 2 == 1 {
        write!(out, " guess of {size} bits")
    } else {
        write!(out, " {size} bits")
    }
}

// Writes the rules that are chosen, all of ruleset 0, and the size that they share.
fn put_choice<W: Write>(
    out: &mut W,
    rule: usize,
    other: usize,
    chosen: u16,
    count: usize,
) -> io::Result<()> {
    if count == MOST {
        let bits = Encoding::of(rule).bits;
        return writeln!(out, " -> 0.{rule} and 0.{other}, {bits} bits");
    }
    let one = if chosen == 0 { rule } else { other };
    let bits = Encoding::of(one).bits;
    writeln!(out, " -> 0.{one}, {bits} bits")
}

// Writes why none is chosen. On a guessing pass there is another pass to come.
fn put_none<W: Write>(out: &mut W, error: SelectError, pass: Pass) -> io::Result<()> {
    say(out, b" -> ")?;
    if pass == Pass::Last {
        say(out, b"the build stops, ")?;
    }
    match error {
        SelectError::NoneResolved => say(out, b"number 11: none resolved\n"),
        SelectError::NoneKnown => say(out, b"number 12: none known\n"),
        SelectError::Tied { count } => writeln!(out, "number 13: {count} tied"),
        _ => say(out, b"none chosen\n"),
    }
}

// A pass over so many readings, of which the first and the latest are lent: their outcomes, and which are chosen. False if none
// is.
fn try_pass<W: Write>(
    out: &mut W,
    first: Reading,
    latest: Reading,
    count: usize,
    pass: Pass,
) -> io::Result<bool> {
    let mut words = [first.outcome(pass), latest.outcome(pass)];
    put_outcome(out, words[0])?;
    if count == MOST {
        say(out, b" |")?;
        put_outcome(out, words[1])?;
    }
    if MOST < count {
        writeln!(out, " -> none is chosen among {count} readings")?;
        return Ok(false);
    }
    let mut chosen = [0u16; MOST];
    match resolve_encoding(&mut words[..count], pass == Pass::Last, &mut chosen) {
        Ok(count) => {
            put_choice(out, first.rule, latest.rule, chosen[0], count)?;
            Ok(true)
        }
        Err(error) => {
            put_none(out, error, pass)?;
            Ok(false)
        }
    }
}

// Writes what is chosen on a guessing pass, and on the last. Says whether the last pass chooses one.
pub fn choose<W: Write>(
    out: &mut W,
    first: Reading,
    latest: Reading,
    count: usize,
) -> io::Result<bool> {
    say(out, b"    guessing pass:")?;
    try_pass(out, first, latest, count, Pass::Guessing)?;
    say(out, b"    last pass:    ")?;
    try_pass(out, first, latest, count, Pass::Last)
}
