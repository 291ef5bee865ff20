// The main job as a program, on a table of the user's own or on the example's:
//
//     glyphs [TABLE] <LINES
//
// TABLE is a file that holds a table's listing. Of each line of standard input it writes every reading with the most exact
// parts. With no TABLE it takes a small table of glyph rules that overlap, whose encodings it knows; so it goes on to choose
// the smallest known encoding, on a guessing pass and on the last. The last line that it writes says how many lines stop the
// build. It refuses a bad table and wrong use on standard error, and then reads no line.
#![tactic(auto)]

ghost use Rattle.std.specs.Prelude.{◌≡◌, ◌≤◌, length, take};

mod file;
mod input;
mod matching;
mod outcome;
mod reading;
mod refusal;
mod rules;
mod selection;
mod show;
mod table;

use crate::file::File;
use crate::matching::Table;
use crate::show::{part, say};
use crate::table::{LISTING, MOST_BYTES, MOST_WORDS};
use listing::reading::{ReadError, read_table};
use std::env::FillError;
use std::io;
use std::io::{Read, Write};
use std::rt::{Env, Files};

// The argument that names a table, if one does. The program's own name is argument 0.
pub const TABLE: usize = 1;

fn is_given<S: Env>(rt: &S, argument: usize) -> bool {
    !matches!(rt.arg(argument, &mut []), Err(FillError::NotPresent))
}

// The table that reading wrote: exactly so many words, the first of its room. Reading says no more than the room has.
fn table_in(room: &[u16], words: usize) -> &[u16]
    ensures { words ≤ length room.now → result.now ≡ take words room.now }
{
    room.get(..words).unwrap_or(&[])
}

// Reads a table's listing, and then the lines under that table. The encodings are known of the example's own table alone.
fn with_listing<R: Read, W: Write, E: Write>(
    input: &mut R,
    out: &mut W,
    err: &mut E,
    text: &[u8],
    encoded: bool,
) -> io::Result<()> {
    let mut room = [0u16; MOST_WORDS];
    match read_table(text, &mut room) {
        Ok(words) => {
            let words = table_in(&room, words as usize);
            if encoded {
                rules::show(out, words)?;
            }
            input::show(input, out, err, Table { words, encoded })
        }
        Err(ReadError::BadText { line }) => refusal::bad_listing(err, text, line as usize),
        Err(ReadError::NoRoom) => writeln!(
            err,
            "the table is refused, number 16: it takes more than {MOST_WORDS} words"
        ),
    }
}

// The table is in the file that the first argument names.
fn with_file<S: Env + Files, R: Read, W: Write, E: Write>(
    rt: &S,
    input: &mut R,
    out: &mut W,
    err: &mut E,
) -> io::Result<()> {
    let mut text = [0u8; MOST_BYTES];
    let found = file::read_named(rt, err, &mut text)?;
    match found {
        File::Whole { bytes } => with_listing(input, out, err, part(&text, 0, bytes), false),
        File::Longer => writeln!(
            err,
            "the table is refused, number 15: it is longer than {MOST_BYTES} bytes"
        ),
        File::Unread => Ok(()),
    }
}

fn main(rt: HostRuntime) -> io::Result<()> {
    let mut input = rt.reader();
    let mut out = io::writer(&rt);
    let mut err = rt.stderr();
    if !is_given(&rt, TABLE) {
        with_listing(&mut input, &mut out, &mut err, &LISTING, true)?;
    } else if !is_given(&rt, TABLE + 1) {
        with_file(&rt, &mut input, &mut out, &mut err)?;
    } else {
        say(
            &mut err,
            b"wrong use: one table at most, as in glyphs TABLE <LINES\n",
        )?;
    }
    out.flush()
}
