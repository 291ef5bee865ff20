// What a call returned, on the output, with the room as it is left.
use listing::reading::ReadError;
use listing::writing::WriteError;
use sample::{put, say};
use std::io;
use std::io::Write;

// What stands at each place of a room before a call. No table has this word, and no listing this byte.
pub const UNTOUCHED_WORD: u16 = 65_535;

pub const UNTOUCHED_BYTE: u8 = b';';

// An answer's fields that are not always 0, and the stroke before the room.
fn put_fields<W: Write>(out: &mut W, number: u32, words: u32, place: u32) -> io::Result<()> {
    put(out, number)?;
    put(out, words)?;
    put(out, place)?;
    say(out, b" |")
}

fn put_word<W: Write>(out: &mut W, word: u16) -> io::Result<()> {
    if word == UNTOUCHED_WORD {
        say(out, b" .")
    } else {
        put(out, word as u32)
    }
}

fn put_words<W: Write>(out: &mut W, room: &[u16]) -> io::Result<()> {
    for word in room {
        put_word(out, *word)?;
    }
    Ok(())
}

// Writes a byte, with an escape for one that would not be seen or is an escape's own.
fn put_byte<W: Write>(out: &mut W, b: u8) -> io::Result<()> {
    match b {
        b'\t' => say(out, b"\\t"),
        b'\n' => say(out, b"\\n"),
        b'\r' => say(out, b"\\r"),
        b'\\' => say(out, b"\\\\"),
        _ => say(out, &[b]),
    }
}

fn put_bytes<W: Write>(out: &mut W, room: &[u8]) -> io::Result<()> {
    for b in room {
        put_byte(out, *b)?;
    }
    Ok(())
}

pub fn tell_read<W: Write>(
    out: &mut W,
    answer: Result<u32, ReadError>,
    room: &[u16],
) -> io::Result<()> {
    match answer {
        Ok(words) => put_fields(out, 0, words, 0)?,
        Err(ReadError::BadText { line }) => put_fields(out, 15, 0, line)?,
        Err(ReadError::NoRoom) => put_fields(out, 16, 0, 0)?,
    }
    put_words(out, room)?;
    say(out, b"\n")
}

pub fn tell_written<W: Write>(
    out: &mut W,
    answer: Result<u32, WriteError>,
    room: &[u8],
) -> io::Result<()> {
    match answer {
        Ok(bytes) => put_fields(out, 0, bytes, 0)?,
        Err(WriteError::BadTable) => put_fields(out, 2, 0, 0)?,
        Err(WriteError::NoRoom) => put_fields(out, 16, 0, 0)?,
    }
    if !room.is_empty() {
        say(out, b" ")?;
    }
    put_bytes(out, room)?;
    say(out, b"\n")
}
