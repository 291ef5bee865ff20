// A call: its parts are read one by one, each into an array of its own, and then it is made. A part that its array has no room
// for stops the replay.
use crate::input::{read_text, word};
use crate::output::{UNTOUCHED_BYTE, UNTOUCHED_WORD, tell_read, tell_written};
use listing::reading::read_table;
use listing::writing::write_table;
use sample::{Stop, copy_name, length, read_words, room_of, say};
use std::io;
use std::io::{Read, Write};

// What the arrays have room for. A table has at most 9,763 words and a listing at most 41,440 bytes: these are some more, so
// that a table or a text that passes a limit can be lent too.
const WORDS: usize = 10_000;

const BYTES: usize = 45_000;

fn too_long<W: Write>(out: &mut W) -> Result<(), Stop> {
    say(out, b" too long\n")?;
    Err(Stop::End)
}

fn reading<W: Write>(out: &mut W, text: &[u8], room: &mut [u16]) -> io::Result<()> {
    let answer = read_table(text, room);
    tell_read(out, answer, room)
}

fn with_text<W: Write>(out: &mut W, wanted: usize, text: &[u8]) -> Result<(), Stop> {
    let mut room = [UNTOUCHED_WORD; WORDS];
    let n = room_of(&room, wanted);
    if n < wanted {
        return too_long(out);
    }
    reading(out, text, &mut room[..n])?;
    Ok(())
}

fn read_call<R: Read, W: Write>(input: &mut R, out: &mut W) -> Result<(), Stop> {
    let room = length(input)?;
    let mut text = [0u8; BYTES];
    let n = read_text(input, &mut text)?;
    if n == BYTES {
        return too_long(out);
    }
    with_text(out, room, &text[..n])
}

fn writing<W: Write>(out: &mut W, table: &[u16], room: &mut [u8]) -> io::Result<()> {
    let answer = write_table(table, room);
    tell_written(out, answer, room)
}

fn with_table<W: Write>(out: &mut W, wanted: usize, table: &[u16]) -> Result<(), Stop> {
    let mut room = [UNTOUCHED_BYTE; BYTES];
    let n = room_of(&room, wanted);
    if n < wanted {
        return too_long(out);
    }
    writing(out, table, &mut room[..n])?;
    Ok(())
}

fn write_call<R: Read, W: Write>(input: &mut R, out: &mut W) -> Result<(), Stop> {
    let room = length(input)?;
    let mut table = [0u16; WORDS];
    let wanted = length(input)?;
    let n = read_words(input, &mut table, wanted)?;
    if n < wanted {
        return too_long(out);
    }
    with_table(out, room, &table[..n])
}

// The next case. Its call is told by the first byte of its word.
pub fn replay<R: Read, W: Write>(input: &mut R, out: &mut W) -> Result<(), Stop> {
    copy_name(input, out)?;
    match word(input)? {
        Some(b'r') => read_call(input, out),
        Some(b'w') => write_call(input, out),
        _ => {
            say(out, b" no such call\n")?;
            Err(Stop::End)
        }
    }
}
