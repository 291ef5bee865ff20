// A call: its parts are read one by one, each into an array of its own, and then it is made. A part that its array has no room
// for stops the replay.
use crate::input::{read_line, read_list, read_sheet};
use crate::output::{tell, tell_selection};
use sample::{Stop, copy_name, length, number, read_words, room_of, say};
use std::io;
use std::io::{Read, Write};
use tholdrimash::TholdrimashAnswer;

// What the arrays have room for. A table, a line, a sheet and a list may be longer than the longest good ones.
const TABLE: usize = 9_764;

const LINE: usize = 130;

const SHEET: usize = 29_300;

const ANSWER: usize = 512;

const LIST: usize = 4_097;

const CHOICE: usize = 4_096;

// What stands at each place of an answer's buffer before a call, and of a choice's. No call of the sample writes it: a word
// of an answer could be any number of 32 bits, but the sample has no base near this one.
const UNTOUCHED: u32 = 4_000_000_000;

const NO_INDEX: u16 = 65_535;

// An entry of a sheet that has no end.
const NO_END: u8 = 255;

// What a call does, as its first number says.
#[derive(Clone, Copy)]
enum How {
    Match(Find),
    Select(Pass),
}

// How a match's rules are found.
#[derive(Clone, Copy)]
enum Find {
    Scan,
    Lookup,
}

// Which pass a selection is made on.
#[derive(Clone, Copy)]
enum Pass {
    Guessing,
    Last,
}

struct NoSuchCall;

impl TryFrom<u32> for How {
    type Error = NoSuchCall;

    fn try_from(number: u32) -> Result<How, NoSuchCall> {
        match number {
            0 => Ok(How::Match(Find::Scan)),
            1 => Ok(How::Match(Find::Lookup)),
            2 => Ok(How::Select(Pass::Guessing)),
            3 => Ok(How::Select(Pass::Last)),
            _ => Err(NoSuchCall),
        }
    }
}

// What a matching call has beside a table, a line and a sheet.
#[derive(Clone, Copy)]
struct Asked {
    find: Find,
    budget: u32,
    base: u32,
    room: usize,
}

fn too_long<W: Write>(out: &mut W) -> Result<(), Stop> {
    say(out, b" too long\n")?;
    Err(Stop::End)
}

fn answer(
    asked: Asked,
    table: &[u16],
    line: &[u8],
    sheet: &[u8],
    buffer: &mut [u32],
) -> TholdrimashAnswer {
    let Asked { budget, base, .. } = asked;
    match asked.find {
        Find::Scan => tholdrimash::tholdrimash_match(table, line, sheet, budget, base, buffer),
        Find::Lookup => tholdrimash::tholdrimash_lookup(table, line, sheet, budget, base, buffer),
    }
}

fn matching<W: Write>(
    out: &mut W,
    asked: Asked,
    table: &[u16],
    line: &[u8],
    sheet: &[u8],
    buffer: &mut [u32],
) -> io::Result<()> {
    let answer = answer(asked, table, line, sheet, buffer);
    tell(out, answer, buffer)
}

fn with_sheet<W: Write>(
    out: &mut W,
    asked: Asked,
    table: &[u16],
    line: &[u8],
    sheet: &[u8],
) -> Result<(), Stop> {
    let mut buffer = [UNTOUCHED; ANSWER];
    let n = room_of(&buffer, asked.room);
    if n < asked.room {
        return too_long(out);
    }
    matching(out, asked, table, line, sheet, &mut buffer[..n])?;
    Ok(())
}

fn with_line<R: Read, W: Write>(
    input: &mut R,
    out: &mut W,
    asked: Asked,
    table: &[u16],
    line: &[u8],
) -> Result<(), Stop> {
    let mut sheet = [NO_END; SHEET];
    let wanted = length(input)?;
    let n = read_sheet(input, &mut sheet, wanted)?;
    if n < wanted {
        return too_long(out);
    }
    with_sheet(out, asked, table, line, &sheet[..n])
}

fn with_table<R: Read, W: Write>(
    input: &mut R,
    out: &mut W,
    asked: Asked,
    table: &[u16],
) -> Result<(), Stop> {
    let mut line = [0u8; LINE];
    let wanted = length(input)?;
    let n = read_line(input, &mut line, wanted)?;
    if n < wanted {
        return too_long(out);
    }
    with_line(input, out, asked, table, &line[..n])
}

fn with_asked<R: Read, W: Write>(input: &mut R, out: &mut W, asked: Asked) -> Result<(), Stop> {
    let mut table = [0u16; TABLE];
    let wanted = length(input)?;
    let n = read_words(input, &mut table, wanted)?;
    if n < wanted {
        return too_long(out);
    }
    with_table(input, out, asked, &table[..n])
}

fn match_call<R: Read, W: Write>(input: &mut R, out: &mut W, find: Find) -> Result<(), Stop> {
    let budget = number(input)?;
    let base = number(input)?;
    let room = length(input)?;
    let asked = Asked {
        find,
        budget,
        base,
        room,
    };
    with_asked(input, out, asked)
}

fn select<W: Write>(
    out: &mut W,
    pass: Pass,
    list: &mut [u32],
    buffer: &mut [u16],
) -> io::Result<()> {
    let last = match pass {
        Pass::Guessing => 0,
        Pass::Last => 1,
    };
    let selection = tholdrimash::tholdrimash_select(list, last, buffer);
    tell_selection(out, selection, list, buffer)
}

fn with_list<W: Write>(
    out: &mut W,
    pass: Pass,
    wanted: usize,
    list: &mut [u32],
) -> Result<(), Stop> {
    let mut buffer = [NO_INDEX; CHOICE];
    let n = room_of(&buffer, wanted);
    if n < wanted {
        return too_long(out);
    }
    select(out, pass, list, &mut buffer[..n])?;
    Ok(())
}

fn select_call<R: Read, W: Write>(input: &mut R, out: &mut W, pass: Pass) -> Result<(), Stop> {
    let room = length(input)?;
    let mut list = [0u32; LIST];
    let wanted = length(input)?;
    let n = read_list(input, &mut list, wanted)?;
    if n < wanted {
        return too_long(out);
    }
    with_list(out, pass, room, &mut list[..n])
}

// The next call.
pub fn replay<R: Read, W: Write>(input: &mut R, out: &mut W) -> Result<(), Stop> {
    copy_name(input, out)?;
    match How::try_from(number(input)?) {
        Ok(How::Match(find)) => match_call(input, out, find),
        Ok(How::Select(pass)) => select_call(input, out, pass),
        Err(NoSuchCall) => {
            say(out, b" no such call\n")?;
            Err(Stop::End)
        }
    }
}
