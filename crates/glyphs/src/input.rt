// The lines of standard input, of which there may be any number, each of any length: they are read in chunks, and of a line
// only its first bytes are held. A line is what stands before a newline, and after the last one if that is something.
// Whitespace at its end is taken off, so a file whose lines end in 13 and 10 is read like any other. What is taken off or not
// held is counted all the same, and so are the newlines: where a line begins is its place in the file.
ghost use Rattle.std.specs.Prelude.{◌≡◌, ◌-◌, ◌^◌, min};

use crate::matching::{Line, Table, Verdict};
use crate::show::{fail, part};
use std::io;
use std::io::{Read, Write};

// How much is read at a time.
const CHUNK: usize = 4_096;

// How many of a line's bytes are held: one more than a line may have, so that a longer one is refused for its length.
const HELD: usize = 121;

// What is lent as the base of a line that begins past what 32 bits hold: matching refuses it, with number 19.
const TOO_FAR: u32 = u32::MAX;

// A proved loop has to end, and nothing says that the input does. So the loop over it counts its turns, up to a number that
// no run uses up.
const TURNS: u64 = u64::MAX;

// Where the program is in its input: how many bytes are behind it, and how many of them stand before the line. Of the line so
// far: how many bytes are held; one more than the place of the last that is no whitespace; and whether such a one came after
// those held. Of the lines before: how many were read, and how many of them stop the build.
#[derive(Clone, Copy)]
struct Progress {
    bytes: usize,
    begin: usize,
    held: usize,
    solid: usize,
    longer: bool,
    lines: usize,
    stops: usize,
}

// The base of a line that has so many bytes before it.
fn base_of(begin: usize) -> u32
    ensures { result ≡ min begin (2 ^ 32 - 1) }
{
    begin.min(TOO_FAR as usize) as u32
}

impl Progress {
    fn new() -> Self {
        Progress {
            bytes: 0,
            begin: 0,
            held: 0,
            solid: 0,
            longer: false,
            lines: 0,
            stops: 0,
        }
    }

    // A byte more of the line.
    fn with_byte(mut self, held: &mut [u8; HELD], byte: u8) -> Self {
        let at = self.held;
        if at < HELD {
            held[at] = byte;
            self.held = at + 1;
        }
        if !token::is_whitespace(byte) {
            self.longer = HELD <= at;
            self.solid = self.held;
        }
        self
    }

    // The line is at its end. What is read in it is written and counted, and the next line begins.
    fn ended<W: Write>(self, out: &mut W, table: Table, held: &[u8; HELD]) -> io::Result<Self> {
        let line = Line {
            text: part(held, 0, self.solid),
            base: base_of(self.begin),
        };
        let verdict = line.show(out, table, self.longer)?;
        let mut next = Progress::new();
        next.bytes = self.bytes;
        next.begin = self.bytes;
        next.lines = self.lines;
        next.stops = self.stops;
        match verdict {
            Verdict::PassedOver => Ok(next),
            Verdict::Read => Ok(next.counted()),
            Verdict::Stops => {
                next.stops = next.stops.saturating_add(1);
                Ok(next.counted())
            }
        }
    }

    fn counted(mut self) -> Self {
        self.lines = self.lines.saturating_add(1);
        self
    }

    fn next<W: Write>(
        mut self,
        out: &mut W,
        table: Table,
        held: &mut [u8; HELD],
        byte: u8,
    ) -> io::Result<Self> {
        self.bytes = self.bytes.saturating_add(1);
        if byte == b'\n' {
            self.ended(out, table, held)
        } else {
            Ok(self.with_byte(held, byte))
        }
    }

    // The input is at its end: its last line may have no newline. Writes what it all comes to.
    fn finish<W: Write>(self, out: &mut W, table: Table, held: &[u8; HELD]) -> io::Result<()> {
        let all = if 0 < self.held {
            self.ended(out, table, held)?
        } else {
            self
        };
        let lines = all.lines;
        let stops = all.stops;
        writeln!(out, "\nlines: {lines}, stopping the build: {stops}")
    }
}

// Writes what is read in the lines of the input, and last what it all comes to. What stands ready is written out before each
// read, which may wait. Why a read failed is told.
pub fn show<R: Read, W: Write, E: Write>(
    input: &mut R,
    out: &mut W,
    err: &mut E,
    table: Table,
) -> io::Result<()> {
    let mut chunk = [0u8; CHUNK];
    let mut held = [0u8; HELD];
    let mut progress = Progress::new();
    for _ in 0..TURNS {
        out.flush()?;
        let count = match input.read(&mut chunk) {
            Ok(0) => return progress.finish(out, table, &held),
            Ok(count) => count,
            Err(error) => return fail(err, b"standard input", &error),
        };
        for byte in part(&chunk, 0, count) {
            progress = progress.next(out, table, &mut held, *byte)?;
        }
    }
    Ok(())
}
