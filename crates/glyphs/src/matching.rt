// A line of the input: its sheet is filled, both entry points are asked, and what they answer is written. An empty line, and
// one that begins with `#`, is passed over.
use crate::reading::{Answered, FIRST, ROOM, word};
use crate::refusal::{put_bad_line, put_refusal};
use crate::selection::choose;
use crate::show::say;
use expressions::{FillError, fill_sheet};
use std::io;
use std::io::Write;

// As many visits as a call may take.
const BUDGET: u32 = 1_000_000;

// The bytes of the longest line's sheet, 2 · 121².
const MOST_SHEET: usize = 29_282;

// A packed table, and whether it is the example's own, whose encodings are known.
#[derive(Clone, Copy)]
pub struct Table<'a> {
    pub words: &'a [u16],
    pub encoded: bool,
}

// The bytes of a line that are held, and where it begins in the file, so that an argument's place is one in the file too.
#[derive(Clone, Copy)]
pub struct Line<'a> {
    pub text: &'a [u8],
    pub base: u32,
}

// What a line means for the build.
#[derive(Clone, Copy)]
pub enum Verdict {
    PassedOver,
    Read,
    Stops,
}

impl<'a> Line<'a> {
    // Writes the line, and under it what is read in it. Of a longer line not all bytes are held.
    pub fn show<W: Write>(self, out: &mut W, table: Table, longer: bool) -> io::Result<Verdict> {
        say(out, self.text)?;
        if longer {
            say(out, b"...")?;
        }
        say(out, b"\n")?;
        if matches!(self.text, [] | [b'#', ..]) {
            return Ok(Verdict::PassedOver);
        }
        let mut sheet = [0u8; MOST_SHEET];
        let size = lines::sheet_size(self.text.len());
        self.read(out, table, &mut sheet[..size])
    }

    // Fills the line's sheet, and reads the line.
    fn read<W: Write>(self, out: &mut W, table: Table, sheet: &mut [u8]) -> io::Result<Verdict> {
        match fill_sheet(self.text, sheet) {
            Ok(_) => self.find(out, table, sheet),
            Err(FillError::BadLine { place }) => {
                put_bad_line(out, self.text, place as usize)?;
                Ok(Verdict::Stops)
            }
            Err(FillError::BadRoom) => {
                say(
                    out,
                    b"    the build stops, number 18: its sheet's length is wrong\n",
                )?;
                Ok(Verdict::Stops)
            }
        }
    }

    // Asks the full scan, and prefix lookup too if it has readings.
    fn find<W: Write>(self, out: &mut W, table: Table, sheet: &[u8]) -> io::Result<Verdict> {
        let Line { text, base } = self;
        let mut found = [0u32; ROOM];
        let scan = matcher::match_instr(table.words, text, sheet, BUDGET, base, &mut found);
        if let Err(refused) = scan {
            put_refusal(out, refused, text)?;
            return Ok(Verdict::Stops);
        }
        let mut again = [0u32; ROOM];
        let _ = matcher::match_with_ruledef_map(table.words, text, sheet, BUDGET, base, &mut again);
        self.put_readings(out, table, &found, &again)
    }

    // Writes the readings, how many lookup found, and what is chosen among them where their encodings are known.
    fn put_readings<W: Write>(
        self,
        out: &mut W,
        table: Table,
        found: &[u32; ROOM],
        again: &[u32; ROOM],
    ) -> io::Result<Verdict> {
        let scan = Answered {
            words: found,
            line: self.text,
            base: self.base,
        };
        let count = word(found, 0, 0);
        let first = scan.show(out, FIRST)?;
        let mut latest = first;
        for _ in 1..count {
            latest = scan.show(out, latest.at)?;
        }
        let same = word(again, 0, 0);
        let exact = word(found, 0, 1);
        writeln!(
            out,
            "    readings: {count} by scan, {same} by lookup; exact parts: {exact}"
        )?;
        if !table.encoded || choose(out, first, latest, count)? {
            Ok(Verdict::Read)
        } else {
            Ok(Verdict::Stops)
        }
    }
}
