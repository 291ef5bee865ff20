// The parts of a call that only this program has, read from the input: lines, lists of outcome words, sheets.
ghost use Rattle.std.specs.Prelude.{◌≡◌, length, min, IfOk, OnErr};
ghost use Rattle.std.specs.Io.{ReadsAtMost};

use sample::{length, number, read_items, room_of};
use std::io;
use std::io::Read;

// A number as a byte; one too large for it counts as the largest.
fn as_byte(n: u32) -> u8 {
    u8::try_from(n).unwrap_or(u8::MAX)
}

// Reads so many bytes to a line's start, and gives for how many there was room.
pub fn read_line<R: Read>(input: &mut R, line: &mut [u8], wanted: usize) -> io::Result<usize>
    ensures value { IfOk result (λ n. n ≡ min wanted (length line.old)) }
    ensures bound { ReadsAtMost result line.new }
    ensures err { OnErr result (length line.new ≡ length line.old) }
{
    read_items(input, line, wanted, as_byte)
}

// The same of outcome words.
pub fn read_list<R: Read>(input: &mut R, list: &mut [u32], wanted: usize) -> io::Result<usize>
    ensures value { IfOk result (λ n. n ≡ min wanted (length list.old)) }
    ensures bound { ReadsAtMost result list.new }
    ensures err { OnErr result (length list.new ≡ length list.old) }
{
    read_items(input, list, wanted, |n| n)
}

// Reads a place of the sheet and the end that stands there.
fn read_entry<R: Read>(input: &mut R, sheet: &mut [u8]) -> io::Result<()> {
    let place = length(input)?;
    let end = as_byte(number(input)?);
    if let Some(entry) = sheet.get_mut(place) {
        *entry = end;
    }
    Ok(())
}

// Reads the entries that are named, and gives for how many of so many bytes there is room.
pub fn read_sheet<R: Read>(input: &mut R, sheet: &mut [u8], wanted: usize) -> io::Result<usize>
    ensures value { IfOk result (λ n. n ≡ min wanted (length sheet.old)) }
    ensures bound { ReadsAtMost result sheet.new }
    ensures err { OnErr result (length sheet.new ≡ length sheet.old) }
{
    for _ in 0..number(input)? {
        read_entry(input, sheet)?;
    }
    Ok(room_of(sheet, wanted))
}
