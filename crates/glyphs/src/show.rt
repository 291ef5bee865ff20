// Parts of a text, and what refuses the whole run, on standard error.
ghost use Rattle.std.specs.Prelude.{◌≡◌, ◌-◌, ◌<◌, ◌≤◌, [], length, take, drop, OnOk};
ghost use Rattle.std.specs.Io.KnownBytes.{Appends};

use std::fmt::InlineText;
use std::io;
use std::io::Write;

// What std puts behind the system's words for an error, and before its number.
const NUMBER: &str = " (os error ";

// The bytes that an error's words may have, its number included.
const WORDS: usize = 128;

pub fn say<W: Write>(out: &mut W, text: &[u8]) -> io::Result<()>
    ensures { OnOk result (Appends (W.contents out.old) (W.contents out.new) text.now) }
{
    out.write_all(text)
}

// Tells on standard error what failed, and why in the system's words.
pub fn fail<W: Write>(err: &mut W, what: &[u8], error: &io::Error) -> io::Result<()> {
    let text = InlineText::<WORDS>::of(error);
    let words = without_number(text.as_str());
    say(err, what)?;
    writeln!(err, ": {words}")
}

// The system's words alone.
fn without_number(text: &str) -> &str {
    match text.split_once(NUMBER) {
        Some((words, _)) => words,
        None => text,
    }
}

// A part of a text, or nothing of it if the places are no part's.
pub fn part(text: &[u8], start: usize, end: usize) -> &[u8]
    ensures within { start ≤ end → end ≤ length text.now
        → result.now ≡ take (end - start) (drop start text.now) }
    ensures crossed { end < start → result.now ≡ [] }
    ensures past_end { length text.now < end → result.now ≡ [] }
{
    text.get(start..end).unwrap_or(&[])
}
