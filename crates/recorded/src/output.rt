// What a call returned, on the output.
use sample::{put, say};
use std::io;
use std::io::Write;
use tholdrimash::{TholdrimashAnswer, TholdrimashSelection};

// Writes the numbers of a list, all of them: outcome words, an answer's words, or the indices chosen and the words that they leave.
fn put_list<W: Write, T: Copy + Into<u32>>(out: &mut W, list: &[T]) -> io::Result<()> {
    for word in list {
        put(out, (*word).into())?;
    }
    Ok(())
}

// Number, visits, words and place, then the buffer.
pub fn tell<W: Write>(out: &mut W, answer: TholdrimashAnswer, buffer: &[u32]) -> io::Result<()> {
    put(out, answer.number)?;
    put(out, answer.visits)?;
    put(out, answer.words)?;
    put(out, answer.place)?;
    say(out, b" |")?;
    put_list(out, buffer)?;
    say(out, b"\n")
}

// Number and count, then the outcome words and the buffer.
pub fn tell_selection<W: Write>(
    out: &mut W,
    selection: TholdrimashSelection,
    list: &[u32],
    buffer: &[u16],
) -> io::Result<()> {
    put(out, selection.number)?;
    put(out, selection.count)?;
    say(out, b" |")?;
    put_list(out, list)?;
    say(out, b" |")?;
    put_list(out, buffer)?;
    say(out, b"\n")
}
