// The parts of a case that only this program has, read from the input: words, and texts with escapes.
ghost use Rattle.std.specs.Prelude.{◌≡◌, length, OnErr};
ghost use Rattle.std.specs.Io.{ReadsAtMost};

use sample::{TURNS, byte};
use std::io;
use std::io::Read;

// The first byte of the next word, which stands after one space. The space that ends it is read too.
pub fn word<R: Read>(input: &mut R) -> io::Result<Option<u8>> {
    byte(input)?;
    let first = byte(input)?;
    for _ in 0..TURNS {
        if let None | Some(b' ' | b'\n') = byte(input)? {
            break;
        }
    }
    Ok(first)
}

// What a byte of a text stands for: a backslash takes the next byte with it.
fn unescaped<R: Read>(input: &mut R, b: u8) -> io::Result<u8> {
    if b != b'\\' {
        return Ok(b);
    }
    Ok(match byte(input)? {
        Some(b't') => b'\t',
        Some(b'n') => b'\n',
        Some(b'r') => b'\r',
        Some(next) => next,
        None => 0,
    })
}

// Reads a text to the start of some bytes, up to the line's end, and gives its length; or the length of all the bytes, if
// they are too few to see that it ends.
pub fn read_text<R: Read>(input: &mut R, text: &mut [u8]) -> io::Result<usize>
    ensures bound { ReadsAtMost result text.new }
    ensures err { OnErr result (length text.new ≡ length text.old) }
{
    for n in 0..text.len() {
        let Some(b) = byte(input)? else {
            return Ok(n);
        };
        if b == b'\n' {
            return Ok(n);
        }
        text[n] = unescaped(input, b)?;
    }
    Ok(text.len())
}
