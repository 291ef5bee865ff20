// Replays recorded cases of both listing calls and writes what the proved code answers. Standard input has a case a line:
//
//     NAME: read room text          a room of so many words, and a text up to the line's end
//     NAME: write room table        a room of so many bytes, and a table: a length and so many numbers
//
// A text has `\t` for a tab, `\n` for a line end, `\r` for a carriage return and `\\` for a backslash, and begins after one
// space; the empty text leaves that space. The answer is a line too, and the file stdout beside src/ has what document 02
// says. It ends with the whole room: words, or bytes with the same escapes. A place that is as it was before the call is `.`
// among words, and `;` among bytes:
//
//     NAME: number words place | room
#![tactic(auto)]

mod calls;
mod input;
mod output;

use sample::Stop;
use std::io;
use std::io::Write;

fn main(rt: HostRuntime) -> io::Result<()> {
    let mut input = rt.reader();
    let mut out = io::writer(&rt);
    for _ in 0..sample::TURNS {
        match calls::replay(&mut input, &mut out) {
            Ok(()) => {}
            Err(Stop::End) => break,
            Err(Stop::Io(error)) => return Err(error),
        }
    }
    out.flush()
}
