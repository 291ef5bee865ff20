// Replays a recorded sample of calls and writes what the proved code answers. Standard input has a call a line:
//
//     NAME: HOW budget base room table line sheet      HOW 0 full scan, 1 prefix lookup
//     NAME: HOW room list                              HOW 2 selection on a guessing pass, 3 on the last
//
// A table, a line and a list are a length and so many numbers. A sheet is its length, how many entries are named, and a
// place and an end for each; every other entry is 255. Room is how many places the buffer has; before the call each is
// 4000000000, in a selection 65535. The answer is a line too, and the file stdout beside src/ has what the Rust answered:
//
//     NAME: number visits words place | buffer
//     NAME: number count | list | buffer
#![tactic(auto)]

mod calls;
mod input;
mod output;

use sample::Stop;
use std::io;
use std::io::Write;

fn main(rt: HostRuntime) -> io::Result<()> {
    let mut input = rt.reader();
    let mut out = io::writer(&rt);
    for _ in 0..sample::TURNS {
        match calls::replay(&mut input, &mut out) {
            Ok(()) => {}
            Err(Stop::End) => break,
            Err(Stop::Io(error)) => return Err(error),
        }
    }
    out.flush()
}
