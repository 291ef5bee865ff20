// Reading and writing for the programs that replay recorded cases. Input is read a byte at a time: names, and numbers in
// decimal. One too large for its bits counts as the largest. Output is text, and numbers in decimal. Of a reader and a writer
// a program lends its own, over standard input and output. An error of either is passed on.
#![tactic(auto)]

ghost use Rattle.std.specs.Prelude.{◌≡◌, ◌+◌, ◌≤◌, ◌++◌, length, take, drop, min, slice_index, if◌then◌else◌, ◌==◌, codes, decimal, None, Some, IfSome, IfOk, OnOk, OnErr};
ghost use Rattle.std.specs.Io.{ReadsAtMost};
ghost use Rattle.std.specs.Io.KnownBytes.{Appends};
ghost use Rattle.sample.specs.declared.Stop.TheVariants.{Io};

use std::io;
use std::io::{Read, Write};

// A proved loop has to end, and nothing says that the input does. So a loop over it counts its turns, up to a number that no
// run uses up.
pub const TURNS: u64 = u64::MAX;

// Why a replay stops: no case comes, or none can be replayed any more; or reading or writing fails.
#[derive(Debug, Drop)]
pub enum Stop {
    End,
    Io(io::Error),
}

impl From<io::Error> for Stop {
    ghost from_gives = { λ error stop. stop ≡ Io error };

    fn from(error: io::Error) -> Stop {
        Stop::Io(error)
    }
}

pub fn say<W: Write>(out: &mut W, text: &[u8]) -> io::Result<()>
    ensures { OnOk result (Appends (W.contents out.old) (W.contents out.new) text.now) }
{
    out.write_all(text)
}

// Writes a number after a space.
pub fn put<W: Write>(out: &mut W, n: u32) -> io::Result<()>
    ensures { OnOk result
        (Appends (W.contents out.old) (W.contents out.new) (codes " " ++ decimal n)) }
{
    write!(out, " {n}")
}

// The next byte, if the input has one. A byte 0, which no case has, ends it as well.
pub fn byte<R: Read>(input: &mut R) -> io::Result<Option<u8>>
    ensures next { IfOk result (λ b. IfSome (R.remaining input.old) (λ xs. b ≡ (if slice_index xs 0 == 0 then None else Some (slice_index xs 0)))) }
    ensures rest { OnOk result (IfSome (R.remaining input.old)
        (λ xs. R.remaining input.new ≡ Some (drop 1 xs))) }
{
    let mut one = [0u8; 1];
    let count = input.read(&mut one)?;
    if count == 1 && one[0] != 0 {
        Ok(Some(one[0]))
    } else {
        Ok(None)
    }
}

// Copies a case's name to the output, with its colon. The replay ends if the input does before it.
pub fn copy_name<R: Read, W: Write>(input: &mut R, out: &mut W) -> Result<(), Stop> {
    for _ in 0..TURNS {
        let Some(b) = byte(input)? else {
            return Err(Stop::End);
        };
        say(out, &[b])?;
        if b == b':' {
            return Ok(());
        }
    }
    Err(Stop::End)
}

fn digit(b: u8) -> Option<u32> {
    match b {
        b'0'..=b'9' => Some(u32::from(b - b'0')),
        _ => None,
    }
}

// The next number. Spaces before it are passed over, and the byte that ends it is read too.
pub fn number<R: Read>(input: &mut R) -> io::Result<u32> {
    let mut n: Option<u32> = None;
    for _ in 0..TURNS {
        let Some(b) = byte(input)? else {
            break;
        };
        if let Some(value) = digit(b) {
            n = Some(n.unwrap_or(0).saturating_mul(10).saturating_add(value));
        } else if n.is_some() || b != b' ' {
            break;
        }
    }
    Ok(n.unwrap_or(0))
}

pub fn length<R: Read>(input: &mut R) -> io::Result<usize> {
    let n = number(input)?;
    Ok(n as usize)
}

// So many items of a room, or all that it has.
pub fn room_of<T>(room: &[T], wanted: usize) -> usize
    ensures value { result ≡ min wanted (length room.now) }
    ensures bound { result ≤ length room.now }
    ensures prefix { result ≡ length (take result room.now) }
{
    wanted.min(room.len())
}

// Reads so many numbers to a room's start, each as an item, and gives for how many there was room.
pub fn read_items<R: Read, T: Copy, F: Fn(u32) -> T>(
    input: &mut R,
    room: &mut [T],
    wanted: usize,
    item: F,
) -> io::Result<usize>
    requires { F.IsAlwaysCallable item }
    ensures value { IfOk result (λ n. n ≡ min wanted (length room.old)) }
    ensures bound { IfOk result (λ n. n ≤ length room.new) }
    ensures err { OnErr result (length room.new ≡ length room.old) }
{
    let n = room_of(room, wanted);
    for place in &mut room[..n] {
        *place = item(number(input)?);
    }
    Ok(n)
}

// Reads so many words to a table's start, and gives for how many there was room.
pub fn read_words<R: Read>(input: &mut R, table: &mut [u16], wanted: usize) -> io::Result<usize>
    ensures value { IfOk result (λ n. n ≡ min wanted (length table.old)) }
    ensures bound { ReadsAtMost result table.new }
    ensures err { OnErr result (length table.new ≡ length table.old) }
{
    let word = |n: u32| u16::try_from(n).unwrap_or(u16::MAX);
    read_items(input, table, wanted, word)
}
