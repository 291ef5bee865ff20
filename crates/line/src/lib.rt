// The line's check, added by the port: number 3 and its place. The Rust's matcher takes any text and has no such check; what
// makes its lines is not in the published text.
#![tactic(auto)]

ghost use Rattle.std.specs.Prelude.{◌≡◌, true, false, not, position, ◌+◌, ◌≤◌, ◌<◌, length, IfSome};
ghost use Rattle.token.specs.Token.{is_whitespace};
ghost use Rattle.line.specs.Line.{is_allowed, AllowedBetween, first_bad, line_says, line_verdict};

const LONGEST: usize = 120;

// The last whitespace, just below the printed bytes.
const SPACE: u8 = 32;

const FIRST_PRINTED: u8 = 33;

const LAST_PRINTED: u8 = 126;

const SEMICOLON: u8 = 59;

// How many bytes of a line are tried at once.
const WIDE: usize = 16;

// What a line is refused with: the place that number 3 returns.
#[derive(Clone, Copy)]
pub struct BadLine {
    pub place: u32,
}

// Whether a line may hold the byte: whitespace, or 33 to 126 except 59.
fn is_allowed(b: u8) -> bool
    ensures { result ≡ is_allowed b }
{
    if b < FIRST_PRINTED {
        return token::is_whitespace(b);
    }
    if LAST_PRINTED < b {
        return false;
    }
    b != SEMICOLON
}

// Whether a byte that a line may hold is whitespace: the others are all printed ones, so one comparison tells.
pub fn is_whitespace(b: u8) -> bool
    requires { is_allowed b ≡ true }
    ensures answers { result ≡ is_whitespace b }
{
    b < FIRST_PRINTED
}

// Whether a byte is neither a space nor a printed one that a line may hold. The other whitespace is odd too, though a line
// may hold it: so there are three comparisons and no branch, and many bytes are tried at once.
fn is_odd(b: u8) -> bool
    ensures plain { result ≡ false → is_allowed b ≡ true }
{
    (b < SPACE) | (LAST_PRINTED < b) | (b == SEMICOLON)
}

// Whether one of the sixteen bytes from a place on is odd. The count is fixed, as a slice's would not be, and no byte ends the
// loop, so that the compiler tries them at once.
fn sixteen_odd(line: &[u8], from: usize) -> bool
    requires room { from + 16 ≤ length line.now }
    ensures plain { result ≡ false → AllowedBetween line.now from (from + 16) }
{
    let mut odd = false;
    for i in 0..WIDE {
        odd = odd | is_odd(line[from + i]);
    }
    odd
}

// Whether a line has sixteen bytes or more and none is odd. The last sixteen end with the line: they may try some bytes
// again.
fn is_plain(line: &[u8]) -> bool
    ensures plain { result ≡ true → AllowedBetween line.now 0 (length line.now) }
{
    if line.len() < WIDE {
        return false;
    }
    let last = line.len() - WIDE;
    let mut odd = false;
    for at in (0..last).step_by(WIDE) {
        odd = odd | sixteen_odd(line, at);
    }
    !(odd | sixteen_odd(line, last))
}

// The place of the first byte that a line may not hold, sought byte by byte.
fn search_bad(line: &[u8]) -> Option<usize>
    ensures value { result ≡ position (λ b. not (is_allowed b)) line.now }
    ensures bound { IfSome result (λ place. place < length line.now) }
{
    line.iter().position(|b| !is_allowed(*b))
}

// The place of the first byte that a line may not hold. Most lines are plain; one that is not, by a tab or a carriage return as
// much as by a bad byte, is looked at byte by byte.
fn first_bad(line: &[u8]) -> Option<usize>
    ensures value { result ≡ first_bad line.now 0 }
    ensures bound { IfSome result (λ place. place < length line.now) }
{
    if is_plain(line) {
        return None;
    }
    search_bad(line)
}

// At most 120 bytes, each one allowed, the last no whitespace. The place is 120 if the line is too long, else the
// first bad byte's, else the last byte's.
pub fn check_line(line: &[u8]) -> Result<(), BadLine>
    ensures answers { line_says result ≡ line_verdict line.now }
{
    if LONGEST < line.len() {
        return Err(BadLine {
            place: LONGEST as u32,
        });
    }
    if let Some(place) = first_bad(line) {
        return Err(BadLine {
            place: place as u32,
        });
    }
    if let Some((last, before)) = line.split_last() {
        if token::is_whitespace(*last) {
            return Err(BadLine {
                place: before.len() as u32,
            });
        }
    }
    Ok(())
}
