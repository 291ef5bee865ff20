// The extent sheet of a line, filled from the line itself: order 5's grammar of delta expressions. It is added by the port:
// the Rust's expression parsers are not in its published text. Starts go from the line's end to its beginning, and each is
// judged by its byte and by what is known of later starts, so nesting costs no recursion and no word is gone over twice. It
// refuses a bad line (3), then a sheet of the wrong length (18), and leaves the sheet unchanged in both.
#![tactic(auto)]

ghost use Rattle.std.specs.Prelude.{◌≡◌, true, ℕ, ◌+◌, ◌≤◌, ◌<◌, eqb, length, get_or};
ghost use Rattle.plain.specs.Choice.{select};
ghost use Rattle.syntax.specs.Walker.{byte_at};
ghost use Rattle.extents.specs.Sheet.{sized, entry_end};
ghost use Rattle.extents.specs.declared.Half.TheVariants as Half;
ghost use Rattle.token.specs.Token.{is_whitespace};
ghost use Rattle.expressions.specs.declared.FillError.{FillError};
ghost use Rattle.expressions.specs.Grammar.{is_digit, is_letter, is_alnum, is_operator};
ghost use Rattle.expressions.specs.Ends.{run_end, up_to, term_at, closed_after};
ghost use Rattle.expressions.specs.Sheet.{byte_of};
ghost use Rattle.expressions.specs.Call.{FillCall, FilledFits, fill_says};
ghost use Rattle.expressions.specs.Filling.{Lays, Reaches, Follows, TermEnds, FreeAsked, FreeLaid, RowLaid, Made, term_says};

use line::BadLine;

// An entry's byte that says: no end here. A number and no `None`: a sheet is lent by C, and its bytes are read by `sheet_fits`.
const NONE: u8 = 255;

// How many halves a sheet has.
const HALVES: usize = 2;

// How many starts the longest line has.
const STARTS: usize = 121;

// Why a sheet is not filled.
#[derive(Clone, Copy)]
pub enum FillError {
    // 3
    BadLine { place: u32 },
    // 18: the sheet's length is wrong.
    BadRoom,
}

impl From<BadLine> for FillError {
    ghost from_gives = { λ bad error. error ≡ FillError.BadLine bad.place };

    fn from(bad: BadLine) -> FillError {
        FillError::BadLine { place: bad.place }
    }
}

// How far the digits, and the letters and digits, that begin at a start reach.
#[derive(Clone, Copy)]
struct Reach {
    digits: usize,
    names: usize,
}

// A term's ends: low + 1 to top.
#[derive(Clone, Copy)]
struct Span {
    low: usize,
    top: usize,
}

// ---- bytes and tokens

fn is_digit(b: u8) -> bool
    ensures { result ≡ is_digit b }
{
    (b'0' <= b) & (b <= b'9')
}

fn is_letter(b: u8) -> bool
    ensures { result ≡ is_letter b }
{
    ((b'A' <= b) & (b <= b'Z')) | ((b'a' <= b) & (b <= b'z'))
}

fn is_operator(b: u8) -> bool
    ensures { result ≡ is_operator b }
{
    (b == b'+') | ((b == b'-') | ((b == b'*') | ((b == b'/') | ((b == b'&') | (b == b'|')))))
}

// The byte at a place, or 0 past the line.
fn byte_at(line: &[u8], i: usize) -> u8
    ensures { result ≡ byte_at line.now i }
{
    if line.len() <= i {
        return 0;
    }
    line[i]
}

// A place, as it is kept in a byte.
fn wide(place: u8) -> usize
    ensures { (result ≡ place) × (result ≤ 255) }
{
    place as usize
}

// The next start's value, if a start goes on with it, or else one of its own.
fn next_or(more: bool, next: usize, own: usize) -> usize
    ensures { result ≡ select more next own }
{
    if more { next } else { own }
}

// How far digits, and letters and digits, reach from a start, by its byte and the next start's reach.
fn reach_at(b: u8, c: usize, next: Reach) -> Reach
    ensures { (result.digits ≡ select (is_digit b) next.digits c) × (result.names ≡ select (is_alnum b) next.names c) }
{
    let digit = is_digit(b);
    let letter = is_letter(b);
    Reach {
        digits: next_or(digit, next.digits, c),
        names: next_or(letter | digit, next.names, c),
    }
}

// ---- runs of entries

// Lays one byte for the limits from `from` to before `to`.
fn lay(sheet: &mut [u8], at: usize, from: usize, to: usize, byte: u8)
    requires from_le_to { from ≤ to }
    requires to_in_bounds { at + to ≤ length sheet.old }
    ensures { Lays sheet.old sheet.new at from to (λ (l : ℕ). byte) }
{
    sheet[at + from..at + to].fill(byte);
}

// Lays each limit itself.
fn lay_limits(sheet: &mut [u8], at: usize, from: usize, to: usize)
    requires from_le_to { from ≤ to }
    requires to_in_bounds { at + to ≤ length sheet.old }
    requires to_bound { to ≤ 121 }
    ensures { Lays sheet.old sheet.new at from to (λ (l : ℕ). l) }
{
    for l in from..to {
        let byte = l as u8;
        sheet[at + l] = byte;
    }
}

// An entry, or another byte where it holds nothing.
fn or_byte(there: u8, byte: u8) -> u8
    ensures { result ≡ select (eqb there 255) byte there }
{
    if there == NONE { byte } else { there }
}

// Lays what a later row holds, and a byte where that holds nothing.
fn lay_from(sheet: &mut [u8], at: usize, from: usize, to: usize, later: usize, byte: u8)
    requires from_le_to { from ≤ to }
    requires to_bound { at + to ≤ later }
    requires to_in_bounds { later + to ≤ length sheet.old }
    ensures { Lays sheet.old sheet.new at from to (λ (l : ℕ). select (eqb (get_or sheet.old (later + l) 0) 255) byte (get_or sheet.old (later + l) 0)) }
{
    for l in from..to {
        sheet[at + l] = or_byte(sheet[later + l], byte);
    }
}

// Lays the ends low + 1 to top: nothing up to low, then each limit itself.
fn lay_ends(sheet: &mut [u8], at: usize, low: usize, top: usize)
    requires top_in_bounds { at + (top + 1) ≤ length sheet.old }
    requires low_lt_top { low < top }
    requires top_bound { top ≤ 120 }
    ensures { Lays sheet.old sheet.new at 0 (top + 1) (λ (l : ℕ). byte_of (up_to low top l)) }
{
    lay(sheet, at, 0, low + 1, NONE);
    lay_limits(sheet, at, low + 1, top + 1);
}

// ---- a start

// The term of an opener, if an expression after it is whole at `inner`.
fn closed_after(line: &[u8], tokens: &[u8], inner: u8) -> Option<Span>
    requires { Follows line.now tokens.now (entry_end inner) }
    ensures { term_says result ≡ closed_after line.now (entry_end inner) }
{
    if inner == NONE {
        return None;
    }
    let end = wide(inner);
    let sign = wide(tokens[end]);
    if byte_at(line, sign) != b')' {
        return None;
    }
    Some(Span {
        low: sign,
        top: sign + 1,
    })
}

// The term at c, where neither whitespace nor a minus stands.
fn term_at(line: &[u8], tokens: &[u8], inner: u8, c: usize, reach: Reach) -> Option<Span>
    requires c_in_bounds { c < length line.now }
    requires reaches { Reaches line.now c reach }
    requires follows { Follows line.now tokens.now (entry_end inner) }
    ensures { term_says result ≡ term_at line.now (entry_end inner) c }
{
    let digits = reach.digits;
    if c < digits {
        return Some(Span {
            low: c,
            top: digits,
        });
    }
    let names = reach.names;
    if c < names {
        return Some(Span { low: c, top: names });
    }
    if line[c] == b'(' {
        return closed_after(line, tokens, inner);
    }
    None
}

// Lays the free row of a term's start, and returns where the expression is whole.
fn lay_term(line: &[u8], sheet: &mut [u8], wholes: &[u8], tokens: &[u8], c: usize, term: Span) -> u8
    requires free_asked { FreeAsked line.now sheet.old wholes.now tokens.now c }
    requires term_ends { TermEnds line.now c term.low term.top }
    ensures { FreeLaid line.now sheet.old sheet.new c result }
{
    let side = line.len() + 1;
    let row = c * side;
    let Span { low, top } = term;
    lay_ends(sheet, row, low, top);
    let sign = wide(tokens[top]);
    let next = sign + 1;
    let end = top as u8;
    if is_operator(byte_at(line, sign)) {
        lay_from(sheet, row, top + 1, side, next * side, end);
        return wholes[next];
    }
    lay(sheet, row, top + 1, side, end);
    end
}

// Lays the free row of a start, and returns where the expression is whole.
fn lay_free(
    line: &[u8],
    sheet: &mut [u8],
    wholes: &[u8],
    tokens: &[u8],
    c: usize,
    white: bool,
    reach: Reach,
) -> u8
    requires free_asked { FreeAsked line.now sheet.old wholes.now tokens.now c }
    requires white_value { white ≡ is_whitespace (byte_at line.now c) }
    requires reaches { Reaches line.now c reach }
    ensures { FreeLaid line.now sheet.old sheet.new c result }
{
    let side = line.len() + 1;
    let row = c * side;
    let inner = wholes[c + 1];
    let minus = line[c] == b'-';
    if white | minus {
        lay_from(sheet, row, 0, side, row + side, NONE);
        return inner;
    }
    match term_at(line, tokens, inner, c, reach) {
        Some(term) => lay_term(line, sheet, wholes, tokens, c, term),
        None => {
            lay(sheet, row, 0, side, NONE);
            NONE
        }
    }
}

// Lays the greedy row of a start.
fn lay_greedy(line: &[u8], sheet: &mut [u8], c: usize, white: bool, digits: usize)
    requires made { Made line.now sheet.old (c + 1) }
    requires c_in_bounds { c < length line.now }
    requires white_value { white ≡ is_whitespace (byte_at line.now c) }
    requires digits_value { digits ≡ run_end is_digit line.now c }
    ensures { RowLaid line.now sheet.old sheet.new Half.Greedy c }
{
    let side = line.len() + 1;
    let row = side * side + c * side;
    if white {
        lay_from(sheet, row, 0, side, row + side, NONE);
        return;
    }
    if digits <= c {
        lay(sheet, row, 0, side, NONE);
        return;
    }
    lay_ends(sheet, row, c, digits);
    lay(sheet, row, digits + 1, side, digits as u8);
}

// Fills the sheet of a line of at most 120 bytes. Of each start is kept where its expression is whole and where the next
// token begins, and of the latest start how far it reaches.
fn fill(line: &[u8], sheet: &mut [u8])
    requires line_len_bound { length line.now ≤ 120 }
    requires line_value { sized sheet.old (length line.now) ≡ true }
    ensures { Made line.now sheet.new 0 }
{
    let side = line.len() + 1;
    let end = line.len();
    let mut wholes = [NONE; STARTS];
    let mut tokens = [0u8; STARTS];
    tokens[end] = end as u8;
    let mut reach = Reach {
        digits: end,
        names: end,
    };
    lay(sheet, end * side, 0, side, NONE);
    lay(sheet, side * side + end * side, 0, side, NONE);
    for c in (0..end).rev() {
        let next = wide(tokens[c + 1]);
        let b = line[c];
        let white = token::is_whitespace(b);
        tokens[c] = next_or(white, next, c) as u8;
        reach = reach_at(b, c, reach);
        let whole = lay_free(line, sheet, &wholes, &tokens, c, white, reach);
        wholes[c] = whole;
        lay_greedy(line, sheet, c, white, reach.digits);
    }
}

// Fills the sheet of a line: each entry is the greatest end within its limit. Number 3 comes before 18.
pub fn fill_sheet(line: &[u8], sheet: &mut [u8]) -> Result<u32, FillError>
    ensures answers { FillCall line.now sheet.old (fill_says result sheet.new) }
    ensures fits { FilledFits line.now (fill_says result sheet.new) }
{
    line::check_line(line)?;
    let side = line.len() + 1;
    let words = HALVES * (side * side);
    if sheet.len() != words {
        return Err(FillError::BadRoom);
    }
    fill(line, sheet);
    Ok(words as u32)
}
