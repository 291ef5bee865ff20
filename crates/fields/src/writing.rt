// The fields of a listing's lines, laid into lent bytes as far as they reach. Each function gives the place after what it lays,
// so laying into a byte measures. Bytes and place stay two arguments: a struct of both would hold the loan of the bytes, and each
// promise would have to say, beside `Laid`, that it is still the same loan.
ghost use Rattle.std.specs.Prelude.{◌≡◌, true, [], ◌∷◌, ◌<◌};
ghost use Rattle.packing.specs.Data.{is_part_of};
ghost use Rattle.printing.specs.Listing.{decimal, part_field};
ghost use Rattle.fields.specs.Laid.{Laid, Ready, part_text};

use crate::spelling;
use defs::ruledef::Part;

// Lays a byte, if there is room for it, and gives the place after it.
pub fn put(text: &mut [u8], at: usize, byte: u8) -> usize
    requires { Ready at (byte ∷ []) }
    ensures answers { Laid text.old at (byte ∷ []) text.new result }
{
    let next = at + 1;
    if at < text.len() {
        text[at] = byte;
    }
    next
}

// A word, byte by byte.
pub fn put_word(text: &mut [u8], at: usize, word: &[u8]) -> usize
    requires { Ready at word.now }
    ensures answers { Laid text.old at word.now text.new result }
{
    let mut to = at;
    for byte in word {
        to = put(text, to, *byte);
    }
    to
}

// Numbers are decimal without leading zeros.
pub fn put_number(text: &mut [u8], at: usize, number: usize) -> usize
    requires number_bound { number < 100 }
    requires ready { Ready at (decimal number) }
    ensures answers { Laid text.old at (decimal number) text.new result }
{
    if number < spelling::TEN {
        return put(text, at, (spelling::ZERO as usize + number) as u8);
    }
    let to = put(
        text,
        at,
        (spelling::ZERO as usize + number / spelling::TEN) as u8,
    );
    put(
        text,
        to,
        (spelling::ZERO as usize + number % spelling::TEN) as u8,
    )
}

// A part's field: one character for an exact part, `ws`, `expr`, or `sub` with the ruleset's number.
fn put_field(text: &mut [u8], at: usize, part: Part) -> usize
    requires part_value { is_part_of 32 part ≡ true }
    requires ready { Ready at (part_field part) }
    ensures answers { Laid text.old at (part_field part) text.new result }
{
    match part {
        Part::Exact(byte) => put(text, at, byte),
        Part::Whitespace => put_word(text, at, &spelling::WS),
        Part::Expression => put_word(text, at, &spelling::EXPR),
        Part::Nested(set) => {
            let number = put_word(text, at, &spelling::SUB);
            put_number(text, number, set)
        }
    }
}

// A part's field, and the tab before it.
pub fn put_part(text: &mut [u8], at: usize, part: Part) -> usize
    requires part_value { is_part_of 32 part ≡ true }
    requires ready { Ready at (part_text part) }
    ensures answers { Laid text.old at (part_text part) text.new result }
{
    let field = put(text, at, spelling::TAB);
    put_field(text, field, part)
}
