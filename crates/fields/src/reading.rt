// What the fields of a listing's lines say.
ghost use Rattle.std.specs.Prelude.{◌≡◌, ◌≤◌, length, true, Some, MatchOption};
ghost use Rattle.std.specs.Iterator.{YieldsFirstRef, item_count};
ghost use Rattle.defs.specs.declared.ruledef.Part.TheVariants.{Exact};
ghost use Rattle.printing.specs.FirstBad.{lacks};
ghost use Rattle.printing.specs.Reading.{same, pieces, number_of, part_in};
ghost use Rattle.fields.specs.Said.{Cut, fields_left, low_number, digit_of, word_in};

use crate::spelling;
use defs::ruledef;

// The bytes before the first that is the byte, and those after it; none if it stands nowhere.
pub fn split_once(text: &[u8], byte: u8) -> Option<(&[u8], &[u8])>
    ensures answers { MatchOption result (lacks byte text.now ≡ true) (λ p. Cut text.now byte p.0.now p.1.now) }
{
    let place = text.iter().position(|b| *b == byte)?;
    Some((&text[..place], &text[place + 1..]))
}

// The fields of a line that are left to take: those of the bytes that are left, which tabs part.
#[derive(Drop)]
pub struct Fields<'a> {
    rest: Option<&'a [u8]>,
}

impl<'a> Fields<'a> {
    pub fn of(line: &'a [u8]) -> Fields<'a>
        ensures answers { fields_left result ≡ pieces 9 line.now }
    {
        Fields { rest: Some(line) }
    }
}

impl<'a> Iterator for Fields<'a> {
    type Item = &'a [u8];

    ghost next_gives = { YieldsFirstRef fields_left };

    ghost remaining = { item_count fields_left };

    fn next(&mut self) -> Option<&'a [u8]> {
        let rest = self.rest?;
        let Some((field, after)) = split_once(rest, spelling::TAB) else {
            self.rest = None;
            return Some(rest);
        };
        self.rest = Some(after);
        Some(field)
    }
}

// Whether a field is a word, compared byte for byte. By hand: `==` of slices is a call that is made for long ones, and words have
// few bytes, so that reading a table took a third more instructions.
pub fn is_word(field: &[u8], word: &[u8]) -> bool
    ensures answers { result ≡ same field.now word.now }
{
    if field.len() != word.len() {
        return false;
    }
    for at in 0..word.len() {
        if field[at] != word[at] {
            return false;
        }
    }
    true
}

fn digit(byte: u8) -> Option<usize>
    ensures answers { result ≡ digit_of byte }
{
    match byte {
        spelling::ZERO..=spelling::NINE => Some((byte - spelling::ZERO) as usize),
        _ => None,
    }
}

// The number below 100 whose decimal this is, without leading zeros: a ruleset's number is below 32.
pub fn number(field: &[u8]) -> Option<usize>
    ensures answers { result ≡ low_number (number_of field.now) }
{
    match field {
        [one] => digit(*one),
        [first, second] => {
            let tens = digit(*first)?;
            let ones = digit(*second)?;
            if tens == 0 {
                return None;
            }
            Some(spelling::TEN * tens + ones)
        }
        _ => None,
    }
}

// The word of an exact part. A byte is one if it is a part of a table that has no rulesets.
fn exact(byte: u8) -> Option<usize>
    ensures answers { result ≡ word_in 0 (Some (Exact byte)) }
{
    let word = byte as usize;
    if acceptance::is_part(word, 0) {
        Some(word)
    } else {
        None
    }
}

// The word of the part that a field says, among so many rulesets.
pub fn part_word(field: &[u8], sets: usize) -> Option<usize>
    requires sets_bound { sets ≤ 32 }
    ensures answers { result ≡ word_in sets (part_in field.now) }
{
    if field.len() == 1 {
        return exact(field[0]);
    }
    if is_word(field, &spelling::WS) {
        return Some(ruledef::WHITESPACE);
    }
    if is_word(field, &spelling::EXPR) {
        return Some(ruledef::EXPRESSION);
    }
    let set = number(field.strip_prefix(&spelling::SUB)?)?;
    if set < sets {
        Some(ruledef::NESTED + set)
    } else {
        None
    }
}
