// Outcome words, guess + 2·kind + 8·size: a rule's size, if its values meet its constraint. It evaluates only a number, with a
// minus or none: any other expression, a name or a sum, is a guess until the last pass, and the same number then.
use crate::rules::{Encoding, Width};

// The word of a failed constraint; of a sized outcome but for its size; and what a size is multiplied by. They are the words that
// selection takes from C.
pub const FAILED: u32 = 2;

const SIZED: u32 = 6;

pub const SIZE_UNIT: u32 = 8;

// What any expression but a number turns out to be on the last pass.
const OTHER: i32 = 300;

// What a digit more multiplies a number by.
const TEN: u16 = 10;

// Whether guessing is allowed.
#[derive(Clone, Copy, PartialEq, Eq)]
pub enum Pass {
    Guessing,
    Last,
}

// The word of a rule that has no value yet.
pub fn sized(encoding: Encoding) -> u32 {
    SIZED + SIZE_UNIT * encoding.bits as u32
}

// The word of an outcome, after a value more.
pub fn with_value(value: Option<i32>, encoding: Encoding, pass: Pass, outcome: u32) -> u32 {
    if outcome == FAILED {
        return FAILED;
    }
    if value.is_none() && pass == Pass::Guessing {
        return outcome - outcome % 2 + 1;
    }
    if fits(value.unwrap_or(OTHER), encoding.fits) {
        outcome
    } else {
        FAILED
    }
}

// Whether a value fits a width. A rule that has none has no values.
fn fits(value: i32, width: Option<Width>) -> bool {
    match width {
        Some(Width::Byte) => i8::try_from(value).is_ok(),
        Some(Width::TwoBytes) => i16::try_from(value).is_ok(),
        None => true,
    }
}

// The value of an expression's text, if it is a number. Whitespace may stand between the minus and the digits.
pub fn value_of(text: &[u8]) -> Option<i32> {
    let (negative, digits) = match text {
        [b'-', rest @ ..] => (true, rest),
        _ => (false, text),
    };
    let size = size_of(digits)? as i32;
    Some(if negative { -size } else { size })
}

// A number without its sign. One that is too large to hold counts as the largest, which fits no constraint either.
fn size_of(digits: &[u8]) -> Option<u16> {
    let mut size: u16 = 0;
    for byte in digits {
        match byte {
            b'0'..=b'9' => {
                size = size
                    .saturating_mul(TEN)
                    .saturating_add((byte - b'0') as u16);
            }
            _ if token::is_whitespace(*byte) => {}
            _ => return None,
        }
    }
    Some(size)
}
