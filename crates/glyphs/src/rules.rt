// The example's rules, shown, and the encoding of each: its size in bits, and the constraint on its values.
ghost use Rattle.std.specs.Prelude.{◌≤◌};

use crate::show::say;
use defs::ruledef::{Part, is_top_rule, part_at, parts_of, rule_count, ruleset_of};
use std::io::Write;
use std::{fmt, io};

// How many signed bits a value must fit.
#[derive(Clone, Copy)]
pub enum Width {
    Byte,
    TwoBytes,
}

// A rule's size in bits, and what its values must fit, if it has any.
#[derive(Clone, Copy)]
pub struct Encoding {
    pub bits: u8,
    pub fits: Option<Width>,
}

// The sizes: an operation, and a byte of values or two.
const SHORT: u8 = 16;

const LONG: u8 = 24;

// No table has more rules.
const MOST_RULES: usize = 512;

impl Encoding {
    // That of a rule of ruleset 0.
    pub fn of(rule: usize) -> Encoding {
        match rule {
            1 => Encoding {
                bits: LONG,
                fits: Some(Width::TwoBytes),
            },
            3 => Encoding {
                bits: LONG,
                fits: None,
            },
            4 => Encoding {
                bits: LONG,
                fits: Some(Width::Byte),
            },
            _ => Encoding {
                bits: SHORT,
                fits: Some(Width::Byte),
            },
        }
    }
}

impl fmt::Display for Width {
    fn fmt<W: fmt::Write>(&self, f: &mut fmt::Formatter<W>) -> fmt::Result {
        match self {
            Width::Byte => write!(f, "8 signed bits"),
            Width::TwoBytes => write!(f, "16 signed bits"),
        }
    }
}

// Writes all rules of the table. A rule's number counts from its ruleset's first.
pub fn show<W: Write>(out: &mut W, table: &[u16]) -> io::Result<()> {
    say(out, b"Rules: ruleset.rule, pattern, encoding\n")?;
    let rules = rule_count(table).min(MOST_RULES) as u16;
    let mut first: u16 = 0;
    for rule in 0..rules {
        first = first_of(table, first, rule);
        show_rule(out, table, rule, (rule - first) as usize)?;
    }
    say(out, b"\n")
}

// The first rule of a rule's ruleset, whose rules stand together: the first one of the rule before, or the rule itself.
fn first_of(table: &[u16], first: u16, rule: u16) -> u16
    requires before { first ≤ rule }
    ensures within { result ≤ rule }
{
    if ruleset_of(table, first) == ruleset_of(table, rule) {
        first
    } else {
        rule
    }
}

// Writes a rule: its ruleset, its number there, its pattern, and the encoding if it is a top one.
fn show_rule<W: Write>(out: &mut W, table: &[u16], rule: u16, number: usize) -> io::Result<()> {
    let set = ruleset_of(table, rule);
    write!(out, "    {set}.{number}  ")?;
    put_pattern(out, table, rule)?;
    if is_top_rule(table, rule) {
        put_encoding(out, Encoding::of(number))?;
    }
    say(out, b"\n")
}

fn put_encoding<W: Write>(out: &mut W, encoding: Encoding) -> io::Result<()> {
    let bits = encoding.bits;
    match encoding.fits {
        Some(width) => write!(out, ": {bits} bits, fits {width}"),
        None => write!(out, ": {bits} bits"),
    }
}

fn put_pattern<W: Write>(out: &mut W, table: &[u16], rule: u16) -> io::Result<()> {
    for at in parts_of(table, rule) {
        put_part(out, part_at(table, at))?;
    }
    Ok(())
}

fn put_part<W: Write>(out: &mut W, part: Part) -> io::Result<()> {
    match part {
        Part::Exact(byte) => say(out, &[byte]),
        Part::Whitespace => say(out, b" "),
        Part::Expression => say(out, b"{value}"),
        Part::Nested(set) => write!(out, "{{ruleset {set}}}"),
    }
}
