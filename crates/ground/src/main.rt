// Runs the ground floor on document 01's bench cases 3, 4, 5 and 6, and on lines, tables and sheets that are refused, and
// prints what it answers. The file stdout beside src/ has what document 01 says.
#![tactic(auto)]

use line::BadLine;
use std::io;
use std::io::Write;
use syntax::walker::Walker;

// Rules: `mov` and whitespace; `mo`; whitespace; `m` of a nested ruleset; `movab`.
const OVERLAPS: [u16; 33] = [
    2, 5, 13, 0, 1, 0, 0, 4, 0, 4, 2, 0, 6, 1, 0, 7, 5, 1, 12, 1, 109, 111, 118, 256, 77, 79, 256,
    109, 111, 118, 97, 98, 109,
];

// Document 01's table T.
const T: [u16; 29] = [
    2, 4, 12, 0, 1, 0, 0, 5, 0, 5, 5, 1, 10, 1, 1, 11, 1, 109, 111, 118, 256, 257, 109, 111, 118,
    256, 513, 112, 113,
];

fn say<W: Write>(out: &mut W, text: &[u8]) -> io::Result<()> {
    out.write_all(text)
}

// The cut for a byte in a whole line.
fn cut<W: Write>(out: &mut W, line: &[u8], wanted: u8) -> io::Result<()> {
    say(out, b"cut for ")?;
    say(out, &[wanted])?;
    say(out, b" in ")?;
    say(out, line)?;
    match Walker::new(line).find_lookahead_char_index(line, wanted) {
        Some(place) => writeln!(out, ": {place}"),
        None => writeln!(out, ": none"),
    }
}

fn cuts<W: Write>(out: &mut W) -> io::Result<()> {
    cut(out, b"a+b", b'+')?;
    cut(out, b"+a+b", b'+')?;
    cut(out, b"(a+b)+c", b'+')?;
    cut(out, b"a)+b", b'+')?;
    cut(out, b"(})+", b'+')?;
    cut(out, b"a)+b", b')')?;
    cut(out, b"(a))", b')')?;
    cut(out, b"((", b'(')?;
    cut(out, b"-1-2", b'-')?;
    cut(out, b"{(})+)}+", b'+')?;
    cut(out, b"1 X 2", b'x')
}

fn line_prefix<W: Write>(out: &mut W, line: &[u8]) -> io::Result<()> {
    let prefix = ruledef_map::parse_prefix(line);
    say(out, b"prefix of ")?;
    say(out, line)?;
    say(out, b": ")?;
    for b in prefix.bytes.iter().take(prefix.count) {
        say(out, &[*b])?;
    }
    say(out, b"\n")
}

// The rules that a lookup tries on a line.
fn found<W: Write>(out: &mut W, table: &[u16], line: &[u8]) -> io::Result<()> {
    let mut rules = [0u16; 16];
    let count = ruledef_map::query_prefixed(table, ruledef_map::parse_prefix(line), &mut rules);
    say(out, b"rules for ")?;
    say(out, line)?;
    say(out, b":")?;
    for rule in rules.iter().take(count) {
        write!(out, " {rule}")?;
    }
    say(out, b"\n")
}

fn prefixes<W: Write>(out: &mut W) -> io::Result<()> {
    line_prefix(out, b"  MoV p")?;
    line_prefix(out, b"a\tB")?;
    found(out, &OVERLAPS, b"mov p")?;
    found(out, &OVERLAPS, b"MO")?;
    found(out, &OVERLAPS, b"mo vab")?;
    found(out, &OVERLAPS, b"")
}

fn checked<W: Write>(out: &mut W, line: &[u8]) -> io::Result<()> {
    let length = line.len();
    match line::check_line(line) {
        Ok(()) => writeln!(out, "line of {length}: good"),
        Err(BadLine { place }) => writeln!(out, "line of {length}: 3 at {place}"),
    }
}

fn lines<W: Write>(out: &mut W) -> io::Result<()> {
    checked(out, b"")?;
    checked(out, b"mov p")?;
    checked(out, b"a\tb")?;
    checked(out, b" ")?;
    checked(out, b"ab ")?;
    checked(out, b"a;b")?;
    checked(out, b"a\x01b;")?;
    checked(out, b"a\rb")?;
    checked(out, b"ab\r")?;
    checked(out, b"\r")?;
    checked(out, b"a\nb")?;
    checked(out, b"caf\xe9")?;
    checked(out, &[97u8; 120])?;
    checked(out, &[97u8; 121])?;
    checked(out, &[59u8; 130])
}

fn tabled<W: Write>(out: &mut W, what: &str, table: &[u16]) -> io::Result<()> {
    if acceptance::check_table(table) {
        writeln!(out, "{what}: good")
    } else {
        writeln!(out, "{what}: 2")
    }
}

fn good_tables<W: Write>(out: &mut W) -> io::Result<()> {
    tabled(out, "table T", &T)?;
    tabled(out, "one empty rule", &[1, 1, 0, 0, 0, 0, 0])?;
    tabled(out, "no rule, a spare part", &[1, 0, 1, 0, 97])?;
    tabled(
        out,
        "shared parts",
        &[1, 2, 4, 0, 0, 0, 2, 0, 1, 2, 97, 98, 99, 100],
    )
}

fn bad_records<W: Write>(out: &mut W) -> io::Result<()> {
    tabled(out, "no word", &[])?;
    tabled(out, "one word", &[1])?;
    tabled(out, "no ruleset", &[0, 0, 0])?;
    tabled(out, "a word too few", &[1, 1, 1, 0, 0, 0, 1])?;
    tabled(out, "a word too many", &[1, 0, 0, 0, 0])?;
    tabled(out, "flag 2", &[1, 0, 0, 2])?;
    tabled(out, "ruleset not below S", &[1, 1, 0, 0, 1, 0, 0])?;
    tabled(
        out,
        "rulesets that fall",
        &[2, 2, 0, 0, 0, 1, 0, 0, 0, 0, 0],
    )?;
    tabled(out, "range past P", &[1, 1, 1, 0, 0, 1, 1, 97])?;
    tabled(out, "empty range past P", &[1, 1, 1, 0, 0, 2, 0, 97])?;
    tabled(out, "first 65535, count 1", &[1, 1, 1, 0, 0, 65535, 1, 97])?;
    tabled(
        out,
        "counts past P in sum",
        &[1, 2, 3, 0, 0, 0, 2, 0, 0, 2, 97, 98, 99],
    )
}

fn parts<W: Write>(out: &mut W) -> io::Result<()> {
    tabled(
        out,
        "nine parameters",
        &[
            1, 1, 9, 0, 0, 0, 9, 257, 257, 257, 257, 257, 257, 257, 257, 257,
        ],
    )?;
    tabled(
        out,
        "eight parameters",
        &[1, 1, 8, 0, 0, 0, 8, 257, 257, 257, 257, 257, 257, 257, 257],
    )?;
    tabled(out, "part 13", &[1, 0, 1, 0, 13])?;
    tabled(out, "part 32", &[1, 0, 1, 0, 32])?;
    tabled(out, "part 59", &[1, 0, 1, 0, 59])?;
    tabled(out, "part 127", &[1, 0, 1, 0, 127])?;
    tabled(out, "part 258", &[1, 0, 1, 0, 258])?;
    tabled(out, "part 511", &[1, 0, 1, 0, 511])?;
    tabled(out, "part of no ruleset", &[1, 0, 1, 0, 513])
}

fn sheeted<W: Write>(out: &mut W, what: &str, sheet: &[u8], n: usize) -> io::Result<()> {
    if extents::check_sheet(sheet, n) {
        writeln!(out, "{what}: good")
    } else {
        writeln!(out, "{what}: 4")
    }
}

fn sheets<W: Write>(out: &mut W) -> io::Result<()> {
    sheeted(out, "sheet of the empty line", &[255, 0], 0)?;
    sheeted(
        out,
        "any byte where the start is above the limit",
        &[0, 1, 77, 255, 255, 255, 0, 1],
        1,
    )?;
    sheeted(out, "a byte too few", &[255], 0)?;
    sheeted(out, "a byte too many", &[255, 255, 255], 0)?;
    sheeted(
        out,
        "an end past its limit",
        &[1, 1, 255, 255, 255, 255, 255, 255],
        1,
    )?;
    sheeted(
        out,
        "an end before its start",
        &[255, 255, 255, 255, 255, 255, 255, 0],
        1,
    )
}

fn main(rt: HostRuntime) -> io::Result<()> {
    let mut out = io::writer(&rt);
    cuts(&mut out)?;
    prefixes(&mut out)?;
    lines(&mut out)?;
    good_tables(&mut out)?;
    bad_records(&mut out)?;
    parts(&mut out)?;
    sheets(&mut out)?;
    out.flush()
}
