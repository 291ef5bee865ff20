// A listing read into table words: one pass judges the text, and one writes the packed words of the data whose listing it is. It
// refuses a text that is no listing of data within document 01's limits (15, with its first bad line), and words that have no
// room (16).
ghost use Rattle.std.specs.Prelude.{◌≡◌, List, [], ◌∷◌, map, ◌+◌, ◌≤◌, ◌<◌, length};
ghost use Rattle.std.proofs.lemmas.List.Edits.{sets};
ghost use Rattle.packing.specs.Data.{Rule};
ghost use Rattle.packing.specs.Packed.{flag_of, packed};
ghost use Rattle.printing.specs.Listing.{top_word, rule_line};
ghost use Rattle.printing.specs.Reading.{same};
ghost use Rattle.fields.specs.Said.{fields_left};
ghost use Rattle.fields.specs.Laid.{Laid};
ghost use Rattle.listing.specs.Packing.{Listed, listed_in, LinesAre, Rules, RulesListed, AllSaid, words_said, words_for, with_rules};
ghost use Rattle.listing.specs.declared.reading.ReadError.TheVariants.{BadText};
ghost use Rattle.listing.specs.Calls.{ReadCall, read_says};

use crate::judging::{BadLine, Sizes, judge};
use defs::ruledef;
use fields::reading::{Fields, is_word, number, part_word, split_once};
use fields::spelling;

// Why a text is not read. `read_says` gives each case's number and fields.
#[derive(Clone, Copy)]
pub enum ReadError {
    // 15: the first bad line, counted from 0.
    BadText { line: u32 },
    // 16: the words are more than their room.
    NoRoom,
}

impl From<BadLine> for ReadError {
    ghost from_gives = { λ bad error. error ≡ BadText bad.line };

    fn from(bad: BadLine) -> ReadError {
        ReadError::BadText { line: bad.line }
    }
}

// A ruleset's flag, by its field.
fn flag(field: &[u8]) -> u16
    ensures answers { result ≡ flag_of (same field.now top_word) }
{
    if is_word(field, &spelling::TOP) { 0 } else { 1 }
}

// Three words, one after another: the table's head, or a rule's record.
fn lay_three(table: &mut [u16], at: usize, first: usize, second: usize, third: usize)
    requires at_in_bounds { at + 3 ≤ length table.old }
    requires first_bound { first < 65536 }
    requires second_bound { second < 65536 }
    requires third_bound { third < 65536 }
    ensures laid { table.new ≡ sets table.old at (first ∷ second ∷ third ∷ []) }
{
    table[at] = first as u16;
    table[at + 1] = second as u16;
    table[at + 2] = third as u16;
}

// The flags of a judged text's rulesets; gives its rules' lines.
fn lay_tops<'a>(text: &'a [u8], sizes: Sizes, table: &mut [u16]) -> &'a [u8]
    requires listed { Listed text.now sizes.sets sizes.rules sizes.parts }
    requires parts_in_bounds { words_for sizes.sets sizes.rules sizes.parts ≤ length table.old }
    ensures flags { table.new ≡ sets table.old 3 (map flag_of (listed_in text.now).tops) }
    ensures rules { LinesAre result.now (map rule_line (listed_in text.now).rules) }
{
    let mut rest = text;
    for set in 0..sizes.sets {
        let (line, after) = split_once(rest, spelling::END).unwrap();
        let (_, field) = split_once(line, spelling::TAB).unwrap();
        table[ruledef::HEAD + set] = flag(field);
        rest = after;
    }
    rest
}

// The words of a rule's parts, by its fields; gives the place after them.
fn lay_parts(fields: Fields, sets: usize, table: &mut [u16], from: usize) -> usize
    requires sets_bound { sets ≤ 32 }
    requires said { AllSaid sets (fields_left fields) }
    requires end_in_bounds { from + length (fields_left fields) ≤ length table.old }
    ensures laid { Laid table.old from (words_said sets (fields_left fields.entry)) table.new result }
{
    let mut to = from;
    for field in fields {
        let word = part_word(field, sets).unwrap();
        table[to] = word as u16;
        to += 1;
    }
    to
}

// The records of the rules that lines list, and the words of their parts, in rule order and none to spare.
fn lay_rules(lines: &[u8], sizes: Sizes, table: &mut [u16])
    requires listed { RulesListed lines.now sizes.sets sizes.rules sizes.parts }
    requires parts_in_bounds { words_for sizes.sets sizes.rules sizes.parts ≤ length table.old }
    ensures laid { (rules : List Rule) → Rules sizes.sets sizes.rules sizes.parts rules → LinesAre lines.now (map rule_line rules) → table.new ≡ with_rules table.old sizes.sets sizes.rules rules }
{
    let records = ruledef::HEAD + sizes.sets;
    let first = records + ruledef::FIELDS * sizes.rules;
    let mut rest = lines;
    let mut part = first;
    for rule in 0..sizes.rules {
        let (line, after) = split_once(rest, spelling::END).unwrap();
        let mut fields = Fields::of(line);
        // The word `rule`.
        fields.next();
        let set = number(fields.next().unwrap()).unwrap();
        let next = lay_parts(fields, sizes.sets, table, part);
        let record = records + ruledef::FIELDS * rule;
        lay_three(table, record, set, part - first, next - part);
        part = next;
        rest = after;
    }
}

// The packed words of a judged text's data.
fn lay_table(text: &[u8], sizes: Sizes, table: &mut [u16])
    requires listed { Listed text.now sizes.sets sizes.rules sizes.parts }
    requires parts_in_bounds { words_for sizes.sets sizes.rules sizes.parts ≤ length table.old }
    ensures laid { table.new ≡ sets table.old 0 (packed (listed_in text.now)) }
{
    lay_three(table, 0, sizes.sets, sizes.rules, sizes.parts);
    let rules = lay_tops(text, sizes, table);
    lay_rules(rules, sizes, table);
}

// The text's rulesets and rules as a packed table, at the room's start, and how many words it takes there.
pub fn read_table(text: &[u8], table: &mut [u16]) -> Result<u32, ReadError>
    ensures answers { ReadCall text.now table.old (read_says result table.new) }
{
    let sizes = judge(text)?;
    let words = ruledef::HEAD + sizes.sets + ruledef::FIELDS * sizes.rules + sizes.parts;
    if table.len() < words {
        return Err(ReadError::NoRoom);
    }
    lay_table(text, sizes, table);
    Ok(words as u32)
}
