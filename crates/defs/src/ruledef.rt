// The packed rule table's readers. The Rust holds rules as structures that its parser made; the packing is the port's. From
// `src/asm/defs/ruledef.rs`, which is not in the published text. The readers answer on any words and refuse none: past the
// table's end is 0, and what is no table is for `acceptance` to refuse.
// A rule is named by its place among all records, from 0.
ghost use Rattle.std.specs.Prelude.{◌≡◌, ◌<◌, length};
ghost use Rattle.plain.specs.Lists.{listed};
ghost use Rattle.defs.specs.Table.{word_at, rulesets_in, records_in, field_at, ruleset_at, part_of, rule_span};
ghost use Rattle.defs.specs.Ruledef.{is_top_rule, starts_of, tally_of, summed_up};

use std::ops::Range;

// S, R and P stand first; then a flag for each ruleset, three words for each rule, a word for each part.
pub const SETS: usize = 0;

pub const RULES: usize = 1;

pub const PARTS: usize = 2;

pub const HEAD: usize = 3;

pub const FIELDS: usize = 3;

// A record's words. Numbers and no enum: `field_at` answers at any number, and with an enum it would ask more of its callers.
pub const RULESET: u16 = 0;

pub const FIRST: u16 = 1;

pub const COUNT: u16 = 2;

// Document 01's limits.
pub const MOST_RULESETS: usize = 32;

pub const MOST_RULES: usize = 512;

pub const MOST_PARTS: usize = 8192;

pub const MOST_PARTS_A_RULE: usize = 64;

pub const MOST_PARAMETERS: usize = 8;

// Part words: a byte below the first, whitespace, an expression, or a ruleset from the last on.
pub const WHITESPACE: usize = 256;

pub const EXPRESSION: usize = 257;

pub const NESTED: usize = 512;

// One place of a pattern.
#[derive(Clone, Copy)]
pub enum Part {
    Exact(u8),
    Whitespace,
    Expression,
    Nested(usize),
}

// The word at a place.
pub fn word_at(table: &[u16], at: usize) -> usize
    ensures answers { result ≡ word_at table.now at }
    ensures small { result < 65536 }
{
    if at < table.len() {
        return table[at] as usize;
    }
    0
}

// A word of a rule's record.
pub fn field_at(table: &[u16], rule: u16, which: u16) -> usize
    ensures answers { result ≡ field_at table.now rule which }
    ensures small { result < 65536 }
{
    word_at(
        table,
        HEAD + word_at(table, SETS) + FIELDS * (rule as usize) + (which as usize),
    )
}

// How many rulesets there are.
pub fn ruleset_count(table: &[u16]) -> usize
    ensures answers { result ≡ rulesets_in table.now }
{
    word_at(table, SETS)
}

// How many rules there are, in all rulesets.
pub fn rule_count(table: &[u16]) -> usize
    ensures answers { result ≡ records_in table.now }
{
    word_at(table, RULES)
}

// Whether a rule is tried on whole lines: it is of a top ruleset.
pub fn is_top_rule(table: &[u16], rule: u16) -> bool
    ensures answers { result ≡ is_top_rule table.now rule }
{
    word_at(table, HEAD + field_at(table, rule, RULESET)) == 0
}

// The ruleset that a rule is of.
pub fn ruleset_of(table: &[u16], rule: u16) -> usize
    ensures answers { result ≡ ruleset_at table.now rule }
{
    field_at(table, rule, RULESET)
}

// Where a rule's parts stand, as far as the table reaches.
pub fn parts_of(table: &[u16], rule: u16) -> Range<usize>
    ensures answers { result ≡ rule_span table.now rule }
{
    let first = HEAD
        + word_at(table, SETS)
        + FIELDS * word_at(table, RULES)
        + field_at(table, rule, FIRST);
    let end = first + field_at(table, rule, COUNT);
    first..end.min(table.len())
}

// The part that a word stands for. Words that are no part are for `acceptance` to refuse.
fn part_of(w: usize) -> Part
    ensures { result ≡ part_of w }
{
    if w < WHITESPACE {
        return Part::Exact(w as u8);
    }
    if w == WHITESPACE {
        return Part::Whitespace;
    }
    if w < NESTED {
        return Part::Expression;
    }
    Part::Nested(w - NESTED)
}

// The part at a place of the table.
pub fn part_at(table: &[u16], at: usize) -> Part
    ensures answers { result ≡ part_of (word_at table.now at) }
{
    part_of(word_at(table, at))
}

// The same of a place that the caller knows to be one, as a walk does of its rule's: it is not tested again.
pub fn part_within(table: &[u16], at: usize) -> Part
    requires { at < length table.now }
    ensures answers { result ≡ part_of (word_at table.now at) }
{
    part_of(table[at] as usize)
}

// ---- where each ruleset begins

// At place s + 1, how many rules are of ruleset s.
fn count_rules(table: &[u16], counts: &mut [u16; 33])
    requires { counts.old ≡ listed 33 (tally_of table.now 0) }
    ensures { counts.new ≡ listed 33 (tally_of table.now (records_in table.now)) }
{
    let rules = word_at(table, RULES);
    for rule in 0..rules as u16 {
        let set = field_at(table, rule, RULESET);
        if set < MOST_RULESETS {
            counts[set + 1] += 1;
        }
    }
}

// Each count becomes the sum of the counts up to it.
fn sum_counts(counts: &mut [u16; 33])
    requires { summed_up counts.old 32 < 65536 }
    ensures { counts.new ≡ listed 33 (summed_up counts.old) }
{
    for set in 0..MOST_RULESETS {
        counts[set + 1] = counts[set] + counts[set + 1];
    }
}

// For each ruleset s the place of its first rule, at s: the rules of s stand from there to the place at s + 1.
pub fn ruleset_starts(table: &[u16]) -> [u16; 33]
    ensures answers { result ≡ starts_of table.now }
{
    let mut starts = [0u16; 33];
    count_rules(table, &mut starts);
    sum_counts(&mut starts);
    starts
}
