// The rule table's check, added by the port: whether words are a table as document 01 has it, sentence by sentence; if not,
// number 2. The Rust is handed rules that its own parser has made, so it has no such check. Any words are taken.
#![tactic(auto)]

ghost use Rattle.std.specs.Prelude.{◌≡◌, true, false, ◌&&◌, ℕ, ◌+◌, ◌≤◌, leb, length};
ghost use Rattle.plain.specs.Between.{Between};
ghost use Rattle.defs.specs.Table.{word_at, rulesets_in, records_in, parts_in, parts_from, parameters_in, is_part};
ghost use Rattle.defs.specs.Table.{in_range, flags_fit, rulesets_fit, ranges_fit, counts_fit, parameters_fit, parts_fit, table_fits};

use defs::ruledef;

// The bytes that an exact part may be.
const FIRST_PRINTED: usize = 33;

const LAST_PRINTED: usize = 126;

const SEMICOLON: usize = 59;

// How many words are tried at once, of a table that has as many parts.
const WIDE: usize = 8;

fn flags_fit(table: &[u16], sets: usize) -> bool
    requires sets_value { sets ≡ rulesets_in table.now }
    requires sets_bound { sets ≤ 32 }
    ensures { result ≡ flags_fit table.now }
{
    (0..sets).all(|set| ruledef::word_at(table, ruledef::HEAD + set) <= 1)
}

// Records stand in nondecreasing ruleset order, each ruleset below S.
fn rulesets_fit(table: &[u16], sets: usize, rules: usize) -> bool
    requires sets_value { sets ≡ rulesets_in table.now }
    requires rules_value { rules ≡ records_in table.now }
    requires rules_bound { rules ≤ 512 }
    ensures { result ≡ rulesets_fit table.now }
{
    let mut before = 0;
    for rule in 0..rules as u16 {
        let set = ruledef::field_at(table, rule, ruledef::RULESET);
        if sets <= set {
            return false;
        }
        if set < before {
            return false;
        }
        before = set;
    }
    true
}

// Each part range lies within P, at most 64 parts a rule, and the part counts sum to at most P.
fn ranges_fit(table: &[u16], rules: usize, parts: usize) -> bool
    requires rules_value { rules ≡ records_in table.now }
    requires rules_bound { rules ≤ 512 }
    requires parts_value { parts ≡ parts_in table.now }
    ensures { result ≡ (ranges_fit table.now && counts_fit table.now) }
{
    let mut sum: usize = 0;
    for rule in 0..rules as u16 {
        let count = ruledef::field_at(table, rule, ruledef::COUNT);
        if parts < ruledef::field_at(table, rule, ruledef::FIRST) + count {
            return false;
        }
        if ruledef::MOST_PARTS_A_RULE < count {
            return false;
        }
        sum += count;
    }
    sum <= parts
}

fn parameters_of(table: &[u16], rule: u16) -> usize
    ensures { result ≡ parameters_in table.now rule }
{
    let parts = ruledef::parts_of(table, rule);
    let mut count: usize = 0;
    for at in parts.start..parts.end {
        if ruledef::WHITESPACE < ruledef::word_at(table, at) {
            count += 1;
        }
    }
    count
}

// Whether a rule has at most 8 parameters. The parts of one that has no more parts than that need not be read for it.
fn has_few_parameters(table: &[u16], rule: u16) -> bool
    ensures { result ≡ leb (parameters_in table.now rule) 8 }
{
    if ruledef::field_at(table, rule, ruledef::COUNT) <= ruledef::MOST_PARAMETERS {
        return true;
    }
    parameters_of(table, rule) <= ruledef::MOST_PARAMETERS
}

// At most 8 parameters a rule.
fn parameters_fit(table: &[u16], rules: usize) -> bool
    requires rules_value { rules ≡ records_in table.now }
    requires rules_bound { rules ≤ 512 }
    ensures { result ≡ parameters_fit table.now }
{
    (0..rules as u16).all(|rule| has_few_parameters(table, rule))
}

// Whether a word is a part of a table of so many rulesets.
pub fn is_part(word: usize, sets: usize) -> bool
    ensures answers { result ≡ is_part sets word }
{
    if word < FIRST_PRINTED {
        return false;
    }
    if word <= LAST_PRINTED {
        return word != SEMICOLON;
    }
    if word == ruledef::WHITESPACE {
        return true;
    }
    if word == ruledef::EXPRESSION {
        return true;
    }
    if word < ruledef::NESTED {
        return false;
    }
    word - ruledef::NESTED < sets
}

// Whether a word is no part of a table of so many rulesets. It has no branch, so that many are tried at once.
fn is_odd(word: u16, sets: u16) -> bool
    requires { sets ≤ 32 }
    ensures { result ≡ false → is_part sets word ≡ true }
{
    (word < FIRST_PRINTED as u16)
        | (word == SEMICOLON as u16)
        | ((LAST_PRINTED as u16) < word)
            & (word != ruledef::WHITESPACE as u16)
            & (word != ruledef::EXPRESSION as u16)
            & ((word < ruledef::NESTED as u16) | (ruledef::NESTED as u16 + sets <= word))
}

// Whether one of the eight words from a place on is no part. The count is fixed and no word ends the loop, so that the compiler
// tries them at once.
fn eight_odd(table: &[u16], from: usize, sets: u16) -> bool
    requires sets_bound { sets ≤ 32 }
    requires from_in_bounds { from + 8 ≤ length table.now }
    ensures { result ≡ false → Between (λ (j : ℕ). is_part sets (word_at table.now j) ≡ true) from (from + 8) }
{
    let mut odd = false;
    for i in 0..WIDE {
        odd = odd | is_odd(table[from + i], sets);
    }
    odd
}

// Whether all P words are parts, tried eight at a time; false of fewer than eight. The last eight end with the table: they may
// try some words again.
fn eights_fit(table: &[u16], sets: usize, from: usize, parts: usize) -> bool
    requires sets_value { sets ≡ rulesets_in table.now }
    requires sets_bound { sets ≤ 32 }
    requires from_value { from ≡ parts_from table.now }
    requires parts_value { parts ≡ parts_in table.now }
    requires parts_value_2 { from + parts ≡ length table.now }
    ensures { result ≡ true → parts_fit table.now ≡ true }
{
    if parts < WIDE {
        return false;
    }
    let most = sets as u16;
    let last = table.len() - WIDE;
    let mut odd = false;
    for at in (from..last).step_by(WIDE) {
        odd = odd | eight_odd(table, at, most);
    }
    !(odd | eight_odd(table, last, most))
}

// All P words are checked, spares included: many at once, and one by one if that does not settle it.
fn parts_fit(table: &[u16], sets: usize, from: usize, parts: usize) -> bool
    requires sets_value { sets ≡ rulesets_in table.now }
    requires sets_bound { sets ≤ 32 }
    requires from_value { from ≡ parts_from table.now }
    requires parts_value { parts ≡ parts_in table.now }
    requires parts_value_2 { from + parts ≡ length table.now }
    ensures { result ≡ parts_fit table.now }
{
    if eights_fit(table, sets, from, parts) {
        return true;
    }
    (0..parts).all(|k| is_part(ruledef::word_at(table, from + k), sets))
}

// Whether S, R and P are in range.
fn sizes_fit(sets: usize, rules: usize, parts: usize) -> bool
    ensures { result ≡ in_range sets rules parts }
{
    if sets < 1 {
        return false;
    }
    if ruledef::MOST_RULESETS < sets {
        return false;
    }
    if ruledef::MOST_RULES < rules {
        return false;
    }
    parts <= ruledef::MOST_PARTS
}

// Whether the words are a table, as document 01 has it; if not, number 2. A test, and no Result: there is one refusal, and
// nothing to tell of it.
pub fn check_table(table: &[u16]) -> bool
    ensures answers { result ≡ table_fits table.now }
{
    let sets = ruledef::word_at(table, ruledef::SETS);
    let rules = ruledef::word_at(table, ruledef::RULES);
    let parts = ruledef::word_at(table, ruledef::PARTS);
    if !sizes_fit(sets, rules, parts) {
        return false;
    }
    let from = ruledef::HEAD + sets + ruledef::FIELDS * rules;
    if table.len() != from + parts {
        return false;
    }
    if !flags_fit(table, sets) {
        return false;
    }
    if !rulesets_fit(table, sets, rules) {
        return false;
    }
    if !ranges_fit(table, rules, parts) {
        return false;
    }
    if !parameters_fit(table, rules) {
        return false;
    }
    parts_fit(table, sets, from, parts)
}
