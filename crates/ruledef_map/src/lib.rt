// The prefix map, from `src/asm/defs/ruledef_map.rs`: which rules a line may match, by their leading bytes. The Rust's
// hash map becomes a list in the order of its query: by prefix length, then by the table. Nothing is refused.
#![tactic(auto)]

ghost use Rattle.std.specs.Prelude.{◌≡◌, ℕ, ◌+◌, ◌≤◌, ◌<◌, eqb, length, get_or};
ghost use Rattle.plain.specs.Below.{count_below};
ghost use Rattle.plain.specs.Buffers.{put_after};
ghost use Rattle.defs.specs.Table.{rule_parts};
ghost use Rattle.ruledef_map.specs.RuledefMap.{line_prefix, held_prefix, prefix_bytes, prefix_length};
ghost use Rattle.ruledef_map.specs.RuledefMap.{top_rules, found_rules, mark_of, with_mark, put_rules};

use defs::ruledef;
use defs::ruledef::Part;

const MAX_PREFIX_SIZE: usize = 4;

// The first bytes of a line or a rule, lowered; 0 past their count. Memory is fixed, so it holds all four.
#[derive(Clone, Copy)]
pub struct Prefix {
    pub bytes: [u8; 4],
    pub count: usize,
}

// The line's first 4 non-whitespace bytes, lowered.
pub fn parse_prefix(line: &[u8]) -> Prefix
    ensures answers { result ≡ held_prefix (line_prefix line.now) }
{
    let mut bytes = [0u8; 4];
    let mut count: usize = 0;
    for &b in line {
        if MAX_PREFIX_SIZE <= count {
            return Prefix { bytes, count };
        }
        let counts = !token::is_whitespace(b);
        if counts {
            bytes[count] = token::to_ascii_lowercase(b);
            count += 1;
        }
    }
    Prefix { bytes, count }
}

// How a rule stands to a line's prefix: the length of its own prefix, or 5 if the line does not begin with that. A byte, and no
// Option<u8>: tried, it is two bytes a mark, and a lookup among 8 to 512 rules took 2 to 5% more instructions.
const FULL: u8 = 4;

const MISSED: u8 = 5;

const MOST_RULES: usize = ruledef::MOST_RULES;

// The length of the rule's prefix, if that is the beginning of the line's.
fn prefix_length(table: &[u16], rule: u16, prefix: Prefix) -> u8
    ensures { result ≡ prefix_length (rule_parts table.now rule) (prefix_bytes prefix) }
{
    let parts = ruledef::parts_of(table, rule);
    let mut same: u8 = 0;
    for at in parts.start..parts.end {
        let b = match ruledef::part_at(table, at) {
            Part::Exact(b) => b,
            Part::Whitespace => return same,
            Part::Expression => return same,
            Part::Nested(_) => return same,
        };
        if FULL <= same {
            return same;
        }
        if prefix.count <= same as usize {
            return MISSED;
        }
        if token::to_ascii_lowercase(b) != prefix.bytes[same as usize] {
            return MISSED;
        }
        same += 1;
    }
    same
}

// Writes the top rules, by their places in the table and in its order, to the start of the buffer that is lent, since memory is
// fixed.
pub fn top_rules(table: &[u16], found: &mut [u16]) -> usize
    ensures answers { (found.new, result) ≡ put_rules table.now (top_rules table.now) found.old }
{
    let rules = ruledef::rule_count(table);
    if MOST_RULES < rules {
        return 0;
    }
    if found.len() < rules {
        return 0;
    }
    let mut count: usize = 0;
    for rule in 0..rules as u16 {
        if ruledef::is_top_rule(table, rule) {
            found[count] = rule;
            count += 1;
        }
    }
    count
}

// Room for a mark a rule. Only its length is promised, which lending it needs.
fn no_marks() -> [u8; 512]
    ensures { 512 ≡ length result }
{
    [MISSED; 512]
}

// Marks each rule with its prefix's length, if it is a top rule and the line begins with that, else with 5. This is the
// lookup's one pass over records and prefixes.
fn mark_rules(table: &[u16], rules: usize, prefix: Prefix, marks: &mut [u8])
    requires rules_bound { rules ≤ 512 }
    requires rules_in_bounds { rules ≤ length marks.old }
    ensures { (i : ℕ) → i < rules → get_or marks.new i 0 ≡ mark_of table.now (prefix_bytes prefix) i }
{
    for rule in 0..rules as u16 {
        marks[rule as usize] = mark(table, rule, prefix);
    }
}

fn mark(table: &[u16], rule: u16, prefix: Prefix) -> u8
    ensures { result ≡ mark_of table.now (prefix_bytes prefix) rule }
{
    if ruledef::is_top_rule(table, rule) {
        return prefix_length(table, rule, prefix);
    }
    MISSED
}

// Writes the rules that have the mark, in table order, after those written before.
fn gather(marks: &[u8], rules: usize, wanted: u8, found: &mut [u16], from: usize) -> usize
    requires rules_bound { rules ≤ 512 }
    requires rules_in_bounds { rules ≤ length marks.now }
    requires wanted_in_bounds { from + count_below rules (λ i. eqb (get_or marks.now i 0) wanted) ≤ length found.old }
    ensures { (found.new, result) ≡ put_after from (with_mark marks.now rules wanted) found.old }
{
    let mut count = from;
    for rule in 0..rules as u16 {
        if marks[rule as usize] == wanted {
            found[count] = rule;
            count += 1;
        }
    }
    count
}

// Writes the rules to try on a line with this prefix: those of the prefixes of length 0 upward, within one length in
// table order.
pub fn query_prefixed(table: &[u16], prefix: Prefix, found: &mut [u16]) -> usize
    ensures answers { (found.new, result) ≡ put_rules table.now (found_rules table.now (prefix_bytes prefix)) found.old }
{
    let rules = ruledef::rule_count(table);
    if MOST_RULES < rules {
        return 0;
    }
    if found.len() < rules {
        return 0;
    }
    let mut marks = no_marks();
    mark_rules(table, rules, prefix, &mut marks);
    let mut count: usize = 0;
    for size in 0..=FULL {
        count = gather(&marks, rules, size, found, count);
    }
    count
}
