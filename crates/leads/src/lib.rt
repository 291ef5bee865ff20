// Leads: a rule's leading exact parts, up to four, as one number, prepared once for a call, so that a rule that fails in them is
// told by that number and by what the line has there. The Rust walks such a rule; its visits are counted here without a walk.
// Nothing is refused: the table is an accepted one.
#![tactic(auto)]

ghost use Rattle.std.specs.Prelude.{◌≡◌, true, ◌≤◌, ◌<◌, ◌%◌, eqb, length, None, Some};
ghost use Rattle.plain.specs.Choice.{select};
ghost use Rattle.defs.specs.Table.{table_fits, records_in, parts_between};
ghost use Rattle.ruledef_map.specs.RuledefMap.{rule_prefix};
ghost use Rattle.useful.specs.Useful.{Lent};
ghost use Rattle.readings.specs.Fail.{ahead};
ghost use Rattle.leads.specs.Leads.{key_of, ahead_of, failing_of, Led, Among, Between, Nested, ListAsked, NestAsked};

use defs::ruledef;
use places::RulePlace;
use syntax::walker::Walker;
use useful;

// A key's bytes, and what a byte weighs against the next.
const BYTES: usize = 4;

const BASE: usize = 256;

// A part word below this is an exact part's byte.
const EXACT: u16 = 256;

// What the first byte of a key weighs, and the second, and the third.
const FIRST: u32 = 16_777_216;

const SECOND: u32 = 65_536;

const THIRD: u32 = 256;

// The prefix of the parts whose words stand from one place to before another, as a number.
pub fn prefix_key(table: &[u16], from: usize, to: usize) -> usize
    requires { to ≤ length table.now }
    ensures answers { result ≡ key_of (rule_prefix (parts_between table.now from to)) }
    ensures small { result < 4294967296 }
{
    let mut key: usize = 0;
    let mut at = from;
    for _ in 0..BYTES {
        key = key * BASE;
        if at < to {
            let word = table[at];
            at += 1;
            if word < EXACT {
                key += token::to_ascii_lowercase(word as u8) as usize;
            } else {
                at = to;
            }
        }
    }
    key
}

// What the line has ahead of a walker: its first four non-whitespace bytes from the cursor on and below the limit, as a number.
fn line_key(line: &[u8], places: &[u8; useful::PLACES], walker: Walker) -> u32
    requires lent { Lent line.now places.now }
    requires cursor_le_limit { walker.cursor ≤ walker.limit }
    requires limit_in_bounds { walker.limit ≤ length line.now }
    ensures { result ≡ key_of (ahead line.now walker.limit walker.cursor) }
{
    let limit = walker.limit;
    let mut cursor = walker.cursor;
    let mut key: usize = 0;
    for _ in 0..BYTES {
        key = key * BASE;
        let here = Walker { cursor, limit };
        let at = useful::next_useful_index(line, places, here);
        if at < limit {
            key += token::to_ascii_lowercase(line[at]) as usize;
            cursor = at + 1;
        } else {
            cursor = limit;
        }
    }
    key as u32
}

// What the line has ahead, if that is wanted: it costs half of what walking a failing rule does, so it pays where several rules
// are tried.
pub fn look_ahead(
    line: &[u8],
    places: &[u8; useful::PLACES],
    walker: Walker,
    wanted: bool,
) -> Option<u32>
    requires lent { Lent line.now places.now }
    requires cursor_le_limit { walker.cursor ≤ walker.limit }
    requires limit_in_bounds { walker.limit ≤ length line.now }
    ensures answers { result ≡ ahead_of wanted line.now walker.limit walker.cursor }
{
    if wanted {
        Some(line_key(line, places, walker))
    } else {
        None
    }
}

// The visits, unless the key's last byte is 0: then the rule's prefix has ended, and the rule does not fail there.
fn unless_ended(key: u32, visits: usize) -> Option<usize>
    ensures { result ≡ select (eqb (key % 256) 0) None (Some visits) }
{
    if key % THIRD == 0 {
        return None;
    }
    Some(visits)
}

// The visits of a rule that fails in its leading exact parts, told by its lead and by what the line has ahead; none of one that
// does not, or if nothing is known.
pub fn failing_visits(rule: u32, ahead: Option<u32>) -> Option<usize>
    ensures answers { result ≡ failing_of rule ahead }
{
    let line = ahead?;
    if rule / FIRST != line / FIRST {
        return unless_ended(rule / FIRST, 1);
    }
    if rule / SECOND != line / SECOND {
        return unless_ended(rule / SECOND, 2);
    }
    if rule / THIRD != line / THIRD {
        return unless_ended(rule / THIRD, 3);
    }
    if rule != line {
        return unless_ended(rule, 4);
    }
    None
}

// Lays the leads of the listed rules, which are prepared.
pub fn lead_listed(table: &[u16], places: &[RulePlace], rules: &[u16], leads: &mut [u32])
    requires { ListAsked table.now places.now rules.now leads.old }
    ensures answers { Led table.now (Among rules.now) leads.old leads.new }
{
    for &rule in rules {
        let place = places[rule as usize];
        leads[rule as usize] = prefix_key(table, place.from as usize, place.to as usize) as u32;
    }
}

// Lays the leads of the rules from one place to before another.
fn lead_between(table: &[u16], from: usize, to: usize, leads: &mut [u32])
    requires table_value { table_fits table.now ≡ true }
    requires from_le_to { from ≤ to }
    requires to_bound { to ≤ records_in table.now }
    requires leads_len { length leads.old ≡ 512 }
    ensures { Led table.now (Between from to) leads.old leads.new }
{
    for rule in from..to {
        let parts = ruledef::parts_of(table, rule as u16);
        leads[rule] = prefix_key(table, parts.start, parts.end) as u32;
    }
}

// Lays the leads of every rule that is of no top ruleset.
pub fn lead_nested(table: &[u16], starts: &[u16], leads: &mut [u32])
    requires { NestAsked table.now starts.now leads.old }
    ensures answers { Led table.now (Nested table.now) leads.old leads.new }
{
    let sets = ruledef::ruleset_count(table);
    for set in 0..sets {
        let from = starts[set] as usize;
        let to = starts[set + 1] as usize;
        if from < to {
            let nested = !ruledef::is_top_rule(table, from as u16);
            if nested {
                lead_between(table, from, to, leads);
            }
        }
    }
}
