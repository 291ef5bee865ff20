// The top rules in order of prefix: each rule is one number, its prefix's bytes and then its place in the table, so that
// the rules of a line's prefix of each length are a run, found by bisection. It stands for the Rust's hash map of
// `src/asm/defs/ruledef_map.rs`. Nothing is refused: table and line are accepted ones.
#![tactic(auto)]

ghost use Rattle.std.specs.Prelude.{◌≡◌, true, map, ◌≤◌, length, take};
ghost use Rattle.ruledef_map.specs.RuledefMap.{line_prefix, found_rules};
ghost use Rattle.sorting.specs.Ascending.{in_order};
ghost use Rattle.prefix_order.specs.PrefixOrder.{entry_of, entries};
ghost use Rattle.prefix_order.specs.PrefixOrder.{LayAsked, OrderAsked, FindAsked, Passed, FirstFrom, RunAsked, RunLeft};

use defs::ruledef;
use leads;
use places::RulePlace;

// What a key's byte weighs against the next, and what the first of its four weighs.
const BASE: usize = 256;

const FIRST_WEIGHT: usize = BASE * BASE * BASE;

// An entry is a key times this, and a place.
const PLACES: usize = ruledef::MOST_RULES;

// Lays each rule's entry, in the rules' order.
fn lay_entries(table: &[u16], places: &[RulePlace], rules: &[u16], order: &mut [usize])
    requires { LayAsked table.now places.now rules.now order.old }
    ensures { order.new ≡ map (entry_of table.now) rules.now }
{
    for (at, rule) in rules.iter().enumerate() {
        let rule = *rule as usize;
        let place = places[rule];
        let key = leads::prefix_key(table, place.from as usize, place.to as usize);
        order[at] = key * PLACES + rule;
    }
}

// Writes the top rules' entries, in order of prefix.
pub fn order_rules(
    table: &[u16],
    places: &[RulePlace],
    rules: &[u16],
    order: &mut [usize],
    spare: &mut [usize],
)
    requires { OrderAsked table.now places.now rules.now order.old spare.old }
    ensures answers { order.new ≡ entries table.now }
{
    lay_entries(table, places, rules, order);
    sorting::sort(order, spare);
}

// The place of the first entry that is not below a bound, or the end, at or after a place before which all are below it.
// That place is looked at first, since it often is the one.
fn first_from(order: &[usize], from: usize, bound: usize) -> usize
    requires order_value { in_order order.now ≡ true }
    requires passed { Passed order.now bound from }
    ensures { FirstFrom order.now bound result }
{
    if order.len() <= from {
        return from;
    }
    if bound <= order[from] {
        return from;
    }
    from + 1 + order[from + 1..].partition_point(|entry| *entry < bound)
}

// Where a run ends in the order, and where its rules end among those written.
#[derive(Clone, Copy)]
struct Run {
    end: usize,
    found: usize,
}

// Writes the rules whose prefix has this key after those written before: they are a run of the order, at or after a place
// before which all are of lesser keys.
fn put_run(order: &[usize], begin: usize, key: usize, rules: &mut [u16], from: usize) -> Run
    requires { RunAsked order.now rules.old key begin from }
    ensures { RunLeft order.now rules.old key from result.end result.found rules.new }
{
    let first = first_from(order, begin, key * PLACES);
    let mut found = from;
    for end in first..order.len() {
        let entry = order[end];
        if entry / PLACES != key {
            return Run { end, found };
        }
        rules[found] = (entry % PLACES) as u16;
        found += 1;
    }
    Run {
        end: order.len(),
        found,
    }
}

// Writes the rules to try on a line, to the start of the room that is lent, since memory is fixed: those of its prefix's
// beginnings, the shortest first, and within one length in table order. A key goes along: one byte more adds that byte at its
// weight; and as no byte is 0 the keys ascend, so each run is sought from the end of the last. The table is lent for the
// promise alone: its order says all that is needed.
pub fn find_rules(table: &[u16], order: &[usize], line: &[u8], rules: &mut [u16]) -> usize
    requires { FindAsked table.now order.now line.now rules.old }
    ensures answers { take result rules.new ≡ found_rules table.now (line_prefix line.now) }
    ensures many { result ≡ length (found_rules table.now (line_prefix line.now)) }
    ensures few { result ≤ 512 }
{
    let prefix = ruledef_map::parse_prefix(line);
    let mut run = put_run(order, 0, 0, rules, 0);
    let mut key: usize = 0;
    let mut weight = FIRST_WEIGHT;
    for size in 0..prefix.count {
        key += prefix.bytes[size] as usize * weight;
        weight = weight / BASE;
        run = put_run(order, run.end, key, rules, run.found);
    }
    run.found
}
