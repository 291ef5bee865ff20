// The matcher: which readings a line has under a rule table, the full scan and prefix lookup. From
// `src/asm/matcher/mod.rs`, `match_instr` and `match_with_ruledef_map`. Any slices, any budget and any base are taken, and bad
// ones refused: table, line, sheet, budget (2 to 5), base (19); then the walk's budget, depth and pool (6, 7, 8); no match (1);
// an answer longer than the buffer (9). A refusal leaves the buffer unchanged. The base is where the line begins in its file:
// each start and end in the answer is base plus offset.
#![tactic(auto)]

ghost use Rattle.std.specs.Prelude.{◌≡◌, true, ◌≤◌, length, take};
ghost use Rattle.defs.specs.Table.{table_fits};
ghost use Rattle.readings.specs.Scene.{scene_of, based};
ghost use Rattle.readings.specs.Call.{Accepted, scan_call, lookup_call, call_with};
ghost use Rattle.readings.specs.Demand.{Within, Demand3};
ghost use Rattle.trials.specs.Told.{says};
ghost use Rattle.trials.specs.Orders.{order_of, rules_of};

use defs::ruledef;
use pool::Pool;
use trials::{Matched, Order, Refused};

// The rules that a call tries, by their places in the table, at the buffer's start.
fn rules_to_try(table: &[u16], line: &[u8], order: Order, rules: &mut [u16]) -> usize
    requires table_value { table_fits table.now ≡ true }
    requires rules_len { length rules.old ≡ 512 }
    ensures rules_after { take result rules.new ≡ rules_of order table.now line.now }
    ensures upper_bound { result ≤ 512 }
{
    match order {
        Order::Scan => ruledef_map::top_rules(table, rules),
        Order::Lookup => {
            let prefix = ruledef_map::parse_prefix(line);
            ruledef_map::query_prefixed(table, prefix, rules)
        }
    }
}

// The whole call.
fn call(
    table: &[u16],
    line: &[u8],
    sheet: &[u8],
    budget: u32,
    base: u32,
    order: Order,
    answer: &mut [u32],
) -> Result<Matched, Refused>
    ensures { says result answer.new ≡ call_with (order_of order) table.now line.now sheet.now budget base answer.old }
{
    if !acceptance::check_table(table) {
        return Err(Refused::BadTable);
    }
    trials::check(line, sheet, budget, base)?;
    let starts = ruledef::ruleset_starts(table);
    let mut room = [0u16; ruledef::MOST_RULES];
    let count = rules_to_try(table, line, order, &mut room);
    let rules = &room[..count];
    let mut places = places::NONE;
    places::place_rules(table, &starts, rules, &mut places);
    let mut leads = [0u32; ruledef::MOST_RULES];
    trials::lead_rules(table, &starts, &places, rules, order, &mut leads);
    let mut store = [0usize; Pool::ROOM];
    trials::read_line(
        table, line, sheet, budget, base, &starts, &leads, &places, rules, order, &mut store,
        answer,
    )
}

// The full scan: every top rule, in table order.
pub fn match_instr(
    table: &[u16],
    line: &[u8],
    sheet: &[u8],
    budget: u32,
    base: u32,
    answer: &mut [u32],
) -> Result<Matched, Refused>
    ensures answers { says result answer.new ≡ scan_call table.now line.now sheet.now budget base answer.old }
    ensures readings { Accepted table.now line.now sheet.now budget base → Within table.now line.now sheet.now budget → Demand3 (based base (scene_of table.now line.now sheet.now)) answer.old (says result answer.new) }
{
    call(table, line, sheet, budget, base, Order::Scan, answer)
}

// Prefix lookup: the same readings, number and words, and no more visits than the full scan's.
pub fn match_with_ruledef_map(
    table: &[u16],
    line: &[u8],
    sheet: &[u8],
    budget: u32,
    base: u32,
    answer: &mut [u32],
) -> Result<Matched, Refused>
    ensures answers { says result answer.new ≡ lookup_call table.now line.now sheet.now budget base answer.old }
    ensures readings { Accepted table.now line.now sheet.now budget base → Within table.now line.now sheet.now budget → Demand3 (based base (scene_of table.now line.now sheet.now)) answer.old (says result answer.new) }
    ensures visits { Accepted table.now line.now sheet.now budget base → Within table.now line.now sheet.now budget → (says result answer.new).visits ≤ (scan_call table.now line.now sheet.now budget base answer.old).visits }
    ensures agrees { Accepted table.now line.now sheet.now budget base → Within table.now line.now sheet.now budget → ((says result answer.new).number ≡ (scan_call table.now line.now sheet.now budget base answer.old).number) × ((says result answer.new).words ≡ (scan_call table.now line.now sheet.now budget base answer.old).words) }
{
    call(table, line, sheet, budget, base, Order::Lookup, answer)
}
