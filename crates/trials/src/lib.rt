// A line on an accepted table whose rules are prepared: its checks, and the trial of the rules that scan or lookup chose.
// From `src/asm/matcher/mod.rs`, `match_instr`. One call and a program of many lines share it. It refuses line, sheet, budget
// and base (3, 4, 5, 19); then the walk's budget, depth and pool (6, 7, 8); no match (1); an answer longer than the buffer
// (9). A refusal leaves the buffer unchanged. The walk counts places from the line's start: the base comes in where the answer
// is written.
#![tactic(auto)]

ghost use Rattle.std.specs.Prelude.{◌≡◌, [], map, ◌+◌, ◌-◌, ◌<◌};
ghost use Rattle.readings.specs.Tree.{moved};
ghost use Rattle.readings.specs.Scene.{scene_of};
ghost use Rattle.readings.specs.Plan.{run};
ghost use Rattle.readings.specs.Walk.{tries};
ghost use Rattle.readings.specs.Call.{matched};
ghost use Rattle.leads.specs.Leads.{Leads, Led};
ghost use Rattle.walk.specs.Met.{Prepared};
ghost use Rattle.answer.specs.Measured.{trees_in};
ghost use Rattle.trials.specs.Orders.{is_scan, LedFor, LeadAsked};
ghost use Rattle.trials.specs.declared.Refused.{Refused};
ghost use Rattle.trials.specs.Told.{says, checked_of, TryAsked, Tried, TellAsked, ReadAsked, stopped_by, listed_call, tried_pairs};

use defs::ruledef;
use leads;
use line::BadLine;
use places::RulePlace;
use pool::Pool;
use syntax::walker::Walker;
use useful;
use walk::{Lent, Place, Refusal, Stopped, Walked};

const MOST_VISITS: u32 = 1_000_000;

// With it the end of the longest line is the greatest number of 32 bits.
const MOST_BASE: u32 = 4_294_967_175;

// What a call returns, whose buffer's start holds the answer: the readings with the greatest exact count. Number 0.
#[derive(Clone, Copy)]
pub struct Matched {
    pub visits: u32,
    pub words: u32,
}

// Why a call has no answer to return. The buffer is unchanged.
#[derive(Clone, Copy)]
pub enum Refused {
    // 1
    NoMatch { visits: u32 },
    // 2 to 5, and 19
    BadTable,
    BadLine { place: u32 },
    BadSheet,
    BadBudget,
    BadBase,
    // 6: the next visit would exceed the budget.
    Spent { visits: u32 },
    // 7: a nested step would enter depth 17.
    TooDeep { visits: u32 },
    // 8: a 4,097th record is due.
    PoolFull { visits: u32 },
    // 9: the answer is longer than the buffer.
    TooLong { visits: u32, words: u32 },
}

impl From<BadLine> for Refused {
    ghost from_gives = { λ bad refused. refused ≡ Refused.BadLine bad.place };

    fn from(bad: BadLine) -> Refused {
        Refused::BadLine { place: bad.place }
    }
}

// Which rules a call tries, and in what order: all top rules, or those that the line's prefixes lead to. An enum and no closure:
// four steps differ by it, in `trials`, `matcher` and `program`, and each contract would have to carry the closure's.
#[derive(Clone, Copy)]
pub enum Order {
    Scan,
    Lookup,
}

// Lays the leads that a call's walks go by.
pub fn lead_rules(
    table: &[u16],
    starts: &[u16],
    places: &[RulePlace],
    rules: &[u16],
    order: Order,
    leads: &mut [u32],
)
    requires { LeadAsked table.now starts.now places.now rules.now leads.old }
    ensures answers { Led table.now (LedFor order table.now rules.now) leads.old leads.new }
{
    leads::lead_nested(table, starts, leads);
    match order {
        Order::Scan => leads::lead_listed(table, places, rules, leads),
        Order::Lookup => {}
    }
}

// The line's checks, in their order: 3, 4, 5, 19.
pub fn check(line: &[u8], sheet: &[u8], budget: u32, base: u32) -> Result<(), Refused>
    ensures answers { result ≡ checked_of line.now sheet.now budget base }
{
    line::check_line(line)?;
    if !extents::check_sheet(sheet, line.len()) {
        return Err(Refused::BadSheet);
    }
    if budget == 0 {
        return Err(Refused::BadBudget);
    }
    if MOST_VISITS < budget {
        return Err(Refused::BadBudget);
    }
    if MOST_BASE < base {
        return Err(Refused::BadBase);
    }
    Ok(())
}

// Whether a call tries all top rules. Those that a lookup found begin as the line does.
fn scans(order: Order) -> bool
    ensures { result ≡ is_scan order }
{
    matches!(order, Order::Scan)
}

// The rule walk for each rule, on the whole line from its start: a top rule has depth 0 and must end at the line's end. A rule
// that fails in its leading exact parts takes no walk to count.
fn try_rules(
    lent: &Lent,
    places: &[RulePlace],
    store: &mut [usize],
    rules: &[u16],
    order: Order,
    visits: usize,
) -> Result<Walked, Stopped>
    requires try_asked { TryAsked lent.now.table.now lent.now.line.now lent.now.sheet.now lent.now.starts.now places.now store.old rules.now visits }
    requires prepared { Prepared lent.now.table.now lent.now.line.now lent.now.useful.now lent.now.leads.now }
    ensures { Tried lent.now.table.now (run (tries (scene_of lent.now.table.now lent.now.line.now lent.now.sheet.now) (tried_pairs lent.now.table.now rules.now)) visits 0) store.new result }
{
    let walker = Walker::new(lent.line);
    let ahead = leads::look_ahead(lent.line, lent.useful, walker, scans(order));
    let mut so_far = Walked {
        left: visits,
        pool: Pool::new(),
    };
    for rule in rules {
        let rule = *rule as usize;
        if let Some(fails) = leads::failing_visits(lent.leads[rule], ahead) {
            if so_far.left < fails {
                return Err(Stopped {
                    why: Refusal::Spent,
                    left: 0,
                });
            }
            so_far.left -= fails;
            continue;
        }
        let here = places[rule];
        let place = Place {
            set: here.set as usize,
            rule: here.number as usize,
            at: here.from as usize,
            end: here.to as usize,
            depth: 0,
            args: 0,
        };
        so_far = walk::match_with_rule(lent, store, place, 0, walker, so_far.left, so_far.pool)?;
    }
    Ok(so_far)
}

// The matches that the walk left, told by their base: measured before anything is written.
fn tell(
    table: &[u16],
    store: &[usize],
    used: usize,
    visits: u32,
    base: usize,
    answer: &mut [u32],
) -> Result<Matched, Refused>
    requires { TellAsked table.now store.now used base }
    ensures { says result answer.new ≡ matched (scene_of table.now [] []) visits (map (moved base) (trees_in store.now used)) answer.old }
{
    let measure = answer::measure_answer(table, store, used);
    if measure.matches == 0 {
        return Err(Refused::NoMatch { visits });
    }
    let words = measure.words;
    if answer.len() < words {
        return Err(Refused::TooLong {
            visits,
            words: words as u32,
        });
    }
    answer::write_answer(table, store, used, measure, base, answer);
    Ok(Matched {
        visits,
        words: words as u32,
    })
}

// A walk that stopped, told.
fn stopped(why: Refusal, visits: u32) -> Refused
    ensures { result ≡ stopped_by why visits }
{
    match why {
        Refusal::Spent => Refused::Spent { visits },
        Refusal::Deep => Refused::TooDeep { visits },
        Refusal::Full => Refused::PoolFull { visits },
    }
}

// A line that its checks accepted, by the rules chosen for it. The order says only whether a look ahead pays.
pub fn read_line(
    table: &[u16],
    line: &[u8],
    sheet: &[u8],
    budget: u32,
    base: u32,
    starts: &[u16],
    leads: &[u32; ruledef::MOST_RULES],
    places: &[RulePlace],
    rules: &[u16],
    order: Order,
    store: &mut [usize],
    answer: &mut [u32],
) -> Result<Matched, Refused>
    requires read_asked { ReadAsked table.now line.now sheet.now starts.now places.now store.old rules.now budget base }
    requires leads { Leads table.now leads.now }
    ensures answers { says result answer.new ≡ listed_call (tried_pairs table.now rules.now) table.now line.now sheet.now budget base answer.old }
{
    let visits = budget as usize;
    let mut useful = extents::held_places();
    useful::find_places(line, &mut useful);
    let lent = Lent {
        table,
        line,
        useful: &useful,
        sheet,
        starts,
        leads,
    };
    match try_rules(&lent, places, store, rules, order, visits) {
        Err(stop) => Err(stopped(stop.why, (visits - stop.left) as u32)),
        Ok(walked) => tell(
            table,
            store,
            walked.pool.used,
            (visits - walked.left) as u32,
            base as usize,
            answer,
        ),
    }
}
