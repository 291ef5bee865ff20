// The walk: rule walk, expression step and nested step call one another, depth first, in the order of
// `src/asm/matcher/mod.rs` (`match_with_rule`, `match_with_expr`, `match_with_nested_ruledef`). A visit is counted at each
// arrival at a place in a pattern, so the visits left fall; they, the depth and the pool's room refuse (6, 7, 8). The exact
// count of a match goes with it, into each record: every function asks that the records taken so far are `Counted` (`Ready`,
// `Ended`), and leaves them so (`Left`).
#![tactic(auto)]

ghost use Rattle.std.specs.Prelude.{◌≡◌, ℕ, ◌+◌, ◌<◌, ◌≤◌, length, get_or};
ghost use Rattle.readings.specs.Walk.{any_same, depths, same_match};
ghost use Rattle.pool.specs.Log.{decode, log_of};
ghost use Rattle.pool.specs.Meaning.{Stored, entries, tree_at, gathered};
ghost use Rattle.walk.specs.Met.{Ready, Prepared, Stands, to_come, from_expr, from_nest, Ended, Left, finish_plan, rule_plan, expr_plan, nested_plan, ran, past_at, after_arg, made, InnerOf};

use defs::ruledef;
use defs::ruledef::Part;
use leads;
use pool::{Argument, ArgumentKind, Pool, Record, Records};
use syntax::walker::{Step, Walker, least};
use useful;

// A ruleset of no more rules is tried without a look ahead, which costs half of what walking a failing rule does.
const FEW: usize = 1;

// What a call lends to its walks: table, line, the line's useful places, its sheet, where the table's rulesets begin, and the
// leads of its rules. That places and leads are those of line and table is no ghost field: `Leads` goes by cases, which a fact in
// a struct may not.
#[derive(Clone, Copy)]
pub struct Lent<'a> {
    pub table: &'a [u16],
    pub line: &'a [u8],
    pub useful: &'a [u8; useful::PLACES],
    pub sheet: &'a [u8],
    pub starts: &'a [u16],
    pub leads: &'a [u32; ruledef::MOST_RULES],
    ghost bytes: { (i : ℕ) → get_or line.now i 0 < 256 },
}

// Where a walk stands: a rule, by its ruleset and its number there; the places of its part words that are still to come; how
// deep it is nested; its last argument so far, as the pool counts arguments.
#[derive(Clone, Copy)]
pub struct Place {
    pub set: usize,
    pub rule: usize,
    pub at: usize,
    pub end: usize,
    pub depth: usize,
    pub args: usize,
}

impl Place {
    // The same pattern from another place on.
    fn past(self, at: usize) -> Place
        ensures { result ≡ past_at self at }
    {
        Place { at, ..self }
    }

    // The same place after another argument.
    fn after(self, args: usize) -> Place
        ensures { result ≡ after_arg self args }
    {
        Place { args, ..self }
    }
}

// What a walk leaves: visits left and the pool.
#[derive(Clone, Copy)]
pub struct Walked {
    pub left: usize,
    pub pool: Pool,
}

// Why a walk may go no further.
#[derive(Clone, Copy)]
pub enum Refusal {
    // The next visit would exceed the budget.
    Spent,
    // A nested step would enter depth 17.
    Deep,
    // A 4,097th record is due.
    Full,
}

// Why a walk stops, and visits left.
#[derive(Clone, Copy)]
pub struct Stopped {
    pub why: Refusal,
    pub left: usize,
}

// An inner match to go on from: where it ended, and its exact count.
#[derive(Clone, Copy)]
pub struct Inner {
    pub end: usize,
    pub count: usize,
}

// The end of a pattern, whose match has this exact count. A top rule short of the line's end completes no match.
fn finish(
    lent: &Lent,
    store: &mut [usize],
    place: Place,
    exact: usize,
    walker: Walker,
    left: usize,
    pool: Pool,
) -> Result<Walked, Stopped>
    requires stored { Stored store.old pool.used }
    requires set_bound { place.set < 32 }
    requires rule_bound { place.rule < 512 }
    requires depth_le_depths { place.depth ≤ depths }
    requires args_le_used { place.args ≤ pool.used }
    requires cursor_bound { walker.cursor < 128 }
    requires cursor_le_limit { walker.cursor ≤ walker.limit }
    requires limit_value { place.depth ≡ 0 → walker.limit ≡ length lent.now.line.now }
    requires exact_bound { exact < 128 }
    requires ended { Ended lent.now.table.now store.old pool.used place exact }
    ensures { Left lent.now.table.now (ran (finish_plan (length lent.now.line.now) place.depth walker.cursor) left pool) place (log_of store.old pool.used) store.new result }
{
    let depth = place.depth;
    if depth == 0 && !walker.is_over(lent.line) {
        return Ok(Walked { left, pool });
    }
    let end = walker.get_cursor_index();
    match pool.complete(store, depth, place.set, place.rule, place.args, end, exact) {
        Some(more) => Ok(Walked { left, pool: more }),
        None => Err(Stopped {
            why: Refusal::Full,
            left,
        }),
    }
}

// Whether a record from `first` on and before m is a match of the depth that is the same as m.
fn is_duplicate(records: Records, first: usize, m: usize, depth: usize) -> bool
    requires first_le_m { first ≤ m }
    requires m_lt_used { m < records.used }
    requires depth_bound { depth < 32 }
    ensures { (e : ℕ) → result ≡ any_same same_match (gathered depth (made (entries records.entry.store.now records.entry.used) first m)) (tree_at (entries records.entry.store.now records.entry.used) m, e) }
{
    for i in first..m {
        if pool::depth_at(records.store, i) == Some(depth) && trees::is_same(&records, i, m) {
            return true;
        }
    }
    false
}

// Where record m ended and its count, if it is a match of the depth and no record from `first` on and before it is the same.
fn inner_match(records: Records, first: usize, m: usize, depth: usize) -> Option<Inner>
    requires first_le_m { first ≤ m }
    requires m_lt_used { m < records.used }
    requires depth_bound { depth < 32 }
    ensures { InnerOf depth (entries records.entry.store.now records.entry.used) first m (decode (get_or records.entry.store.now m 0)) result }
{
    match pool::record_at(records.store, m) {
        Record::Kept { .. } => None,
        Record::Completed {
            depth: d,
            end,
            count,
            ..
        } => {
            if d != depth || is_duplicate(records, first, m, depth) {
                return None;
            }
            Some(Inner { end, count })
        }
    }
}

// The rule walk, from a place in a pattern on, with the exact count of its match so far.
#[cycle(match_with_expr_match_with_nested_ruledef_match_with_rule)]
pub fn match_with_rule(
    lent: &Lent,
    store: &mut [usize],
    place: Place,
    exact: usize,
    walker: Walker,
    visits: usize,
    pool: Pool,
) -> Result<Walked, Stopped>
    requires ready { Ready lent.now.table.now lent.now.line.now lent.now.sheet.now lent.now.starts.now store.old place walker pool }
    requires stands { Stands lent.now.table.now store.old pool.used place exact (to_come lent.now.table.now place) walker.cursor }
    requires prepared { Prepared lent.now.table.now lent.now.line.now lent.now.useful.now lent.now.leads.now }
    ensures { Left lent.now.table.now (ran (rule_plan lent.now.table.now lent.now.line.now lent.now.sheet.now place.depth place.at place.end walker.limit walker.cursor) visits pool) place (log_of store.old pool.used) store.new result }
{
    let mut left = visits;
    let mut at = place.at;
    // Exact parts passed from here on, apart from `exact`, so that a rule that fails at once copies no count.
    let mut passed: usize = 0;
    let mut here = walker;
    let end = place.end;
    // Not `for at in ..`: a pattern's end is a visit too, so the visit would be counted in two places.
    loop {
        if left == 0 {
            return Err(Stopped {
                why: Refusal::Spent,
                left: 0,
            });
        }
        left -= 1;
        if at == end {
            return finish(lent, store, place, exact + passed, here, left, pool);
        }
        let part = ruledef::part_within(lent.table, at);
        at += 1;
        match part {
            Part::Exact(b) => {
                let Step::Past(next) = useful::maybe_expect_char(lent.line, lent.useful, here, b)
                else {
                    return Ok(Walked { left, pool });
                };
                here = next;
                passed += 1;
            }
            Part::Whitespace => {
                // It consumes nothing: the walker comes back where it stood.
                let Step::Past(same) = useful::maybe_expect_whitespace(lent.line, lent.useful, here)
                else {
                    return Ok(Walked { left, pool });
                };
                here = same;
            }
            Part::Expression => {
                let rest = place.past(at);
                return match_with_expr(lent, store, rest, exact + passed, here, left, pool);
            }
            Part::Nested(set) => {
                let rest = place.past(at);
                return match_with_nested_ruledef(
                    lent,
                    store,
                    set,
                    rest,
                    exact + passed,
                    here,
                    left,
                    pool,
                );
            }
        }
    }
}

// The expression step, over the parts after the parameter: each candidate end becomes an argument, and the walk goes on.
#[cycle(match_with_expr_match_with_nested_ruledef_match_with_rule)]
fn match_with_expr(
    lent: &Lent,
    store: &mut [usize],
    place: Place,
    exact: usize,
    walker: Walker,
    visits: usize,
    pool: Pool,
) -> Result<Walked, Stopped>
    requires ready { Ready lent.now.table.now lent.now.line.now lent.now.sheet.now lent.now.starts.now store.old place walker pool }
    requires stands { Stands lent.now.table.now store.old pool.used place exact (from_expr lent.now.table.now place) walker.cursor }
    requires prepared { Prepared lent.now.table.now lent.now.line.now lent.now.useful.now lent.now.leads.now }
    ensures { Left lent.now.table.now (ran (expr_plan lent.now.table.now lent.now.line.now lent.now.sheet.now place.depth place.at place.end walker.limit walker.cursor) visits pool) place (log_of store.old pool.used) store.new result }
{
    let begins = useful::next_useful_index(lent.line, lent.useful, walker);
    let ends = lookahead::find_ends(
        lent.table,
        lent.line,
        lent.useful,
        lent.sheet,
        walker,
        place.at,
        place.end,
    );
    let mut walked = Walked { left: visits, pool };
    for &end in &ends.places[..ends.count] {
        let start = least(end, begins);
        let argument = Argument {
            start,
            end,
            kind: ArgumentKind::Expr,
        };
        let Some(more) = walked.pool.keep(store, argument, place.args, exact) else {
            return Err(Stopped {
                why: Refusal::Full,
                left: walked.left,
            });
        };
        let next = place.after(more.used);
        let moved = walker.set_cursor_index(lent.line, end);
        walked = match_with_rule(lent, store, next, exact, moved, walked.left, more)?;
    }
    Ok(walked)
}

// The nested step, over the parts after the parameter: every rule of the ruleset, under the limit and then under the cut if
// there is one; then each inner match, equal ones once, becomes an argument, and the walk goes on under the limit.
#[cycle(match_with_expr_match_with_nested_ruledef_match_with_rule)]
fn match_with_nested_ruledef(
    lent: &Lent,
    store: &mut [usize],
    set: usize,
    place: Place,
    exact: usize,
    walker: Walker,
    visits: usize,
    pool: Pool,
) -> Result<Walked, Stopped>
    requires ready { Ready lent.now.table.now lent.now.line.now lent.now.sheet.now lent.now.starts.now store.old place walker pool }
    requires stands { Stands lent.now.table.now store.old pool.used place exact (from_nest lent.now.table.now set place) walker.cursor }
    requires set_bound { set < 32 }
    requires prepared { Prepared lent.now.table.now lent.now.line.now lent.now.useful.now lent.now.leads.now }
    ensures { Left lent.now.table.now (ran (nested_plan lent.now.table.now lent.now.line.now lent.now.sheet.now place.depth set place.at place.end walker.limit walker.cursor) visits pool) place (log_of store.old pool.used) store.new result }
{
    let depth = place.depth;
    if Pool::DEPTH <= depth {
        return Err(Stopped {
            why: Refusal::Deep,
            left: visits,
        });
    }
    let begins = useful::next_useful_index(lent.line, lent.useful, walker);
    let limits = lookahead::find_limits(lent.table, lent.line, walker, place.at, place.end);
    let begin = lent.starts[set] as usize;
    let count = lent.starts[set + 1] as usize - begin;
    let first = pool.used;
    let mut walked = Walked { left: visits, pool };
    for &limit in &limits.places[..limits.count] {
        let inner = walker.set_cursor_limit(lent.line, limit);
        let ahead = leads::look_ahead(lent.line, lent.useful, inner, FEW < count);
        for rule in 0..count {
            let number = begin + rule;
            // A rule that fails in its leading exact parts takes no walk to count.
            if let Some(fails) = leads::failing_visits(lent.leads[number], ahead) {
                if walked.left < fails {
                    return Err(Stopped {
                        why: Refusal::Spent,
                        left: 0,
                    });
                }
                walked.left -= fails;
                continue;
            }
            let parts = ruledef::parts_of(lent.table, number as u16);
            let start = Place {
                set,
                rule,
                at: parts.start,
                end: parts.end,
                depth: depth + 1,
                args: 0,
            };
            walked = match_with_rule(lent, store, start, 0, inner, walked.left, walked.pool)?;
        }
    }
    for m in first..walked.pool.used {
        let taken = Records {
            store,
            used: walked.pool.used,
        };
        let Some(found) = inner_match(taken, first, m, depth + 1) else {
            continue;
        };
        let start = least(found.end, begins);
        let sum = exact + found.count;
        let argument = Argument {
            start,
            end: found.end,
            kind: ArgumentKind::Nested(m),
        };
        let Some(more) = walked.pool.keep(store, argument, place.args, sum) else {
            return Err(Stopped {
                why: Refusal::Full,
                left: walked.left,
            });
        };
        let next = place.after(more.used);
        let moved = walker.set_cursor_index(lent.line, found.end);
        walked = match_with_rule(lent, store, next, sum, moved, walked.left, more)?;
    }
    Ok(walked)
}
