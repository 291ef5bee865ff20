// The choices of a parameter's step: the lookahead character, the cut, an expression's candidate ends, and the limits
// under which a nested step tries its ruleset. From `src/asm/matcher/mod.rs`: `find_lookahead_char`,
// `parse_with_lookahead`, `parse_with_and_without_lookahead`, whose parser becomes plain calls, and `remove_duplicates` as
// `match_with_expr` uses it. Nothing is refused: any words, line, walker and places; for the ends the line comes with its own
// useful places and a good sheet, and the walker stands within it.
#![tactic(auto)]

ghost use Rattle.std.specs.Prelude.{◌≡◌, true, List, [], ℕ, ◌≤◌, ◌<◌, length, take, Some};
ghost use Rattle.std.specs.List.{list_any};
ghost use Rattle.syntax.specs.Walker.{useful};
ghost use Rattle.useful.specs.Useful.{Lent};
ghost use Rattle.defs.specs.Table.{parts_between};
ghost use Rattle.extents.specs.Sheet.{sheet_fits, ReadAt, free_end};
ghost use Rattle.readings.specs.Scene.{walker_at, scene_of};
ghost use Rattle.readings.specs.Walk.{lookahead, cut_for, free_under, same_end, ends, limits};
ghost use Rattle.lookahead.specs.Held.{held_ends, held_limits, added};

use defs::ruledef;
use defs::ruledef::Part;
use syntax::walker::Walker;
use useful::PLACES;

// How many limits there are with a cut.
const WITH_CUT: usize = 2;

// Some places in their order, at most N: an expression's candidate ends, or the limits of a nested step. 0 past their count.
#[derive(Clone, Copy)]
pub struct Few<const N: usize> {
    pub count: usize,
    pub places: [usize; N],
}

impl<const N: usize> Few<N> {
    // The places that there are.
    fn as_slice(&self) -> &[usize]
        requires { self.now.count ≤ N }
        ensures { result.now ≡ take self.now.count self.now.places }
    {
        &self.places[..self.count]
    }
}

// A place past the table is held to the table's end.
fn within(table: &[u16], end: usize) -> usize
    ensures upper_bound { result ≤ length table.now }
    ensures by_index { (at : ℕ) → parts_between table.now at result ≡ parts_between table.now at end }
{
    if end <= table.len() {
        return end;
    }
    table.len()
}

// The next exact part from word place `at` to before `end`, over whitespace parts; none if a parameter or the end comes
// first. The parts come as two places here and below, as fields of a walk's place beside others, and no Range of it is kept.
pub fn find_lookahead_char(table: &[u16], at: usize, end: usize) -> Option<u8>
    ensures answers { result ≡ lookahead (parts_between table.now at end) }
{
    let stop = within(table, end);
    for here in at..stop {
        match ruledef::part_within(table, here) {
            Part::Exact(b) => return Some(b),
            Part::Whitespace => {}
            Part::Expression | Part::Nested(_) => return None,
        }
    }
    None
}

// The cut of a parameter that the parts from `at` to before `end` follow, sought from the walker's cursor to its limit.
pub fn find_cut(table: &[u16], line: &[u8], walker: Walker, at: usize, end: usize) -> Option<usize>
    ensures answers { result ≡ cut_for (scene_of table.now line.now []) walker.limit walker.cursor (parts_between table.now at end) }
{
    // Both cases by name and no `?`, so that a wrong answer without a character is refused by its value.
    match find_lookahead_char(table, at, end) {
        Some(wanted) => walker.find_lookahead_char_index(line, wanted),
        None => None,
    }
}

// The useful place of an end under the walker's limit, by the useful places of the line.
fn useful_place(line: &[u8], places: &[u8; PLACES], walker: Walker, end: usize) -> usize
    requires { Lent line.now places.now }
    ensures { result ≡ useful line.now (walker_at line.now walker.limit end) }
{
    let there = walker.set_cursor_index(line, end);
    useful::next_useful_index(line, places, there)
}

// Whether one of the ends has the same useful place under the limit.
fn is_duplicate(
    line: &[u8],
    useful: &[u8; PLACES],
    walker: Walker,
    ends: Few<3>,
    end: usize,
) -> bool
    requires lent { Lent line.now useful.now }
    requires count_bound { ends.count ≤ 3 }
    ensures { result ≡ list_any (λ d. same_end line.now walker.limit d end) (take ends.count ends.places) }
{
    let place = useful_place(line, useful, walker, end);
    ends.as_slice()
        .iter()
        .any(|e| useful_place(line, useful, walker, *e) == place)
}

// One candidate more: it stays unless one before it has the same useful place. Those that did not stay need no look, since
// one that stayed has their useful place.
fn add_end(
    line: &[u8],
    useful: &[u8; PLACES],
    walker: Walker,
    ends: Few<3>,
    extent: Option<usize>,
) -> Few<3>
    requires lent { Lent line.now useful.now }
    requires count_bound { ends.count < 3 }
    ensures { (es : List ℕ) → ends ≡ held_ends es → result ≡ held_ends (added (same_end line.now walker.limit) es extent) }
{
    let Some(end) = extent else {
        return ends;
    };
    if is_duplicate(line, useful, walker, ends, end) {
        return ends;
    }
    let count = ends.count;
    let mut places = ends.places;
    places[count] = end;
    Few {
        count: count + 1,
        places,
    }
}

// free(c, cut), if there is a cut.
fn free_to_cut(sheet: &[u8], n: usize, c: usize, cut: Option<usize>) -> Option<usize>
    requires { (m : ℕ) → cut ≡ Some m → ReadAt sheet.now n c m }
    ensures { result ≡ free_under (free_end sheet.now n) c cut }
{
    extents::free(sheet, n, c, cut?)
}

// An expression's candidate ends: free(c, l), free(c, cut) if there is a cut, greedy(c, l), in that order. Of ends with
// the same useful place under l, only the first stays.
pub fn find_ends(
    table: &[u16],
    line: &[u8],
    useful: &[u8; PLACES],
    sheet: &[u8],
    walker: Walker,
    at: usize,
    end: usize,
) -> Few<3>
    requires lent { Lent line.now useful.now }
    requires line_value { sheet_fits sheet.now (length line.now) ≡ true }
    requires cursor_le_limit { walker.cursor ≤ walker.limit }
    requires limit_in_bounds { walker.limit ≤ length line.now }
    ensures answers { result ≡ held_ends (ends (scene_of table.now line.now sheet.now) walker.limit walker.cursor (parts_between table.now at end)) }
{
    let n = line.len();
    let c = walker.get_cursor_index();
    let l = walker.get_cursor_limit();
    let none = Few {
        count: 0,
        places: [0; 3],
    };
    let whole = add_end(line, useful, walker, none, extents::free(sheet, n, c, l));
    let cut = find_cut(table, line, walker, at, end);
    let both = add_end(line, useful, walker, whole, free_to_cut(sheet, n, c, cut));
    add_end(line, useful, walker, both, extents::greedy(sheet, n, c, l))
}

// The limits under which a nested step tries its ruleset: l, and then the cut if there is one.
pub fn find_limits(table: &[u16], line: &[u8], walker: Walker, at: usize, end: usize) -> Few<2>
    ensures answers { result ≡ held_limits (limits (scene_of table.now line.now []) walker.limit walker.cursor (parts_between table.now at end)) }
{
    let whole = walker.get_cursor_limit();
    match find_cut(table, line, walker, at, end) {
        Some(cut) => Few {
            count: WITH_CUT,
            places: [whole, cut],
        },
        None => Few {
            count: 1,
            places: [whole, 0],
        },
    }
}
