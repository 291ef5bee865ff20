// The useful places of a line, worked out once for a call, and the moves of `src/syntax/walker.rs` that go by them.
// The Rust walks over the whitespace at each move. Nothing is refused: what is lent is a line of at most 120 bytes, its own
// places, and a walker that stands within it. The three come side by side and in no struct: document 01 has the line lent beside
// a walker that is a value.
#![tactic(auto)]

ghost use Rattle.std.specs.Prelude.{◌≡◌, ◌≤◌, length};
ghost use Rattle.line.specs.Line.{GoodLine};
ghost use Rattle.extents.specs.Held.{HeldPlaces};
ghost use Rattle.syntax.specs.Walker.{held, useful, step_says, expect_char, expect_whitespace};
ghost use Rattle.useful.specs.Useful.{useful_places, Lent};

use syntax::walker::{Step, Walker, least};

// As many as the longest line has, its end included.
pub const PLACES: usize = 121;

// Puts the useful place of each place of the line, its end included, where the places stand each as its own; past the line's end
// each is its own. Worked out from the end to the beginning: a place that holds no whitespace is its own too.
pub fn find_places(line: &[u8], places: &mut [u8; PLACES])
    requires good_line { GoodLine line.now }
    requires held_places { HeldPlaces places.old }
    ensures answers { places.new ≡ useful_places line.now }
{
    for at in (0..line.len()).rev() {
        if line::is_whitespace(line[at]) {
            places[at] = places[at + 1];
        }
    }
}

// The walker's useful place. The line's places know no limit: under one it is the lesser of the two.
pub fn next_useful_index(line: &[u8], places: &[u8; PLACES], walker: Walker) -> usize
    requires lent { Lent line.now places.now }
    requires cursor_le_limit { walker.cursor ≤ walker.limit }
    requires limit_in_bounds { walker.limit ≤ length line.now }
    ensures answers { result ≡ useful line.now (held line.now walker) }
{
    let cursor = walker.cursor;
    let place = places[cursor] as usize;
    least(place, walker.limit)
}

// The walker past the byte at the useful place, if that stands below the limit and is the wanted one, case ignored.
pub fn maybe_expect_char(line: &[u8], places: &[u8; PLACES], walker: Walker, wanted: u8) -> Step
    requires lent { Lent line.now places.now }
    requires cursor_le_limit { walker.cursor ≤ walker.limit }
    requires limit_in_bounds { walker.limit ≤ length line.now }
    ensures answers { step_says result ≡ expect_char line.now wanted (held line.now walker) }
{
    let limit = walker.limit;
    let at = next_useful_index(line, places, walker);
    if at < limit {
        let b = line[at];
        if token::eq_ignore_ascii_case(b, wanted) {
            let cursor = at + 1;
            return Step::Past(Walker { cursor, limit });
        }
    }
    Step::Stayed(walker)
}

// The whitespace part's test: at the limit, or at a byte of whitespace, whose useful place is a later one. It consumes nothing.
pub fn maybe_expect_whitespace(line: &[u8], places: &[u8; PLACES], walker: Walker) -> Step
    requires lent { Lent line.now places.now }
    requires cursor_le_limit { walker.cursor ≤ walker.limit }
    requires limit_in_bounds { walker.limit ≤ length line.now }
    ensures answers { step_says result ≡ expect_whitespace line.now (held line.now walker) }
{
    let here = walker.cursor;
    let limit = walker.limit;
    if limit <= here {
        return Step::Past(walker);
    }
    let place = places[here] as usize;
    if here < place {
        return Step::Past(Walker {
            cursor: here,
            limit,
        });
    }
    Step::Stayed(walker)
}
