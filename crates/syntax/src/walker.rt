// The walker: a cursor and a limit over a line that is lent beside it. From `src/syntax/walker.rs`, its cursor part.
// A walker is a value, and every move hands back the moved one. At every move a limit past the line is first held
// to the line's end, then a cursor past the limit to the limit, so no move refuses: any cursor, limit, line and byte.
ghost use Rattle.std.specs.Prelude.{◌≡◌, Bool, true, ◌&&◌, ◌||◌, ℕ, ◌+◌, ◌<◌, ◌≤◌, ◌^◌, min, eqb, length};
ghost use Rattle.plain.specs.Choice.{select};
ghost use Rattle.plain.specs.Lists.{listed};
ghost use Rattle.syntax.specs.Walker.{held, over, moved_to, limited, useful_from, useful, step_says, expect_char, expect_whitespace};
ghost use Rattle.token.specs.Token.{is_whitespace, is_solid, same_letter, class_of};
ghost use Rattle.syntax.specs.Cut.{is_stray, taken_in, turn_of, fresh, cut_from, cut};

// What marks a class in the table that is laid for a search: more than any class is.
const MARK: u16 = 2048;

#[derive(Clone, Copy)]
pub struct Walker {
    // The place of the next byte.
    pub cursor: usize,
    // Bytes from this place on are not seen.
    pub limit: usize,
}

// What asking for a byte finds: the walker past it, or the walker where it stood. An enum of its own: each move hands back the
// moved walker, so both cases carry one, which an Option does not, and a byte that is not there is no error.
#[derive(Clone, Copy)]
pub enum Step {
    Past(Walker),
    Stayed(Walker),
}

// What the search for the cut knows of the bytes that it has passed.
#[derive(Clone, Copy)]
pub struct Search {
    // Some byte was no whitespace. It says nothing of the nestings, so it is no Option of them.
    pub seen: bool,
    pub parens: usize,
    pub braces: usize,
}

// What one byte does to the search.
#[derive(Clone, Copy)]
pub enum Turn {
    Cut,
    // A closer whose own nesting is zero.
    Stray,
    On(Search),
}

impl Walker {
    // At the line's first byte, with the whole line ahead.
    pub fn new(line: &[u8]) -> Walker
        ensures answers { (result.cursor ≡ 0) × (result.limit ≡ length line.now) }
    {
        Walker {
            cursor: 0,
            limit: line.len(),
        }
    }

    // Within the line: first the limit to its end, then the cursor to the limit.
    fn hold(self, line: &[u8]) -> Walker
        ensures answers { result ≡ held line.now self }
        ensures cursor_le_limit { result.cursor ≤ result.limit }
        ensures limit_in_bounds { result.limit ≤ length line.now }
    {
        let limit = least(self.limit, line.len());
        let cursor = least(self.cursor, limit);
        Walker { cursor, limit }
    }

    // Whether nothing is left before the limit.
    pub fn is_over(self, line: &[u8]) -> bool
        ensures answers { result ≡ over (held line.now self) }
    {
        let here = self.hold(line);
        here.limit <= here.cursor
    }

    pub fn get_cursor_index(self) -> usize
        ensures answers { result ≡ self.cursor }
    {
        self.cursor
    }

    pub fn get_cursor_limit(self) -> usize
        ensures answers { result ≡ self.limit }
    {
        self.limit
    }

    // Another place with the same limit, held to it.
    pub fn set_cursor_index(self, line: &[u8], at: usize) -> Walker
        ensures answers { result ≡ moved_to line.now at (held line.now self) }
    {
        let here = self.hold(line);
        let moved = Walker {
            cursor: at,
            limit: here.limit,
        };
        moved.hold(line)
    }

    // The same place with another limit, held to the line.
    pub fn set_cursor_limit(self, line: &[u8], end: usize) -> Walker
        ensures answers { result ≡ limited line.now end (held line.now self) }
    {
        let here = self.hold(line);
        let moved = Walker {
            cursor: here.cursor,
            limit: end,
        };
        moved.hold(line)
    }

    // The first place at or after the cursor that holds no whitespace, or the limit.
    pub fn next_useful_index(self, line: &[u8]) -> usize
        ensures answers { result ≡ useful line.now (held line.now self) }
    {
        let here = self.hold(line);
        skip_whitespace(line, here.cursor, here.limit, token::is_whitespace)
    }

    // The walker past the byte at the useful place, if that stands below the limit and is the wanted one, case ignored.
    pub fn maybe_expect_char(self, line: &[u8], wanted: u8) -> Step
        ensures answers { step_says result ≡ expect_char line.now wanted (held line.now self) }
    {
        let here = self.hold(line);
        let limit = here.limit;
        let at = skip_whitespace(line, here.cursor, limit, token::is_whitespace);
        if at < limit {
            if token::eq_ignore_ascii_case(line[at], wanted) {
                return Step::Past(Walker {
                    cursor: at + 1,
                    limit,
                });
            }
        }
        Step::Stayed(here)
    }

    // The whitespace part's test: at the limit, or at a byte of whitespace. It consumes nothing, so the walker comes
    // back where it stood.
    pub fn maybe_expect_whitespace(self, line: &[u8]) -> Step
        ensures answers { step_says result ≡ expect_whitespace line.now (held line.now self) }
    {
        let here = self.hold(line);
        let at = here.cursor;
        let limit = here.limit;
        if limit <= at {
            return Step::Past(here);
        }
        if token::is_whitespace(line[at]) {
            return Step::Past(Walker { cursor: at, limit });
        }
        Step::Stayed(here)
    }

    // Where the line is cut for a parameter that a lookahead character follows: the place of that character.
    pub fn find_lookahead_char_index(self, line: &[u8], wanted: u8) -> Option<usize>
        ensures answers { result ≡ cut line.now wanted (held line.now self) }
    {
        let here = self.hold(line);
        find_cut(line, here.cursor, here.limit, wanted)
    }
}

// The lesser of two places: the library's `min`, with the promise of it that those who call it by this name are given.
pub fn least(a: usize, b: usize) -> usize
    ensures answers { result ≡ min a b }
{
    a.min(b)
}

// The first place from here to the end that holds no whitespace, or the end. The test is the caller's: a search reads the table
// that it has laid, since `token::is_whitespace` would lay it anew for each byte of whitespace. From and end are places of the
// line, as the definition's are: each answer of a slice `&line[from..end]` would have its beginning added again.
fn skip_whitespace<F: Fn(u8) -> bool>(line: &[u8], from: usize, end: usize, is_blank: F) -> usize
    requires from_le_end { from ≤ end }
    requires end_in_bounds { end ≤ length line.now }
    requires callable { F.IsAlwaysCallable is_blank }
    requires tells { (b : ℕ) (r : Bool) → b < 256 → F.post is_blank b r → r ≡ is_whitespace b }
    ensures value { result ≡ useful_from line.now from end }
    ensures upper_bound { result ≤ end }
{
    for at in from..end {
        if !is_blank(line[at]) {
            return at;
        }
    }
    end
}

// Marks the lookahead character in the table, in both cases: its partner, and the capital of that if there is one.
fn mark(classes: &mut [u16; 256], wanted: u8)
    requires { classes.old ≡ listed 256 class_of }
    ensures { classes.new ≡ listed 256 (λ (b : ℕ). select (same_letter b wanted) (class_of b + 2048) (class_of b)) }
{
    let at = wanted as usize;
    let partner = classes[at] % token::PARTNERS;
    let low = partner as usize;
    classes[low] = classes[low] + MARK;
    if partner < token::CAPITAL_STEP {
        return;
    }
    let capital = (partner - token::CAPITAL_STEP) as usize;
    if classes[capital] != partner {
        return;
    }
    classes[capital] = partner + MARK;
}

// Whether the lookahead character would be the cut here: after some byte other than whitespace, and outside brackets.
fn may_cut(s: Search) -> bool
    ensures { result ≡ (s.seen && eqb s.parens 0 && eqb s.braces 0) }
{
    if !s.seen {
        return false;
    }
    if s.parens != 0 {
        return false;
    }
    s.braces == 0
}

// The search goes on with these nestings, and something has been seen.
fn on(parens: usize, braces: usize) -> Turn
    ensures { result ≡ Turn.On (record { seen = true; parens = parens; braces = braces }) }
{
    Turn::On(Search {
        seen: true,
        parens,
        braces,
    })
}

// The nesting rules for a byte of this class that is not the cut: the first byte other than whitespace, or one after it.
fn nest(s: Search, class: u16) -> Turn
    requires parens_bound { s.parens + 1 < 2 ^ 64 }
    requires braces_bound { s.braces + 1 < 2 ^ 64 }
    ensures { (b : ℕ) → b < 256 → class ≡ class_of b → (s.seen || is_solid b) ≡ true → result ≡ select (is_stray b s) Turn.Stray (Turn.On (taken_in b s)) }
{
    let parens = s.parens;
    let braces = s.braces;
    let kind = class / token::PARTNERS;
    if kind < token::OPEN_BRACE {
        if kind < token::OPEN_PAREN {
            return on(parens, braces);
        }
        if kind < token::CLOSE_PAREN {
            return on(parens + 1, braces);
        }
        if parens == 0 {
            return Turn::Stray;
        }
        return on(parens - 1, braces);
    }
    if kind < token::CLOSE_BRACE {
        return on(parens, braces + 1);
    }
    if braces == 0 {
        return Turn::Stray;
    }
    on(parens, braces - 1)
}

// One byte of the search, by its class in the marked table. Most bytes are neither brackets nor marked, and that is tested
// first. The character's test comes before the nesting rules for the same byte.
fn take_in(s: Search, class: u16) -> Turn
    requires parens_bound { s.parens + 1 < 2 ^ 64 }
    requires braces_bound { s.braces + 1 < 2 ^ 64 }
    ensures { (x b : ℕ) → b < 256 → class ≡ select (same_letter b x) (class_of b + 2048) (class_of b) → (s.seen || is_solid b) ≡ true → result ≡ turn_of x b s }
{
    if class / token::PARTNERS < token::OPEN_PAREN {
        return on(s.parens, s.braces);
    }
    if may_cut(s) {
        if MARK <= class {
            return Turn::Cut;
        }
    }
    nest(s, class % MARK)
}

// The table is laid once for the search, not for each byte. Whitespace before the first other byte changes nothing, so it is
// skipped; each byte after that leaves something seen. The answer is a place of the line, so that is not cut to a slice.
fn find_cut(line: &[u8], from: usize, end: usize, wanted: u8) -> Option<usize>
    requires from_le_end { from ≤ end }
    requires end_in_bounds { end ≤ length line.now }
    ensures { result ≡ cut_from line.now wanted from end fresh }
{
    let mut classes = token::classes();
    let begin = skip_whitespace(line, from, end, |b| {
        classes[b as usize] / token::PARTNERS == token::WHITESPACE
    });
    mark(&mut classes, wanted);
    let mut s = Search {
        seen: false,
        parens: 0,
        braces: 0,
    };
    for at in begin..end {
        let b = line[at] as usize;
        match take_in(s, classes[b]) {
            Turn::Cut => return Some(at),
            Turn::Stray => return None,
            Turn::On(next) => s = next,
        }
    }
    None
}
