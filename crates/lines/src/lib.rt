// What is lent for a program's lines, judged before any line is read: how many lines there are, where they end in the text,
// and whether sheets, budgets, bases and rows have the right lengths. Number 17 is for what does not fit. The Rust has no such
// call.
#![tactic(auto)]

ghost use Rattle.std.specs.Prelude.{◌≡◌, ◌≤◌, length};
ghost use Rattle.lines.specs.Lines.{sheet_size, ends_of, program_fits};

const MOST_LINES: usize = 256;

// A longer line is refused, and has no sheet.
const LONGEST: usize = 120;

// The bytes of a line's sheet.
pub fn sheet_size(n: usize) -> usize
    ensures answers { result ≡ sheet_size n }
    ensures small { result ≤ 29282 }
{
    if LONGEST < n {
        return 0;
    }
    2 * ((n + 1) * (n + 1))
}

// Goes over the ends once: the bytes of all sheets, or none where an end falls or passes the text.
fn measure(text: usize, ends: &[u32]) -> Option<usize>
    requires { length ends.now ≤ 256 }
    ensures { result ≡ ends_of text ends.now }
{
    let mut from: usize = 0;
    let mut sheets: usize = 0;
    for end in ends {
        let end = *end as usize;
        if end < from {
            return None;
        }
        if text < end {
            return None;
        }
        sheets += sheet_size(end - from);
        from = end;
    }
    Some(sheets)
}

// Whether a program's parts fit one another: all that is lent for its lines but their own bytes, by its lengths.
pub fn check_program(
    text: usize,
    ends: &[u32],
    sheets: usize,
    budgets: usize,
    bases: usize,
    rows: usize,
) -> bool
    ensures answers { result ≡ program_fits text ends.now sheets budgets bases rows }
{
    if MOST_LINES < ends.len() {
        return false;
    }
    let Some(size) = measure(text, ends) else {
        return false;
    };
    if sheets != size {
        return false;
    }
    if budgets != ends.len() {
        return false;
    }
    (bases == ends.len()) & (rows == 2 * ends.len())
}
