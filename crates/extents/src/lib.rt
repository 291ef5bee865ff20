// The extent sheet: for each start and limit in a line of n bytes, where the free parse of an expression and the greedy
// decimal parse end. It is added by the port and carries over no Rust file: the Rust's expression parsers stand behind it.
// `check_sheet` refuses a sheet of the wrong length or with a wrong entry (number 4); the readers ask for a sheet of the right
// length, a limit within the line, and a start that is not above it.
#![tactic(auto)]

ghost use Rattle.std.specs.Prelude.{◌≡◌, true, not, ◌&&◌, ◌||◌, ℕ, ◌+◌, ◌<◌, ◌≤◌, ltb};
ghost use Rattle.plain.specs.Below.{every_below};
ghost use Rattle.extents.specs.Sheet.{sized, HasEntry, ReadAt, entry_at, entry_fits, fits_at, row_fits, half_fits, sheet_fits};
ghost use Rattle.extents.specs.Held.{HeldPlaces};
ghost use Rattle.extents.specs.declared.Half.TheVariants.{Free, Greedy};
ghost use Rattle.extents.specs.Sheet.{entry_end, end_in, free_end, greedy_end};

// An entry's byte that says: no expression here. A byte, and no Option, since the sheet is lent in document 01's format.
const NONE: u8 = 255;

// How many halves a sheet has.
const HALVES: usize = 2;

// No slice is as long as the sheet of a line of 2^31 bytes.
const TOO_LONG: usize = 0x8000_0000;

// Document 01's longest line.
const LONGEST: u8 = 120;

const PLACES: usize = 121;

// How many limits of a row are tried at once: as many as the line has room for.
const WIDE: usize = 16;

const NARROW: usize = 8;

// The shortest lines with so many limits.
const SHORTEST_WIDE: usize = 15;

const SHORTEST_NARROW: usize = 7;

// The sheet's halves, in their order. Public, since the definitions and laws that other crates cite speak of it.
#[derive(Clone, Copy)]
pub enum Half {
    Free,
    Greedy,
}

// Whether the sheet has the 2(n+1)² bytes of a line of n.
fn is_sized(sheet: &[u8], n: usize) -> bool
    ensures size { result ≡ sized sheet.now n }
{
    if n >= TOO_LONG {
        return false;
    }
    let side = n + 1;
    sheet.len() == HALVES * (side * side)
}

// The entry of a half for start c and limit l.
fn entry(sheet: &[u8], n: usize, half: Half, c: usize, l: usize) -> u8
    requires place { HasEntry sheet.now n c l }
    ensures byte { result ≡ entry_at sheet.now n half c l }
{
    let side = n + 1;
    let at = c * side + l;
    match half {
        Half::Free => sheet[at],
        Half::Greedy => sheet[side * side + at],
    }
}

// Whether an entry is 255, or from its start to its limit.
fn entry_fits(c: usize, l: usize, e: u8) -> bool
    ensures fits { result ≡ entry_fits c l e }
{
    if e == NONE {
        return true;
    }
    let end = e as usize;
    if end < c {
        return false;
    }
    end <= l
}

// The places of the longest line, each as a byte at itself.
pub fn held_places() -> [u8; PLACES]
    ensures answers { HeldPlaces result }
{
    let mut list = [0u8; PLACES];
    for place in 0..=LONGEST {
        list[place as usize] = place;
    }
    list
}

// An entry held to its start from below, and then to its limit from above: it stays itself exactly if it lies between them.
fn held_between(c: u8, l: u8, e: u8) -> u8
    ensures stays { c ≤ e → e ≤ l → result ≡ e }
    ensures lies { c ≤ l → result ≡ e → (c ≤ e) × (e ≤ l) }
{
    e.max(c).min(l)
}

// Whether an entry is neither 255 nor from its start to its limit, if its start is not above its limit. It chooses among numbers
// and never returns early, so that many are tried at once.
fn is_odd(c: u8, l: u8, e: u8) -> bool
    ensures odd { c ≤ l → result ≡ not (entry_fits c l e) }
{
    (e != NONE) & (held_between(c, l, e) != e)
}

// Whether an entry of either half is odd, unless its start lies above its limit.
fn is_pair_odd(c: u8, l: u8, free: u8, greedy: u8) -> bool
    ensures odd { result ≡ not ((ltb l c || entry_fits c l free) && (ltb l c || entry_fits c l greedy)) }
{
    (c <= l) & (is_odd(c, l, free) | is_odd(c, l, greedy))
}

// Whether an entry of either half is odd, for start c and one of the N limits from l on. The count is fixed and no entry ends the
// loop, so that the compiler tries them at once.
// The sheet and the length of its line come side by side: as methods of a struct of both, with the right length for a ghost field
// (proved), the tries of eight limits took twice as long, for lines of 8 to 14 bytes.
fn odd_from<const N: usize>(sheet: &[u8], places: &[u8], n: usize, c: usize, l: usize) -> bool
    requires size { sized sheet.now n ≡ true }
    requires held { HeldPlaces places.now }
    requires short { n ≤ 120 }
    requires start { c ≤ n }
    requires room { l + N ≤ n + 1 }
    ensures odd { result ≡ not (every_below N (λ (k : ℕ). fits_at sheet.now n Free c (l + k) && fits_at sheet.now n Greedy c (l + k))) }
{
    let start = places[c];
    let mut odd = false;
    for i in 0..N {
        let at = l + i;
        let free = entry(sheet, n, Half::Free, c, at);
        let greedy = entry(sheet, n, Half::Greedy, c, at);
        odd = odd | is_pair_odd(start, places[at], free, greedy);
    }
    odd
}

// Whether the entries of both halves for start c fit, tried N at a time. The last N end with the row: they may try some limits
// again, and some below the start, which are never odd.
fn row_fits_by<const N: usize>(sheet: &[u8], places: &[u8], n: usize, c: usize) -> bool
    requires size { sized sheet.now n ≡ true }
    requires held { HeldPlaces places.now }
    requires short { n ≤ 120 }
    requires start { c ≤ n }
    requires some { 0 < N }
    requires room { N ≤ n + 1 }
    ensures fits { result ≡ (row_fits sheet.now n Free c && row_fits sheet.now n Greedy c) }
{
    let last = n + 1 - N;
    let mut odd = false;
    // By hand: with `step_by` (proved) a check takes up to a tenth more instructions, from 15 bytes on.
    let mut l = c;
    while l < last {
        odd = odd | odd_from::<N>(sheet, places, n, c, l);
        l += N;
    }
    !(odd | odd_from::<N>(sheet, places, n, c, last))
}

// Whether the entries of both halves for start c fit, sixteen or eight at a time.
fn byte_row_fits(sheet: &[u8], places: &[u8], n: usize, c: usize) -> bool
    requires size { sized sheet.now n ≡ true }
    requires held { HeldPlaces places.now }
    requires short { n ≤ 120 }
    requires start { c ≤ n }
    requires room { 8 ≤ n + 1 }
    ensures fits { result ≡ (row_fits sheet.now n Free c && row_fits sheet.now n Greedy c) }
{
    if n < SHORTEST_WIDE {
        return row_fits_by::<NARROW>(sheet, places, n, c);
    }
    row_fits_by::<WIDE>(sheet, places, n, c)
}

// Whether the entries of both halves fit at every start, for a line that is neither too long nor too short: starts, limits
// and entries are compared as bytes, many at once.
fn byte_sheet_fits(sheet: &[u8], places: &[u8], n: usize) -> bool
    requires size { sized sheet.now n ≡ true }
    requires held { HeldPlaces places.now }
    requires short { n ≤ 120 }
    requires room { 8 ≤ n + 1 }
    ensures fits { result ≡ (half_fits sheet.now n Free && half_fits sheet.now n Greedy) }
{
    for c in 0..=n {
        if !byte_row_fits(sheet, places, n, c) {
            return false;
        }
    }
    true
}

// Whether the entries of a half for start c fit, at every limit from c on.
fn row_fits(sheet: &[u8], n: usize, half: Half, c: usize) -> bool
    requires size { sized sheet.now n ≡ true }
    requires start { c ≤ n }
    ensures fits { result ≡ row_fits sheet.now n half c }
{
    for l in c..=n {
        if !entry_fits(c, l, entry(sheet, n, half, c, l)) {
            return false;
        }
    }
    true
}

// Whether the entries of a half fit, at every start.
fn half_fits(sheet: &[u8], n: usize, half: Half) -> bool
    requires size { sized sheet.now n ≡ true }
    ensures fits { result ≡ half_fits sheet.now n half }
{
    for c in 0..=n {
        if !row_fits(sheet, n, half, c) {
            return false;
        }
    }
    true
}

// Whether the entries of both halves fit, one by one.
fn halves_fit(sheet: &[u8], n: usize) -> bool
    requires size { sized sheet.now n ≡ true }
    ensures fits { result ≡ (half_fits sheet.now n Free && half_fits sheet.now n Greedy) }
{
    if !half_fits(sheet, n, Half::Free) {
        return false;
    }
    half_fits(sheet, n, Half::Greedy)
}

// Whether the sheet is good for a line of n bytes: its length is 2(n+1)², and each entry whose start is not above its
// limit is 255 or from start to limit.
pub fn check_sheet(sheet: &[u8], n: usize) -> bool
    ensures answers { result ≡ sheet_fits sheet.now n }
{
    if !is_sized(sheet, n) {
        return false;
    }
    if n > LONGEST as usize {
        return halves_fit(sheet, n);
    }
    if n < SHORTEST_NARROW {
        return halves_fit(sheet, n);
    }
    let places = held_places();
    byte_sheet_fits(sheet, &places, n)
}

// The end that an entry gives: 255 for none.
fn entry_end(byte: u8) -> Option<usize>
    ensures end { result ≡ entry_end byte }
{
    if byte == NONE {
        return None;
    }
    Some(byte as usize)
}

// The end that a half has for start c and limit l.
fn end_in(sheet: &[u8], n: usize, half: Half, c: usize, l: usize) -> Option<usize>
    requires place { ReadAt sheet.now n c l }
    ensures end { result ≡ end_in sheet.now n half c l }
{
    entry_end(entry(sheet, n, half, c, l))
}

// free(c, l): where the free parse from c under the limit l ends.
pub fn free(sheet: &[u8], n: usize, c: usize, l: usize) -> Option<usize>
    requires place { ReadAt sheet.now n c l }
    ensures answers { result ≡ free_end sheet.now n c l }
{
    end_in(sheet, n, Half::Free, c, l)
}

// greedy(c, l): where the greedy decimal parse from c under the limit l ends.
pub fn greedy(sheet: &[u8], n: usize, c: usize, l: usize) -> Option<usize>
    requires place { ReadAt sheet.now n c l }
    ensures answers { result ≡ greedy_end sheet.now n c l }
{
    end_in(sheet, n, Half::Greedy, c, l)
}
