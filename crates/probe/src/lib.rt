// The ground floor behind C functions, for `oracle/`: a walker's moves, its cut, and the rules that lookup tries, each to be
// compared with the Rust's own. Each function is one call of `syntax` or `ruledef_map`, under the name by which C calls it, so
// that some differ in the call alone; a walker comes as its cursor and limit.
#![tactic(auto)]

ghost use Rattle.std.specs.Prelude.{◌≡◌};
ghost use Rattle.syntax.specs.Walker.{held, over, moved_to, limited, useful, expect_char, expect_whitespace};
ghost use Rattle.syntax.specs.Cut.{cut};
ghost use Rattle.ruledef_map.specs.RuledefMap.{line_prefix, held_prefix, prefix_bytes, found_rules, put_rules};
ghost use Rattle.probe.specs.Probe.{at, ends, stepped, placed};

use syntax::walker::{Step, Walker};

// A walker.
#[repr(C)]
#[derive(Clone, Copy)]
pub struct ProbeWalker {
    pub cursor: usize,
    pub limit: usize,
}

// Whether something was found, 1 or 0, and a place: the walker's cursor, or the cut's place or 0. A number and a place, and no
// Option, since C reads them.
#[repr(C)]
#[derive(Clone, Copy)]
pub struct ProbePlace {
    pub found: usize,
    pub place: usize,
}

#[unsafe(no_mangle)]
pub extern "C" fn probe_set_cursor_index(
    line: &[u8],
    cursor: usize,
    limit: usize,
    place: usize,
) -> ProbeWalker
    ensures answers { ends result ≡ moved_to line.now place (held line.now (at cursor limit)) }
{
    let here = Walker { cursor, limit };
    let moved = here.set_cursor_index(line, place);
    ProbeWalker {
        cursor: moved.cursor,
        limit: moved.limit,
    }
}

#[unsafe(no_mangle)]
pub extern "C" fn probe_set_cursor_limit(
    line: &[u8],
    cursor: usize,
    limit: usize,
    end: usize,
) -> ProbeWalker
    ensures answers { ends result ≡ limited line.now end (held line.now (at cursor limit)) }
{
    let here = Walker { cursor, limit };
    let moved = here.set_cursor_limit(line, end);
    ProbeWalker {
        cursor: moved.cursor,
        limit: moved.limit,
    }
}

#[unsafe(no_mangle)]
pub extern "C" fn probe_is_over(line: &[u8], cursor: usize, limit: usize) -> bool
    ensures answers { result ≡ over (held line.now (at cursor limit)) }
{
    let here = Walker { cursor, limit };
    here.is_over(line)
}

#[unsafe(no_mangle)]
pub extern "C" fn probe_next_useful_index(line: &[u8], cursor: usize, limit: usize) -> usize
    ensures answers { result ≡ useful line.now (held line.now (at cursor limit)) }
{
    let here = Walker { cursor, limit };
    here.next_useful_index(line)
}

#[unsafe(no_mangle)]
pub extern "C" fn probe_maybe_expect_char(
    line: &[u8],
    cursor: usize,
    limit: usize,
    wanted: u8,
) -> ProbePlace
    ensures answers { result ≡ stepped (expect_char line.now wanted (held line.now (at cursor limit))) }
{
    let here = Walker { cursor, limit };
    match here.maybe_expect_char(line, wanted) {
        Step::Past(moved) => ProbePlace {
            found: 1,
            place: moved.cursor,
        },
        Step::Stayed(held) => ProbePlace {
            found: 0,
            place: held.cursor,
        },
    }
}

#[unsafe(no_mangle)]
pub extern "C" fn probe_maybe_expect_whitespace(
    line: &[u8],
    cursor: usize,
    limit: usize,
) -> ProbePlace
    ensures answers { result ≡ stepped (expect_whitespace line.now (held line.now (at cursor limit))) }
{
    let here = Walker { cursor, limit };
    match here.maybe_expect_whitespace(line) {
        Step::Past(held) => ProbePlace {
            found: 1,
            place: held.cursor,
        },
        Step::Stayed(held) => ProbePlace {
            found: 0,
            place: held.cursor,
        },
    }
}

#[unsafe(no_mangle)]
pub extern "C" fn probe_find_lookahead_char_index(
    line: &[u8],
    cursor: usize,
    limit: usize,
    wanted: u8,
) -> ProbePlace
    ensures answers { result ≡ placed (cut line.now wanted (held line.now (at cursor limit))) }
{
    let here = Walker { cursor, limit };
    match here.find_lookahead_char_index(line, wanted) {
        Some(place) => ProbePlace { found: 1, place },
        None => ProbePlace { found: 0, place: 0 },
    }
}

// The rules to try on a line, by their places among the table's records.
#[unsafe(no_mangle)]
pub extern "C" fn probe_query_prefixed(table: &[u16], line: &[u8], found: &mut [u16]) -> usize
    ensures answers { (found.new, result) ≡ put_rules table.now (found_rules table.now (prefix_bytes (held_prefix (line_prefix line.now)))) found.old }
{
    let prefix = ruledef_map::parse_prefix(line);
    ruledef_map::query_prefixed(table, prefix, found)
}
