// A table's listing. One function lays it into lent bytes as far as they reach, and says how long it is, so laying it into a
// byte measures it. It refuses words that are no table (2) and a listing that has no room (16).
ghost use Rattle.std.specs.Prelude.{◌≡◌, true, ◌<◌, ◌≤◌, length};
ghost use Rattle.plain.specs.Lists.{every};
ghost use Rattle.defs.specs.Table.{rulesets_in, records_in, parts_between, table_fits};
ghost use Rattle.packing.specs.Data.{is_part_of};
ghost use Rattle.packing.specs.Packed.{rule_at, data_of};
ghost use Rattle.printing.specs.Listing.{top_field, listing};
ghost use Rattle.fields.specs.Laid.{Laid, Ready};
ghost use Rattle.listing.specs.Calls.{write_says, write_call};
ghost use Rattle.listing.specs.Writing.{parts_text, rule_text, top_text, rules_text, tops_text};

use defs::ruledef;
use fields::spelling;
use fields::writing::{put, put_number, put_part, put_word};
use std::ops::Range;

// Why a table is not written. `write_says` gives each case's number and fields.
#[derive(Clone, Copy)]
pub enum WriteError {
    // 2
    BadTable,
    // 16: the listing is longer than its room.
    NoRoom,
}

// The fields of the parts whose words stand at some places.
fn put_parts(table: &[u16], parts: Range<usize>, text: &mut [u8], at: usize) -> usize
    requires end_in_bounds { parts.end ≤ length table.now }
    requires end_value { every (is_part_of 32) (parts_between table.now parts.start parts.end) ≡ true }
    requires ready { Ready at (parts_text (parts_between table.now parts.start parts.end)) }
    ensures laid { Laid text.old at (parts_text (parts_between table.now parts.start parts.end)) text.new result }
{
    let mut to = at;
    for place in parts.start..parts.end {
        to = put_part(text, to, ruledef::part_at(table, place));
    }
    to
}

// A rule's line.
fn put_rule(table: &[u16], rule: u16, text: &mut [u8], at: usize) -> usize
    requires table_value { table_fits table.now ≡ true }
    requires rule_bound { rule < records_in table.now }
    requires ready { Ready at (rule_text (rule_at table.now rule)) }
    ensures laid { Laid text.old at (rule_text (rule_at table.now rule)) text.new result }
{
    let tab = put_word(text, at, &spelling::RULE);
    let number = put(text, tab, spelling::TAB);
    let fields = put_number(text, number, ruledef::ruleset_of(table, rule));
    let parts = ruledef::parts_of(table, rule);
    let end = put_parts(table, parts, text, fields);
    put(text, end, spelling::END)
}

// The lines of all rules, in table order.
fn put_rules(table: &[u16], text: &mut [u8], at: usize) -> usize
    requires table_value { table_fits table.now ≡ true }
    requires ready { Ready at (rules_text table.now 0 (records_in table.now)) }
    ensures laid { Laid text.old at (rules_text table.now 0 (records_in table.now)) text.new result }
{
    let rules = ruledef::rule_count(table) as u16;
    let mut to = at;
    for rule in 0..rules {
        to = put_rule(table, rule, text, to);
    }
    to
}

// Whether a ruleset is a top one.
fn put_kind(text: &mut [u8], at: usize, top: bool) -> usize
    requires { Ready at (top_field top) }
    ensures laid { Laid text.old at (top_field top) text.new result }
{
    if top {
        return put_word(text, at, &spelling::TOP);
    }
    put_word(text, at, &spelling::NESTED)
}

// A ruleset's line.
fn put_top(text: &mut [u8], at: usize, top: bool) -> usize
    requires { Ready at (top_text top) }
    ensures laid { Laid text.old at (top_text top) text.new result }
{
    let tab = put_word(text, at, &spelling::RULESET);
    let field = put(text, tab, spelling::TAB);
    let end = put_kind(text, field, top);
    put(text, end, spelling::END)
}

// The lines of all rulesets.
fn put_tops(table: &[u16], text: &mut [u8]) -> usize
    requires table_value { table_fits table.now ≡ true }
    requires ready { Ready 0 (tops_text table.now 0 (rulesets_in table.now)) }
    ensures laid { Laid text.old 0 (tops_text table.now 0 (rulesets_in table.now)) text.new result }
{
    let mut to = 0;
    for set in 0..ruledef::ruleset_count(table) {
        to = put_top(text, to, table[ruledef::HEAD + set] == 0);
    }
    to
}

// Lays an accepted table's listing as far as there is room, and says how long it is.
fn put_table(table: &[u16], text: &mut [u8]) -> usize
    requires { table_fits table.now ≡ true }
    ensures laid { Laid text.old 0 (listing (data_of table.now)) text.new result }
{
    let to = put_tops(table, text);
    put_rules(table, text, to)
}

// How long an accepted table's listing is: where it would end if it were laid into this one byte.
fn measure(table: &[u16]) -> usize
    requires { table_fits table.now ≡ true }
    ensures { result ≡ length (listing (data_of table.now)) }
{
    let mut byte = [0u8; 1];
    put_table(table, &mut byte)
}

// The table's rulesets and rules as text, at the room's start, and how many bytes it takes there.
pub fn write_table(table: &[u16], text: &mut [u8]) -> Result<u32, WriteError>
    ensures answers { write_says result text.new ≡ write_call table.now text.old }
{
    if !acceptance::check_table(table) {
        return Err(WriteError::BadTable);
    }
    if text.len() < measure(table) {
        return Err(WriteError::NoRoom);
    }
    let bytes = put_table(table, text);
    Ok(bytes as u32)
}
