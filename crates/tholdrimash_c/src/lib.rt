// The C interface: `include/tholdrimash.h` declares these functions, and documents every number and field. Each is the call
// of `tholdrimash` of the same name, with its promises; a slice is a pointer and a length.
#![tactic(auto)]

ghost use Rattle.std.specs.Prelude.{◌≡◌, not, true, ◌≤◌, eqb, length};
ghost use Rattle.defs.specs.Table.{table_fits};
ghost use Rattle.readings.specs.Call.{Accepted, scan_call, lookup_call};
ghost use Rattle.readings.specs.Demand.{Within, Demand3};
ghost use Rattle.readings.specs.Scene.{scene_of, based};
ghost use Rattle.lines.specs.Lines.{lines_of, program_fits};
ghost use Rattle.runs.specs.Program.{scan_program, lookup_program};
ghost use Rattle.runs.specs.Demand.{ReadProgram, AllWithin};
ghost use Rattle.tholdrimash.specs.Interface.{told, told_whole, chose, ChosenOnLast};
ghost use Rattle.resolver.specs.Selection.{selected};
ghost use Rattle.listing.specs.Calls.{ReadCall, write_call};
ghost use Rattle.expressions.specs.Call.{FillCall, FilledFits};

use tholdrimash::{TholdrimashAnswer, TholdrimashSelection};

// The full scan.
#[unsafe(no_mangle)]
pub extern "C" fn tholdrimash_match(
    table: &[u16],
    line: &[u8],
    sheet: &[u8],
    budget: u32,
    base: u32,
    answer: &mut [u32],
) -> TholdrimashAnswer
    ensures answers { told result answer.new ≡ scan_call table.now line.now sheet.now budget base answer.old }
    ensures readings { Accepted table.now line.now sheet.now budget base → Within table.now line.now sheet.now budget → Demand3 (based base (scene_of table.now line.now sheet.now)) answer.old (told result answer.new) }
{
    tholdrimash::tholdrimash_match(table, line, sheet, budget, base, answer)
}

// Prefix lookup.
#[unsafe(no_mangle)]
pub extern "C" fn tholdrimash_lookup(
    table: &[u16],
    line: &[u8],
    sheet: &[u8],
    budget: u32,
    base: u32,
    answer: &mut [u32],
) -> TholdrimashAnswer
    ensures answers { told result answer.new ≡ lookup_call table.now line.now sheet.now budget base answer.old }
    ensures readings { Accepted table.now line.now sheet.now budget base → Within table.now line.now sheet.now budget → Demand3 (based base (scene_of table.now line.now sheet.now)) answer.old (told result answer.new) }
    ensures visits { Accepted table.now line.now sheet.now budget base → Within table.now line.now sheet.now budget → result.visits ≤ (scan_call table.now line.now sheet.now budget base answer.old).visits }
    ensures agrees { Accepted table.now line.now sheet.now budget base → Within table.now line.now sheet.now budget → (result.number ≡ (scan_call table.now line.now sheet.now budget base answer.old).number) × (result.words ≡ (scan_call table.now line.now sheet.now budget base answer.old).words) }
{
    tholdrimash::tholdrimash_lookup(table, line, sheet, budget, base, answer)
}

// Size selection. `last` is 0 while guessing is allowed, else this is the last pass.
#[unsafe(no_mangle)]
pub extern "C" fn tholdrimash_select(
    outcomes: &mut [u32],
    last: u32,
    chosen: &mut [u16],
) -> TholdrimashSelection
    ensures answers { chose result outcomes.new chosen.new ≡ selected outcomes.old (not (eqb last 0)) chosen.old }
    ensures last_pass { ChosenOnLast outcomes.old (not (eqb last 0)) chosen.old result chosen.new }
{
    tholdrimash::tholdrimash_select(outcomes, last, chosen)
}

// A rule table from its listing.
#[unsafe(no_mangle)]
pub extern "C" fn tholdrimash_read_table(text: &[u8], table: &mut [u16]) -> TholdrimashAnswer
    ensures answers { ReadCall text.now table.old (told result table.new) }
{
    tholdrimash::tholdrimash_read_table(text, table)
}

// A rule table's listing.
#[unsafe(no_mangle)]
pub extern "C" fn tholdrimash_write_table(table: &[u16], text: &mut [u8]) -> TholdrimashAnswer
    ensures answers { told result text.new ≡ write_call table.now text.old }
{
    tholdrimash::tholdrimash_write_table(table, text)
}

// The sheet of a line.
#[unsafe(no_mangle)]
pub extern "C" fn tholdrimash_fill_sheet(line: &[u8], sheet: &mut [u8]) -> TholdrimashAnswer
    ensures answers { FillCall line.now sheet.old (told result sheet.new) }
    ensures fits { FilledFits line.now (told result sheet.new) }
{
    tholdrimash::tholdrimash_fill_sheet(line, sheet)
}

// A whole program by full scan.
#[unsafe(no_mangle)]
pub extern "C" fn tholdrimash_match_program(
    table: &[u16],
    text: &[u8],
    ends: &[u32],
    sheets: &[u8],
    budgets: &[u32],
    bases: &[u32],
    rows: &mut [u32],
    answers: &mut [u32],
) -> TholdrimashAnswer
    ensures answers { told_whole result rows.new answers.new ≡ scan_program table.now text.now ends.now sheets.now budgets.now bases.now rows.old answers.old }
    ensures readings { table_fits table.now ≡ true → program_fits (length text.now) ends.now (length sheets.now) (length budgets.now) (length bases.now) (length rows.old) ≡ true → ReadProgram table.now text.now ends.now sheets.now budgets.now bases.now answers.old (told_whole result rows.new answers.new) }
{
    tholdrimash::tholdrimash_match_program(table, text, ends, sheets, budgets, bases, rows, answers)
}

// A whole program by prefix lookup.
#[unsafe(no_mangle)]
pub extern "C" fn tholdrimash_lookup_program(
    table: &[u16],
    text: &[u8],
    ends: &[u32],
    sheets: &[u8],
    budgets: &[u32],
    bases: &[u32],
    rows: &mut [u32],
    answers: &mut [u32],
) -> TholdrimashAnswer
    ensures answers { told_whole result rows.new answers.new ≡ lookup_program table.now text.now ends.now sheets.now budgets.now bases.now rows.old answers.old }
    ensures readings { table_fits table.now ≡ true → program_fits (length text.now) ends.now (length sheets.now) (length budgets.now) (length bases.now) (length rows.old) ≡ true → ReadProgram table.now text.now ends.now sheets.now budgets.now bases.now answers.old (told_whole result rows.new answers.new) }
    ensures agrees { AllWithin table.now (lines_of text.now ends.now sheets.now budgets.now bases.now) → (rows.new ≡ (scan_program table.now text.now ends.now sheets.now budgets.now bases.now rows.old answers.old).rows) × (result.words ≡ (scan_program table.now text.now ends.now sheets.now budgets.now bases.now rows.old answers.old).told.words) }
{
    tholdrimash::tholdrimash_lookup_program(
        table, text, ends, sheets, budgets, bases, rows, answers,
    )
}
