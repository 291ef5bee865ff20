// The interface: each function is one call of `matcher`, `resolver`, `listing`, `expressions` or `program`, with the answer's
// number and fields as a C struct. `tholdrimash_c` exports them to C, and `include/tholdrimash.h` documents every number and
// field.
#![tactic(auto)]

ghost use Rattle.std.specs.Prelude.{◌≡◌, not, true, List, ℕ, ◌≤◌, eqb, length};
ghost use Rattle.defs.specs.Table.{table_fits};
ghost use Rattle.readings.specs.Call.{Accepted, scan_call, lookup_call};
ghost use Rattle.readings.specs.Demand.{Within, Demand3};
ghost use Rattle.readings.specs.Scene.{scene_of, based};
ghost use Rattle.trials.specs.Told.{says};
ghost use Rattle.lines.specs.Lines.{lines_of, program_fits};
ghost use Rattle.runs.specs.Program.{scan_program, lookup_program};
ghost use Rattle.runs.specs.Demand.{ReadProgram, AllWithin};
ghost use Rattle.program.specs.Says.{program_says};
ghost use Rattle.tholdrimash.specs.Interface.{told, told_whole, chose, ChosenOnLast};
ghost use Rattle.resolver.specs.Selection.{selected, selection_says};
ghost use Rattle.listing.specs.Calls.{ReadCall, write_call, read_says, write_says};
ghost use Rattle.expressions.specs.Call.{FillCall, FilledFits, fill_says};

use expressions::FillError;
use listing::reading::ReadError;
use listing::writing::WriteError;
use program::ProgramError;
use resolver::instruction::SelectError;
use trials::{Matched, Refused};

// What matching, reading and writing tables, filling sheets, and programs return; unstated fields are 0. Numbers and no enum:
// `include/tholdrimash.h` fixes the fields, and these two structs with it.
#[repr(C)]
#[derive(Clone, Copy)]
pub struct TholdrimashAnswer {
    pub number: u32,
    pub visits: u32,
    pub words: u32,
    pub place: u32,
}

// What selection returns.
#[repr(C)]
#[derive(Clone, Copy)]
pub struct TholdrimashSelection {
    pub number: u32,
    pub count: u32,
}

fn answer_of(number: u32, visits: u32, words: u32, place: u32) -> TholdrimashAnswer
    ensures { result ≡ record { number = number; visits = visits; words = words; place = place } }
{
    TholdrimashAnswer {
        number,
        visits,
        words,
        place,
    }
}

// The numbers are the C interface's: `include/tholdrimash.h` lists them.
impl From<Result<Matched, Refused>> for TholdrimashAnswer {
    ghost from_gives = { λ answer fields. (b : List ℕ) → told fields b ≡ says answer b };

    fn from(answer: Result<Matched, Refused>) -> TholdrimashAnswer {
        match answer {
            Ok(Matched { visits, words }) => answer_of(0, visits, words, 0),
            Err(Refused::NoMatch { visits }) => answer_of(1, visits, 0, 0),
            Err(Refused::BadTable) => answer_of(2, 0, 0, 0),
            Err(Refused::BadLine { place }) => answer_of(3, 0, 0, place),
            Err(Refused::BadSheet) => answer_of(4, 0, 0, 0),
            Err(Refused::BadBudget) => answer_of(5, 0, 0, 0),
            Err(Refused::BadBase) => answer_of(19, 0, 0, 0),
            Err(Refused::Spent { visits }) => answer_of(6, visits, 0, 0),
            Err(Refused::TooDeep { visits }) => answer_of(7, visits, 0, 0),
            Err(Refused::PoolFull { visits }) => answer_of(8, visits, 0, 0),
            Err(Refused::TooLong { visits, words }) => answer_of(9, visits, words, 0),
        }
    }
}

impl From<Result<u32, ReadError>> for TholdrimashAnswer {
    ghost from_gives = { λ answer fields. (b : List ℕ) → told fields b ≡ read_says answer b };

    fn from(answer: Result<u32, ReadError>) -> TholdrimashAnswer {
        match answer {
            Ok(words) => answer_of(0, 0, words, 0),
            Err(ReadError::BadText { line }) => answer_of(15, 0, 0, line),
            Err(ReadError::NoRoom) => answer_of(16, 0, 0, 0),
        }
    }
}

impl From<Result<u32, WriteError>> for TholdrimashAnswer {
    ghost from_gives = { λ answer fields. (b : List ℕ) → told fields b ≡ write_says answer b };

    fn from(answer: Result<u32, WriteError>) -> TholdrimashAnswer {
        match answer {
            Ok(bytes) => answer_of(0, 0, bytes, 0),
            Err(WriteError::BadTable) => answer_of(2, 0, 0, 0),
            Err(WriteError::NoRoom) => answer_of(16, 0, 0, 0),
        }
    }
}

impl From<Result<u32, FillError>> for TholdrimashAnswer {
    ghost from_gives = { λ answer fields. (b : List ℕ) → told fields b ≡ fill_says answer b };

    fn from(answer: Result<u32, FillError>) -> TholdrimashAnswer {
        match answer {
            Ok(words) => answer_of(0, 0, words, 0),
            Err(FillError::BadLine { place }) => answer_of(3, 0, 0, place),
            Err(FillError::BadRoom) => answer_of(18, 0, 0, 0),
        }
    }
}

impl From<Result<u32, ProgramError>> for TholdrimashAnswer {
    ghost from_gives = { λ answer fields. (rows b : List ℕ) → told_whole fields rows b ≡ program_says answer rows b };

    fn from(answer: Result<u32, ProgramError>) -> TholdrimashAnswer {
        match answer {
            Ok(used) => answer_of(0, 0, used, 0),
            Err(ProgramError::BadTable) => answer_of(2, 0, 0, 0),
            Err(ProgramError::BadProgram) => answer_of(17, 0, 0, 0),
        }
    }
}

// The full scan.
pub fn tholdrimash_match(
    table: &[u16],
    line: &[u8],
    sheet: &[u8],
    budget: u32,
    base: u32,
    answer: &mut [u32],
) -> TholdrimashAnswer
    ensures answers { told result answer.new ≡ scan_call table.now line.now sheet.now budget base answer.old }
    ensures readings { Accepted table.now line.now sheet.now budget base → Within table.now line.now sheet.now budget → Demand3 (based base (scene_of table.now line.now sheet.now)) answer.old (told result answer.new) }
{
    matcher::match_instr(table, line, sheet, budget, base, answer).into()
}

// Prefix lookup.
pub fn tholdrimash_lookup(
    table: &[u16],
    line: &[u8],
    sheet: &[u8],
    budget: u32,
    base: u32,
    answer: &mut [u32],
) -> TholdrimashAnswer
    ensures answers { told result answer.new ≡ lookup_call table.now line.now sheet.now budget base answer.old }
    ensures readings { Accepted table.now line.now sheet.now budget base → Within table.now line.now sheet.now budget → Demand3 (based base (scene_of table.now line.now sheet.now)) answer.old (told result answer.new) }
    ensures visits { Accepted table.now line.now sheet.now budget base → Within table.now line.now sheet.now budget → result.visits ≤ (scan_call table.now line.now sheet.now budget base answer.old).visits }
    ensures agrees { Accepted table.now line.now sheet.now budget base → Within table.now line.now sheet.now budget → (result.number ≡ (scan_call table.now line.now sheet.now budget base answer.old).number) × (result.words ≡ (scan_call table.now line.now sheet.now budget base answer.old).words) }
{
    matcher::match_with_ruledef_map(table, line, sheet, budget, base, answer).into()
}

// Each answer's number and count. No `From`: it asks that the count fit 32 bits.
fn chosen_fields(selection: Result<usize, SelectError>) -> TholdrimashSelection
    requires { (selection_says selection).1 ≤ 4096 }
    ensures { (result.number, result.count) ≡ selection_says selection }
{
    match selection {
        Ok(count) => chosen_of(0, count),
        Err(SelectError::BadList) => chosen_of(10, 0),
        Err(SelectError::NoneResolved) => chosen_of(11, 0),
        Err(SelectError::NoneKnown) => chosen_of(12, 0),
        Err(SelectError::Tied { count }) => chosen_of(13, count),
        Err(SelectError::NoRoom { count }) => chosen_of(14, count),
    }
}

fn chosen_of(number: u32, count: usize) -> TholdrimashSelection
    requires { count ≤ 4096 }
    ensures { result ≡ record { number = number; count = count } }
{
    TholdrimashSelection {
        number,
        count: count as u32,
    }
}

// Size selection. `last` is 0 while guessing is allowed, else this is the last pass.
pub fn tholdrimash_select(
    outcomes: &mut [u32],
    last: u32,
    chosen: &mut [u16],
) -> TholdrimashSelection
    ensures answers { chose result outcomes.new chosen.new ≡ selected outcomes.old (not (eqb last 0)) chosen.old }
    ensures last_pass { ChosenOnLast outcomes.old (not (eqb last 0)) chosen.old result chosen.new }
{
    let selection = resolver::instruction::resolve_encoding(outcomes, last != 0, chosen);
    chosen_fields(selection)
}

// A rule table from its listing.
pub fn tholdrimash_read_table(text: &[u8], table: &mut [u16]) -> TholdrimashAnswer
    ensures answers { ReadCall text.now table.old (told result table.new) }
{
    listing::reading::read_table(text, table).into()
}

// A rule table's listing.
pub fn tholdrimash_write_table(table: &[u16], text: &mut [u8]) -> TholdrimashAnswer
    ensures answers { told result text.new ≡ write_call table.now text.old }
{
    listing::writing::write_table(table, text).into()
}

// The sheet of a line.
pub fn tholdrimash_fill_sheet(line: &[u8], sheet: &mut [u8]) -> TholdrimashAnswer
    ensures answers { FillCall line.now sheet.old (told result sheet.new) }
    ensures fits { FilledFits line.now (told result sheet.new) }
{
    expressions::fill_sheet(line, sheet).into()
}

// A whole program by full scan.
pub fn tholdrimash_match_program(
    table: &[u16],
    text: &[u8],
    ends: &[u32],
    sheets: &[u8],
    budgets: &[u32],
    bases: &[u32],
    rows: &mut [u32],
    answers: &mut [u32],
) -> TholdrimashAnswer
    ensures answers { told_whole result rows.new answers.new ≡ scan_program table.now text.now ends.now sheets.now budgets.now bases.now rows.old answers.old }
    ensures readings { table_fits table.now ≡ true → program_fits (length text.now) ends.now (length sheets.now) (length budgets.now) (length bases.now) (length rows.old) ≡ true → ReadProgram table.now text.now ends.now sheets.now budgets.now bases.now answers.old (told_whole result rows.new answers.new) }
{
    program::match_program(table, text, ends, sheets, budgets, bases, rows, answers).into()
}

// A whole program by prefix lookup.
pub fn tholdrimash_lookup_program(
    table: &[u16],
    text: &[u8],
    ends: &[u32],
    sheets: &[u8],
    budgets: &[u32],
    bases: &[u32],
    rows: &mut [u32],
    answers: &mut [u32],
) -> TholdrimashAnswer
    ensures answers { told_whole result rows.new answers.new ≡ lookup_program table.now text.now ends.now sheets.now budgets.now bases.now rows.old answers.old }
    ensures readings { table_fits table.now ≡ true → program_fits (length text.now) ends.now (length sheets.now) (length budgets.now) (length bases.now) (length rows.old) ≡ true → ReadProgram table.now text.now ends.now sheets.now budgets.now bases.now answers.old (told_whole result rows.new answers.new) }
    ensures agrees { AllWithin table.now (lines_of text.now ends.now sheets.now budgets.now bases.now) → (rows.new ≡ (scan_program table.now text.now ends.now sheets.now budgets.now bases.now rows.old answers.old).rows) × (result.words ≡ (scan_program table.now text.now ends.now sheets.now budgets.now bases.now rows.old answers.old).told.words) }
{
    program::lookup_program(table, text, ends, sheets, budgets, bases, rows, answers).into()
}
