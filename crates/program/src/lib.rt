// A whole glyph program in one call, by full scan or by prefix lookup: the table is judged and prepared once, then each line is
// read on the room that the lines before it left. The Rust reads lines one by one and has no such call. A bad table is refused
// (2), then what is lent for the lines (17), before any line and with nothing written; a line's own refusal (1, 3 to 9, 19)
// stands in its row, takes no words and stops nothing.
#![tactic(auto)]

ghost use Rattle.std.specs.Prelude.{◌≡◌, true, List, ℕ, ◌≤◌, length, None, Err};
ghost use Rattle.defs.specs.Table.{table_fits};
ghost use Rattle.defs.specs.Ruledef.{starts_of};
ghost use Rattle.line.specs.Line.{fault_at};
ghost use Rattle.readings.specs.Plan.{room};
ghost use Rattle.readings.specs.Call.{call_with};
ghost use Rattle.leads.specs.Leads.{Leads};
ghost use Rattle.lines.specs.Lines.{lines_of, program_fits};
ghost use Rattle.runs.specs.Program.{run_lines, line_call, program_with, scan_program, lookup_program};
ghost use Rattle.runs.specs.Demand.{ReadProgram, AllWithin};
ghost use Rattle.trials.specs.Told.{says};
ghost use Rattle.trials.specs.Orders.{order_of};
ghost use Rattle.program.specs.Says.{RowOf, program_says};
ghost use Rattle.program.specs.Prepared.{Ready, Ordered, ChosenFor};

use defs::ruledef;
use places::RulePlace;
use pool::Pool;
use trials::{Matched, Order, Refused};

// Why a program is refused whole, with nothing written.
#[derive(Clone, Copy)]
pub enum ProgramError {
    // 2
    BadTable,
    // 17: too many lines, ends that fall or pass the text, or sheets, budgets, bases or rows of the wrong length.
    BadProgram,
}

// A line's row: its number, and the answer words that it takes.
#[derive(Clone, Copy)]
pub struct Row {
    pub number: u32,
    pub words: usize,
}

// The number of a line's refusal.
fn number_of(refused: Refused) -> u32
    ensures { (b : List ℕ) → result ≡ (says (Err refused) b).number }
{
    match refused {
        Refused::NoMatch { .. } => 1,
        Refused::BadTable => 2,
        Refused::BadLine { .. } => 3,
        Refused::BadSheet => 4,
        Refused::BadBudget => 5,
        Refused::Spent { .. } => 6,
        Refused::TooDeep { .. } => 7,
        Refused::PoolFull { .. } => 8,
        Refused::TooLong { .. } => 9,
        Refused::BadBase => 19,
    }
}

// A refused line takes no words.
impl From<Result<Matched, Refused>> for Row {
    ghost from_gives = { λ answer row. RowOf answer row };

    fn from(answer: Result<Matched, Refused>) -> Row {
        match answer {
            Ok(matched) => Row {
                number: 0,
                words: matched.words as usize,
            },
            Err(refused) => Row {
                number: number_of(refused),
                words: 0,
            },
        }
    }
}

// Prepares the table for all lines, in room that the call has: handed back by value, so much would be copied by the C library's
// `memcpy`, and the archive asks it for `memset` alone.
fn prepare(
    table: &[u16],
    how: Order,
    starts: &[u16],
    places: &mut [RulePlace],
    leads: &mut [u32],
    order: &mut [usize],
    rules: &mut [u16],
) -> usize
    requires table_value { table_fits table.now ≡ true }
    requires starts_value { starts.now ≡ starts_of table.now }
    requires places_len { length places.old ≡ 512 }
    requires order_len { length order.old ≡ 512 }
    requires rules_len { length rules.old ≡ 512 }
    requires leads_2 { Leads table.now leads.old }
    ensures ready { Ready how table.now starts.now places.new order.new rules.new result }
    ensures leads { Leads table.now leads.new }
{
    let tops = ruledef_map::top_rules(table, rules);
    places::place_rules(table, starts, &rules[..tops], places);
    trials::lead_rules(table, starts, places, &rules[..tops], how, leads);
    match how {
        Order::Scan => {}
        Order::Lookup => {
            let mut spare = [0usize; ruledef::MOST_RULES];
            prefix_order::order_rules(
                table,
                places,
                &rules[..tops],
                &mut order[..tops],
                &mut spare,
            );
        }
    }
    tops
}

// The groundwork of a program: its table, prepared once for all lines. `rules` of its methods is a buffer that has the table's
// top rules for a scan, and the rules of the latest line for lookup.
#[derive(Clone, Copy)]
struct Groundwork<'a> {
    how: Order,
    // Where the table's rulesets begin.
    starts: &'a [u16],
    // The places of the top rules, and the leads by which rules are told to fail.
    places: &'a [RulePlace],
    leads: &'a [u32; ruledef::MOST_RULES],
    // For lookup, the top rules in prefix order.
    order: &'a [usize],
    // How many top rules there are.
    tops: usize,
}

impl<'a> Groundwork<'a> {
    // The rules to try on a line, at the buffer's start: a scan's stand there already.
    fn choose_rules(&self, table: &[u16], line: &[u8], rules: &mut [u16]) -> usize
        requires table_value { table_fits table.now ≡ true }
        requires line_value { fault_at line.now ≡ None }
        requires ordered { Ordered self.now.how table.now self.now.order.now rules.old self.now.tops }
        ensures { ChosenFor self.now.how table.now line.now self.now.order.now rules.new self.now.tops result }
    {
        match self.how {
            Order::Scan => self.tops,
            Order::Lookup => prefix_order::find_rules(table, &self.order[..self.tops], line, rules),
        }
    }

    // One line, on the room that is left.
    fn run_line(
        &self,
        table: &[u16],
        line: &[u8],
        sheet: &[u8],
        budget: u32,
        base: u32,
        rules: &mut [u16],
        store: &mut [usize],
        answer: &mut [u32],
    ) -> Result<Matched, Refused>
        requires ready { Ready self.now.how table.now self.now.starts.now self.now.places.now self.now.order.now rules.old self.now.tops }
        requires store_len { length store.old ≡ room }
        requires leads { Leads table.now self.now.leads.now }
        ensures tells { says result answer.new ≡ call_with (order_of self.now.how) table.now line.now sheet.now budget base answer.old }
        ensures keeps { Ordered self.now.how table.now self.now.order.now rules.new self.now.tops }
    {
        trials::check(line, sheet, budget, base)?;
        let count = self.choose_rules(table, line, rules);
        trials::read_line(
            table,
            line,
            sheet,
            budget,
            base,
            self.starts,
            self.leads,
            self.places,
            &rules[..count],
            self.how,
            store,
            answer,
        )
    }

    // Every line, from the first on. What it returns is the answer words used in all. Text, ends, sheets, budgets, bases and rows
    // stay apart: C lends them so.
    fn run_lines(
        &self,
        table: &[u16],
        text: &[u8],
        ends: &[u32],
        sheets: &[u8],
        budgets: &[u32],
        bases: &[u32],
        rules: &mut [u16],
        store: &mut [usize],
        rows: &mut [u32],
        answers: &mut [u32],
    ) -> usize
        requires ready { Ready self.now.how table.now self.now.starts.now self.now.places.now self.now.order.now rules.old self.now.tops }
        requires store_len { length store.old ≡ room }
        requires rows_value { program_fits (length text.now) ends.now (length sheets.now) (length budgets.now) (length bases.now) (length rows.old) ≡ true }
        requires leads { Leads table.now self.now.leads.now }
        ensures runs { record { rows = rows.exit.now; words = result; answers = answers.new } ≡ run_lines (line_call (order_of self.now.how) table.now) (lines_of text.now ends.now sheets.now budgets.now bases.now) 0 answers.old }
        ensures few { result ≤ 3222798848 }
    {
        let mut from: usize = 0;
        let mut sheet: usize = 0;
        let mut used: usize = 0;
        for (i, end) in ends.iter().enumerate() {
            let end = *end as usize;
            let row = 2 * i;
            let next = sheet + lines::sheet_size(end - from);
            let got = self.run_line(
                table,
                &text[from..end],
                &sheets[sheet..next],
                budgets[i],
                bases[i],
                rules,
                store,
                &mut answers[used..],
            );
            let told = Row::from(got);
            let after = used + told.words;
            rows[row] = told.number;
            // 256 answers of at most 12,589,058 words each fit 32 bits (the law `call-words`).
            rows[row + 1] = used as u32;
            used = after;
            from = end;
            sheet = next;
        }
        used
    }
}

// The whole program.
fn run_program(
    table: &[u16],
    text: &[u8],
    ends: &[u32],
    sheets: &[u8],
    budgets: &[u32],
    bases: &[u32],
    how: Order,
    rows: &mut [u32],
    answers: &mut [u32],
) -> Result<u32, ProgramError>
    ensures { program_says result rows.new answers.new ≡ program_with (order_of how) table.now text.now ends.now sheets.now budgets.now bases.now rows.old answers.old }
{
    if !acceptance::check_table(table) {
        return Err(ProgramError::BadTable);
    }
    if !lines::check_program(
        text.len(),
        ends,
        sheets.len(),
        budgets.len(),
        bases.len(),
        rows.len(),
    ) {
        return Err(ProgramError::BadProgram);
    }
    let starts = ruledef::ruleset_starts(table);
    let mut places = places::NONE;
    let mut leads = [0u32; ruledef::MOST_RULES];
    let mut order = [0usize; ruledef::MOST_RULES];
    let mut rules = [0u16; ruledef::MOST_RULES];
    let tops = prepare(
        table,
        how,
        &starts,
        &mut places,
        &mut leads,
        &mut order,
        &mut rules,
    );
    let groundwork = Groundwork {
        how,
        starts: &starts,
        places: &places,
        leads: &leads,
        order: &order,
        tops,
    };
    let mut store = [0usize; Pool::ROOM];
    let words = groundwork.run_lines(
        table, text, ends, sheets, budgets, bases, &mut rules, &mut store, rows, answers,
    );
    Ok(words as u32)
}

// Every line by full scan.
pub fn match_program(
    table: &[u16],
    text: &[u8],
    ends: &[u32],
    sheets: &[u8],
    budgets: &[u32],
    bases: &[u32],
    rows: &mut [u32],
    answers: &mut [u32],
) -> Result<u32, ProgramError>
    ensures answers { program_says result rows.new answers.new ≡ scan_program table.now text.now ends.now sheets.now budgets.now bases.now rows.old answers.old }
    ensures readings { table_fits table.now ≡ true → program_fits (length text.now) ends.now (length sheets.now) (length budgets.now) (length bases.now) (length rows.old) ≡ true → ReadProgram table.now text.now ends.now sheets.now budgets.now bases.now answers.old (program_says result rows.new answers.new) }
{
    run_program(
        table,
        text,
        ends,
        sheets,
        budgets,
        bases,
        Order::Scan,
        rows,
        answers,
    )
}

// Every line by prefix lookup: the same readings; and rows and words of the scan, where the scan of every line stays within.
pub fn lookup_program(
    table: &[u16],
    text: &[u8],
    ends: &[u32],
    sheets: &[u8],
    budgets: &[u32],
    bases: &[u32],
    rows: &mut [u32],
    answers: &mut [u32],
) -> Result<u32, ProgramError>
    ensures answers { program_says result rows.new answers.new ≡ lookup_program table.now text.now ends.now sheets.now budgets.now bases.now rows.old answers.old }
    ensures readings { table_fits table.now ≡ true → program_fits (length text.now) ends.now (length sheets.now) (length budgets.now) (length bases.now) (length rows.old) ≡ true → ReadProgram table.now text.now ends.now sheets.now budgets.now bases.now answers.old (program_says result rows.new answers.new) }
    ensures agrees { AllWithin table.now (lines_of text.now ends.now sheets.now budgets.now bases.now) → ((program_says result rows.new answers.new).rows ≡ (scan_program table.now text.now ends.now sheets.now budgets.now bases.now rows.old answers.old).rows) × ((program_says result rows.new answers.new).told.words ≡ (scan_program table.now text.now ends.now sheets.now budgets.now bases.now rows.old answers.old).told.words) }
{
    run_program(
        table,
        text,
        ends,
        sheets,
        budgets,
        bases,
        Order::Lookup,
        rows,
        answers,
    )
}
