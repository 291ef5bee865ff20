// The judging pass: whether a text is a listing of data within document 01's limits, and of how many rulesets, rules and parts;
// if not, its first bad line. Lines are judged in sequence, by what the lines before them have.
ghost use Rattle.std.specs.Prelude.{◌≡◌, ◌+◌, ◌≤◌};
ghost use Rattle.packing.specs.Data.{Data};
ghost use Rattle.printing.specs.Reading.{parts_in, top_in, rule_in, add_top, add_rule, read_line, read};
ghost use Rattle.fields.specs.Said.{fields_left};
ghost use Rattle.listing.specs.Judging.{parts_said, Counted, Countable, LineSays, Judges};

use defs::ruledef;
use fields::reading::{Fields, is_word, number, part_word, split_once};
use fields::spelling;

// What the lines so far have: S, R, P, and the last rule's ruleset.
#[derive(Clone, Copy)]
pub struct Sizes {
    pub sets: usize,
    pub rules: usize,
    pub parts: usize,
    pub last: usize,
}

// The first bad line of a text, counted from 0.
#[derive(Clone, Copy)]
pub struct BadLine {
    pub line: u32,
}

// How many parts a rule's fields say; none if there are more than 64, or more than 8 parameters, or some field says no part
// within the limits.
fn judge_parts(fields: Fields, sets: usize) -> Option<usize>
    requires sets_bound { sets ≤ 32 }
    ensures answers { result ≡ parts_said sets (parts_in (fields_left fields.entry)) }
{
    let mut count = 0;
    let mut parameters = 0;
    for field in fields {
        let word = part_word(field, sets)?;
        if count == ruledef::MOST_PARTS_A_RULE {
            return None;
        }
        count += 1;
        // Of the words of parts, those of parameters are the greatest.
        if word > ruledef::WHITESPACE {
            parameters += 1;
        }
    }
    if parameters > ruledef::MOST_PARAMETERS {
        return None;
    }
    Some(count)
}

// A ruleset's line, by the fields after its word: what there is with it, or it is bad.
fn judge_top(mut fields: Fields, sizes: Sizes) -> Option<Sizes>
    requires countable { Countable sizes.sets sizes.rules sizes.parts sizes.last }
    ensures says { (d : Data) → Counted d sizes.sets sizes.rules sizes.parts sizes.last → LineSays (add_top d d.rules (top_in (fields_left fields.entry))) result }
{
    if sizes.rules > 0 {
        return None;
    }
    if sizes.sets == ruledef::MOST_RULESETS {
        return None;
    }
    let kind = fields.next()?;
    if fields.next().is_some() {
        return None;
    }
    if is_word(kind, &spelling::TOP) || is_word(kind, &spelling::NESTED) {
        return Some(Sizes {
            sets: sizes.sets + 1,
            rules: 0,
            parts: 0,
            last: 0,
        });
    }
    None
}

// A rule's line, by the fields after its word.
fn judge_rule(mut fields: Fields, sizes: Sizes) -> Option<Sizes>
    requires countable { Countable sizes.sets sizes.rules sizes.parts sizes.last }
    ensures says { (d : Data) → Counted d sizes.sets sizes.rules sizes.parts sizes.last → LineSays (add_rule d (rule_in (fields_left fields.entry))) result }
{
    let set = number(fields.next()?)?;
    if set >= sizes.sets || set < sizes.last || sizes.rules == ruledef::MOST_RULES {
        return None;
    }
    let count = judge_parts(fields, sizes.sets)?;
    if sizes.parts + count > ruledef::MOST_PARTS {
        return None;
    }
    Some(Sizes {
        sets: sizes.sets,
        rules: sizes.rules + 1,
        parts: sizes.parts + count,
        last: set,
    })
}

// One more line, by its first field: a ruleset's or a rule's.
fn judge_line(line: &[u8], sizes: Sizes) -> Option<Sizes>
    requires countable { Countable sizes.sets sizes.rules sizes.parts sizes.last }
    ensures says { (d : Data) → Counted d sizes.sets sizes.rules sizes.parts sizes.last → LineSays (read_line d line.now) result }
{
    let mut fields = Fields::of(line);
    let word = fields.next()?;
    if is_word(word, &spelling::RULESET) {
        return judge_top(fields, sizes);
    }
    if is_word(word, &spelling::RULE) {
        return judge_rule(fields, sizes);
    }
    None
}

// The line after those that have these sizes is bad: each of them is a ruleset or a rule.
fn next_line(sizes: Sizes) -> BadLine
    requires sets_bound { sizes.sets ≤ 32 }
    requires rules_bound { sizes.rules ≤ 512 }
    ensures { result.line ≡ sizes.sets + sizes.rules }
{
    let line = sizes.sets + sizes.rules;
    BadLine { line: line as u32 }
}

// The whole text, line by line: the first that is bad, or how much there is.
pub fn judge(text: &[u8]) -> Result<Sizes, BadLine>
    ensures says { Judges (read text.now) result }
{
    let mut sizes = Sizes {
        sets: 0,
        rules: 0,
        parts: 0,
        last: 0,
    };
    let mut rest = text;
    while let Some((line, after)) = split_once(rest, spelling::END) {
        let Some(next) = judge_line(line, sizes) else {
            return Err(next_line(sizes));
        };
        sizes = next;
        rest = after;
    }
    if !rest.is_empty() {
        return Err(next_line(sizes));
    }
    if sizes.sets == 0 {
        return Err(next_line(sizes));
    }
    Ok(sizes)
}
