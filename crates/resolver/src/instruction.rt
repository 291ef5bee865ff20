// Size selection: `resolve_encoding` of src/asm/resolver/instruction.rs, over outcome words. It refuses a bad list
// (10), a list with none resolved (11) or none known (12), a tie on the last pass (13) and a choice longer than its
// buffer (14).
ghost use Rattle.std.specs.Prelude.{◌≡◌, false, map, ◌≤◌, length, Some};
ghost use Rattle.plain.specs.Buffers.{at_start};
ghost use Rattle.plain.specs.Lists.{some_of, count};
ghost use Rattle.resolver.specs.Outcome.{outcome_of, word_of, is_bad, is_guess, is_known};
ghost use Rattle.resolver.specs.Selection.{marked, indices_of, answered, selected};
ghost use Rattle.resolver.specs.LastPass.{OnLastPass};
ghost use Rattle.resolver.specs.Passes.{Tallied, Smallest, marked_word};

use crate::outcome::{has_size, is_bad, is_guess, is_known, is_resolved, mark_guess, size};

// The most words that a list may have.
const MOST_WORDS: usize = 4096;

// More than any size.
const NO_SIZE: u32 = 65_536;

// Why nothing is chosen. `selection_says` gives each case's number and count: 10 to 14, in this order, and 0 for a choice.
#[derive(Clone, Copy)]
pub enum SelectError {
    BadList,
    NoneResolved,
    NoneKnown,
    Tied { count: usize },
    NoRoom { count: usize },
}

// What the pass that judges counts.
#[derive(Clone, Copy)]
struct Tally {
    bad: usize,
    resolved: usize,
    known: usize,
    guesses: usize,
}

// The least of the known sizes, and how many outcomes have it.
#[derive(Clone, Copy)]
struct Least {
    size: u32,
    count: usize,
}

// Judges the words: how many are bad, and how many outcomes are resolved, known and guesses.
fn judge(words: &[u32]) -> Tally
    ensures tally { Tallied words.now result.bad result.resolved result.known result.guesses }
{
    let mut bad = 0;
    let mut resolved = 0;
    let mut known = 0;
    let mut guesses = 0;
    for word in words {
        bad += is_bad(*word) as usize;
        resolved += is_resolved(*word) as usize;
        known += is_known(*word) as usize;
        guesses += is_guess(*word) as usize;
    }
    Tally {
        bad,
        resolved,
        known,
        guesses,
    }
}

// The least size among the sized outcomes, and how many have it, or none if none is sized, which takes no pass. The pass
// keeps two numbers, since an Option would be tested at each word.
fn smallest(words: &[u32], known: usize) -> Option<Least>
    requires good { some_of is_bad words.now ≡ false }
    requires known { known ≡ count is_known (map outcome_of words.now) }
    ensures least { Smallest (map outcome_of words.now) result }
{
    if known == 0 {
        return None;
    }
    let mut least = NO_SIZE;
    let mut count = 0;
    for word in words {
        if is_known(*word) {
            let size = size(*word);
            if size < least {
                least = size;
                count = 1;
            } else if size == least {
                count += 1;
            }
        }
    }
    Some(Least { size: least, count })
}

// Every word of kind 1 to 3 gets its guess bit.
fn mark_all(words: &mut [u32])
    ensures marked { words.new ≡ map marked_word words.old }
{
    for word in words.iter_mut() {
        *word = mark_guess(*word);
    }
}

// If any outcome is a guess, marks every word.
fn mark(words: &mut [u32], guesses: usize)
    requires good { some_of is_bad words.old ≡ false }
    requires guesses { guesses ≡ count is_guess (map outcome_of words.old) }
    ensures marked { words.new ≡ map word_of (marked (map outcome_of words.old)) }
{
    if guesses > 0 {
        mark_all(words);
    }
}

// Writes the indices of the outcomes of a size at the buffer's start, ascending.
fn write(words: &[u32], size: u32, chosen: &mut [u16])
    requires few { length words.now ≤ 4096 }
    requires room { length (indices_of (Some size) (map outcome_of words.now)) ≤ length chosen.old }
    ensures written { chosen.new ≡ at_start (indices_of (Some size) (map outcome_of words.now)) chosen.old }
{
    let mut at = 0;
    for (index, word) in words.iter().enumerate() {
        if has_size(*word, size) {
            chosen[at] = index as u16;
            at += 1;
        }
    }
}

// Chooses the sized outcomes of least size by index, ascending. If any outcome is a guess, every word of kind 1 to 3
// gets its guess bit. On a guessing pass all are returned; on the last pass two or more are a tie. Marks are made on a
// choice and on a tie only, and only a choice is written.
pub fn resolve_encoding(
    words: &mut [u32],
    last: bool,
    chosen: &mut [u16],
) -> Result<usize, SelectError>
    ensures answers { answered result words.new chosen.new ≡ selected words.old last chosen.old }
    ensures last_pass { OnLastPass words.old last chosen.old result chosen.new }
{
    if words.len() > MOST_WORDS {
        return Err(SelectError::BadList);
    }
    let tally = judge(words);
    if tally.bad > 0 {
        return Err(SelectError::BadList);
    }
    if tally.resolved == 0 {
        return Err(SelectError::NoneResolved);
    }
    let Some(least) = smallest(words, tally.known) else {
        return Err(SelectError::NoneKnown);
    };
    let count = least.count;
    if last && count > 1 {
        mark(words, tally.guesses);
        return Err(SelectError::Tied { count });
    }
    if count > chosen.len() {
        return Err(SelectError::NoRoom { count });
    }
    write(words, least.size, chosen);
    mark(words, tally.guesses);
    Ok(count)
}
