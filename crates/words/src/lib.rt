// A match as answer words, read from the pool's records: how many it has, and the words in the answer. A record has offsets in
// the line; in the answer they stand as base plus offset, as the Rust's `span_offset` has them. In the Rust a match is nested
// vectors (`InstructionMatch`, `InstructionArgument` of `src/asm/matcher/mod.rs`); the words are the port's. Recursion
// over records, whose links are to earlier records, so the record number falls.
#![tactic(auto)]

ghost use Rattle.std.specs.Prelude.{◌≡◌, [], ◌∷◌, ◌+◌, ◌≤◌, ◌<◌, length};
ghost use Rattle.plain.specs.Buffers.{put_after};
ghost use Rattle.readings.specs.Tree.{moved, moved_args};
ghost use Rattle.readings.specs.Answer.{arg_count, tree_words, arg_words};
ghost use Rattle.readings.specs.Measure.{Fit};
ghost use Rattle.pool.specs.Meaning.{entries, tree_at};
ghost use Rattle.trees.specs.Asked.{args_at, tree_length, args_length, TreeAsked, ArgsAsked};

use pool::{ArgumentKind, Records};

// A tree's first words: ruleset, rule, argument count. And an argument's own: expression or nested, start, end. The numbers of
// the two kinds stand in the answer that C reads, as `arg_words` has them.
const WORDS: usize = 3;

const EXPRESSION: usize = 0;

const NESTED: usize = 1;

// How many answer words a match has. Here and below the records are lent: by value each step would copy their three words.
#[cycle(argument_words_tree_words)]
pub fn tree_words(records: &Records, m: usize) -> usize
    requires { TreeAsked tree_length 16777216 records.now.store.now records.now.used m }
    ensures answers { result ≡ length (tree_words (tree_at (entries records.now.store.now records.now.used) m)) }
{
    let head = pool::match_at(*records, m);
    WORDS + argument_words(records, head.args)
}

// How many answer words arguments up to a last one have.
#[cycle(argument_words_tree_words)]
fn argument_words(records: &Records, a: usize) -> usize
    requires { ArgsAsked args_length 16777216 records.now.store.now records.now.used a }
    ensures { result ≡ length (arg_words (args_at (entries records.now.store.now records.now.used) a)) }
{
    match pool::last_argument(*records, a) {
        None => 0,
        // Each kind asks for what is before it itself: what comes last in a step is then a loop.
        Some((argument, prev)) => match argument.kind {
            ArgumentKind::Expr => argument_words(records, prev) + WORDS,
            ArgumentKind::Nested(m) => {
                let before = argument_words(records, prev);
                let inner = tree_words(records, m);
                before + WORDS + inner
            }
        },
    }
}

// How many arguments there are up to a last one.
fn count_arguments(records: &Records, a: usize) -> usize
    requires a_le_used { a ≤ records.now.used }
    ensures value { result ≡ arg_count (args_at (entries records.now.store.now records.now.used) a) }
    ensures upper_bound { result ≤ a }
{
    let mut count: usize = 0;
    let mut at = a;
    // No `for`: each record says where the one before it is.
    while let Some((_, prev)) = pool::last_argument(*records, at) {
        count += 1;
        at = prev;
    }
    count
}

// Three words in the answer from a place on, and the place after them.
fn write_words(answer: &mut [u32], at: usize, x: usize, y: usize, z: usize) -> usize
    requires at_in_bounds { at + 3 ≤ length answer.old }
    requires x_bound { x < 4294967296 }
    requires y_bound { y < 4294967296 }
    requires z_bound { z < 4294967296 }
    ensures { (answer.new, result) ≡ put_after at (x ∷ y ∷ z ∷ []) answer.old }
{
    answer[at] = x as u32;
    answer[at + 1] = y as u32;
    answer[at + 2] = z as u32;
    at + WORDS
}

// A match's words in the answer from a place on, and the place after them.
#[cycle(write_arguments_write_tree)]
pub fn write_tree(records: &Records, m: usize, base: usize, answer: &mut [u32], at: usize) -> usize
    requires m_lt_used { m < records.now.used }
    requires fit { Fit (tree_words (moved base (tree_at (entries records.now.store.now records.now.used) m))) }
    requires m_in_bounds { at + length (tree_words (tree_at (entries records.now.store.now records.now.used) m)) ≤ length answer.old }
    ensures answers { (answer.new, result) ≡ put_after at (tree_words (moved base (tree_at (entries records.now.store.now records.now.used) m))) answer.old }
{
    let head = pool::match_at(*records, m);
    let count = count_arguments(records, head.args);
    let next = write_words(answer, at, head.set, head.rule, count);
    write_arguments(records, head.args, base, answer, next)
}

// The words of arguments up to a last one: those of the ones before it, its own, and its match's if it is nested.
#[cycle(write_arguments_write_tree)]
fn write_arguments(records: &Records, a: usize, base: usize, answer: &mut [u32], at: usize) -> usize
    requires a_le_used { a ≤ records.now.used }
    requires fit { Fit (arg_words (moved_args base (args_at (entries records.now.store.now records.now.used) a))) }
    requires a_in_bounds { at + length (arg_words (args_at (entries records.now.store.now records.now.used) a)) ≤ length answer.old }
    ensures { (answer.new, result) ≡ put_after at (arg_words (moved_args base (args_at (entries records.now.store.now records.now.used) a))) answer.old }
{
    match pool::last_argument(*records, a) {
        None => at,
        Some((argument, prev)) => {
            let next = write_arguments(records, prev, base, answer, at);
            let start = base + argument.start;
            let end = base + argument.end;
            match argument.kind {
                ArgumentKind::Expr => write_words(answer, next, EXPRESSION, start, end),
                ArgumentKind::Nested(m) => {
                    let inner = write_words(answer, next, NESTED, start, end);
                    write_tree(records, m, base, answer, inner)
                }
            }
        }
    }
}
