// A match's tree, read from the pool's records: whether two are the same. The Rust asks nested vectors (`InstructionMatch`,
// `InstructionArgument` of `src/asm/matcher/mod.rs`); here it is recursion over records, whose links are to earlier records, so
// the record number falls.
#![tactic(auto)]

ghost use Rattle.std.specs.Prelude.{◌≡◌, ◌≤◌, ◌<◌};
ghost use Rattle.readings.specs.Tree.{same_tree, same_args};
ghost use Rattle.pool.specs.Meaning.{entries, tree_at};
ghost use Rattle.trees.specs.Asked.{args_at};
ghost use Rattle.trees.specs.Same.{compared};

use pool::{Argument, ArgumentKind, Records};

// Whether two arguments are the same, as far as their own records say: nested ones are if their matches are. No derived `==`,
// which would compare record numbers: equal matches have different ones.
#[derive(Clone, Copy)]
enum Compared {
    Different,
    Alike,
    Inner(usize, usize),
}

fn compare(x: Argument, y: Argument) -> Compared
    ensures { result ≡ compared x y }
{
    if x.start != y.start || x.end != y.end {
        return Compared::Different;
    }
    match (x.kind, y.kind) {
        (ArgumentKind::Expr, ArgumentKind::Expr) => Compared::Alike,
        (ArgumentKind::Nested(m), ArgumentKind::Nested(n)) => Compared::Inner(m, n),
        _ => Compared::Different,
    }
}

// Whether two matches have the same ruleset, rule and argument spans, all the way down. The records are lent: by value each step
// would copy their three words.
#[cycle(is_same_same_arguments)]
pub fn is_same(records: &Records, a: usize, b: usize) -> bool
    requires a_lt_used { a < records.now.used }
    requires b_lt_used { b < records.now.used }
    ensures answers { result ≡ same_tree (tree_at (entries records.now.store.now records.now.used) a) (tree_at (entries records.now.store.now records.now.used) b) }
{
    let x = pool::match_at(*records, a);
    let y = pool::match_at(*records, b);
    x.set == y.set && x.rule == y.rule && same_arguments(records, x.args, y.args)
}

// Whether arguments up to a last one and up to another are the same: the last ones are, and those before them.
#[cycle(is_same_same_arguments)]
fn same_arguments(records: &Records, a: usize, b: usize) -> bool
    requires a_le_used { a ≤ records.now.used }
    requires b_le_used { b ≤ records.now.used }
    ensures { result ≡ same_args (args_at (entries records.now.store.now records.now.used) a) (args_at (entries records.now.store.now records.now.used) b) }
{
    let last = pool::last_argument(*records, a);
    let other = pool::last_argument(*records, b);
    match (last, other) {
        (None, None) => true,
        (Some((x, p)), Some((y, q))) => match compare(x, y) {
            Compared::Different => false,
            Compared::Alike => same_arguments(records, p, q),
            Compared::Inner(m, n) => { is_same(records, m, n) && same_arguments(records, p, q) }
        },
        _ => false,
    }
}
