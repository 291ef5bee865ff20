// The answer: the matches with the greatest exact count, as words. It carries over the tail of `match_instr` of
// `src/asm/matcher/mod.rs`, which counts each match and keeps those with the maximum; here the matches are the pool's
// records of depth 0, which have their counts, and the answer is measured before anything is written. Nothing is read of the
// table: it is lent for the contracts, which say what the counts are of.
#![tactic(auto)]

ghost use Rattle.std.specs.Prelude.{◌≡◌, [], map, ◌+◌, ◌≤◌, length};
ghost use Rattle.readings.specs.Tree.{moved};
ghost use Rattle.readings.specs.Answer.{answer_words};
ghost use Rattle.readings.specs.Scene.{scene_of};
ghost use Rattle.pool.specs.Log.{log_of};
ghost use Rattle.pool.specs.Meaning.{Stored};
ghost use Rattle.pool.specs.Counted.{Counted};
ghost use Rattle.answer.specs.Measured.{trees_in, trees_to, Bounded, FitFrom, measured, OneMore};
ghost use Rattle.plain.specs.Buffers.{at_start};

use pool::Records;

// How many matches the answer has, their exact count, and how many words it takes.
#[derive(Clone, Copy)]
pub struct Measure {
    pub matches: usize,
    pub greatest: usize,
    pub words: usize,
}

// The words before the trees: number of matches, greatest count.
const HEAD: usize = 2;

// The depth of a top rule's match.
const TOP: usize = 0;

// Measures the answer. Store and number of records come side by side, as those who read a line have them.
pub fn measure_answer(table: &[u16], store: &[usize], used: usize) -> Measure
    requires stored { Stored store.now used }
    requires counted { Counted (scene_of table.now [] []) (log_of store.now used) }
    requires bounded { Bounded table.now store.now used }
    ensures answers { result ≡ measured table.now (trees_in store.now used) }
{
    let records = Records { store, used };
    let mut found = Measure {
        matches: 0,
        greatest: 0,
        words: HEAD,
    };
    for m in 0..used {
        if pool::depth_at(store, m) == Some(TOP) {
            found = add_match(table, records, m, found);
        }
    }
    found
}

// The measure with one match more, after those of earlier records: a greater count starts anew, an equal one adds, a
// lesser one changes nothing. The first match is kept whatever its count, which is at least 0.
fn add_match(table: &[u16], records: Records, m: usize, found: Measure) -> Measure
    requires { OneMore table.now records.store.now records.used m found }
    ensures { result ≡ measured table.now (trees_to records.entry.store.now records.entry.used (m + 1)) }
{
    let count = pool::count_at(records.store, m);
    if count < found.greatest {
        return found;
    }
    let words = words::tree_words(&records, m);
    if count == found.greatest {
        return Measure {
            matches: found.matches + 1,
            greatest: count,
            words: found.words + words,
        };
    }
    Measure {
        matches: 1,
        greatest: count,
        words: HEAD + words,
    }
}

// Writes the answer at the buffer's start, with every start and end as base plus offset, and leaves the rest of the buffer
// unchanged.
pub fn write_answer(
    table: &[u16],
    store: &[usize],
    used: usize,
    measure: Measure,
    base: usize,
    answer: &mut [u32],
)
    requires stored { Stored store.now used }
    requires counted { Counted (scene_of table.now [] []) (log_of store.now used) }
    requires bounded { Bounded table.now store.now used }
    requires measure_value { measure ≡ measured table.now (trees_in store.now used) }
    requires fit_from { FitFrom base store.now used }
    requires words_in_bounds { measure.words ≤ length answer.old }
    ensures answers { answer.new ≡ at_start (answer_words (scene_of table.now [] []) (map (moved base) (trees_in store.now used))) answer.old }
{
    let records = Records { store, used };
    let matches = measure.matches;
    let greatest = measure.greatest;
    answer[0] = matches as u32;
    answer[1] = greatest as u32;
    let mut at: usize = HEAD;
    for m in 0..used {
        if pool::depth_at(store, m) == Some(TOP) {
            let count = pool::count_at(store, m);
            if count == greatest {
                at = words::write_tree(&records, m, base, answer, at);
            }
        }
    }
}
