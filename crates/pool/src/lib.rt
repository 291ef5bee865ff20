// The pool: a record for each argument kept and each match completed, where the Rust clones vectors (`InstructionMatch`,
// `InstructionArgument` of `src/asm/matcher/mod.rs`). A record is one word of a store that the caller lends; a `Pool` is how
// many of them are taken. No other crate sees the words. A record is packed into one word, and the store is no array of `Record`,
// since each call clears it: 4,096 words take 240 ns (docs/PERFORMANCE.md, "Fixed"), and a `Record` is seven numbers.
#![tactic(auto)]

ghost use Rattle.std.proofs.Props.{props};
ghost use Rattle.std.specs.Prelude.{◌≡◌, ◌+◌, ◌<◌, ◌≤◌, length, get_or};
ghost use Rattle.readings.specs.Plan.{room};
ghost use Rattle.pool.specs.Log.{code_of, kind_of, decode, ArgumentFits, MatchFits, TakenBy, Digits, depth_in, count_in};
ghost use Rattle.pool.specs.Meaning.{Stored, Links-prop, HeadAt, LastAt};

// What an argument is: an expression, or nested with its match's record number.
#[derive(Clone, Copy)]
pub enum ArgumentKind {
    Expr,
    Nested(usize),
}

#[derive(Clone, Copy)]
pub struct Argument {
    pub start: usize,
    pub end: usize,
    pub kind: ArgumentKind,
}

#[derive(Clone, Copy)]
pub enum Record {
    // An argument kept. `prev` is the argument before it in its match: its record number and 1, or 0 if there is none;
    // `count` the exact count of its match so far. A number and no `Option`: it says through how many records the links from
    // here may go, which is what `args ≤ used` bounds and what each recursion over links falls by; None would be that 0 again.
    Kept {
        argument: Argument,
        prev: usize,
        count: usize,
    },
    // A match completed, at its depth: its ruleset, its rule's number there, its last argument as in `prev`, the cursor
    // where it ended, its exact count.
    Completed {
        depth: usize,
        set: usize,
        rule: usize,
        args: usize,
        end: usize,
        count: usize,
    },
}

// The records taken in a call: none is given back before it ends.
#[derive(Clone, Copy)]
pub struct Pool {
    pub used: usize,
}

// The records taken so far: the store, and how many of its words they are. Links are to earlier records.
#[derive(Clone, Copy)]
pub struct Records<'a> {
    pub store: &'a [usize],
    pub used: usize,
    ghost stored: { Stored store.now used } by { Prim.hlevel (props, Links-prop) },
}

// A match as its ruleset, its rule's number there and its last argument, as in `prev`.
#[derive(Clone, Copy)]
pub struct Head {
    pub set: usize,
    pub rule: usize,
    pub args: usize,
}

// A word's digits: places of a line, exact counts, depths, rulesets, rules, record numbers. The lowest is the kind of record.
const KINDS: usize = 2;

const PLACES: usize = 128;

const COUNTS: usize = 128;

const DEPTHS: usize = 32;

const RULESETS: usize = 32;

const RULES: usize = 512;

const NUMBERS: usize = 8192;

impl Pool {
    // Records in a call.
    pub const ROOM: usize = 4096;
    // The greatest depth of a rule; a top rule has depth 0.
    pub const DEPTH: usize = 16;

    // The empty pool, with which each call starts.
    pub fn new() -> Pool
        ensures answers { result.used ≡ 0 }
    {
        Pool { used: 0 }
    }

    // With one record more.
    fn more(self) -> Pool
        requires { self.used ≤ room }
        ensures { result ≡ record { used = self.used + 1 } }
    {
        Pool {
            used: self.used + 1,
        }
    }

    // A record for an argument that is kept.
    pub fn keep(
        self,
        store: &mut [usize],
        argument: Argument,
        prev: usize,
        count: usize,
    ) -> Option<Pool>
        requires store_len { length store.old ≡ room }
        requires used_le_room { self.used ≤ room }
        requires argument_fits { ArgumentFits argument prev count }
        ensures answers { TakenBy self.used store.old store.new (Record.Kept argument prev count) result }
    {
        let used = self.used;
        if used == Pool::ROOM {
            return None;
        }
        let kind = argument.kind;
        let code = code_of(kind);
        store[used] = KINDS
            * (prev
                + NUMBERS
                    * (argument.start
                        + PLACES * (argument.end + PLACES * (count + COUNTS * code))));
        Some(self.more())
    }

    // A record for a match that is completed.
    pub fn complete(
        self,
        store: &mut [usize],
        depth: usize,
        set: usize,
        rule: usize,
        args: usize,
        end: usize,
        count: usize,
    ) -> Option<Pool>
        requires store_len { length store.old ≡ room }
        requires used_le_room { self.used ≤ room }
        requires cases { MatchFits depth set rule args end count }
        ensures answers { TakenBy self.used store.old store.new (Record.Completed depth set rule args end count) result }
    {
        let used = self.used;
        if used == Pool::ROOM {
            return None;
        }
        store[used] = 1
            + KINDS
                * (depth
                    + DEPTHS
                        * (set
                            + RULESETS
                                * (rule + RULES * (args + NUMBERS * (count + COUNTS * end)))));
        Some(self.more())
    }
}

// Two functions and no `From`: a number of 8,192 or more has no room in a word, and a number from elsewhere is no kind.
fn code_of(kind: ArgumentKind) -> usize
    requires { code_of kind < 8192 }
    ensures { result ≡ code_of kind }
{
    match kind {
        ArgumentKind::Expr => 0,
        ArgumentKind::Nested(m) => m + 1,
    }
}

#[tactic(auto, unfolding(crate::specs::Log::kind_of))]
fn kind_of(code: usize) -> ArgumentKind
    ensures { result ≡ kind_of code }
{
    if code == 0 {
        ArgumentKind::Expr
    } else {
        ArgumentKind::Nested(code - 1)
    }
}

// The record with a number.
#[tactic(auto, unfolding(crate::specs::Log::decode, crate::specs::Log::argument_of, crate::specs::Log::match_of))]
pub fn record_at(store: &[usize], i: usize) -> Record
    requires { i < length store.now }
    ensures answers { result ≡ decode (get_or store.now i 0) }
    ensures digits { Digits result }
{
    let word = store[i];
    let w = word / KINDS;
    if word % KINDS == 0 {
        let x = w / NUMBERS;
        let y = x / PLACES;
        let z = y / PLACES;
        let kind = kind_of(z / COUNTS);
        let argument = Argument {
            start: x % PLACES,
            end: y % PLACES,
            kind,
        };
        Record::Kept {
            argument,
            prev: w % NUMBERS,
            count: z % COUNTS,
        }
    } else {
        let x = w / DEPTHS;
        let y = x / RULESETS;
        let z = y / RULES;
        let v = z / NUMBERS;
        Record::Completed {
            depth: w % DEPTHS,
            set: x % RULESETS,
            rule: y % RULES,
            args: z % NUMBERS,
            end: v / COUNTS % PLACES,
            count: v % COUNTS,
        }
    }
}

// The depth of a match, by its record number; an argument has none.
pub fn depth_at(store: &[usize], m: usize) -> Option<usize>
    requires { m < length store.now }
    ensures answers { result ≡ depth_in (decode (get_or store.now m 0)) }
{
    match record_at(store, m) {
        Record::Kept { .. } => None,
        Record::Completed { depth, .. } => Some(depth),
    }
}

// The count that a record has: of its match so far, or of the match completed.
pub fn count_at(store: &[usize], i: usize) -> usize
    requires { i < length store.now }
    ensures answers { result ≡ count_in (decode (get_or store.now i 0)) }
{
    match record_at(store, i) {
        Record::Kept { count: so_far, .. } => so_far,
        Record::Completed { count: own, .. } => own,
    }
}

// The match with a record number. An argument's number, which no link to a match has, reads as rule 0 of ruleset 0, as
// `tree_at` has it: with an `Option` each caller would have a case that never comes.
pub fn match_at(records: Records, m: usize) -> Head
    requires m_lt_used { m < records.used }
    ensures answers { HeadAt records.entry.store.now records.entry.used m result }
{
    match record_at(records.store, m) {
        Record::Kept { .. } => Head {
            set: 0,
            rule: 0,
            args: 0,
        },
        Record::Completed {
            set,
            rule,
            args,
            ..
        } => Head { set, rule, args },
    }
}

// The last of the arguments up to a number, and the number of the one before it, as `prev` counts them; None if there is none.
pub fn last_argument(records: Records, args: usize) -> Option<(Argument, usize)>
    requires args_le_used { args ≤ records.used }
    ensures answers { LastAt records.entry.store.now records.entry.used args result }
{
    if args == 0 {
        return None;
    }
    match record_at(records.store, args - 1) {
        Record::Kept { argument, prev, .. } => Some((argument, prev)),
        Record::Completed { .. } => None,
    }
}
