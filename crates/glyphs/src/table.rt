// The example's rules as a listing, the text that a hinter edits: a record a line, fields parted by tabs. Ruleset 0 is a top
// one, ruleset 1 nested only. The program reads it once, into document 01's packed words, as it does a table of the user's own.

// The listing's bytes.
const BYTES: usize = 232;

pub const LISTING: [u8; BYTES] = *b"\
    ruleset\ttop\n\
    ruleset\tnested\n\
    rule\t0\td\te\tl\tt\ta\tws\texpr\n\
    rule\t0\td\te\tl\tt\ta\tws\texpr\n\
    rule\t0\tt\to\tu\tc\th\tws\texpr\n\
    rule\t0\tt\to\tu\tc\th\tws\tsub1\n\
    rule\t0\tm\to\tv\te\tws\texpr\tx\texpr\n\
    rule\t0\ts\tt\te\tp\tws\texpr\n\
    rule\t0\ts\tt\te\tp\texpr\n\
    rule\t1\tl\te\tf\tt\n\
    rule\t1\tr\ti\tg\th\tt\n";

// The longest listing of a table, and the most words that one is read into.
pub const MOST_BYTES: usize = 41_440;

pub const MOST_WORDS: usize = 9_763;
