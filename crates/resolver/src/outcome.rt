// Outcome words, for the Rust's `InstructionMatchResolution` (src/asm/matcher/mod.rs): guess + 2·kind + 8·size. Kinds:
// 0 unresolved, 1 failed constraint, 2 resolved but unknown, 3 sized.
// Words and no struct: C lends them to `tholdrimash_select`.
ghost use Rattle.std.specs.Prelude.{◌≡◌, Some};
ghost use Rattle.resolver.specs.Outcome.{kind_in, size_in, outcome_of, is_bad};
ghost use Rattle.resolver.specs.Outcome.{is_guess, is_resolved, is_known};
ghost use Rattle.resolver.specs.Selection.{has_size};
ghost use Rattle.resolver.specs.Passes.{marked_word};

// What a kind and a size are multiplied by in a word, and how many kinds there are.
const KIND_UNIT: u32 = 2;

const SIZE_UNIT: u32 = 8;

const KINDS: u32 = 4;

// The greatest size.
const MOST_SIZE: u32 = 65_535;

// The kinds, each the name of its number.
enum Kind {
    Unresolved,
    Failed,
    Unknown,
    Sized,
}

// The number of a word's kind. It is compared as a number, so that a loop over words tests several at once; with a match
// it tests one after the other.
fn kind_in(word: u32) -> u32
    ensures kind { result ≡ kind_in word }
{
    word / KIND_UNIT % KINDS
}

// A word's size.
pub fn size(word: u32) -> u32
    ensures size { result ≡ size_in word }
{
    word / SIZE_UNIT
}

// Whether the word is no outcome's: its size is above 65,535, or not 0 though it is not sized, or it is unresolved and
// not exactly 0.
pub fn is_bad(word: u32) -> bool
    ensures bad { result ≡ is_bad word }
{
    let kind = kind_in(word);
    if kind == Kind::Unresolved as u32 {
        return word != 0;
    }
    let size = size(word);
    if kind == Kind::Sized as u32 {
        return MOST_SIZE < size;
    }
    size != 0
}

// Whether the outcome is a guess. An unresolved one counts as one.
pub fn is_guess(word: u32) -> bool
    ensures guess { result ≡ is_guess (outcome_of word) }
{
    if kind_in(word) == Kind::Unresolved as u32 {
        return true;
    }
    word % KIND_UNIT == 1
}

// Whether the outcome is resolved: kinds 2 and 3.
pub fn is_resolved(word: u32) -> bool
    ensures resolved { result ≡ is_resolved (outcome_of word) }
{
    Kind::Unknown as u32 <= kind_in(word)
}

// Whether the outcome is known: kind 3.
pub fn is_known(word: u32) -> bool
    ensures known { result ≡ is_known (outcome_of word) }
{
    kind_in(word) == Kind::Sized as u32
}

// Whether the outcome is sized with this size.
pub fn has_size(word: u32, wanted: u32) -> bool
    ensures same { result ≡ has_size (Some wanted) (outcome_of word) }
{
    is_known(word) && wanted == size(word)
}

// The word with its guess bit, if it is of kind 1 to 3. An unresolved word stays.
pub fn mark_guess(word: u32) -> u32
    ensures marked { result ≡ marked_word word }
{
    if Kind::Failed as u32 <= kind_in(word) {
        return word - word % KIND_UNIT + 1;
    }
    word
}
