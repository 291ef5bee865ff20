// Bytes by their class: one table gives whitespace, openers, closers and the lower-case partner.
// From the Rust's `syntax::token`, whose `is_whitespace` is not in the published text: document 01 says what it is, and
// order 4 added byte 13. Total: every byte has a class, and nothing is refused.
#![tactic(auto)]

ghost use Rattle.std.specs.Prelude.{◌≡◌};
ghost use Rattle.plain.specs.Lists.{listed};
ghost use Rattle.token.specs.Token.{class_of, is_whitespace, lowered, same_letter};

// The lower-case partner of each byte, and 256 times its kind, which is one of those named below the table, or 0. A table, and no
// method of u8: document 01 has one table give whitespace, openers, closers and case, and one computed test proves it.
const CLASSES: [u16; 256] = [
    0, 1, 2, 3, 4, 5, 6, 7, 8, 265, 10, 11, 12, 269, 14, 15, 16, 17, 18, 19, 20, 21, 22, 23, 24,
    25, 26, 27, 28, 29, 30, 31, 288, 33, 34, 35, 36, 37, 38, 39, 552, 809, 42, 43, 44, 45, 46, 47,
    48, 49, 50, 51, 52, 53, 54, 55, 56, 57, 58, 59, 60, 61, 62, 63, 64, 97, 98, 99, 100, 101, 102,
    103, 104, 105, 106, 107, 108, 109, 110, 111, 112, 113, 114, 115, 116, 117, 118, 119, 120, 121,
    122, 91, 92, 93, 94, 95, 96, 97, 98, 99, 100, 101, 102, 103, 104, 105, 106, 107, 108, 109, 110,
    111, 112, 113, 114, 115, 116, 117, 118, 119, 120, 121, 122, 1147, 124, 1405, 126, 127, 128,
    129, 130, 131, 132, 133, 134, 135, 136, 137, 138, 139, 140, 141, 142, 143, 144, 145, 146, 147,
    148, 149, 150, 151, 152, 153, 154, 155, 156, 157, 158, 159, 160, 161, 162, 163, 164, 165, 166,
    167, 168, 169, 170, 171, 172, 173, 174, 175, 176, 177, 178, 179, 180, 181, 182, 183, 184, 185,
    186, 187, 188, 189, 190, 191, 192, 193, 194, 195, 196, 197, 198, 199, 200, 201, 202, 203, 204,
    205, 206, 207, 208, 209, 210, 211, 212, 213, 214, 215, 216, 217, 218, 219, 220, 221, 222, 223,
    224, 225, 226, 227, 228, 229, 230, 231, 232, 233, 234, 235, 236, 237, 238, 239, 240, 241, 242,
    243, 244, 245, 246, 247, 248, 249, 250, 251, 252, 253, 254, 255,
];

// How many partners there are: a class is its partner plus this many times its kind.
pub const PARTNERS: u16 = 256;

// The kinds. Brackets come last, so that one comparison tells whether a byte is one. Numbers, and no enum: they are the upper part
// of that table's entries, and a search compares them once for each byte.
pub const WHITESPACE: u16 = 1;

pub const OPEN_PAREN: u16 = 2;

pub const CLOSE_PAREN: u16 = 3;

pub const OPEN_BRACE: u16 = 4;

pub const CLOSE_BRACE: u16 = 5;

// This byte is whitespace and none above it is, and none outside the next two has a partner other than itself. The compiler
// lays the table anew at each read, so it is read only for the bytes that these leave.
const LAST_WHITESPACE: u8 = 32;

const FIRST_CAPITAL: u8 = 65;

const LAST_CAPITAL: u8 = 90;

// How far a capital's partner stands above it.
pub const CAPITAL_STEP: u16 = 32;

// The table, laid for whoever reads it for many bytes.
pub fn classes() -> [u16; 256]
    ensures answers { result ≡ listed 256 class_of }
{
    CLASSES
}

fn class(b: u8) -> u16
    ensures { result ≡ class_of b }
{
    let table = classes();
    let at = b as usize;
    table[at]
}

// Whether the byte is 9, 13 or 32.
pub fn is_whitespace(b: u8) -> bool
    ensures answers { result ≡ is_whitespace b }
{
    if LAST_WHITESPACE <= b {
        return b == LAST_WHITESPACE;
    }
    class(b) / PARTNERS == WHITESPACE
}

// The lower-case partner of `A` to `Z`, and any other byte itself.
pub fn to_ascii_lowercase(b: u8) -> u8
    ensures answers { result ≡ lowered b }
{
    if b < FIRST_CAPITAL {
        return b;
    }
    if LAST_CAPITAL < b {
        return b;
    }
    (class(b) % PARTNERS) as u8
}

// Whether two bytes are the same, ASCII case ignored: equal, or a capital and its partner. The partner is the table's, so this is
// not u8's method of the same name.
pub fn eq_ignore_ascii_case(a: u8, b: u8) -> bool
    ensures answers { result ≡ same_letter a b }
{
    if a == b {
        return true;
    }
    if a as u16 + CAPITAL_STEP == b as u16 {
        return to_ascii_lowercase(a) == b;
    }
    if b as u16 + CAPITAL_STEP == a as u16 {
        return to_ascii_lowercase(b) == a;
    }
    false
}
