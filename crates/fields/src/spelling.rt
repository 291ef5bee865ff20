// The words of a listing. Each stands in the code here and nowhere else: the reader compares with it byte for byte, the writer
// writes it.
pub const RULESET: [u8; 7] = *b"ruleset";

pub const RULE: [u8; 4] = *b"rule";

pub const TOP: [u8; 3] = *b"top";

pub const NESTED: [u8; 6] = *b"nested";

pub const WS: [u8; 2] = *b"ws";

pub const EXPR: [u8; 4] = *b"expr";

pub const SUB: [u8; SUB_LENGTH] = *b"sub";

pub const SUB_LENGTH: usize = 3;

// Byte 9 parts the fields, byte 10 ends the line.
pub const TAB: u8 = 9;

pub const END: u8 = 10;

// Numbers are decimal.
pub const ZERO: u8 = b'0';

pub const NINE: u8 = b'9';

pub const TEN: usize = 10;
