// Size selection, from src/asm/resolver: which of an instruction's outcomes are chosen, by their sizes. `instruction`
// carries over `resolve_encoding` and refuses by the numbers 10 to 14; `outcome` reads the outcome words.
#![tactic(auto)]

pub mod instruction;
mod outcome;
