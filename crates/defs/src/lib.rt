// Rule tables, from `src/asm/defs` of the Rust: the packed table and its readers.
#![tactic(auto)]

pub mod ruledef;
