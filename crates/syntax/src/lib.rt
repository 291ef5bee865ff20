// The reading of a line's bytes, from `src/syntax` of the Rust: the walker, its useful place and its cut. Nothing is refused.
#![tactic(auto)]

pub mod walker;
