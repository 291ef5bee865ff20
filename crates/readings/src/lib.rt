// What a reading is, what the walk is, and the theorem between them. From `src/asm/matcher` of the Rust: its definitions.
// No code: specs/ holds the definitions, proofs/ the laws, which the contracts and proofs of the matcher cite.
#![tactic(auto)]
