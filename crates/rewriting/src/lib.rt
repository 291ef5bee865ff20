// A table and its rewriting, its data packed anew, answer every call alike.
// No code: proofs/ holds the laws.
#![tactic(auto)]
