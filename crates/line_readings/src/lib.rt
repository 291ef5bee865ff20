// The readings of a line alone: with its sheet filled, a table and a line are all that a caller brings.
// No code: specs/ says what a reading of a line is, and proofs/ holds the laws.
#![tactic(auto)]
