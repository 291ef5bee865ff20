// The vocabulary of the definitions: choices, tests of every number below another, sums, and lists.
// No code: specs/ holds the definitions, proofs/ the laws that the other crates cite.
#![tactic(auto)]
