// A table's rulesets and rules as plain data: document 01's limits over them, and their packed words, with the parts in rule
// order and none to spare.
// No code: specs/ holds the definitions, proofs/ the laws, which the contracts and proofs of `listing` cite.
#![tactic(auto)]
