// A table as text: what a listing is, when a text is none and at which line, and that reading undoes printing.
// No code: specs/ holds the definitions, proofs/ the laws, which the contracts and proofs of `listing` cite.
#![tactic(auto)]
