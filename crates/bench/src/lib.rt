// Document 01's bench cases, computed from the definitions. No code: specs/ holds the cases, proofs/ the table.
#![tactic(auto)]
