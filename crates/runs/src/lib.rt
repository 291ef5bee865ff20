// A whole program as definitions and theorems: its lines one after another, demand 3 for each, scan and lookup held to each
// other, and programs joined. It has no code: `program` does, and is proved against these.
#![tactic(auto)]
