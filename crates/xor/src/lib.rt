// The XOR list as definitions and laws: its slots, its steps, its engine and the ten calls by name. It has no functions.
#![tactic(auto)]
