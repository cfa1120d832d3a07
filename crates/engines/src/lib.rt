// What holds of every engine: no function.
#![tactic(auto)]
