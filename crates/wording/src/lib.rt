// How numbers and refusals are written: decimal digits, one text for each number, and the lines that show them. It has no functions.
#![tactic(auto)]
