// What the C face promises, as definitions and laws: the book as words, and what each of the ten functions gives and leaves. It has no functions.
#![tactic(auto)]
