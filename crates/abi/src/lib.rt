// The C face: the ten calls and the four quick ones over flat slices, a book of 43 words, and words that a call writes its answer to; and the version and the texts. include/flailreeve.h declares it.
#![tactic(auto)]

pub mod about;
pub mod changes;
pub mod looks;
pub mod quick;
mod words;
