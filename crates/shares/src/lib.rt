// Layer 4: the ten calls, and the four quick ones. Setup makes a sound pool, and the others work on it.
#![tactic(auto)]

mod answers;
pub mod check;
pub mod clear;
mod counted;
pub mod ends;
pub mod inner;
pub mod quick;
pub mod reads;
pub mod refusals;
pub mod setup;
