// What the demonstration does and shows, as definitions and laws. It has no functions.
#![tactic(auto)]

// The number of the first pop that was refused, or 0, and the values that the three handed out, 0 from a refused one on.
#[derive(Clone, Copy)]
pub struct Gone {
    pub number: u16,
    pub last: u64,
    pub first: u64,
    pub left: u64,
}
