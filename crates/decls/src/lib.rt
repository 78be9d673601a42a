// The declarations of a quantifier in its row, with or without annotations: how many they are and where they end, the head of those that are
// kept, and which of them are used.
#![tactic(auto)]

pub mod ends;
pub mod heads;
mod parts;
pub mod used;
