// The turns of the cell program: what it does with the bytes that it has read, and what it is to do next.
#![tactic(auto)]

pub mod state;
pub mod turn;
