// Bracket lines: a line of bytes read into a command with its offset and rows.
#![tactic(auto)]

mod group;
pub mod head;
pub mod line;
mod number;
mod turn;
