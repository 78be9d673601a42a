// The answer to a line of commands, in bytes, and the lines of an input.
#![tactic(auto)]

mod commands;
pub mod late;
pub mod reply;
pub mod split;
