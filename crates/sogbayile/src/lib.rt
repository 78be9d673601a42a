// The static library for C and Rust: each call takes rows of words and numbers, and answers one number.
#![tactic(auto)]

pub mod checks;
mod code;
pub mod commands;
pub mod indices;
pub mod offers;
pub mod run;
