// Replacements that change a form's length: what a plan puts for its words, and the places of a table filled under a head.
#![tactic(auto)]

mod build;
mod emit;
pub mod heads;
pub mod instantiate_partial;
mod length;
pub mod pieces;
pub mod small;
mod splice;
pub mod tables;
