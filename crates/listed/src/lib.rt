// Replacements by the expressions of a list: free substitution and fill.
#![tactic(auto)]

pub mod fill;
pub mod free;
mod marks;
