// Substitutions that respect binding depth and keep a form's length, and the dangling set.
#![tactic(auto)]

pub mod bind;
pub mod dangling;
pub mod lift;
