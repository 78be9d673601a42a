// Prune: the declarations that a quantifier never uses are dropped.
#![tactic(auto)]

pub mod prune;
